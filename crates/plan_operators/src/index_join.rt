//! The index join: each combination of the outer side looks its key up in an index of the place
//! that enters.
//!
//! Of the rows that the index finds those are kept that meet the predicates on the place; every
//! edge between is tested. The way in is `index_join`.
ghost use Rattle.std.specs.Prelude.{◌≡◌, ◌<◌, ◌+◌, ◌++◌, IfOk, IsSomeAnd, IsTrue, OnOk, Some, false, filter, flat_map, length};
ghost use Rattle.std.specs.Prelude.{[], map, set, slice_get, slice_index_or};
ghost use Rattle.std.specs.Option.{option_map};
ghost use Rattle.std.specs.Ordering.{is_eq};
ghost use Rattle.csv_tables.specs.Tables.{cell_at};
ghost use Rattle.plan_trees.specs.Indexes.{has_index};
ghost use Rattle.plan_trees.specs.PlaceSets.{has, one};
ghost use Rattle.plan_trees.specs.PlanSpace.{column_in, joins_to};
ghost use Rattle.row_tests.specs.Ready.{all_hold};
ghost use Rattle.row_values.specs.Orders.{compares};
ghost use Rattle.table_index.specs.Indexes.{IsBuilt};
ghost use Rattle.plan_operators.specs.Edges.{all_meet};
ghost use Rattle.plan_operators.specs.Probes.{probed};
ghost use Rattle.plan_operators.specs.Sources.{HasEachOnce, HasWantedPlaces, IsInOrder, IsSource, masks_read};

use crate::combos::Combo;
use crate::edges::{ReadyEdge, edge_of, edges_between, end_of};
use crate::index_scan::{index_there, table_there};
use crate::joining::extend_passing;
use crate::source::{Side, Source};
use csv_tables::Table;
use index_ranges::within;
use plan_trees::{edge_column, one_place, with_place};
use row_tests::{Ready, cell_in, ready_preds};
use row_values::{ColRef, OutOfMemory, Value};
use std::alloc::Global;
use table_index::{Bound, Index};

/// What is probed: an index of a table with the tests of its rows, and where keys are read.
#[derive(Clone, Copy)]
pub(crate) struct Probe<'a> {
    pub(crate) table: &'a Table,
    pub(crate) index: &'a Index,
    pub(crate) args: &'a [Value],
    pub(crate) ready: &'a [Ready<'a>],
    pub(crate) key_table: &'a Table,
    pub(crate) key: ColRef,
}

/// The rows whose cell in the index's column equals a value, in the order of the index.
pub fn rows_equal<'i>(index: &'i Index, table: &Table, value: &Value) -> &'i [u32]
    requires { IsBuilt table.now index.now.column index.now }
    ensures { result.now
        ≡ filter (λ row. compares is_eq (Some value.now) (cell_at table.now row index.now.column)) index.now.rows }
{
    let (first, end) = within(index, table, Bound::Closed(value), Bound::Closed(value));
    &index.rows()[first..end]
}

/// Adds what one combination makes with the rows that its key finds.
fn extend_probed(
    probe: &Probe<'_>,
    edges: &[ReadyEdge<'_>],
    place: u8,
    combo: Combo,
    into: &mut Vec<Combo>,
) -> Result<(), OutOfMemory>
    requires { IsBuilt probe.now.table.now probe.now.index.now.column probe.now.index.now }
    ensures { OnOk result (into.new.items
        ≡ into.old.items ++ filter (all_meet edges.now) (map (set combo place) (probed probe.now combo))) }
{
    let row = combo.row(probe.key.place);
    match cell_in(probe.key_table, row as usize, usize::from(probe.key.column)) {
        Some(value) => {
            let rows = rows_equal(probe.index, probe.table, value);
            extend_passing(probe, edges, place, rows, combo, into)
        }
        None => Ok(()),
    }
}

/// Each of these combinations with the rows that its key finds.
fn probe_each(
    alloc: Global,
    probe: &Probe<'_>,
    edges: &[ReadyEdge<'_>],
    place: u8,
    outer: &[Combo],
) -> Result<Vec<Combo>, OutOfMemory>
    requires { IsBuilt probe.now.table.now probe.now.index.now.column probe.now.index.now }
    ensures { IfOk result (λ combos. combos.items
        ≡ flat_map (λ c. filter (all_meet edges.now) (map (set c place) (probed probe.now c))) outer.now) }
{
    let mut combos = Vec::new(alloc);
    for combo in outer {
        extend_probed(probe, edges, place, *combo, &mut combos)?;
    }
    Ok(combos)
}

/// The outer side with one more place, whose index is probed by an edge.
pub(crate) fn index_join(
    alloc: Global,
    source: &Source<'_>,
    outer: &Side,
    place: u8,
    edge: u8,
) -> Result<Side, OutOfMemory>
    requires sound { IsSource source.now }
    requires there { place < length source.now.q.now.places }
    requires absent { has outer.now.places place ≡ false }
    requires valid { IsSomeAnd (slice_get source.now.q.now.edges edge)
        (λ e. IsTrue (joins_to outer.now.places place e)
        × IsTrue (has_index (masks_read source.now) place (column_in place e))) }
    requires small { outer.now.places < 32 }
    requires each_once { HasEachOnce source.now outer.now }
    ensures places { IfOk result (λ side. side.places ≡ outer.now.places + one place) }
    ensures small { IfOk result (λ side. side.places < 32) }
    ensures each_once { IfOk result (HasEachOnce source.now) }
    ensures in_order { HasWantedPlaces source.now outer.now → IsInOrder source.now outer.now
        → IfOk result (IsInOrder source.now) }
{
    let joining = edge_of(source.q, edge);
    let key = end_of(outer.places, joining);
    let table = table_there(source, place);
    let ready = ready_preds(alloc, source.q.preds(), table, source.args, place)?;
    let probe = Probe {
        table,
        index: index_there(source, place, edge_column(place, joining)),
        args: source.args,
        ready: ready.as_slice(),
        key_table: table_there(source, key.place),
        key,
    };
    let edges = edges_between(alloc, source, outer.places, one_place(place))?;
    let combos = probe_each(alloc, &probe, &edges, place, &outer.combos)?;
    Ok(Side {
        places: with_place(outer.places, place),
        combos,
    })
}
