//! Access paths: the rows of one place, and the plan that has this place alone.
//!
//! `access_rows` calls the operator of the access; `base` makes combinations of its rows.
ghost use Rattle.std.specs.Prelude.{◌≡◌, ◌<◌, IfOk, IsTrue, length, map};
ghost use Rattle.plan_trees.specs.PlaceSets.{one};
ghost use Rattle.plan_trees.specs.PlanSpace.{IsValidAccess, is_sorted_access};
ghost use Rattle.plan_trees.specs.Trees.{place_of};
ghost use Rattle.statement_meaning.specs.PartialCombinations.{RowsOnce, placed};
ghost use Rattle.plan_operators.specs.Sources.{AreInOrderOf, HasEachOnce, IsInOrder, IsSource};
ghost use Rattle.plan_operators.specs.Sources.{masks_read, world_read};

use crate::combos::Combo;
use crate::index_scan::{full_scan, range_scan};
use crate::seq_scan::seq_scan;
use crate::source::{Side, Source};
use plan_trees::{Access, one_place, place_read};
use row_values::OutOfMemory;
use std::alloc::Global;

/// The rows that an access reads: those of its place that meet the predicates on it.
pub fn access_rows(
    alloc: Global,
    source: &Source<'_>,
    access: Access,
) -> Result<Vec<u32>, OutOfMemory>
    requires sound { IsSource source.now }
    requires valid { IsValidAccess source.now.q.now (masks_read source.now) access }
    ensures each_once { IfOk result (λ rows. RowsOnce (world_read source.now) (place_of access) rows.items) }
    ensures in_order { IfOk result (λ rows. AreInOrderOf source.now access rows.items) }
{
    match access {
        Access::Seq(place) => seq_scan(alloc, source, place),
        Access::Range(place, column, pred) => range_scan(alloc, source, place, column, pred),
        Access::Full(place, column) => full_scan(alloc, source, place, column),
    }
}

/// The combinations over one place that have these rows there. Each gets its row where it stands:
/// one that is written in part and then copied whole waits for its own store.
pub(crate) fn placed_rows(
    alloc: Global,
    source: &Source<'_>,
    place: u8,
    rows: &[u32],
) -> Result<Vec<Combo>, OutOfMemory>
    ensures { IfOk result (λ combos. combos.items ≡ map (placed (world_read source.now) place) rows.now) }
{
    let none = Combo::zeros(source.q.places().len());
    let mut combos = Vec::with_capacity(alloc, rows.len())?;
    for (position, row) in rows.iter().enumerate() {
        combos.push(none)?;
        combos[position].put(place, *row);
    }
    Ok(combos)
}

/// The plan of one access.
pub(crate) fn base(alloc: Global, source: &Source<'_>, access: Access) -> Result<Side, OutOfMemory>
    requires sound { IsSource source.now }
    requires valid { IsValidAccess source.now.q.now (masks_read source.now) access }
    ensures places { IfOk result (λ side. side.places ≡ one (place_of access)) }
    ensures small { IfOk result (λ side. side.places < 32) }
    ensures each_once { IfOk result (HasEachOnce source.now) }
    ensures in_order { IsTrue (is_sorted_access source.now.q.now access)
        → IfOk result (IsInOrder source.now) }
{
    let place = place_read(access);
    let rows = access_rows(alloc, source, access)?;
    let combos = placed_rows(alloc, source, place, rows.as_slice())?;
    Ok(Side {
        places: one_place(place),
        combos,
    })
}
