//! What a join makes of one combination of its outer side: with each row that is offered to it, or
//! each combination of an inner side, those that meet every edge between.
ghost use Rattle.std.specs.Prelude.{◌≡◌, ◌++◌, OnOk, filter, map, set};
ghost use Rattle.row_tests.specs.Ready.{all_hold};
ghost use Rattle.plan_operators.specs.Edges.{all_meet};

use crate::combos::Combo;
use crate::edges::{ReadyEdge, meets_all};
use crate::index_join::Probe;
use row_tests::passes;
use row_values::OutOfMemory;
use std::alloc::Global;

/// Adds the combination with each of these rows at the place, where the edges are met.
pub(crate) fn extend(
    edges: &[ReadyEdge<'_>],
    place: u8,
    rows: &[u32],
    combo: Combo,
    into: &mut Vec<Combo>,
) -> Result<(), OutOfMemory>
    ensures { OnOk result (into.new.items
        ≡ into.old.items ++ filter (all_meet edges.now) (map (set combo place) rows.now)) }
{
    for row in rows {
        let mut next = combo;
        next.put(place, *row);
        if meets_all(edges, &next) {
            into.push(next)?;
        }
    }
    Ok(())
}

/// Adds the combination with those of these rows at the place that meet the predicates on it, where
/// the edges are met.
pub(crate) fn extend_passing(
    probe: &Probe<'_>,
    edges: &[ReadyEdge<'_>],
    place: u8,
    rows: &[u32],
    combo: Combo,
    into: &mut Vec<Combo>,
) -> Result<(), OutOfMemory>
    ensures { OnOk result (into.new.items ≡ into.old.items ++ filter (all_meet edges.now)
        (map (set combo place) (filter (all_hold probe.now.args.now probe.now.table.now probe.now.ready.now) rows.now))) }
{
    for row in rows {
        if passes(probe.table, *row as usize, probe.args, probe.ready) {
            let mut next = combo;
            next.put(place, *row);
            if meets_all(edges, &next) {
                into.push(next)?;
            }
        }
    }
    Ok(())
}
