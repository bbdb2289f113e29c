//! The nested loop: each combination of the outer side with each row of an access path.
//!
//! The rows are read once, with all predicates of their place; every edge between is tested. The
//! way in is `nested_loop_join`.
ghost use Rattle.std.specs.Prelude.{◌≡◌, ◌<◌, ◌+◌, IfOk, false, filter, flat_map, length, map, set};
ghost use Rattle.plan_trees.specs.PlaceSets.{has, one};
ghost use Rattle.plan_trees.specs.PlanSpace.{IsValidAccess};
ghost use Rattle.plan_trees.specs.Trees.{place_of};
ghost use Rattle.plan_operators.specs.Edges.{all_meet};
ghost use Rattle.plan_operators.specs.Sources.{HasEachOnce, HasWantedPlaces, IsInOrder, IsSource, masks_read};

use crate::access::access_rows;
use crate::combos::Combo;
use crate::edges::{ReadyEdge, edges_between};
use crate::joining::extend;
use crate::source::{Side, Source};
use plan_trees::{Access, one_place, place_read, with_place};
use row_values::OutOfMemory;
use std::alloc::Global;

/// Each of these combinations with each of these rows at the place, where the edges are met.
fn loop_over(
    alloc: Global,
    edges: &[ReadyEdge<'_>],
    place: u8,
    rows: &[u32],
    outer: &[Combo],
) -> Result<Vec<Combo>, OutOfMemory>
    ensures { IfOk result (λ combos. combos.items
        ≡ flat_map (λ c. filter (all_meet edges.now) (map (set c place) rows.now)) outer.now) }
{
    let mut combos = Vec::new(alloc);
    for combo in outer {
        extend(edges, place, rows, *combo, &mut combos)?;
    }
    Ok(combos)
}

/// The outer side with one more place, by an access.
pub(crate) fn nested_loop_join(
    alloc: Global,
    source: &Source<'_>,
    outer: &Side,
    access: Access,
) -> Result<Side, OutOfMemory>
    requires sound { IsSource source.now }
    requires valid { IsValidAccess source.now.q.now (masks_read source.now) access }
    requires absent { has outer.now.places (place_of access) ≡ false }
    requires small { outer.now.places < 32 }
    requires each_once { HasEachOnce source.now outer.now }
    ensures places { IfOk result (λ side. side.places ≡ outer.now.places + one (place_of access)) }
    ensures small { IfOk result (λ side. side.places < 32) }
    ensures each_once { IfOk result (HasEachOnce source.now) }
    ensures in_order { HasWantedPlaces source.now outer.now → IsInOrder source.now outer.now
        → IfOk result (IsInOrder source.now) }
{
    let place = place_read(access);
    let rows = access_rows(alloc, source, access)?;
    let edges = edges_between(alloc, source, outer.places, one_place(place))?;
    let combos = loop_over(alloc, &edges, place, &rows, &outer.combos)?;
    Ok(Side {
        places: with_place(outer.places, place),
        combos,
    })
}
