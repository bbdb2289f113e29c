//! Plans of a set by the place that comes last: an access of a single place, or a step over a plan of the others.
ghost use Rattle.std.specs.Prelude.{◌≡◌, ◌<◌, ◌+◌, ◌^◌, IfOk, false, length, slice_index_or};
ghost use Rattle.row_values.specs.Statements.{IsSoundQuery};
ghost use Rattle.plan_trees.specs.Lists.{IsAccessOf, IsStepInto};
ghost use Rattle.plan_trees.specs.PlaceSets.{has, one};
ghost use Rattle.plan_trees.specs.Statistics.{IsSoundStats, IsSoundVector};
ghost use Rattle.plan_costs.specs.Cards.{AreCards};
ghost use Rattle.join_optimizer.specs.Found.{AreFound, cost_in, nothing, plan_in, table_of};
ghost use Rattle.cost_model.specs.LeastCost.{TakesPlace};
ghost use Rattle.plan_costs.specs.Least.{AreLeastAccesses, IsLeastAccess};
ghost use Rattle.join_optimizer.specs.Search.{AreCheapest, Offered, TakesAccess, TakesAll, TakesBetween, TakesStep};

use crate::found::{Cheapest, take_access, take_sorted_access, take_step};
use plan_costs::{PricedAccess, access_unit, least_step, step_cost_with};
use plan_trees::{Access, COST_SCALE, Stats, StepKind, accesses, has_place, one_place};
use row_values::{OutOfMemory, Query};
use std::alloc::Global;

/// What was found for the set.
pub(crate) fn cell_at(cells: &[Cheapest], set: u8) -> &Cheapest
    requires { set < length cells.now }
    ensures { result.now ≡ slice_index_or cells.now set nothing }
{
    &cells[usize::from(set)]
}

/// Takes the access of the place, where it is the cheapest so far.
fn offer_access(
    alloc: Global,
    q: &Query,
    stats: &Stats,
    s: &[u64],
    place: u8,
    access: Access,
    best: Cheapest,
) -> Result<Cheapest, OutOfMemory>
    requires query { IsSoundQuery q.now }
    requires sound { IsSoundStats q.now stats.now }
    requires vector { IsSoundVector q.now stats.now s.now }
    requires valid { IsAccessOf q.now stats.now.indexed place access }
    requires best { AreFound q.now stats.now s.now (one place) (plan_in best) }
    ensures { IfOk result (λ after. Offered q.now stats.now s.now (one place)
        (TakesAccess q.now stats.now s.now access) best after) }
{
    let cost = COST_SCALE * access_unit(q, stats, &access, s);
    let any = take_access(alloc, access, cost, best.any)?;
    let sorted = take_sorted_access(alloc, q, access, cost, best.sorted)?;
    Ok(Cheapest { any, sorted })
}

/// The cheapest of the accesses of the place.
fn by_accesses(
    alloc: Global,
    q: &Query,
    stats: &Stats,
    s: &[u64],
    place: u8,
    first: Cheapest,
) -> Result<Cheapest, OutOfMemory>
    requires query { IsSoundQuery q.now }
    requires sound { IsSoundStats q.now stats.now }
    requires vector { IsSoundVector q.now stats.now s.now }
    requires first { AreFound q.now stats.now s.now (one place) (plan_in first) }
    ensures { IfOk result (λ best. Offered q.now stats.now s.now (one place)
        (TakesAll (IsAccessOf q.now stats.now.indexed place) (TakesAccess q.now stats.now s.now))
        first best) }
{
    let list = accesses(alloc, q, stats.indexed(), place)?;
    let mut best = first;
    for access in &list {
        best = offer_access(alloc, q, stats, s, place, *access, best)?;
    }
    Ok(best)
}

/// Takes the step over the outer plans, where it makes the cheapest so far.
fn offer_step(
    alloc: Global,
    q: &Query,
    stats: &Stats,
    s: &[u64],
    cards: &[u128],
    outer: &Cheapest,
    from: u8,
    place: u8,
    step: StepKind,
    best: Cheapest,
) -> Result<Cheapest, OutOfMemory>
    requires query { IsSoundQuery q.now }
    requires sound { IsSoundStats q.now stats.now }
    requires vector { IsSoundVector q.now stats.now s.now }
    requires cards { AreCards q.now stats.now s.now cards.now }
    requires there { from < 2 ^ length q.now.places }
    requires outer { AreFound q.now stats.now s.now from (plan_in outer.now) }
    requires valid { IsStepInto q.now stats.now.indexed from place step }
    requires best { AreFound q.now stats.now s.now (from + one place) (plan_in best) }
    ensures { IfOk result (λ after. Offered q.now stats.now s.now (from + one place)
        (TakesStep q.now stats.now s.now (cost_in outer.now) from step) best after) }
{
    let cost = step_cost_with(q, stats, cards, from, step, s);
    let any = take_step(alloc, &outer.any, step, cost, best.any)?;
    let sorted = take_step(alloc, &outer.sorted, step, cost, best.sorted)?;
    Ok(Cheapest { any, sorted })
}

/// The cheapest of the steps that take in the place over the outer plans, which have the places `from`.
fn by_steps(
    alloc: Global,
    q: &Query,
    stats: &Stats,
    s: &[u64],
    cards: &[u128],
    outer: &Cheapest,
    from: u8,
    place: u8,
    least: PricedAccess,
    first: Cheapest,
) -> Result<Cheapest, OutOfMemory>
    requires query { IsSoundQuery q.now }
    requires sound { IsSoundStats q.now stats.now }
    requires vector { IsSoundVector q.now stats.now s.now }
    requires cards { AreCards q.now stats.now s.now cards.now }
    requires there { from < 2 ^ length q.now.places }
    requires absent { has from place ≡ false }
    requires least { IsLeastAccess q.now stats.now s.now place least }
    requires outer { AreFound q.now stats.now s.now from (plan_in outer.now) }
    requires first { AreFound q.now stats.now s.now (from + one place) (plan_in first) }
    ensures { IfOk result (λ best. Offered q.now stats.now s.now (from + one place)
        (TakesAll (IsStepInto q.now stats.now.indexed from place)
        (TakesStep q.now stats.now s.now (cost_in outer.now) from)) first best) }
{
    let step = least_step(q, stats, s, from, place, least);
    let best = offer_step(alloc, q, stats, s, cards, outer, from, place, step, first)?;
    Ok(best)
}

/// The cheapest of the plans that take in this place last, if it is in the set.
fn by_place(
    alloc: Global,
    q: &Query,
    stats: &Stats,
    s: &[u64],
    cards: &[u128],
    loops: &[PricedAccess],
    cells: &[Cheapest],
    set: u8,
    place: u8,
    first: Cheapest,
) -> Result<Cheapest, OutOfMemory>
    requires query { IsSoundQuery q.now }
    requires sound { IsSoundStats q.now stats.now }
    requires vector { IsSoundVector q.now stats.now s.now }
    requires cards { AreCards q.now stats.now s.now cards.now }
    requires loops { AreLeastAccesses q.now stats.now s.now (length q.now.places) loops.now }
    requires there { set < 2 ^ length q.now.places }
    requires place { place < length q.now.places }
    requires cells { AreCheapest q.now stats.now s.now cells.now set }
    requires first { AreFound q.now stats.now s.now set (plan_in first) }
    ensures { IfOk result (λ best. Offered q.now stats.now s.now set
        (TakesPlace q.now stats.now s.now (table_of cells.now) set place) first best) }
{
    if !has_place(set, place) {
        return Ok(first);
    }
    let from = set - one_place(place);
    if from == 0 {
        let best = by_accesses(alloc, q, stats, s, place, first)?;
        return Ok(best);
    }
    let outer = cell_at(cells, from);
    let least = loops[usize::from(place)];
    let best = by_steps(alloc, q, stats, s, cards, outer, from, place, least, first)?;
    Ok(best)
}

/// The cheapest of the accesses and steps.
pub(crate) fn by_places(
    alloc: Global,
    q: &Query,
    stats: &Stats,
    s: &[u64],
    cards: &[u128],
    loops: &[PricedAccess],
    cells: &[Cheapest],
    set: u8,
) -> Result<Cheapest, OutOfMemory>
    requires query { IsSoundQuery q.now }
    requires sound { IsSoundStats q.now stats.now }
    requires vector { IsSoundVector q.now stats.now s.now }
    requires cards { AreCards q.now stats.now s.now cards.now }
    requires loops { AreLeastAccesses q.now stats.now s.now (length q.now.places) loops.now }
    requires there { set < 2 ^ length q.now.places }
    requires cells { AreCheapest q.now stats.now s.now cells.now set }
    ensures { IfOk result (λ best. Offered q.now stats.now s.now set
        (TakesBetween (TakesPlace q.now stats.now s.now (table_of cells.now) set) 0 (length q.now.places))
        nothing best) }
{
    let mut best = Cheapest {
        any: None,
        sorted: None,
    };
    for place in 0..q.places().len() as u8 {
        best = by_place(alloc, q, stats, s, cards, loops, cells, set, place, best)?;
    }
    Ok(best)
}
