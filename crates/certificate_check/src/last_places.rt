//! The inequalities by the place that comes last: an access of a single place, or a step over the others.
ghost use Rattle.std.specs.Prelude.{◌≡◌, ◌<◌, ◌≤◌, ◌*◌, ◌+◌, ◌^◌, ◌↔◌, ℕ, IfOk, IsTrue, false, length};
ghost use Rattle.row_values.specs.Statements.{IsSoundQuery};
ghost use Rattle.plan_trees.specs.Lists.{IsAccessOf, IsStepInto};
ghost use Rattle.plan_trees.specs.PlaceSets.{has};
ghost use Rattle.plan_trees.specs.Statistics.{IsSoundStats, IsSoundVector};
ghost use Rattle.plan_trees.specs.declared.plans.Access.{Access as AnAccess};
ghost use Rattle.plan_trees.specs.declared.plans.StepKind.{StepKind as AStep};
ghost use Rattle.cost_model.specs.Costs as costs;
ghost use Rattle.cost_model.specs.LeastCost.{TakesPlace};
ghost use Rattle.plan_costs.specs.BestPlans.{table_of_cells};
ghost use Rattle.plan_costs.specs.Cards.{AreCards};
ghost use Rattle.plan_costs.specs.Least.{AreLeastAccesses, IsLeastAccess};
ghost use Rattle.certificate_check.specs.Bounds.{HasEachCell, TakesAccess, TakesOver, costs_of};

use crate::bounds::{cell_at, takes_access, takes_over};
use plan_costs::{Cell, PricedAccess, access_unit, least_step, step_cost_with};
use plan_trees::{COST_SCALE, Stats, accesses, has_place, one_place};
use row_values::{OutOfMemory, Query};
use std::alloc::Global;

/// Whether the cell is no more than what any access of the place costs.
fn takes_accesses(
    alloc: Global,
    q: &Query,
    stats: &Stats,
    s: &[u64],
    place: u8,
    cell: Cell,
) -> Result<bool, OutOfMemory>
    requires query { IsSoundQuery q.now }
    requires sound { IsSoundStats q.now stats.now }
    requires vector { IsSoundVector q.now stats.now s.now }
    ensures { IfOk result (λ holds. IsTrue holds
        ↔ ((access : AnAccess) → IsAccessOf q.now stats.now.indexed place access
        → TakesAccess q.now access (COST_SCALE * costs.access_unit q.now stats.now s.now access) (costs_of cell))) }
{
    let list = accesses(alloc, q, stats.indexed(), place)?;
    for access in &list {
        let cost = COST_SCALE * access_unit(q, stats, access, s);
        if !takes_access(q, *access, cost, cell) {
            return Ok(false);
        }
    }
    Ok(true)
}

/// Whether the cell is no more than what any step over the outer cell costs that takes in the place.
fn takes_steps(
    q: &Query,
    stats: &Stats,
    s: &[u64],
    cards: &[u128],
    from: u8,
    place: u8,
    least: PricedAccess,
    outer: Cell,
    cell: Cell,
) -> bool
    requires sound { IsSoundStats q.now stats.now }
    requires vector { IsSoundVector q.now stats.now s.now }
    requires cards { AreCards q.now stats.now s.now cards.now }
    requires there { from < 2 ^ length q.now.places }
    requires absent { has from place ≡ false }
    requires least { IsLeastAccess q.now stats.now s.now place least }
    ensures { IsTrue result ↔ ((step : AStep) → IsStepInto q.now stats.now.indexed from place step
        → TakesOver (costs_of outer) (costs.step_cost q.now stats.now s.now from step) (costs_of cell)) }
{
    // A step that does less for each row costs less: so one is looked at for all.
    let step = least_step(q, stats, s, from, place, least);
    let cost = step_cost_with(q, stats, cards, from, step, s);
    takes_over(outer, cost, cell)
}

/// Whether the cell is no more than what plans cost that take in this place last.
fn takes_place(
    alloc: Global,
    q: &Query,
    stats: &Stats,
    s: &[u64],
    cards: &[u128],
    loops: &[PricedAccess],
    cells: &[Cell],
    set: u8,
    place: u8,
    cell: Cell,
) -> Result<bool, OutOfMemory>
    requires query { IsSoundQuery q.now }
    requires sound { IsSoundStats q.now stats.now }
    requires vector { IsSoundVector q.now stats.now s.now }
    requires cards { AreCards q.now stats.now s.now cards.now }
    requires loops { AreLeastAccesses q.now stats.now s.now (length q.now.places) loops.now }
    requires one_each { HasEachCell q.now cells.now }
    requires there { set < 2 ^ length q.now.places }
    requires place { place < length q.now.places }
    ensures { IfOk result (λ holds. IsTrue holds
        ↔ TakesPlace q.now stats.now s.now (table_of_cells cells.now) set place (costs_of cell)) }
{
    if !has_place(set, place) {
        return Ok(true);
    }
    let from = set - one_place(place);
    if from == 0 {
        let holds = takes_accesses(alloc, q, stats, s, place, cell)?;
        return Ok(holds);
    }
    let outer = cell_at(cells, from);
    let least = loops[usize::from(place)];
    Ok(takes_steps(q, stats, s, cards, from, place, least, outer, cell))
}

/// Whether the cell is no more than what accesses and steps cost.
pub(crate) fn takes_places(
    alloc: Global,
    q: &Query,
    stats: &Stats,
    s: &[u64],
    cards: &[u128],
    loops: &[PricedAccess],
    cells: &[Cell],
    set: u8,
    cell: Cell,
) -> Result<bool, OutOfMemory>
    requires query { IsSoundQuery q.now }
    requires sound { IsSoundStats q.now stats.now }
    requires vector { IsSoundVector q.now stats.now s.now }
    requires cards { AreCards q.now stats.now s.now cards.now }
    requires loops { AreLeastAccesses q.now stats.now s.now (length q.now.places) loops.now }
    requires one_each { HasEachCell q.now cells.now }
    requires there { set < 2 ^ length q.now.places }
    ensures { IfOk result (λ holds. IsTrue holds ↔ ((place : ℕ) → place < length q.now.places
        → TakesPlace q.now stats.now s.now (table_of_cells cells.now) set place (costs_of cell))) }
{
    for place in 0..q.places().len() as u8 {
        let holds = takes_place(alloc, q, stats, s, cards, loops, cells, set, place, cell)?;
        if !holds {
            return Ok(false);
        }
    }
    Ok(true)
}
