//! What a step adds to the cost of the plan below it, and a hash join to that of the plans on its two sides.
//!
//! A step's cost is made of what it does for each row so far and of two cardinalities, a hash join's of three. Whoever has
//! them already calls `step_cost_with` and `join_cost_with`; `step_cost` and `join_cost` compute them first. A whole plan's
//! cost hands them up from step to step.
ghost use Rattle.std.specs.Prelude.{ℕ, ◌≡◌, ◌<◌, ◌+◌, ◌*◌, ◌^◌, [], IsTrue, false, Some, length, slice_get, slice_index_or};
ghost use Rattle.row_values.specs.Statements.{IsSoundQuery};
ghost use Rattle.row_values.specs.declared.statement.Edge.{Edge as AnEdge};
ghost use Rattle.plan_trees.specs.PlaceSets.{are_apart, has, one};
ghost use Rattle.plan_trees.specs.PlanSpace.{IsValidStep, column_in};
ghost use Rattle.plan_trees.specs.Statistics.{IsSoundStats, IsSoundVector};
ghost use Rattle.cost_model.specs.Costs as costs;
ghost use Rattle.cost_model.specs.LeastCost.{IsPlaceSet};
ghost use Rattle.plan_costs.specs.Cards.{AreCards};
ghost use Rattle.plan_costs.specs.Units.{unit_of_step};

use crate::accesses::{access_unit, look_up_cost};
use crate::cardinalities::{card, card_at};
use plan_trees::{Stats, StepKind, edge_column, step_place, with_place, with_places};
use row_values::Query;

/// The rows for each value of the place's column in the edge.
pub(crate) fn edge_fan(q: &Query, stats: &Stats, place: u8, edge: u8) -> u64
    requires place { place < length stats.now.fans }
    requires column { (e : AnEdge) → slice_get q.now.edges edge ≡ Some e
        → column_in place e < length (slice_index_or stats.now.fans place []) }
    ensures { result ≡ costs.edge_fan q.now stats.now place edge }
{
    match q.edges().get(usize::from(edge)) {
        Some(there) => stats.fan(place, edge_column(place, *there)),
        None => 0,
    }
}

/// What the step does for each row so far, in rows: a run of its access, or a look-up.
pub(crate) fn step_unit(q: &Query, stats: &Stats, step: StepKind, s: &[u64]) -> u128
    requires sound { IsSoundStats q.now stats.now }
    requires vector { IsSoundVector q.now stats.now s.now }
    requires valid { (set : ℕ) × IsValidStep q.now stats.now.indexed set step }
    ensures value { result ≡ unit_of_step q.now stats.now s.now step }
{
    q.sound();
    match step {
        StepKind::Loop(access) => access_unit(q, stats, &access, s),
        StepKind::Probe(place, edge) => look_up_cost(stats, place, edge_fan(q, stats, place, edge)),
    }
}

/// What a step adds that does so much for each row so far, by the cardinalities before and after it.
pub(crate) fn step_cost_of(stats: &Stats, unit: u128, before: u128, after: u128) -> u128
    requires fits { before * unit + stats.now.weights.out * after < 2 ^ 128 }
    ensures value { result ≡ before * unit + stats.now.weights.out * after }
{
    before * unit + u128::from(stats.weights().out) * after
}

/// What the step adds to the cost of a plan of these places, on the cost scale.
pub fn step_cost(q: &Query, stats: &Stats, set: u8, step: &StepKind, s: &[u64]) -> u128
    requires sound { IsSoundStats q.now stats.now }
    requires vector { IsSoundVector q.now stats.now s.now }
    requires there { set < 2 ^ length q.now.places }
    requires valid { IsValidStep q.now stats.now.indexed set step.now }
    ensures value { result ≡ costs.step_cost q.now stats.now s.now set step.now }
{
    q.sound();
    let unit = step_unit(q, stats, *step, s);
    let before = card(q, stats, set, s);
    let after = card(q, stats, with_place(set, step_place(*step)), s);
    step_cost_of(stats, unit, before, after)
}

/// What the step adds to the cost of a plan of these places, read off the cardinalities of all sets.
pub fn step_cost_with(
    q: &Query,
    stats: &Stats,
    cards: &[u128],
    set: u8,
    step: StepKind,
    s: &[u64],
) -> u128
    requires sound { IsSoundStats q.now stats.now }
    requires vector { IsSoundVector q.now stats.now s.now }
    requires cards { AreCards q.now stats.now s.now cards.now }
    requires there { set < 2 ^ length q.now.places }
    requires valid { IsValidStep q.now stats.now.indexed set step }
    ensures value { result ≡ costs.step_cost q.now stats.now s.now set step }
{
    q.sound();
    let unit = step_unit(q, stats, step, s);
    let before = card_at(cards, set);
    let after = card_at(cards, with_place(set, step_place(step)));
    step_cost_of(stats, unit, before, after)
}

/// What a hash join adds to its two sides, by their cardinalities and that of both together.
pub(crate) fn join_cost_of(stats: &Stats, left: u128, right: u128, after: u128) -> u128
    requires sides { left + right < 2 ^ 128 }
    requires fits { stats.now.weights.hash * (left + right) + stats.now.weights.out * after < 2 ^ 128 }
    ensures value { result
        ≡ stats.now.weights.hash * (left + right) + stats.now.weights.out * after }
{
    let weights = stats.weights();
    u128::from(weights.hash) * (left + right) + u128::from(weights.out) * after
}

/// What a hash join adds to the costs of its two sides, on the cost scale: a table over both, and what comes out.
pub fn join_cost(q: &Query, stats: &Stats, left: u8, right: u8, s: &[u64]) -> u128
    requires sound { IsSoundStats q.now stats.now }
    requires vector { IsSoundVector q.now stats.now s.now }
    requires left { IsPlaceSet q.now left }
    requires right { IsPlaceSet q.now right }
    requires apart { IsTrue (are_apart left right) }
    ensures value { result ≡ costs.join_cost q.now stats.now s.now left right }
{
    q.sound();
    let after = card(q, stats, with_places(left, right), s);
    join_cost_of(
        stats,
        card(q, stats, left, s),
        card(q, stats, right, s),
        after,
    )
}

/// What a hash join adds to the costs of its two sides, read off the cardinalities of all sets.
pub fn join_cost_with(
    q: &Query,
    stats: &Stats,
    cards: &[u128],
    left: u8,
    right: u8,
    s: &[u64],
) -> u128
    requires sound { IsSoundStats q.now stats.now }
    requires vector { IsSoundVector q.now stats.now s.now }
    requires cards { AreCards q.now stats.now s.now cards.now }
    requires left { IsPlaceSet q.now left }
    requires right { IsPlaceSet q.now right }
    requires apart { IsTrue (are_apart left right) }
    ensures value { result ≡ costs.join_cost q.now stats.now s.now left right }
{
    q.sound();
    let after = card_at(cards, with_places(left, right));
    join_cost_of(stats, card_at(cards, left), card_at(cards, right), after)
}
