//! What a plan costs at one vector, without memory.
//!
//! `poly_of` gives a plan's cost at every vector, and takes memory for it. Whoever asks at one vector alone, as a
//! checker does, calls `cost_of`. A plan hands up its cardinality with its cost, so that each set's is computed once.
ghost use Rattle.std.specs.Prelude.{◌≡◌, ◌≤◌, ◌<◌, ◌+◌, ◌*◌, ◌^◌, IsTrue, length};
ghost use Rattle.row_values.specs.Statements.{IsSoundQuery};
ghost use Rattle.plan_trees.specs.PlaceSets.{are_apart, one};
ghost use Rattle.plan_trees.specs.PlanSpace.{IsValidPlan, IsValidStep, IsValidTop};
ghost use Rattle.plan_trees.specs.Statistics.{IsSoundStats, IsSoundVector};
ghost use Rattle.plan_trees.specs.Trees.{Base, place_entering, places_of, top_tree, tree};
ghost use Rattle.cost_model.specs.Cardinalities.{card_of};
ghost use Rattle.cost_model.specs.Costs as costs;
ghost use Rattle.cost_model.specs.LeastCost.{IsPlaceSet};

use crate::accesses::access_unit;
use crate::cardinalities::card;
use crate::sorts::sort_cost_of;
use crate::steps::{join_cost_of, step_cost_of, step_unit};
use plan_trees::{
    Access, COST_SCALE, Plan, Stats, StepKind, Top, one_place, place_read, step_place, with_place,
    with_places,
};
use row_values::Query;

/// A plan's cost, its places, and the cardinality of these.
#[derive(Clone, Copy, Debug)]
struct Whole {
    cost: u128,
    places: u8,
    card: u128,
}

/// The access by itself.
fn base_of(q: &Query, stats: &Stats, access: Access, s: &[u64]) -> Whole
    requires query { IsSoundQuery q.now }
    requires sound { IsSoundStats q.now stats.now }
    requires vector { IsSoundVector q.now stats.now s.now }
    requires valid { IsValidPlan q.now stats.now.indexed (Base access) }
    ensures cost { result.cost ≡ costs.plan_cost q.now stats.now s.now (Base access) }
    ensures places { result.places ≡ places_of (Base access) }
    ensures card { result.card ≡ card_of q.now stats.now s.now (places_of (Base access)) }
{
    let places = one_place(place_read(access));
    Whole {
        cost: COST_SCALE * access_unit(q, stats, &access, s),
        places,
        card: card(q, stats, places, s),
    }
}

/// The outer plan with a step over it.
fn after_step(q: &Query, stats: &Stats, outer: Whole, step: StepKind, s: &[u64]) -> Whole
    requires sound { IsSoundStats q.now stats.now }
    requires vector { IsSoundVector q.now stats.now s.now }
    requires there { outer.places < 2 ^ length q.now.places }
    requires card { outer.card ≡ card_of q.now stats.now s.now outer.places }
    requires valid { IsValidStep q.now stats.now.indexed outer.places step }
    requires fits { outer.cost + costs.step_cost q.now stats.now s.now outer.places step < 2 ^ 128 }
    ensures cost { result.cost ≡ outer.cost + costs.step_cost q.now stats.now s.now outer.places step }
    ensures places { result.places ≡ outer.places + one (place_entering step) }
    ensures card { result.card ≡ card_of q.now stats.now s.now (outer.places + one (place_entering step)) }
{
    q.sound();
    let places = with_place(outer.places, step_place(step));
    let after = card(q, stats, places, s);
    let unit = step_unit(q, stats, step, s);
    let cost = outer.cost + step_cost_of(stats, unit, outer.card, after);
    Whole {
        cost,
        places,
        card: after,
    }
}

/// The hash join of the two plans.
fn after_join(q: &Query, stats: &Stats, outer: Whole, inner: Whole, s: &[u64]) -> Whole
    requires sound { IsSoundStats q.now stats.now }
    requires vector { IsSoundVector q.now stats.now s.now }
    requires left { IsPlaceSet q.now outer.places }
    requires right { IsPlaceSet q.now inner.places }
    requires apart { IsTrue (are_apart outer.places inner.places) }
    requires left_card { outer.card ≡ card_of q.now stats.now s.now outer.places }
    requires right_card { inner.card ≡ card_of q.now stats.now s.now inner.places }
    requires fits { outer.cost + inner.cost + costs.join_cost q.now stats.now s.now outer.places inner.places
        < 2 ^ 128 }
    ensures cost { result.cost
        ≡ outer.cost + inner.cost + costs.join_cost q.now stats.now s.now outer.places inner.places }
    ensures places { result.places ≡ outer.places + inner.places }
    ensures card { result.card ≡ card_of q.now stats.now s.now (outer.places + inner.places) }
{
    q.sound();
    let places = with_places(outer.places, inner.places);
    let after = card(q, stats, places, s);
    let cost = outer.cost + inner.cost + join_cost_of(stats, outer.card, inner.card, after);
    Whole {
        cost,
        places,
        card: after,
    }
}

/// The plan's cost, its places, and the cardinality of these.
fn whole_of(q: &Query, stats: &Stats, p: &Plan, s: &[u64]) -> Whole
    requires query { IsSoundQuery q.now }
    requires sound { IsSoundStats q.now stats.now }
    requires vector { IsSoundVector q.now stats.now s.now }
    requires valid { IsValidPlan q.now stats.now.indexed (tree p.now) }
    ensures cost { result.cost ≡ costs.plan_cost q.now stats.now s.now (tree p.now) }
    ensures places { result.places ≡ places_of (tree p.now) }
    ensures card { result.card ≡ card_of q.now stats.now s.now (places_of (tree p.now)) }
{
    match p {
        Plan::Base(access) => base_of(q, stats, *access, s),
        Plan::Loop(outer, access) => {
            let below = whole_of(q, stats, outer, s);
            after_step(q, stats, below, StepKind::Loop(*access), s)
        }
        Plan::Probe(outer, place, edge) => {
            let below = whole_of(q, stats, outer, s);
            after_step(q, stats, below, StepKind::Probe(*place, *edge), s)
        }
        Plan::Hash(outer, inner, _) => {
            let left = whole_of(q, stats, outer, s);
            let right = whole_of(q, stats, inner, s);
            after_join(q, stats, left, right, s)
        }
        Plan::Sort(outer) => {
            let below = whole_of(q, stats, outer, s);
            let cost = below.cost + sort_cost_of(q, stats, below.places, below.card);
            Whole { cost, ..below }
        }
    }
}

/// The plan's cost, and this weight for each of its rows.
fn grouped_cost(q: &Query, stats: &Stats, weight: u16, p: &Plan, s: &[u64]) -> u128
    requires query { IsSoundQuery q.now }
    requires sound { IsSoundStats q.now stats.now }
    requires vector { IsSoundVector q.now stats.now s.now }
    requires valid { IsValidPlan q.now stats.now.indexed (tree p.now) }
    requires light { weight ≤ 1000 }
    ensures { result ≡ costs.plan_cost q.now stats.now s.now (tree p.now)
        + weight * card_of q.now stats.now s.now (places_of (tree p.now)) }
{
    let below = whole_of(q, stats, p, s);
    below.cost + u128::from(weight) * below.card
}

/// What the plan costs at the vector. It takes no memory.
pub fn cost_of(q: &Query, stats: &Stats, p: &Top, s: &[u64]) -> u128
    requires sound { IsSoundStats q.now stats.now }
    requires vector { IsSoundVector q.now stats.now s.now }
    requires valid { IsValidTop q.now stats.now.indexed (top_tree p.now) }
    ensures value { result ≡ costs.top_cost q.now stats.now s.now (top_tree p.now) }
{
    q.sound();
    match p {
        Top::Rows(plan) => whole_of(q, stats, plan, s).cost,
        Top::SortedGroups(plan) => grouped_cost(q, stats, stats.weights().row, plan, s),
        Top::HashGroups(plan) => grouped_cost(q, stats, stats.weights().hash, plan, s),
    }
}
