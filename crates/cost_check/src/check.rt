//! The check of one anchor, and the first candidate that passes it.
ghost use Rattle.std.specs.Prelude.{◌≡◌, ◌≤◌, ◌<◌, ◌^◌, All, false, find, length, map, slice_get};
ghost use Rattle.std.specs.Option.{option_map, option_map_or};
ghost use Rattle.row_values.specs.Statements.{Statement};
ghost use Rattle.plan_trees.specs.Statistics.{Statistics};
ghost use Rattle.plan_trees.specs.Trees.{top_tree};
ghost use Rattle.cost_model.specs.Costs.{top_cost};
ghost use Rattle.cache_model.specs.Choices.{candidates_of, choice_among, greater_product, is_cheap_enough};
ghost use Rattle.cache_model.specs.Choices.{passes_cost_check};
ghost use Rattle.anchor_cache.specs.Anchors.{held};
ghost use Rattle.anchor_cache.specs.Contents.{has_number, state_of};
ghost use Rattle.anchor_cache.specs.Instances.{HasCostAt, IsInstanceFor, cost_at};
ghost use Rattle.cost_check.specs.Answers.{as_choice, passes_by_cost};

use crate::nearest::nearest_of;
use anchor_cache::{Anchor, Cache, Kept};
use cache_model::RECOST_LIMIT;
use cost_polynomials::grown;
use fraction_math::{Ratio, le_scaled};

/// Where the anchor stands whose plan may be used again, and how many candidates were costed until then.
#[derive(Clone, Copy, Debug, PartialEq, Eq)]
pub struct CostAnswer {
    pub found: Option<usize>,
    pub tried: u32,
}

/// What the plan of this number costs at the instance; none where it isn't there.
fn cost_of(plans: &[Kept], number: u64, q: &[u64]) -> Option<u128>
    requires { All (HasCostAt q.now) plans.now }
    ensures { result ≡ option_map (cost_at q.now) (find (has_number number) plans.now) }
{
    for kept in plans {
        if kept.number == number {
            return Some(kept.costed.cost_at(q));
        }
    }
    None
}

/// Whether a plan of this cost at the instance is cheap enough beside the anchor's least.
fn is_enough(cost: u128, anchor: &Anchor, q: &[u64], lambda: Ratio) -> bool
    requires cost { 1 ≤ cost }
    requires numbers { All (λ n. 1 ≤ n) q.now }
    requires least { 1 ≤ anchor.now.least }
    requires near { greater_product q.now anchor.now.at ≤ 2 ^ 63 }
    ensures { result ≡ is_cheap_enough lambda q.now (held anchor.now) cost }
{
    let down = grown(anchor.at.as_slice(), q);
    le_scaled(
        &[cost, u128::from(down.to), u128::from(lambda.den())],
        &[
            u128::from(lambda.num()),
            anchor.least,
            u128::from(down.from),
        ],
    )
}

/// Whether the plan of the anchor at this place passes.
fn passes(cache: &Cache, place: usize, q: &[u64], lambda: Ratio) -> bool
    requires there { place < length cache.now.anchors }
    requires instance { IsInstanceFor cache.now.anchors q.now }
    requires costs { All (HasCostAt q.now) cache.now.plans }
    ensures { result
        ≡ option_map_or (passes_by_cost cache.now.plans lambda q.now) (slice_get cache.now.anchors place) false }
{
    let anchor = &cache.anchors()[place];
    match cost_of(cache.plans(), anchor.plan, q) {
        Some(cost) => is_enough(cost, anchor, q, lambda),
        None => false,
    }
}

/// The first of the nearest `recosts` anchors whose plan passes the cost check, and how many were costed. `found` is
/// `None` exactly where none of them passes.
pub fn by_cost(cache: &Cache, q: &[u64], lambda: Ratio, recosts: u32) -> CostAnswer
    requires few { recosts ≤ RECOST_LIMIT }
    requires instance { IsInstanceFor cache.now.anchors q.now }
    requires costs { All (HasCostAt q.now) cache.now.plans }
    ensures answer { as_choice result
        ≡ choice_among (passes_by_cost cache.now.plans lambda q.now) 0
        (candidates_of q.now recosts cache.now.anchors) }

    // Where the polynomials are the plans' costs, it is the second part of the choice.
    ensures choice { (statement : Statement) (s : Statistics)
        → All (λ kept. cost_at q.now kept ≡ top_cost statement s q.now (top_tree kept.costed.plan.value))
        cache.now.plans
        → as_choice result
        ≡ choice_among (passes_cost_check statement s lambda q.now (state_of cache.now).plans) 0
        (candidates_of q.now recosts cache.now.anchors) }
{
    let nearest = nearest_of(cache.anchors(), q, recosts as usize);
    let mut tried = 0;
    for near in nearest.as_slice() {
        tried += 1;
        if passes(cache, near.position, q, lambda) {
            return CostAnswer {
                found: Some(near.position),
                tried,
            };
        }
    }
    CostAnswer { found: None, tried }
}
