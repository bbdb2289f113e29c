//! The redundancy check: does a kept plan serve an instance that was optimised, so that its own needn't be kept?
//!
//! A plan serves where its cost at the instance is within the ratio `keep` of the least cost there. Of those that
//! serve the cheapest is named, and of two as cheap the one of less number. The way in is `covering`. It costs each
//! kept plan once and takes no memory.
#![tactic(auto)]

ghost use Rattle.std.specs.Prelude.{ℕ, ◌≡◌, ◌≤◌, All, nat_lt, true};
ghost use Rattle.std.specs.Option.{option_map, option_map_or};
ghost use Rattle.plan_trees.specs.Trees.{TopTree, top_tree};
ghost use Rattle.cache_model.specs.Keeping.{covering as covering_plan, covers};
ghost use Rattle.anchor_cache.specs.Contents.{state_of};
ghost use Rattle.anchor_cache.specs.Instances.{HasCostAt, cost_at};
ghost use Rattle.redundancy_check.specs.Covering.{cheapest_serving};

use anchor_cache::{Cache, Kept};
use fraction_math::{Ratio, le_scaled};

/// A kept plan by its number, and what it costs at the instance.
#[derive(Clone, Copy, Debug)]
struct Found {
    number: u64,
    cost: u128,
}

/// Whether the cost is within the ratio of the least cost.
fn is_within(cost: u128, least: u128, keep: Ratio) -> bool
    requires cost { 1 ≤ cost }
    requires least { 1 ≤ least }
    ensures { result ≡ covers keep least cost }
{
    le_scaled(
        &[cost, u128::from(keep.den())],
        &[u128::from(keep.num()), least],
    )
}

/// Whether the cost is less than that of the plan found so far.
fn is_cheaper(cost: u128, found: Option<Found>) -> bool
    ensures { result ≡ option_map_or (λ plan. nat_lt cost plan.cost) found true }
{
    match found {
        Some(plan) => cost < plan.cost,
        None => true,
    }
}

/// The cheapest of the plans that serve, and of two as cheap the first.
fn cheapest(plans: &[Kept], q: &[u64], least: u128, keep: Ratio) -> Option<Found>
    requires least { 1 ≤ least }
    requires costs { All (HasCostAt q.now) plans.now }
    ensures { result ≡ option_map (λ kept. record { number = kept.number; cost = cost_at q.now kept })
        (cheapest_serving keep least q.now plans.now) }
{
    let mut found = None;
    for kept in plans {
        let cost = kept.costed.cost_at(q);
        if is_within(cost, least, keep) && is_cheaper(cost, found) {
            found = Some(Found {
                number: kept.number,
                cost,
            });
        }
    }
    found
}

/// The number of the cheapest kept plan whose cost at `q` is within the ratio `keep` of the least cost there. It is
/// `None` exactly where no plan is.
pub fn covering(cache: &Cache, q: &[u64], least: u128, keep: Ratio) -> Option<u64>
    requires least { 1 ≤ least }
    requires costs { All (HasCostAt q.now) cache.now.plans }
    ensures value { result ≡ option_map (λ kept. kept.number) (cheapest_serving keep least q.now cache.now.plans) }

    // Where the polynomials are the plans' costs, it is the plan that the keeping rule names.
    ensures kept { (cost : TopTree → ℕ)
        → All (λ kept. cost (top_tree kept.costed.plan.value) ≡ cost_at q.now kept) cache.now.plans
        → result ≡ option_map (λ plan. plan.number) (covering_plan keep least cost (state_of cache.now).plans) }
{
    cheapest(cache.plans(), q, least, keep).map(|plan| plan.number)
}
