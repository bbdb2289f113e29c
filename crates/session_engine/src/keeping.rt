//! What is kept of an instance that was optimised: an anchor, and its plan unless an older one does as well.
//!
//! An old plan serves where it is the same, or where it costs little more than the least. Where none does, the plan is
//! kept under a new number; for room the least used plan goes, with its anchors. A full cache keeps nothing. The way
//! in is `keep`; it takes no memory.
ghost use Rattle.std.specs.Prelude.{◌≡◌, ◌≤◌, ◌<◌, ◌^◌, All, IfSome, IsTrue, find, length};
ghost use Rattle.std.specs.Option.{option_map};
ghost use Rattle.row_values.specs.Statements.{Statement};
ghost use Rattle.plan_trees.specs.Statistics.{Statistics};
ghost use Rattle.plan_trees.specs.Trees.{top_tree};
ghost use Rattle.cost_model.specs.Costs.{top_cost};
ghost use Rattle.cache_model.specs.Keeping.{anchor_of, evicted_for_room, eviction_of, kept_after, kept_with_new};
ghost use Rattle.cache_model.specs.Keeping.{with_room};
ghost use Rattle.anchor_cache.specs.Anchors.{held};
ghost use Rattle.anchor_cache.specs.Contents.{has_number, has_plan, state_of};
ghost use Rattle.anchor_cache.specs.Instances.{HasCostAt, cost_at};
ghost use Rattle.session_model.specs.Executions.{eviction_shown};
ghost use Rattle.session_engine.specs.Keeping.{CostsAt, IsKept, WasOrIsNew, kept_with_number};
ghost use Rattle.session_engine.specs.Keeping.{old_kept, old_plan_at, optimum_of, plans_with_room};

use anchor_cache::{Anchor, Cache, Kept};
use cache_model::ANCHOR_LIMIT;
use fraction_math::Ratio;
use plan_eviction::{evict, victim};
use plan_recost::Costed;
use plan_trees::Vector;
use redundancy_check::covering;
use script_report::KeptNote;

/// An instance that was optimised: which execution it was, its vector, its plan with what that costs, and the least
/// cost.
#[derive(Drop)]
pub struct Optimum {
    pub execution: u64,
    pub at: Vector,
    pub costed: Costed,
    pub least: u128,
}

/// What the keeping of an optimum did: the plan that was evicted with how many anchors, and what was kept.
#[derive(Clone, Copy, Debug)]
pub struct Keeping {
    pub evicted: Option<(u64, u32)>,
    pub kept: KeptNote,
}

/// A plan that is there already, by its number, and what it costs at the optimum's vector.
#[derive(Clone, Copy, Debug)]
struct OldPlan {
    number: u64,
    cost: u128,
}

/// What the plan of this number costs at the vector; none where it isn't there.
fn cost_of(plans: &[Kept], number: u64, at: &[u64]) -> Option<u128>
    requires { All (HasCostAt at.now) plans.now }
    ensures { result ≡ option_map (cost_at at.now) (find (has_number number) plans.now) }
{
    for kept in plans {
        if kept.number == number {
            return Some(kept.costed.cost_at(at));
        }
    }
    None
}

/// The number of the old plan that serves: of the same, else of the cheapest that covers.
fn old_number(cache: &Cache, optimum: &Optimum, keep: Ratio) -> Option<u64>
    requires least { 1 ≤ optimum.now.least }
    requires costs { All (HasCostAt optimum.now.at) cache.now.plans }
    ensures { result ≡ option_map (λ kept. kept.number) (old_kept optimum.now keep cache.now.plans) }
{
    match cache.find_same(&optimum.costed.plan) {
        Some(number) => Some(number),
        None => covering(cache, optimum.at.as_slice(), optimum.least, keep),
    }
}

/// The old plan that serves; none where the optimum's own is to be kept.
fn old_plan(cache: &Cache, optimum: &Optimum, keep: Ratio) -> Option<OldPlan>
    requires least { 1 ≤ optimum.now.least }
    requires costs { All (HasCostAt optimum.now.at) cache.now.plans }
    requires no_less { All (λ kept. optimum.now.least ≤ cost_at optimum.now.at kept) cache.now.plans }
    ensures value { result ≡ option_map (old_plan_at optimum.now.at) (old_kept optimum.now keep cache.now.plans) }
    ensures there { IfSome result (λ old. IsTrue (has_plan cache.now.plans old.number)) }
    ensures no_less { IfSome result (λ old. optimum.now.least ≤ old.cost) }
{
    let number = old_number(cache, optimum, keep)?;
    let cost = cost_of(cache.plans(), number, optimum.at.as_slice())?;
    Some(OldPlan { number, cost })
}

/// The anchor of the optimum, with the plan of this number, of this cost at its vector.
fn anchor_with(optimum: &Optimum, plan: u64, plan_cost: u128) -> Anchor
    ensures { held result ≡ anchor_of (optimum_of optimum.now) plan plan_cost }
{
    Anchor {
        execution: optimum.execution,
        at: optimum.at,
        plan,
        plan_cost,
        least: optimum.least,
        uses: 1,
    }
}

/// An anchor is kept, of a plan that is there.
fn keep_with_old(cache: &mut Cache, optimum: &Optimum, old: OldPlan) -> Keeping
    requires room { 1 ≤ cache.old.spare_anchors }
    requires few { length cache.old.anchors < ANCHOR_LIMIT }
    requires planned { IsTrue (has_plan cache.old.plans old.number) }
    requires numbers { All (λ n. 1 ≤ n) optimum.now.at }
    requires least { 1 ≤ optimum.now.least }
    requires no_less { optimum.now.least ≤ old.cost }
    requires later { All (λ anchor. anchor.execution < optimum.now.execution) cache.old.anchors }
    ensures kept { IsKept (kept_with_number cache.old optimum.now old) cache.new result }
    ensures plans { cache.new.plans ≡ cache.old.plans }
{
    cache.add_anchor(anchor_with(optimum, old.number, old.cost));
    Keeping {
        evicted: None,
        kept: KeptNote::Old(old.number),
    }
}

/// The number of the plan that goes for room: none where there are fewer than the budget.
fn plan_to_go(cache: &Cache, budget: u16) -> Option<u64>
    ensures value { result ≡ evicted_for_room (state_of cache.now) budget }
    ensures there { IfSome result (λ number. IsTrue (has_plan cache.now.plans number)) }
{
    if cache.plans().len() < usize::from(budget) {
        None
    } else {
        victim(cache)
    }
}

/// Where there are as many plans as the budget one goes, and the answer is which, with how many anchors.
fn make_room(cache: &mut Cache, budget: u16) -> Option<(u64, u32)>
    ensures evicted { result ≡ option_map eviction_shown (option_map (eviction_of (state_of cache.old))
        (evicted_for_room (state_of cache.old) budget)) }
    ensures plans { cache.new.plans ≡ plans_with_room cache.old budget }
    ensures state { state_of cache.new ≡ with_room (state_of cache.old) budget }
    ensures spare_plans { cache.old.spare_plans ≤ cache.new.spare_plans }
    ensures spare_anchors { cache.old.spare_anchors ≤ cache.new.spare_anchors }
{
    let plan = plan_to_go(cache, budget)?;
    let anchors = evict(cache, plan)?;
    Some((plan, anchors))
}

/// An anchor is kept with its own plan, under the next number.
fn keep_with_new(cache: &mut Cache, optimum: Optimum, budget: u16) -> Keeping
    requires plan_room { 1 ≤ cache.old.spare_plans }
    requires anchor_room { 1 ≤ cache.old.spare_anchors }
    requires number { cache.old.next_plan < 2 ^ 63 }
    requires few { length cache.old.anchors < ANCHOR_LIMIT }
    requires numbers { All (λ n. 1 ≤ n) optimum.at }
    requires least { 1 ≤ optimum.least }
    requires later { All (λ anchor. anchor.execution < optimum.execution) cache.old.anchors }
    ensures kept { IsKept (kept_with_new (state_of cache.old) (optimum_of optimum) (λ top. optimum.least) budget)
        cache.new result }
    ensures plans { All (WasOrIsNew cache.old.plans optimum.costed) cache.new.plans }
{
    let evicted = make_room(cache, budget);
    let number = cache.next_plan();
    let anchor = anchor_with(&optimum, number, optimum.least);
    cache.add_plan(optimum.costed);
    cache.add_anchor(anchor);
    Keeping {
        evicted,
        kept: KeptNote::New(number),
    }
}

/// The optimum is kept: an anchor with an old plan that serves, else with its own, for which room is made; nothing
/// where there are as many anchors as may be.
pub fn keep(cache: &mut Cache, optimum: Optimum, keep: Ratio, budget: u16) -> Keeping
    requires plan_room { 1 ≤ cache.old.spare_plans }
    requires anchor_room { 1 ≤ cache.old.spare_anchors }
    requires number { cache.old.next_plan < 2 ^ 63 }
    requires numbers { All (λ n. 1 ≤ n) optimum.at }
    requires costs { All (HasCostAt optimum.at) cache.old.plans }
    requires least { 1 ≤ optimum.least }
    requires no_less { All (λ kept. optimum.least ≤ cost_at optimum.at kept) cache.old.plans }
    requires later { All (λ anchor. anchor.execution < optimum.execution) cache.old.anchors }

    // Where the polynomials are the plans' costs, it is the rule of the model.
    ensures kept { (q : Statement) (s : Statistics) → All (CostsAt (top_cost q s optimum.at) optimum.at) cache.old.plans
        → top_cost q s optimum.at (top_tree optimum.costed.plan.value) ≡ optimum.least
        → IsKept (kept_after (state_of cache.old) q s (optimum_of optimum) keep budget) cache.new result }

    // Each plan afterwards was there before, or is the optimum's own.
    ensures plans { All (WasOrIsNew cache.old.plans optimum.costed) cache.new.plans }
{
    if cache.anchors().len() >= ANCHOR_LIMIT {
        return Keeping {
            evicted: None,
            kept: KeptNote::Nothing,
        };
    }
    match old_plan(cache, &optimum, keep) {
        Some(old) => keep_with_old(cache, &optimum, old),
        None => keep_with_new(cache, optimum, budget),
    }
}
