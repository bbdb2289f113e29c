//! Anchors: the instances that were optimised.

use plan_trees::Vector;

/// An instance that was optimised: which execution it was, its selectivity vector, the number of the plan that it
/// got, what that plan costs there, the least cost there, and how many executions it has served, its own among them.
#[derive(Clone, Copy, Debug)]
pub struct Anchor {
    pub execution: u64,
    pub at: Vector,
    pub plan: u64,
    pub plan_cost: u128,
    pub least: u128,
    pub uses: u64,
}
