//! Laws of plan caches. Their promise is the clause; there is nothing to run.
ghost use Rattle.cache_model.specs.Laws.{AnchorCostsLaw, CandidatesLaw, ChoiceBoundLaw, ChoiceLaw, ClearedIsFaithful};
ghost use Rattle.cache_model.specs.Laws.{CostTestLaw, EmptyIsFaithful, EvictLaw, FaithfulLater, KeepingLaw};
ghost use Rattle.cache_model.specs.Laws.{NextPlanLaw, OneLeastCostLaw, ReuseLaw, SelectivityTestLaw, VectorsFitLaw};
ghost use Rattle.cache_model.specs.Laws.{WindowLaw};

/// The selectivity check as a test passes exactly where the check does.
pub fn selectivity_test_tells()
    ensures { SelectivityTestLaw }
{}

/// The cost check as a test passes exactly where the check does.
pub fn cost_test_tells()
    ensures { CostTestLaw }
{}

/// The empty cache is faithful.
pub fn empty_is_faithful()
    ensures { EmptyIsFaithful }
{}

/// A cleared cache is faithful, whatever it held and whatever the statistics are now.
pub fn cleared_is_faithful()
    ensures { ClearedIsFaithful }
{}

/// A faithful cache stays faithful as other statements are executed, and under a greater budget.
pub fn faithful_later()
    ensures { FaithfulLater }
{}

/// A reuse keeps a cache faithful.
pub fn reuse_keeps_faithful()
    ensures { ReuseLaw }
{}

/// An eviction keeps a cache faithful.
pub fn evict_keeps_faithful()
    ensures { EvictLaw }
{}

/// Keeping an optimised plan, or its anchor alone, or nothing, keeps a cache faithful.
pub fn keeping_keeps_faithful()
    ensures { KeepingLaw }
{}

/// Keeping gives one plan number at most, and none again.
pub fn plan_numbers_go_on()
    ensures { NextPlanLaw }
{}

/// What a faithful cache lets be used again is valid, and costs at most `num / den` times the
/// least.
pub fn choice_is_within_bound()
    ensures { ChoiceBoundLaw }
{}

/// There is one least cost.
pub fn one_least_cost()
    ensures { OneLeastCostLaw }
{}

/// An anchor whose first selectivity is further from the instance's than the ratio doesn't pass the
/// selectivity check.
pub fn outside_the_window_fails()
    ensures { WindowLaw }
{}

/// A plan is used again exactly where a check passes: the choice is the first anchor or candidate
/// that does.
pub fn reuse_where_a_check_passes()
    ensures { ChoiceLaw }
{}

/// The candidates of the cost check are the anchors in one order: the nearest first, and then the
/// earlier.
pub fn candidates_are_by_nearness()
    ensures { CandidatesLaw }
{}

/// The costs of the anchors of a faithful cache are from 1 to below 2^124, and no plan costs less
/// than the least.
pub fn anchor_costs_fit()
    ensures { AnchorCostsLaw }
{}

/// The greater numbers of two sound vectors multiply to at most 2^63.
pub fn vectors_fit()
    ensures { VectorsFitLaw }
{}
