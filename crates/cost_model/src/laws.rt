//! Laws of costs. Their promise is the clause; there is nothing to run.
ghost use Rattle.cost_model.specs.Laws.{CostCheckLaw, CostRangeLaw, GrowthLaw, LeastCostLaw, LeastGrowthLaw};
ghost use Rattle.cost_model.specs.Laws.{LowerBoundLaw, SelectivityCheckLaw, TightIsFeasible};
ghost use Rattle.cost_model.specs.Laws.{TightTableLaw};

/// Every sound statement has a least cost, with any indexes and at every vector.
pub fn a_least_cost_exists()
    ensures { LeastCostLaw }
{}

/// Every sound statement has a tight table, with any indexes and at every vector, and in it a
/// number for every set of places.
pub fn a_tight_table_exists()
    ensures { TightTableLaw }
{}

/// Every valid plan's cost grows by at most the growth of the selectivities, and shrinks by at most
/// their shrinking.
pub fn cost_grows_within_selectivities()
    ensures { GrowthLaw }
{}

/// The least cost grows by at most the growth of the selectivities, and shrinks by at most their
/// shrinking.
pub fn least_cost_grows_within_selectivities()
    ensures { LeastGrowthLaw }
{}

/// No valid plan costs less than a number that fits a feasible table.
pub fn feasible_is_below_every_plan()
    ensures { LowerBoundLaw }
{}

/// A tight table is feasible, and the least cost fits it.
pub fn tight_is_feasible()
    ensures { TightIsFeasible }
{}

/// With sound statistics and a sound vector every valid plan, and every cell of a tight table,
/// costs from 1 to below 2^124.
pub fn costs_fit()
    ensures { CostRangeLaw }
{}

/// A kept plan that passes the selectivity check costs at most `num / den` times the least.
pub fn selectivity_check_bounds_cost()
    ensures { SelectivityCheckLaw }
{}

/// A kept plan that passes the cost check costs at most `num / den` times the least.
pub fn cost_check_bounds_cost()
    ensures { CostCheckLaw }
{}
