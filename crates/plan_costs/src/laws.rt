//! The law of best plans. Its promise is the clause; there is nothing to run.
ghost use Rattle.plan_costs.specs.Laws.{OptimumLaw};

/// Every sound statement has a plan of least cost and a list of cells that is its tight table, with
/// any indexes and at every vector: there is what an optimiser is asked for.
pub fn an_optimum_exists()
    ensures { OptimumLaw }
{}
