//! The choice for an instance: an anchor's plan that one of the two checks lets through, or a plan of its own.
//!
//! The selectivity check comes first, since it costs no plan. The way in is `choose`; it changes nothing and takes no
//! memory.
ghost use Rattle.std.specs.Prelude.{◌≡◌, ◌≤◌, All};
ghost use Rattle.row_values.specs.Statements.{Statement};
ghost use Rattle.plan_trees.specs.Statistics.{Statistics};
ghost use Rattle.plan_trees.specs.Trees.{top_tree};
ghost use Rattle.cost_model.specs.Costs.{top_cost};
ghost use Rattle.cache_model.specs.Choices.{choice_of};
ghost use Rattle.anchor_cache.specs.Contents.{state_of};
ghost use Rattle.anchor_cache.specs.Instances.{HasCostAt, IsInstanceFor, cost_at};
ghost use Rattle.cost_check.specs.Answers.{as_choice};
ghost use Rattle.session_engine.specs.Choosing.{chosen};

use anchor_cache::Cache;
use cache_model::RECOST_LIMIT;
use cost_check::{CostAnswer, by_cost};
use fraction_math::Ratio;
use selectivity_check::by_selectivity;

/// How an instance gets its plan.
#[derive(Clone, Copy, Debug)]
pub enum Choice {
    /// The plan of the anchor at this place, which passes the selectivity check.
    BySelectivity { place: usize },
    /// The plan of the anchor at this place, which is the last of so many whose plans were costed and passes the cost
    /// check.
    ByCost { place: usize, tried: u32 },
    /// A plan of its own, since none passes; so many were costed.
    ByOptimum { tried: u32 },
}

/// The choice where no anchor passes the selectivity check.
fn by_answer(answer: CostAnswer) -> Choice
    ensures { chosen result ≡ as_choice answer }
{
    let tried = answer.tried;
    match answer.found {
        Some(place) => Choice::ByCost { place, tried },
        None => Choice::ByOptimum { tried },
    }
}

/// The first anchor that passes the selectivity check; else the nearest that passes the cost check, of so many as may
/// be costed; else none.
pub fn choose(cache: &Cache, at: &[u64], lambda: Ratio, recosts: u8) -> Choice
    requires few { recosts ≤ RECOST_LIMIT }
    requires instance { IsInstanceFor cache.now.anchors at.now }
    requires costs { All (HasCostAt at.now) cache.now.plans }
    ensures { (q : Statement) (s : Statistics)
        → All (λ kept. cost_at at.now kept ≡ top_cost q s at.now (top_tree kept.costed.plan.value)) cache.now.plans
        → chosen result ≡ choice_of (state_of cache.now) q s at.now lambda recosts }
{
    match by_selectivity(cache, at, lambda) {
        Some(place) => Choice::BySelectivity { place },
        None => by_answer(by_cost(cache, at, lambda, u32::from(recosts))),
    }
}
