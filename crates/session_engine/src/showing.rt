//! What a statement's cache holds, as a reply shows it.
ghost use Rattle.std.specs.Prelude.{◌≡◌, IfOk, map};
ghost use Rattle.anchor_cache.specs.Contents.{state_of};
ghost use Rattle.session_model.specs.Step.{anchor_shown, plan_shown};

use anchor_cache::Cache;
use plan_trees::print_plan;
use row_values::{OutOfMemory, Query};
use script_report::{ShownAnchor, ShownAnchors, ShownPlan, ShownPlans};
use std::alloc::Global;

/// The plans in the order of adding, each with how often its anchors were used.
pub fn shown_plans(alloc: Global, q: &Query, cache: &Cache) -> Result<ShownPlans, OutOfMemory>
    ensures { IfOk result (λ plans. plans ≡ map (plan_shown q.now cache.now.anchors) (state_of cache.now).plans) }
{
    let mut plans = ShownPlans::new(alloc);
    for (i, kept) in cache.plans().iter().enumerate() {
        plans.push(ShownPlan {
            number: kept.number,
            uses: cache.uses()[i].uses,
            text: print_plan(alloc, q, &kept.costed.plan)?,
        })?;
    }
    Ok(plans)
}

/// The anchors in list order.
pub fn shown_anchors(alloc: Global, cache: &Cache) -> Result<ShownAnchors, OutOfMemory>
    ensures { IfOk result (λ anchors. anchors ≡ map anchor_shown cache.now.anchors) }
{
    let mut anchors = ShownAnchors::new(alloc);
    for anchor in cache.anchors() {
        anchors.push(ShownAnchor {
            execution: anchor.execution,
            plan: anchor.plan,
            uses: anchor.uses,
            cost: anchor.plan_cost,
            least: anchor.least,
            at: anchor.at,
        })?;
    }
    Ok(anchors)
}
