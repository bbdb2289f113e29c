//! The step that takes in a place at the least cost: a nested loop by the place's cheapest access, or a look-up.
//!
//! Steps over one set into one place differ in what they do for each row so far alone: whichever does least costs least.
ghost use Rattle.std.specs.Prelude.{◌≡◌, ◌≤◌, ◌<◌, false, length};
ghost use Rattle.plan_trees.specs.Lists.{IsStepInto};
ghost use Rattle.plan_trees.specs.PlaceSets.{has};
ghost use Rattle.plan_trees.specs.Statistics.{IsSoundStats, IsSoundVector};
ghost use Rattle.plan_trees.specs.declared.plans.StepKind.TheVariants.{Probe as LookUp};
ghost use Rattle.plan_costs.specs.Units.{unit_of_step};
ghost use Rattle.plan_costs.specs.Least.{IsLeastAccess, IsLeastStep, IsPricedStep};

use crate::cheapest_accesses::PricedAccess;
use crate::steps::step_unit;
use plan_trees::{Stats, StepKind, is_valid_step};
use row_values::Query;

/// A step, and what it does for each row so far, in rows.
#[derive(Clone, Copy, Debug)]
pub(crate) struct PricedStep {
    pub step: StepKind,
    pub unit: u128,
}

/// The look-up by this edge, if it is valid and does less than the best so far.
fn or_look_up(
    q: &Query,
    stats: &Stats,
    s: &[u64],
    from: u8,
    place: u8,
    edge: u8,
    best: PricedStep,
) -> PricedStep
    requires sound { IsSoundStats q.now stats.now }
    requires vector { IsSoundVector q.now stats.now s.now }
    requires best { IsPricedStep q.now stats.now s.now from place best }
    ensures priced { IsPricedStep q.now stats.now s.now from place result }
    ensures below_best { result.unit ≤ best.unit }
    ensures below_look_up { IsStepInto q.now stats.now.indexed from place (LookUp place edge)
        → result.unit ≤ unit_of_step q.now stats.now s.now (LookUp place edge) }
{
    let step = StepKind::Probe(place, edge);
    if !is_valid_step(q, stats.indexed(), from, step) {
        return best;
    }
    let unit = step_unit(q, stats, step, s);
    if unit < best.unit {
        PricedStep { step, unit }
    } else {
        best
    }
}

/// The step over the set that takes in the place and does least for each row so far.
pub fn least_step(
    q: &Query,
    stats: &Stats,
    s: &[u64],
    from: u8,
    place: u8,
    least: PricedAccess,
) -> StepKind
    requires sound { IsSoundStats q.now stats.now }
    requires vector { IsSoundVector q.now stats.now s.now }
    requires absent { has from place ≡ false }
    requires least { IsLeastAccess q.now stats.now s.now place least }
    ensures { IsLeastStep q.now stats.now s.now from place result }
{
    let mut best = PricedStep {
        step: StepKind::Loop(least.access),
        unit: least.unit,
    };
    for edge in 0..q.edges().len() as u8 {
        best = or_look_up(q, stats, s, from, place, edge, best);
    }
    best.step
}
