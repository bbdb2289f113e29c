//! The finished plan of least cost, over the cheapest plans of all places.
ghost use Rattle.std.specs.Prelude.{◌≡◌, ◌+◌, ◌<◌, ◌^◌, IfOk, IfSome, IsSome, Some, false, true};
ghost use Rattle.row_values.specs.Statements.{IsSoundQuery};
ghost use Rattle.plan_trees.specs.PlanSpace.{is_grouped, wants_order};
ghost use Rattle.plan_trees.specs.Statistics.{IsSoundStats, IsSoundVector};
ghost use Rattle.cost_model.specs.LeastCost.{whole_set};
ghost use Rattle.join_optimizer.specs.Found.{AreFound, found_in, plan_in, seen};
ghost use Rattle.join_optimizer.specs.Tops.{IsCheapestTop, as_rows, cheaper_top, in_hash_groups, in_sorted_groups, seen_top};

use crate::found::{Cheapest, Found};
use plan_costs::card;
use plan_trees::{Stats, Top, all_places, groups_rows, wants_some_order};
use row_values::{OutOfMemory, Query};

/// A finished plan with its cost.
#[derive(Debug, Drop)]
pub(crate) struct Finished {
    pub top: Top,
    pub cost: u128,
}

/// The rows of the plan as they come.
fn rows_over(found: &Option<Found>) -> Result<Finished, OutOfMemory>
    requires { IsSome found.now }
    ensures { IfOk result (λ finished. Some (seen_top finished) ≡ as_rows (seen found.now)) }
{
    match found {
        Some(below) => Ok(Finished {
            top: Top::Rows(below.plan.clone()?),
            cost: below.cost,
        }),
        None => unreachable!(),
    }
}

/// The rows of the plan, grouped by a hash table that costs so much.
fn hash_groups_over(found: &Option<Found>, cost: u128) -> Result<Finished, OutOfMemory>
    requires some { IsSome found.now }
    requires fits { IfSome found.now (λ below. below.cost + cost < 2 ^ 128) }
    ensures { IfOk result (λ finished. Some (seen_top finished) ≡ in_hash_groups cost (seen found.now)) }
{
    match found {
        Some(below) => Ok(Finished {
            top: Top::HashGroups(below.plan.clone()?),
            cost: below.cost + cost,
        }),
        None => unreachable!(),
    }
}

/// The cheaper of the finished plan and the rows of the plan in order, grouped as they come at this cost.
fn or_sorted_groups(
    first: Finished,
    found: &Option<Found>,
    cost: u128,
) -> Result<Finished, OutOfMemory>
    requires { IfSome found.now (λ below. below.cost + cost < 2 ^ 128) }
    ensures { IfOk result (λ finished. Some (seen_top finished)
        ≡ cheaper_top (Some (seen_top first)) (in_sorted_groups cost (seen found.now))) }
{
    let Some(below) = found else {
        return Ok(first);
    };
    let total = below.cost + cost;
    if total >= first.cost {
        return Ok(first);
    }
    let top = Top::SortedGroups(below.plan.clone()?);
    Ok(Finished { top, cost: total })
}

/// The best finished plan where rows aren't grouped.
fn best_rows(q: &Query, whole: &Cheapest) -> Result<Finished, OutOfMemory>
    requires { IsSome (found_in (wants_order q.now) whole.now) }
    ensures { IfOk result (λ finished. Some (seen_top finished)
        ≡ as_rows (plan_in whole.now (wants_order q.now))) }
{
    if wants_some_order(q) {
        let finished = rows_over(&whole.sorted)?;
        return Ok(finished);
    }
    let finished = rows_over(&whole.any)?;
    Ok(finished)
}

/// The best finished plan where rows are grouped, by a hash table or as they come.
fn best_groups(
    q: &Query,
    stats: &Stats,
    s: &[u64],
    whole: &Cheapest,
) -> Result<Finished, OutOfMemory>
    requires query { IsSoundQuery q.now }
    requires sound { IsSoundStats q.now stats.now }
    requires vector { IsSoundVector q.now stats.now s.now }
    requires grouped { is_grouped q.now ≡ true }
    requires whole { AreFound q.now stats.now s.now (whole_set q.now) (plan_in whole.now) }
    requires some { IsSome whole.now.any }
    ensures { IfOk result (λ finished. IsCheapestTop q.now stats.now s.now whole.now (seen_top finished)) }
{
    let rows = card(q, stats, all_places(q.places().len()), s);
    let by_hash = u128::from(stats.weights().hash) * rows;
    let by_order = u128::from(stats.weights().row) * rows;
    let hashed = hash_groups_over(&whole.any, by_hash)?;
    let finished = or_sorted_groups(hashed, &whole.sorted, by_order)?;
    Ok(finished)
}

/// The best finished plan over the cheapest plans of all places.
pub(crate) fn best_top(
    q: &Query,
    stats: &Stats,
    s: &[u64],
    whole: &Cheapest,
) -> Result<Finished, OutOfMemory>
    requires query { IsSoundQuery q.now }
    requires sound { IsSoundStats q.now stats.now }
    requires vector { IsSoundVector q.now stats.now s.now }
    requires whole { AreFound q.now stats.now s.now (whole_set q.now) (plan_in whole.now) }
    requires some { IsSome whole.now.any }
    requires in_order { is_grouped q.now ≡ false → IsSome (found_in (wants_order q.now) whole.now) }
    ensures { IfOk result (λ finished. IsCheapestTop q.now stats.now s.now whole.now (seen_top finished)) }
{
    if groups_rows(q) {
        let finished = best_groups(q, stats, s, whole)?;
        return Ok(finished);
    }
    let finished = best_rows(q, whole)?;
    Ok(finished)
}
