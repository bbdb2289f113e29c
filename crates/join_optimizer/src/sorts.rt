//! The cheapest plan of a set in the wanted order, where a sort may stand.
ghost use Rattle.std.specs.Prelude.{◌<◌, ◌^◌, IfOk, length};
ghost use Rattle.row_values.specs.Statements.{IsSoundQuery};
ghost use Rattle.plan_trees.specs.Statistics.{IsSoundStats, IsSoundVector};
ghost use Rattle.plan_costs.specs.Cards.{AreCards};
ghost use Rattle.join_optimizer.specs.Found.{AreFound, plan_in};
ghost use Rattle.cost_model.specs.LeastCost.{TakesSort};
ghost use Rattle.join_optimizer.specs.Search.{Offered};

use crate::found::{Cheapest, take_ordered};
use plan_costs::sort_cost_with;
use plan_trees::{Stats, has_wanted, wants_some_order};
use row_values::{OutOfMemory, Query};
use std::alloc::Global;

/// Takes the cheapest plan, sorted, where the wanted order can be seen and no plan that has it costs less.
pub(crate) fn by_sort(
    alloc: Global,
    q: &Query,
    stats: &Stats,
    s: &[u64],
    cards: &[u128],
    set: u8,
    best: Cheapest,
) -> Result<Cheapest, OutOfMemory>
    requires query { IsSoundQuery q.now }
    requires sound { IsSoundStats q.now stats.now }
    requires vector { IsSoundVector q.now stats.now s.now }
    requires cards { AreCards q.now stats.now s.now cards.now }
    requires there { set < 2 ^ length q.now.places }
    requires best { AreFound q.now stats.now s.now set (plan_in best) }
    ensures { IfOk result (λ after. Offered q.now stats.now s.now set
        (TakesSort q.now stats.now s.now set) best after) }
{
    if !wants_some_order(q) {
        return Ok(best);
    }
    if !has_wanted(q, set) {
        return Ok(best);
    }
    let cost = sort_cost_with(q, stats, cards, set, s);
    let Cheapest {
        any,
        sorted: before,
    } = best;
    let sorted = take_ordered(alloc, q, &any, cost, before)?;
    Ok(Cheapest { any, sorted })
}
