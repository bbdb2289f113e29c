//! Plans of a set by a hash join of plans of two parts.
ghost use Rattle.std.specs.Prelude.{◌≡◌, ◌<◌, ◌≤◌, ◌+◌, ◌^◌, IfOk, length};
ghost use Rattle.row_values.specs.Statements.{IsSoundQuery};
ghost use Rattle.plan_trees.specs.Statistics.{IsSoundStats, IsSoundVector};
ghost use Rattle.plan_costs.specs.Cards.{AreCards};
ghost use Rattle.join_optimizer.specs.Found.{AreFound, plan_in, table_of};
ghost use Rattle.cost_model.specs.LeastCost.{TakesSplit};
ghost use Rattle.join_optimizer.specs.Search.{AreCheapest, Offered, TakesBetween};

use crate::found::{Cheapest, take_hash_join};
use crate::last_places::cell_at;
use plan_costs::join_cost_with;
use plan_trees::{Stats, hash_join_edge};
use row_values::{OutOfMemory, Query};
use std::alloc::Global;

/// Takes the hash join with this inner side, where an edge joins it to the rest of the set and it is the cheapest.
fn by_split(
    alloc: Global,
    q: &Query,
    stats: &Stats,
    s: &[u64],
    cards: &[u128],
    cells: &[Cheapest],
    set: u8,
    right: u8,
    best: Cheapest,
) -> Result<Cheapest, OutOfMemory>
    requires query { IsSoundQuery q.now }
    requires sound { IsSoundStats q.now stats.now }
    requires vector { IsSoundVector q.now stats.now s.now }
    requires cards { AreCards q.now stats.now s.now cards.now }
    requires there { set < 2 ^ length q.now.places }
    requires some { 1 ≤ right }
    requires part { right < set }
    requires cells { AreCheapest q.now stats.now s.now cells.now set }
    requires best { AreFound q.now stats.now s.now set (plan_in best) }
    ensures { IfOk result (λ after. Offered q.now stats.now s.now set
        (TakesSplit q.now stats.now s.now (table_of cells.now) set right) best after) }
{
    let left = set - right;
    let Some(edge) = hash_join_edge(q, left, right) else {
        return Ok(best);
    };
    let cost = join_cost_with(q, stats, cards, left, right, s);
    let outer = cell_at(cells, left);
    let inner = cell_at(cells, right);
    let any = take_hash_join(alloc, &outer.any, &inner.any, edge, cost, best.any)?;
    let sorted = take_hash_join(alloc, &outer.sorted, &inner.any, edge, cost, best.sorted)?;
    Ok(Cheapest { any, sorted })
}

/// The cheapest of the hash joins.
pub(crate) fn by_splits(
    alloc: Global,
    q: &Query,
    stats: &Stats,
    s: &[u64],
    cards: &[u128],
    cells: &[Cheapest],
    set: u8,
    first: Cheapest,
) -> Result<Cheapest, OutOfMemory>
    requires query { IsSoundQuery q.now }
    requires sound { IsSoundStats q.now stats.now }
    requires vector { IsSoundVector q.now stats.now s.now }
    requires cards { AreCards q.now stats.now s.now cards.now }
    requires there { set < 2 ^ length q.now.places }
    requires some { 0 < set }
    requires cells { AreCheapest q.now stats.now s.now cells.now set }
    requires first { AreFound q.now stats.now s.now set (plan_in first) }
    ensures { IfOk result (λ best. Offered q.now stats.now s.now set
        (TakesBetween (TakesSplit q.now stats.now s.now (table_of cells.now) set) 1 set) first best) }
{
    let mut best = first;
    for right in 1..set {
        best = by_split(alloc, q, stats, s, cards, cells, set, right, best)?;
    }
    Ok(best)
}
