//! The cheapest plans of all sets of places, the smaller sets first.
ghost use Rattle.std.specs.Prelude.{◌<◌, ◌^◌, IfOk, length};
ghost use Rattle.row_values.specs.Statements.{IsSoundQuery};
ghost use Rattle.plan_trees.specs.Statistics.{IsSoundStats, IsSoundVector};
ghost use Rattle.plan_costs.specs.Cards.{AreCards};
ghost use Rattle.join_optimizer.specs.Found.{AreFound, cost_in, plan_in, table_of};
ghost use Rattle.plan_costs.specs.Least.{AreLeastAccesses};
ghost use Rattle.cost_model.specs.LeastCost.{IsFeasiblePotential};
ghost use Rattle.join_optimizer.specs.Search.{AreCheapest};

use crate::found::Cheapest;
use crate::hash_joins::by_splits;
use crate::last_places::by_places;
use crate::sorts::by_sort;
use plan_costs::PricedAccess;
use plan_trees::{Stats, all_places};
use row_values::{OutOfMemory, Query};
use std::alloc::Global;

/// The cheapest plans of the set, over those of the smaller sets.
fn cheapest_of(
    alloc: Global,
    q: &Query,
    stats: &Stats,
    s: &[u64],
    cards: &[u128],
    loops: &[PricedAccess],
    cells: &[Cheapest],
    set: u8,
) -> Result<Cheapest, OutOfMemory>
    requires query { IsSoundQuery q.now }
    requires sound { IsSoundStats q.now stats.now }
    requires vector { IsSoundVector q.now stats.now s.now }
    requires cards { AreCards q.now stats.now s.now cards.now }
    requires loops { AreLeastAccesses q.now stats.now s.now (length q.now.places) loops.now }
    requires some { 0 < set }
    requires there { set < 2 ^ length q.now.places }
    requires cells { AreCheapest q.now stats.now s.now cells.now set }
    ensures found { IfOk result (λ best. AreFound q.now stats.now s.now set (plan_in best)) }
    ensures feasible { IfOk result (λ best. IsFeasiblePotential q.now stats.now s.now (table_of cells.now) set
        (cost_in best)) }
{
    let placed = by_places(alloc, q, stats, s, cards, loops, cells, set)?;
    let joined = by_splits(alloc, q, stats, s, cards, cells, set, placed)?;
    let best = by_sort(alloc, q, stats, s, cards, set, joined)?;
    Ok(best)
}

/// The cheapest plans of all sets of places; the first cell is that of the empty set, which has none.
pub(crate) fn cheapest_plans(
    alloc: Global,
    q: &Query,
    stats: &Stats,
    s: &[u64],
    cards: &[u128],
    loops: &[PricedAccess],
) -> Result<Vec<Cheapest>, OutOfMemory>
    requires query { IsSoundQuery q.now }
    requires sound { IsSoundStats q.now stats.now }
    requires vector { IsSoundVector q.now stats.now s.now }
    requires cards { AreCards q.now stats.now s.now cards.now }
    requires loops { AreLeastAccesses q.now stats.now s.now (length q.now.places) loops.now }
    ensures { IfOk result (λ cells. AreCheapest q.now stats.now s.now cells.items
        (2 ^ length q.now.places)) }
{
    let mut cells = Vec::new(alloc);
    cells.push(Cheapest {
        any: None,
        sorted: None,
    })?;
    let end = all_places(q.places().len()) + 1;
    for set in 1..end {
        let best = cheapest_of(alloc, q, stats, s, cards, loops, &cells, set)?;
        cells.push(best)?;
    }
    Ok(cells)
}
