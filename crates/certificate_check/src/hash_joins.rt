//! The inequalities by hash joins of plans of two parts.
ghost use Rattle.std.specs.Prelude.{◌≡◌, ◌<◌, ◌≤◌, ◌^◌, ◌↔◌, ℕ, IsTrue, length};
ghost use Rattle.plan_trees.specs.Statistics.{IsSoundStats, IsSoundVector};
ghost use Rattle.cost_model.specs.LeastCost.{TakesSplit};
ghost use Rattle.plan_costs.specs.BestPlans.{table_of_cells};
ghost use Rattle.plan_costs.specs.Cards.{AreCards};
ghost use Rattle.certificate_check.specs.Bounds.{HasEachCell, costs_of};

use crate::bounds::{cell_at, takes_both};
use plan_costs::{Cell, join_cost_with};
use plan_trees::{Stats, hash_join_edge};
use row_values::Query;

/// Whether the cell is no more than what hash joins with this inner side cost.
fn takes_split(
    q: &Query,
    stats: &Stats,
    s: &[u64],
    cards: &[u128],
    cells: &[Cell],
    set: u8,
    right: u8,
    cell: Cell,
) -> bool
    requires sound { IsSoundStats q.now stats.now }
    requires vector { IsSoundVector q.now stats.now s.now }
    requires cards { AreCards q.now stats.now s.now cards.now }
    requires one_each { HasEachCell q.now cells.now }
    requires there { set < 2 ^ length q.now.places }
    requires some { 0 < right }
    requires part { right < set }
    ensures { IsTrue result
        ↔ TakesSplit q.now stats.now s.now (table_of_cells cells.now) set right (costs_of cell) }
{
    let left = set - right;
    let Some(_) = hash_join_edge(q, left, right) else {
        return true;
    };
    let cost = join_cost_with(q, stats, cards, left, right, s);
    takes_both(cell_at(cells, left), cell_at(cells, right), cost, cell)
}

/// Whether the cell is no more than what hash joins cost.
pub(crate) fn takes_splits(
    q: &Query,
    stats: &Stats,
    s: &[u64],
    cards: &[u128],
    cells: &[Cell],
    set: u8,
    cell: Cell,
) -> bool
    requires sound { IsSoundStats q.now stats.now }
    requires vector { IsSoundVector q.now stats.now s.now }
    requires cards { AreCards q.now stats.now s.now cards.now }
    requires one_each { HasEachCell q.now cells.now }
    requires some { 0 < set }
    requires there { set < 2 ^ length q.now.places }
    ensures { IsTrue result ↔ ((right : ℕ) → 0 < right → right < set
        → TakesSplit q.now stats.now s.now (table_of_cells cells.now) set right (costs_of cell)) }
{
    for right in 1..set {
        if !takes_split(q, stats, s, cards, cells, set, right, cell) {
            return false;
        }
    }
    true
}
