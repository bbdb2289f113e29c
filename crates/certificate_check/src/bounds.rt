//! The numbers of a cell, compared with what plans cost. No sum wraps: what passes 128 bits is above every number.
ghost use Rattle.std.specs.Prelude.{◌≡◌, ◌≤◌, ◌<◌, ◌+◌, ◌↔◌, ℕ, Bool, IsTrue, length};
ghost use Rattle.cost_model.specs.LeastCost.{AtMost, TakesSort};
ghost use Rattle.plan_costs.specs.BestPlans.{table_of_cells};
ghost use Rattle.certificate_check.specs.Bounds.{TakesAccess, TakesBoth, TakesOver, costs_of};

use plan_costs::Cell;
use plan_trees::{Access, is_sorted_access};
use row_values::Query;

/// The cell of the set.
pub(crate) fn cell_at(cells: &[Cell], set: u8) -> Cell
    requires some { 0 < set }
    requires there { set ≤ length cells.now }
    ensures { (sorted : Bool) → table_of_cells cells.now sorted set ≡ costs_of result sorted }
{
    cells[usize::from(set) - 1]
}

/// Whether the number is at most the sum.
fn is_at_most_sum(number: u128, cost: u128, more: u128) -> bool
    ensures { IsTrue result ↔ (number ≤ cost + more) }
{
    number <= cost.saturating_add(more)
}

/// Whether the number is at most the sum of three.
fn is_at_most_sum_of_three(number: u128, outer: u128, inner: u128, more: u128) -> bool
    ensures { IsTrue result ↔ (number ≤ outer + inner + more) }
{
    number <= outer.saturating_add(inner).saturating_add(more)
}

/// Whether the bound is at most this number; where there is none it isn't.
pub(crate) fn is_at_most(bound: Option<u128>, cost: u128) -> bool
    ensures { IsTrue result ↔ AtMost bound cost }
{
    match bound {
        Some(number) => number <= cost,
        None => false,
    }
}

/// Whether the bound is at most the base and so much more; where there is no base it is.
pub(crate) fn is_at_most_over(bound: Option<u128>, base: Option<u128>, more: u128) -> bool
    ensures { IsTrue result ↔ ((cost : ℕ) → AtMost base cost → AtMost bound (cost + more)) }
{
    match base {
        None => true,
        Some(cost) => match bound {
            Some(number) => is_at_most_sum(number, cost, more),
            None => false,
        },
    }
}

/// Whether the bound is at most the two sides and so much more; where there is no outer side it is.
fn is_at_most_both(bound: Option<u128>, outer: Option<u128>, inner: u128, more: u128) -> bool
    ensures { IsTrue result ↔ ((outer_cost inner_cost : ℕ) → AtMost outer outer_cost → inner ≤ inner_cost
        → AtMost bound (outer_cost + inner_cost + more)) }
{
    match outer {
        None => true,
        Some(cost) => match bound {
            Some(number) => is_at_most_sum_of_three(number, cost, inner, more),
            None => false,
        },
    }
}

/// Whether the cell is no more than what the access costs.
pub(crate) fn takes_access(q: &Query, access: Access, cost: u128, cell: Cell) -> bool
    ensures { IsTrue result ↔ TakesAccess q.now access cost (costs_of cell) }
{
    if cell.any > cost {
        return false;
    }
    if !is_sorted_access(q, access) {
        return true;
    }
    is_at_most(cell.sorted, cost)
}

/// Whether the cell is no more than so much more over the outer cell.
pub(crate) fn takes_over(outer: Cell, more: u128, cell: Cell) -> bool
    ensures { IsTrue result ↔ TakesOver (costs_of outer) more (costs_of cell) }
{
    if !is_at_most_sum(cell.any, outer.any, more) {
        return false;
    }
    is_at_most_over(cell.sorted, outer.sorted, more)
}

/// Whether the cell is no more than so much more over both cells.
pub(crate) fn takes_both(outer: Cell, inner: Cell, more: u128, cell: Cell) -> bool
    ensures { IsTrue result ↔ TakesBoth (costs_of outer) (costs_of inner) more (costs_of cell) }
{
    if !is_at_most_both(Some(cell.any), Some(outer.any), inner.any, more) {
        return false;
    }
    is_at_most_both(cell.sorted, outer.sorted, inner.any, more)
}
