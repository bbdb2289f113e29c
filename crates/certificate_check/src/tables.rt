//! Whether a table is feasible: its inequalities, set by set.
ghost use Rattle.std.specs.Prelude.{◌≡◌, ◌<◌, ◌≤◌, ◌+◌, ◌*◌, ◌^◌, ◌↔◌, ℕ, IfOk, IsTrue, MatchOption, length};
ghost use Rattle.row_values.specs.Statements.{IsSoundQuery};
ghost use Rattle.plan_trees.specs.PlanSpace.{wants_order};
ghost use Rattle.plan_trees.specs.Statistics.{IsSoundStats, IsSoundVector};
ghost use Rattle.cost_model.specs.LeastCost.{FitsTable, IsFeasible, IsFeasibleAt, TakesSort};
ghost use Rattle.plan_costs.specs.BestPlans.{table_of_cells};
ghost use Rattle.plan_costs.specs.Cards.{AreCards};
ghost use Rattle.plan_costs.specs.Least.{AreLeastAccesses};
ghost use Rattle.certificate_check.specs.Bounds.{FitsGroups, HasEachCell, IsLeastFailing, costs_of};

use crate::bounds::{cell_at, is_at_most_over};
use crate::hash_joins::takes_splits;
use crate::last_places::takes_places;
use plan_costs::{Cell, PricedAccess, all_cards, card, least_accesses, sort_cost_with};
use plan_trees::{Stats, all_places, groups_rows, has_wanted, wants_some_order};
use row_values::{OutOfMemory, Query};
use std::alloc::Global;

/// Whether the cell is no more, for the wanted order, than what a sort over its number for all plans costs.
fn takes_sort(q: &Query, stats: &Stats, s: &[u64], cards: &[u128], set: u8, cell: Cell) -> bool
    requires sound { IsSoundStats q.now stats.now }
    requires vector { IsSoundVector q.now stats.now s.now }
    requires cards { AreCards q.now stats.now s.now cards.now }
    requires there { set < 2 ^ length q.now.places }
    ensures { IsTrue result ↔ TakesSort q.now stats.now s.now set (costs_of cell) }
{
    if !wants_some_order(q) {
        return true;
    }
    if !has_wanted(q, set) {
        return true;
    }
    let cost = sort_cost_with(q, stats, cards, set, s);
    is_at_most_over(cell.sorted, Some(cell.any), cost)
}

/// Whether all inequalities of the set hold.
fn is_feasible_at(
    alloc: Global,
    q: &Query,
    stats: &Stats,
    s: &[u64],
    cards: &[u128],
    loops: &[PricedAccess],
    cells: &[Cell],
    set: u8,
) -> Result<bool, OutOfMemory>
    requires query { IsSoundQuery q.now }
    requires sound { IsSoundStats q.now stats.now }
    requires vector { IsSoundVector q.now stats.now s.now }
    requires cards { AreCards q.now stats.now s.now cards.now }
    requires loops { AreLeastAccesses q.now stats.now s.now (length q.now.places) loops.now }
    requires one_each { HasEachCell q.now cells.now }
    requires some { 0 < set }
    requires there { set < 2 ^ length q.now.places }
    ensures { IfOk result (λ holds. IsTrue holds
        ↔ IsFeasibleAt q.now stats.now s.now (table_of_cells cells.now) set) }
{
    let cell = cell_at(cells, set);
    if !takes_sort(q, stats, s, cards, set, cell) {
        return Ok(false);
    }
    if !takes_splits(q, stats, s, cards, cells, set, cell) {
        return Ok(false);
    }
    let holds = takes_places(alloc, q, stats, s, cards, loops, cells, set, cell)?;
    Ok(holds)
}

/// The least set with an inequality that fails.
fn least_failing(
    alloc: Global,
    q: &Query,
    stats: &Stats,
    s: &[u64],
    cards: &[u128],
    loops: &[PricedAccess],
    cells: &[Cell],
) -> Result<Option<u8>, OutOfMemory>
    requires query { IsSoundQuery q.now }
    requires sound { IsSoundStats q.now stats.now }
    requires vector { IsSoundVector q.now stats.now s.now }
    requires cards { AreCards q.now stats.now s.now cards.now }
    requires loops { AreLeastAccesses q.now stats.now s.now (length q.now.places) loops.now }
    requires one_each { HasEachCell q.now cells.now }
    ensures { IfOk result (λ found. MatchOption found
        (IsFeasible q.now stats.now s.now (table_of_cells cells.now))
        (IsLeastFailing q.now stats.now s.now (table_of_cells cells.now))) }
{
    let end = all_places(q.places().len()) + 1;
    for set in 1..end {
        let holds = is_feasible_at(alloc, q, stats, s, cards, loops, cells, set)?;
        if !holds {
            return Ok(Some(set));
        }
    }
    Ok(None)
}

/// The least set with an inequality of the table that fails; none where the table is feasible.
pub(crate) fn bad_set(
    alloc: Global,
    q: &Query,
    stats: &Stats,
    s: &[u64],
    cells: &[Cell],
) -> Result<Option<u8>, OutOfMemory>
    requires query { IsSoundQuery q.now }
    requires sound { IsSoundStats q.now stats.now }
    requires vector { IsSoundVector q.now stats.now s.now }
    requires one_each { HasEachCell q.now cells.now }
    ensures { IfOk result (λ found. MatchOption found
        (IsFeasible q.now stats.now s.now (table_of_cells cells.now))
        (IsLeastFailing q.now stats.now s.now (table_of_cells cells.now))) }
{
    let cards = all_cards(alloc, q, stats, s)?;
    let loops = least_accesses(alloc, q, stats, s)?;
    let found = least_failing(alloc, q, stats, s, &cards, &loops, cells)?;
    Ok(found)
}

/// Whether the table has one cell for each set of places but the empty one.
pub(crate) fn has_each_cell(q: &Query, cells: &[Cell]) -> bool
    ensures { IsTrue result ↔ HasEachCell q.now cells.now }
{
    cells.len() == usize::from(all_places(q.places().len()))
}

/// The number of the plans that may stand under the top, where rows aren't grouped.
fn rows_bound(q: &Query, whole: Cell) -> Option<u128>
    ensures { result ≡ costs_of whole (wants_order q.now) }
{
    if wants_some_order(q) {
        whole.sorted
    } else {
        Some(whole.any)
    }
}

/// What each of so many rows costs to group, as they come or by a hash table, at this weight.
fn grouping_cost(weight: u16, rows: u128) -> u128
    requires { weight * rows < 2 ^ 128 }
    ensures { result ≡ weight * rows }
{
    u128::from(weight) * rows
}

/// Whether the number is at most what tops make of the cell of all places, where rows are grouped.
fn fits_groups(q: &Query, stats: &Stats, s: &[u64], whole: Cell, least: u128) -> bool
    requires query { IsSoundQuery q.now }
    requires sound { IsSoundStats q.now stats.now }
    requires vector { IsSoundVector q.now stats.now s.now }
    ensures { IsTrue result ↔ FitsGroups q.now stats.now s.now (costs_of whole) least }
{
    let rows = card(q, stats, all_places(q.places().len()), s);
    let weights = stats.weights();
    if !is_at_most_over(Some(least), whole.sorted, grouping_cost(weights.row, rows)) {
        return false;
    }
    is_at_most_over(
        Some(least),
        Some(whole.any),
        grouping_cost(weights.hash, rows),
    )
}

/// Whether the number is at most what tops make of the cell of all places.
pub(crate) fn fits_table(q: &Query, stats: &Stats, s: &[u64], cells: &[Cell], least: u128) -> bool
    requires query { IsSoundQuery q.now }
    requires sound { IsSoundStats q.now stats.now }
    requires vector { IsSoundVector q.now stats.now s.now }
    requires one_each { HasEachCell q.now cells.now }
    ensures { IsTrue result ↔ FitsTable q.now stats.now s.now (table_of_cells cells.now) least }
{
    let whole = cell_at(cells, all_places(q.places().len()));
    if groups_rows(q) {
        fits_groups(q, stats, s, whole, least)
    } else {
        is_at_most_over(Some(least), rows_bound(q, whole), 0)
    }
}
