//! The number of distinct values in a column.
//!
//! In a list in order equal values stand side by side, so that each distinct one is a change from
//! the one before.
ghost use Rattle.std.specs.Prelude.{◌≡◌, ◌<◌, ◌≤◌, IfOk, IfSome, IsSortedBy, length, pos, slice_index, slice_index_or};
ghost use Rattle.std.specs.Ordering.{int_cmp, is_eq, is_lt};
ghost use Rattle.csv_tables.specs.Tables.{AreNumbers, cell_at};
ghost use Rattle.table_index.specs.Distinct.{cells_of, distinct_count, distinct_in, is_new, is_same_cell};
ghost use Rattle.table_index.specs.Indexes.{is_before};

use crate::cells::has_same_cell;
use crate::index::Index;
use csv_tables::Table;
use row_values::OutOfMemory;
use std::alloc::Global;

/// Whether no row before this position has an equal cell, where the rows stand in the order of
/// their cells.
fn is_new_cell(
    t: &Table,
    column: usize,
    numbers: Option<&[i64]>,
    rows: &[u32],
    position: usize,
) -> bool
    requires column { column < length t.now.schema }
    requires numbers { IfSome numbers (λ numbers. AreNumbers t.now column numbers.now) }
    requires in_order { IsSortedBy (is_before t.now column) rows.now }
    requires position { position < length rows.now }
    ensures { result ≡ is_new is_same_cell (cells_of t.now column rows.now) position
        (cell_at t.now (slice_index rows.now position) column) }
{
    position == 0 || !has_same_cell(t, column, numbers, rows[position - 1], rows[position])
}

/// How many distinct cells these rows have, which stand in the order of their cells.
pub(crate) fn distinct_rows(t: &Table, column: usize, numbers: Option<&[i64]>, rows: &[u32]) -> u64
    requires column { column < length t.now.schema }
    requires numbers { IfSome numbers (λ numbers. AreNumbers t.now column numbers.now) }
    requires in_order { IsSortedBy (is_before t.now column) rows.now }
    ensures { result ≡ distinct_count is_same_cell (cells_of t.now column rows.now) }
{
    let mut count = 0;
    for position in 0..rows.len() {
        count += u64::from(is_new_cell(t, column, numbers, rows, position));
    }
    count
}

/// Whether a number in a list in order equals none before it.
fn is_new_number(numbers: &[i64], position: usize) -> bool
    requires in_order { IsSortedBy (λ a b. is_lt (int_cmp a b)) numbers.now }
    requires position { position < length numbers.now }
    ensures { result ≡ is_new (λ a b. is_eq (int_cmp a b)) numbers.now position
        (slice_index_or numbers.now position (pos 0)) }
{
    position == 0 || numbers[position - 1].cmp(&numbers[position]).is_ne()
}

/// How many distinct numbers there are in a list in order.
fn distinct_sorted(numbers: &[i64]) -> u64
    requires { IsSortedBy (λ a b. is_lt (int_cmp a b)) numbers.now }
    ensures { result ≡ distinct_count (λ a b. is_eq (int_cmp a b)) numbers.now }
{
    let mut count = 0;
    for position in 0..numbers.len() {
        count += u64::from(is_new_number(numbers, position));
    }
    count
}

/// How many distinct numbers there are: a copy of them is sorted.
fn distinct_numbers(alloc: Global, numbers: &[i64]) -> Result<u64, OutOfMemory>
    ensures { IfOk result (λ count. count ≡ distinct_count (λ a b. is_eq (int_cmp a b)) numbers.now) }
{
    let mut sorted = Vec::with_capacity(alloc, numbers.len())?;
    sorted.extend_from_slice(numbers)?;
    sorted.sort_unstable();
    Ok(distinct_sorted(sorted.as_slice()))
}

/// How many distinct values a column has, without an index.
pub fn distinct_values(alloc: Global, t: &Table, column: u8) -> Result<u64, OutOfMemory>
    requires { column < length t.now.schema }
    ensures { IfOk result (λ count. count ≡ distinct_in t.now column) }
{
    let count = match t.numbers(usize::from(column)) {
        Some(numbers) => distinct_numbers(alloc, numbers)?,
        None => Index::build(alloc, t, column)?.distinct(t),
    };
    Ok(count)
}
