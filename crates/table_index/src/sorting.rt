//! The rows of a table in the order of a column.
//!
//! Where the column is packed, pairs of number and row are sorted, so that the sort reads its own
//! list alone.
ghost use Rattle.std.specs.Prelude.{◌≡◌, ◌<◌, ◌≤◌, All, IfOk, IsPermutation, IsSortedBy, Some, length, map, slice_get};
ghost use Rattle.std.specs.Ordering.{is_lt};
ghost use Rattle.csv_tables.specs.Tables.{AreNumbers};
ghost use Rattle.csv_tables.specs.declared.table.TheConstants.{ROW_LIMIT};
ghost use Rattle.row_values.specs.RowNumbers.{row_numbers};
ghost use Rattle.table_index.specs.Indexes.{AreOrdered, number_order, row_order};

use crate::cells::cell;
use csv_tables::Table;
use row_values::OutOfMemory;
use std::alloc::Global;
use std::cmp::Ordering;

/// The numbers of so many rows, rising.
fn all_rows(alloc: Global, count: usize) -> Result<Vec<u32>, OutOfMemory>
    requires { count ≤ ROW_LIMIT }
    ensures { IfOk result (λ rows. rows.items ≡ row_numbers count) }
{
    let mut rows = Vec::with_capacity(alloc, count)?;
    for row in 0..count {
        rows.push(row as u32)?;
    }
    Ok(rows)
}

/// How two rows stand in a column; within one column the derived order of values is the value
/// order.
fn order_of(t: &Table, column: usize, a: u32, b: u32) -> Ordering
    requires { column < length t.now.schema }
    ensures { result ≡ row_order t.now column a b }
{
    cell(t, column, a).cmp(&cell(t, column, b)).then(a.cmp(&b))
}

/// The rows in the order of their cells.
fn sorted_by_cell(alloc: Global, t: &Table, column: usize) -> Result<Vec<u32>, OutOfMemory>
    requires { column < length t.now.schema }
    ensures { IfOk result (λ rows. AreOrdered t.now column rows.items) }
{
    let mut rows = all_rows(alloc, t.len())?;
    rows.sort_unstable_by(|a, b| order_of(t, column, *a, *b));
    Ok(rows)
}

/// The numbers of a column, each beside its row.
fn numbered(alloc: Global, numbers: &[i64]) -> Result<Vec<(i64, u32)>, OutOfMemory>
    requires { length numbers.now ≤ ROW_LIMIT }
    ensures rows { IfOk result (λ pairs. map (λ pair. pair.1) pairs.items ≡ row_numbers (length numbers.now)) }
    ensures numbers { IfOk result (λ pairs. All (λ pair. slice_get numbers.now pair.1 ≡ Some pair.0) pairs.items) }
{
    let mut pairs = Vec::with_capacity(alloc, numbers.len())?;
    for (row, number) in numbers.iter().enumerate() {
        pairs.push((*number, row as u32))?;
    }
    Ok(pairs)
}

/// The rows of these pairs.
fn rows_of(alloc: Global, pairs: &[(i64, u32)]) -> Result<Vec<u32>, OutOfMemory>
    ensures { IfOk result (λ rows. rows.items ≡ map (λ pair. pair.1) pairs.now) }
{
    let mut rows = Vec::with_capacity(alloc, pairs.len())?;
    for pair in pairs {
        rows.push(pair.1)?;
    }
    Ok(rows)
}

/// The rows in the order of a packed column.
fn sorted_by_number(alloc: Global, numbers: &[i64]) -> Result<Vec<u32>, OutOfMemory>
    requires { length numbers.now ≤ ROW_LIMIT }
    ensures each_once { IfOk result (λ rows. IsPermutation (row_numbers (length numbers.now)) rows.items) }
    ensures in_order { IfOk result (λ rows. IsSortedBy (λ a b. is_lt (number_order numbers.now a b)) rows.items) }
{
    let mut pairs = numbered(alloc, numbers)?;
    pairs.sort_unstable();
    let rows = rows_of(alloc, pairs.as_slice())?;
    Ok(rows)
}

/// The rows of a table in the order of a column.
pub(crate) fn sorted_rows(alloc: Global, t: &Table, column: usize) -> Result<Vec<u32>, OutOfMemory>
    requires { column < length t.now.schema }
    ensures { IfOk result (λ rows. AreOrdered t.now column rows.items) }
{
    let rows = match t.numbers(column) {
        Some(numbers) => sorted_by_number(alloc, numbers)?,
        None => sorted_by_cell(alloc, t, column)?,
    };
    Ok(rows)
}
