//! The cells of one column, by row number.
//!
//! Where the column is packed, its numbers are compared and no cell is read.
ghost use Rattle.std.specs.Prelude.{◌≡◌, ◌<◌, IfSome, Some, length};
ghost use Rattle.std.specs.Option.{option_map};
ghost use Rattle.csv_tables.specs.Tables.{AreNumbers, cell_at};
ghost use Rattle.row_values.specs.Orders.{order_between};
ghost use Rattle.table_index.specs.Distinct.{is_same_cell};

use csv_tables::Table;
use row_values::{Value, compare};
use std::cmp::Ordering;

/// The cell of a row in this column; none where there is no such row.
pub(crate) fn cell(t: &Table, column: usize, row: u32) -> Option<&Value>
    requires { column < length t.now.schema }
    ensures { option_map (λ cell. cell.now) result ≡ cell_at t.now row column }
{
    let row = row as usize;
    if row >= t.len() {
        return None;
    }
    Some(t.cell(row, column))
}

/// How the cell of a row stands to a value.
#[inline]
pub(crate) fn cell_to(
    t: &Table,
    column: usize,
    numbers: Option<&[i64]>,
    row: u32,
    value: &Value,
) -> Option<Ordering>
    requires column { column < length t.now.schema }
    requires numbers { IfSome numbers (λ numbers. AreNumbers t.now column numbers.now) }
    ensures { result ≡ order_between (cell_at t.now row column) (Some value.now) }
{
    match (numbers, value) {
        (Some(numbers), Value::Int(value)) => Some(numbers.get(row as usize)?.cmp(value)),
        _ => compare(cell(t, column, row)?, value),
    }
}

/// Whether two rows have equal cells.
pub(crate) fn has_same_cell(
    t: &Table,
    column: usize,
    numbers: Option<&[i64]>,
    a: u32,
    b: u32,
) -> bool
    requires column { column < length t.now.schema }
    requires numbers { IfSome numbers (λ numbers. AreNumbers t.now column numbers.now) }
    ensures { result ≡ is_same_cell (cell_at t.now a column) (cell_at t.now b column) }
{
    match numbers {
        Some(numbers) => numbers
            .get(a as usize)
            .cmp(&numbers.get(b as usize))
            .is_eq(),
        None => cell(t, column, a).cmp(&cell(t, column, b)).is_eq(),
    }
}
