//! Bounds: the ends between which cells are looked for.
ghost use Rattle.std.specs.Prelude.{◌≡◌, ◌<◌, IfSome, length};
ghost use Rattle.csv_tables.specs.Tables.{AreNumbers, cell_at};
ghost use Rattle.table_index.specs.Bounds.{meets_low as is_met_low, meets_high as is_met_high};

use crate::cells::cell_to;
use csv_tables::Table;
use row_values::Value;

/// An end of a range: none, a value that belongs to it, or a value that doesn't.
#[derive(Clone, Copy)]
pub enum Bound<'a> {
    Free,
    Closed(&'a Value),
    Strict(&'a Value),
}

/// Whether the cell of a row lies at or above a low end, and above a strict one.
#[inline]
pub(crate) fn meets_low(
    t: &Table,
    column: usize,
    numbers: Option<&[i64]>,
    low: Bound<'_>,
    row: u32,
) -> bool
    requires column { column < length t.now.schema }
    requires numbers { IfSome numbers (λ numbers. AreNumbers t.now column numbers.now) }
    ensures { result ≡ is_met_low low.entry (cell_at t.now row column) }
{
    match low {
        Bound::Free => true,
        Bound::Closed(end) => {
            cell_to(t, column, numbers, row, end).is_some_and(|order| order.is_ge())
        }
        Bound::Strict(end) => {
            cell_to(t, column, numbers, row, end).is_some_and(|order| order.is_gt())
        }
    }
}

/// Whether the cell of a row lies at or below a high end, and below a strict one.
#[inline]
pub(crate) fn meets_high(
    t: &Table,
    column: usize,
    numbers: Option<&[i64]>,
    high: Bound<'_>,
    row: u32,
) -> bool
    requires column { column < length t.now.schema }
    requires numbers { IfSome numbers (λ numbers. AreNumbers t.now column numbers.now) }
    ensures { result ≡ is_met_high high.entry (cell_at t.now row column) }
{
    match high {
        Bound::Free => true,
        Bound::Closed(end) => {
            cell_to(t, column, numbers, row, end).is_some_and(|order| order.is_le())
        }
        Bound::Strict(end) => {
            cell_to(t, column, numbers, row, end).is_some_and(|order| order.is_lt())
        }
    }
}
