//! Indexes over one column of a table, and the ranges of their rows.
//!
//! An index keeps no cell: it is read beside the table that it was built of, which every call names
//! again.
ghost use Rattle.std.specs.Prelude.{◌≡◌, ◌<◌, ◌≤◌, IfOk, filter, length, max, slice_range};
ghost use Rattle.std.specs.List.{count_by};
ghost use Rattle.csv_tables.specs.Tables.{AreNumbers};
ghost use Rattle.table_index.specs.Bounds.{FitsColumn, lies_below, lies_up_to, lies_within};
ghost use Rattle.table_index.specs.Cuts.{Cut};
ghost use Rattle.table_index.specs.Distinct.{distinct_in};
ghost use Rattle.table_index.specs.Indexes.{AreOrdered, IsBuilt, rows_in_order};

use crate::bounds::{Bound, meets_high, meets_low};
use crate::distinct::distinct_rows;
use crate::sorting::sorted_rows;
use csv_tables::Table;
use row_values::OutOfMemory;
use std::alloc::Global;
use std::marker::Model;

/// The rows of a table in the order of one column, and of equal cells in the order of their
/// numbers.
#[derive(Debug, Drop)]
pub struct Index {
    column: u8,
    rows: Vec<u32>,
}

impl Model for Index {
    ghost use Rattle.table_index.specs.Indexes.{IndexValue};

    ghost Value = { IndexValue };

    ghost view = { λ index. record { column = index.column; rows = index.rows.items } };
}

/// How many of these rows, which stand in the order of a column, lie below a low end: they stand at
/// the front. Nothing is looked up where there is no such end.
fn count_below(t: &Table, column: usize, rows: &[u32], low: Bound<'_>) -> usize
    requires column { column < length t.now.schema }
    requires ordered { AreOrdered t.now column rows.now }
    requires fits { FitsColumn t.now column low }
    ensures cut { Cut (lies_below t.now column low.entry) rows.now result }
    ensures bound { result ≤ length rows.now }
{
    if let Bound::Free = low {
        return 0;
    }
    let numbers = t.numbers(column);
    rows.partition_point(|row| !meets_low(t, column, numbers, low, *row))
}

/// How many of these rows, which stand in the order of a column, don't lie above a high end.
fn count_up_to(t: &Table, column: usize, rows: &[u32], high: Bound<'_>) -> usize
    requires column { column < length t.now.schema }
    requires ordered { AreOrdered t.now column rows.now }
    requires fits { FitsColumn t.now column high }
    ensures cut { Cut (lies_up_to t.now column high.entry) rows.now result }
    ensures bound { result ≤ length rows.now }
{
    if let Bound::Free = high {
        return rows.len();
    }
    let numbers = t.numbers(column);
    rows.partition_point(|row| meets_high(t, column, numbers, high, *row))
}

impl Index {
    /// The index of this table over this column.
    pub fn build(alloc: Global, t: &Table, column: u8) -> Result<Index, OutOfMemory>
        requires { column < length t.now.schema }
        ensures built { IfOk result (λ index. IsBuilt t.now column index) }
        ensures rows { IfOk result (λ index. index.rows ≡ rows_in_order t.now column) }
    {
        let rows = sorted_rows(alloc, t, usize::from(column))?;
        Ok(Index { column, rows })
    }

    /// The column.
    pub fn column(&self) -> u8
        ensures { result ≡ self.now.column }
    {
        self.column
    }

    /// The rows in order.
    pub fn rows(&self) -> &[u32]
        ensures { result.now ≡ self.now.rows }
    {
        self.rows.as_slice()
    }

    /// The positions of the rows whose cells lie between two ends: how many positions lie below the
    /// low end, and how
    /// many don't lie above the high one, but at least the first number. Ends that cross hold no
    /// row between them.
    pub fn range(&self, t: &Table, lo: Bound<'_>, hi: Bound<'_>) -> (usize, usize)
        requires built { IsBuilt t.now self.now.column self.now }
        requires low { FitsColumn t.now self.now.column lo }
        requires high { FitsColumn t.now self.now.column hi }
        ensures low { result.0 ≡ count_by (lies_below t.now self.now.column lo.entry) self.now.rows }
        ensures high { result.1 ≡ max result.0 (count_by (lies_up_to t.now self.now.column hi.entry) self.now.rows) }
        ensures in_range { result.1 ≤ length self.now.rows }
        ensures rows { slice_range self.now.rows result.0 result.1
            ≡ filter (lies_within t.now self.now.column lo.entry hi.entry) self.now.rows }
    {
        let column = usize::from(self.column);
        let rows = self.rows.as_slice();
        let first = count_below(t, column, rows, lo);
        let end = count_up_to(t, column, rows, hi);
        (first, end.max(first))
    }

    /// How many distinct values the column has.
    pub fn distinct(&self, t: &Table) -> u64
        requires { IsBuilt t.now self.now.column self.now }
        ensures { result ≡ distinct_in t.now self.now.column }
    {
        let column = usize::from(self.column);
        distinct_rows(t, column, t.numbers(column), self.rows.as_slice())
    }
}
