//! The row numbers that an access path offers, one at a time.
//!
//! A sequential scan counts the rows of its place; an index scan walks the ranges of positions that
//! its predicate meets, one behind the other, or all positions. No predicate is tested here. The way
//! in is `row_cursor`.
ghost use Rattle.std.specs.Prelude.{◌≡◌, ◌++◌, [], IfNone, IfOk, IsTrue, Some, length, slice_get};
ghost use Rattle.std.specs.Option.{option_map, option_to_list};
ghost use Rattle.index_ranges.specs.Ranges.{are_within};
ghost use Rattle.plan_trees.specs.Indexes.{has_index};
ghost use Rattle.plan_trees.specs.PlanSpace.{IsValidAccess, column_of};
ghost use Rattle.plan_trees.specs.declared.plans.Access.TheVariants.{Seq, Range, Full};
ghost use Rattle.plan_operators.specs.Sources.{IsSource, masks_read};
ghost use Rattle.row_values.specs.Statements.{IsColumn};
ghost use Rattle.pull_operators.specs.RowsLeft.{IsCursorOf, IsWithin, index_rows_left, numbers_left, rows_left};

use index_ranges::ranges_of;
use plan_operators::{Source, index_there, table_there, test_of};
use plan_trees::Access;
use row_values::OutOfMemory;
use std::alloc::Global;

/// Row numbers from the next one up to an end.
#[derive(Drop)]
pub(crate) struct NumberCursor {
    next: u32,
    end: u32,
}

/// The rows of an index at ranges of positions: what is left of the present range, and the number of
/// the range that comes next.
#[derive(Drop)]
pub(crate) struct IndexCursor<'a> {
    left: &'a [u32],
    rows: &'a [u32],
    ranges: Vec<(usize, usize)>,
    number: usize,
}

/// The row numbers of an access that are left.
#[derive(Drop)]
pub(crate) enum RowCursor<'a> {
    Numbers(NumberCursor),
    Index(IndexCursor<'a>),
}

impl NumberCursor {
    /// The next row number.
    fn next_row(&mut self) -> Option<u32>
        ensures given { numbers_left self.old ≡ option_to_list result ++ numbers_left self.new }
        ensures none { IfNone result (numbers_left self.new ≡ []) }
    {
        if self.next >= self.end {
            return None;
        }
        let row = self.next;
        self.next += 1;
        Some(row)
    }
}

impl<'a> IndexCursor<'a> {
    /// The next row number.
    fn next_row(&mut self) -> Option<u32>
        requires { are_within (length self.old.rows.now) self.old.ranges.items }
        ensures within { are_within (length self.new.rows.now) self.new.ranges.items }
        ensures given { index_rows_left self.old ≡ option_to_list result ++ index_rows_left self.new }
        ensures none { IfNone result (index_rows_left self.new ≡ []) }
    {
        loop {
            if let Some((row, rest)) = self.left.split_first() {
                self.left = rest;
                return Some(*row);
            }
            if self.number >= self.ranges.len() {
                return None;
            }
            let (first, end) = self.ranges[self.number];
            self.left = &self.rows[first..end];
            self.number += 1;
        }
    }
}

impl<'a> RowCursor<'a> {
    /// The next row number; none exactly where none is left, and then ever after.
    #[inline]
    pub(crate) fn next_row(&mut self) -> Option<u32>
        requires { IsWithin self.old }
        ensures within { IsWithin self.new }
        ensures given { rows_left self.old ≡ option_to_list result ++ rows_left self.new }
        ensures none { IfNone result (rows_left self.new ≡ []) }
    {
        match self {
            RowCursor::Numbers(cursor) => cursor.next_row(),
            RowCursor::Index(cursor) => cursor.next_row(),
        }
    }
}

/// All rows of a place.
fn all_rows(source: &Source<'_>, place: u8) -> RowCursor<'static>
    requires sound { IsSource source.now }
    requires valid { IsValidAccess source.now.q.now (masks_read source.now) (Seq place) }
    ensures { IsCursorOf source.now (Seq place) result }
{
    let table = table_there(source, place);
    RowCursor::Numbers(NumberCursor {
        next: 0,
        end: table.len() as u32,
    })
}

/// The rows of a place that an index finds for a predicate on its column.
fn range_rows<'a>(
    alloc: Global,
    source: &Source<'a>,
    place: u8,
    column: u8,
    pred: u8,
) -> Result<RowCursor<'a>, OutOfMemory>
    requires sound { IsSource source.now }
    requires valid { IsValidAccess source.now.q.now (masks_read source.now) (Range place column pred) }
    ensures { IfOk result (IsCursorOf source.now (Range place column pred)) }
{
    let table = table_there(source, place);
    let index = index_there(source, place, column);
    let test = test_of(source.q, pred);
    let ranges = ranges_of(index, table, test, source.args);
    let ranges = ranges.as_slice().to_vec(alloc)?;
    Ok(RowCursor::Index(IndexCursor {
        left: &[],
        rows: index.rows(),
        ranges,
        number: 0,
    }))
}

/// All rows of a place in the order of an index on this column.
fn full_rows<'a>(alloc: Global, source: &Source<'a>, place: u8, column: u8) -> RowCursor<'a>
    requires sound { IsSource source.now }
    requires valid { IsValidAccess source.now.q.now (masks_read source.now) (Full place column) }
    ensures { IsCursorOf source.now (Full place column) result }
{
    let index = index_there(source, place, column);
    let rows = index.rows();
    RowCursor::Index(IndexCursor {
        left: rows,
        rows,
        ranges: Vec::new(alloc),
        number: 0,
    })
}

/// The row numbers that an access offers: each row of its place that its index may find, once.
pub(crate) fn row_cursor<'a>(
    alloc: Global,
    source: &Source<'a>,
    access: Access,
) -> Result<RowCursor<'a>, OutOfMemory>
    requires sound { IsSource source.now }
    requires valid { IsValidAccess source.now.q.now (masks_read source.now) access }
    ensures { IfOk result (IsCursorOf source.now access) }
{
    match access {
        Access::Seq(place) => Ok(all_rows(source, place)),
        Access::Range(place, column, pred) => range_rows(alloc, source, place, column, pred),
        Access::Full(place, column) => Ok(full_rows(alloc, source, place, column)),
    }
}
