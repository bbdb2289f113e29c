//! Index scans: the rows of a place in the order of an index, those of a range or all of them.
//!
//! Of the rows that the index finds for a test those are kept that meet all predicates on the
//! place. The ways in are `range_scan` and `full_scan`.
ghost use Rattle.std.specs.Prelude.{◌≡◌, ◌<◌, ◌++◌, IfOk, IsSome, IsTrue, OnOk, Some, filter, length, slice_get};
ghost use Rattle.std.specs.Option.{option_map};
ghost use Rattle.row_values.specs.Statements.{IsColumn};
ghost use Rattle.row_tests.specs.Ready.{all_hold};
ghost use Rattle.csv_tables.specs.StatementTables.{tables_in};
ghost use Rattle.index_ranges.specs.Ranges.{are_within, rows_between};
ghost use Rattle.plan_trees.specs.Indexes.{has_index};
ghost use Rattle.plan_trees.specs.PlanSpace.{column_of};
ghost use Rattle.statement_meaning.specs.PartialCombinations.{RowsOnce};
ghost use Rattle.table_index.specs.Indexes.{IsBuilt};
ghost use Rattle.table_index.specs.StatementIndexes.{index_at, indexes_in};
ghost use Rattle.plan_operators.specs.Sources.{IsSource, is_row_before, masks_read, world_read};
ghost use Rattle.row_values.specs.Sorting.{Rises};

use crate::source::{Source, table_of};
use csv_tables::Table;
use index_ranges::ranges_of;
use row_tests::{Ready, passes, ready_preds};
use row_values::{OutOfMemory, Query, Test, Value};
use std::alloc::Global;
use table_index::{Index, index_of};

/// The table of a place that is there.
pub fn table_there<'a>(source: &Source<'a>, place: u8) -> &'a Table
    requires sound { IsSource source.now }
    requires there { place < length source.now.q.now.places }
    ensures { slice_get (tables_in source.now.tables.now) place ≡ Some result.now }
{
    table_of(source.tables, place).unwrap()
}

/// The index over a column that has one.
pub fn index_there<'a>(source: &Source<'a>, place: u8, column: u8) -> &'a Index
    requires { IsTrue (has_index (masks_read source.now) place column) }
    ensures { index_at source.now.q.now.places (indexes_in source.now.indexes.now) place column ≡ Some result.now }
{
    index_of(source.q, source.indexes, place, column).unwrap()
}

/// Adds those of these rows that meet all of these predicates.
fn push_passing(
    table: &Table,
    args: &[Value],
    ready: &[Ready],
    rows: &[u32],
    into: &mut Vec<u32>,
) -> Result<(), OutOfMemory>
    ensures { OnOk result (into.new.items ≡ into.old.items ++ filter (all_hold args.now table.now ready.now) rows.now) }
{
    for row in rows {
        if passes(table, *row as usize, args, ready) {
            into.push(*row)?;
        }
    }
    Ok(())
}

/// The test of the predicate of this number.
pub fn test_of(q: &Query, pred: u8) -> &Test
    requires { IsSome (slice_get q.now.preds pred) }
    ensures { option_map (λ p. p.test) (slice_get q.now.preds pred) ≡ Some result.now }
{
    &q.preds()[usize::from(pred)].test
}

/// The rows at the positions of these ranges that meet all of these predicates.
fn passing_within(
    alloc: Global,
    table: &Table,
    args: &[Value],
    ready: &[Ready],
    rows: &[u32],
    ranges: &[(usize, usize)],
) -> Result<Vec<u32>, OutOfMemory>
    requires { are_within (length rows.now) ranges.now }
    ensures { IfOk result (λ found. found.items
        ≡ filter (all_hold args.now table.now ready.now) (rows_between rows.now ranges.now)) }
{
    let mut found = Vec::new(alloc);
    for (first, end) in ranges {
        push_passing(table, args, ready, &rows[*first..*end], &mut found)?;
    }
    Ok(found)
}

/// The rows of a place in the order of an index on this column, those that meet the predicates on it.
pub(crate) fn full_scan(
    alloc: Global,
    source: &Source<'_>,
    place: u8,
    column: u8,
) -> Result<Vec<u32>, OutOfMemory>
    requires sound { IsSource source.now }
    requires column { IsColumn source.now.q.now.places (column_of place column) }
    requires indexed { IsTrue (has_index (masks_read source.now) place column) }
    ensures each_once { IfOk result (λ rows. RowsOnce (world_read source.now) place rows.items) }
    ensures in_order { IfOk result (λ rows. Rises (is_row_before source.now (column_of place column)) rows.items) }
{
    let table = table_there(source, place);
    let index = index_there(source, place, column);
    let ready = ready_preds(alloc, source.q.preds(), table, source.args, place)?;
    let mut rows = Vec::new(alloc);
    push_passing(table, source.args, &ready, index.rows(), &mut rows)?;
    Ok(rows)
}

/// The rows that an index finds for a predicate on its column, in the order of the index, those
/// that meet all predicates on the place.
pub(crate) fn range_scan(
    alloc: Global,
    source: &Source<'_>,
    place: u8,
    column: u8,
    pred: u8,
) -> Result<Vec<u32>, OutOfMemory>
    requires sound { IsSource source.now }
    requires column { IsColumn source.now.q.now.places (column_of place column) }
    requires indexed { IsTrue (has_index (masks_read source.now) place column) }
    requires pred { option_map (λ p. p.at) (slice_get source.now.q.now.preds pred) ≡ Some (column_of place column) }
    ensures each_once { IfOk result (λ rows. RowsOnce (world_read source.now) place rows.items) }
    ensures in_order { IfOk result (λ rows. Rises (is_row_before source.now (column_of place column)) rows.items) }
{
    let table = table_there(source, place);
    let index = index_there(source, place, column);
    let test = test_of(source.q, pred);
    let ready = ready_preds(alloc, source.q.preds(), table, source.args, place)?;
    let ranges = ranges_of(index, table, test, source.args);
    let rows = passing_within(
        alloc,
        table,
        source.args,
        &ready,
        index.rows(),
        ranges.as_slice(),
    )?;
    Ok(rows)
}
