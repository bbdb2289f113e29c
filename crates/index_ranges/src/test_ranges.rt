//! The ranges of positions that meet a test.
ghost use Rattle.std.specs.Prelude.{◌≡◌, ◌<◌, ◌≤◌, All, false, filter, length};
ghost use Rattle.row_values.specs.Operands.{AreOperands};
ghost use Rattle.csv_tables.specs.Tables.{cell_at};
ghost use Rattle.statement_meaning.specs.Conditions.{equals_one, meets};
ghost use Rattle.table_index.specs.Indexes.{IsBuilt};
ghost use Rattle.index_ranges.specs.Ranges.{are_within, is_one_of, rows_between};

use crate::ends::{ends, within};
use crate::ranges::Ranges;
use crate::values::next_value;
use csv_tables::Table;
use row_values::{Operand, Test, Value};
use table_index::{Bound, Index};

/// The ranges of an IN: of each of its values in ascending order, where the column has it.
fn ranges_of_values(index: &Index, t: &Table, operands: &[Operand], args: &[Value]) -> Ranges
    requires built { IsBuilt t.now index.now.column index.now }
    requires few { AreOperands operands.now }
    ensures rows { rows_between index.now.rows result
        ≡ filter (λ row. equals_one args.now (cell_at t.now row index.now.column) operands.now) index.now.rows }
    ensures in_range { are_within (length index.now.rows) result }
{
    let mut ranges = Ranges::none();
    let mut last = None;
    while let Some(value) = next_value(args, operands, last) {
        ranges.push(within(index, t, Bound::Closed(value), Bound::Closed(value)));
        last = Some(value);
    }
    ranges
}

/// The ranges of positions whose rows meet a test, in the order of the index, each row once. An
/// operand that isn't there, or is of another kind than the column, leaves no row in.
pub fn ranges_of(index: &Index, t: &Table, test: &Test, args: &[Value]) -> Ranges
    requires { IsBuilt t.now index.now.column index.now }
    ensures rows { rows_between index.now.rows result
        ≡ filter (λ row. meets args.now test.now (cell_at t.now row index.now.column)) index.now.rows }
    ensures in_range { are_within (length index.now.rows) result }
{
    if let Test::OneOf(operands) = test {
        return ranges_of_values(index, t, operands.as_slice(), args);
    }
    let mut ranges = Ranges::none();
    if let Some((low, high)) = ends(args, test) {
        ranges.push(within(index, t, low, high));
    }
    ranges
}

/// How many rows of the table meet a test, by its ranges.
fn count_in_ranges(index: &Index, t: &Table, test: &Test, args: &[Value]) -> u64
    requires { IsBuilt t.now index.now.column index.now }
    ensures { result ≡ length (filter (λ row. meets args.now test.now (cell_at t.now row index.now.column)) index.now.rows) }
{
    let ranges = ranges_of(index, t, test, args);
    let mut count = 0;
    for range in ranges.as_slice() {
        count += index.rows()[range.0..range.1].len() as u64;
    }
    count
}

/// How many rows of the table meet a test that is no IN: those between its two ends.
fn count_between(index: &Index, t: &Table, test: &Test, args: &[Value]) -> u64
    requires built { IsBuilt t.now index.now.column index.now }
    requires no_in { is_one_of test.now ≡ false }
    ensures { result ≡ length (filter (λ row. meets args.now test.now (cell_at t.now row index.now.column)) index.now.rows) }
{
    match ends(args, test) {
        Some((low, high)) => {
            let (first, end) = within(index, t, low, high);
            index.rows()[first..end].len() as u64
        }
        None => 0,
    }
}

/// How many rows of the table meet a test of the index's column.
pub fn count_in(index: &Index, t: &Table, test: &Test, args: &[Value]) -> u64
    requires { IsBuilt t.now index.now.column index.now }
    ensures { result ≡ length (filter (λ row. meets args.now test.now (cell_at t.now row index.now.column)) index.now.rows) }
{
    match test {
        Test::OneOf(_) => count_in_ranges(index, t, test, args),
        _ => count_between(index, t, test, args),
    }
}
