//! How many rows of a table meet a predicate.
//!
//! With an index over the predicate's column the ends of its ranges are looked up. Without one the
//! operands are looked up once, before the first row, and a column of whole numbers is gone over as
//! a packed list, number by number against one range, so that a pass for each predicate reads no
//! more than one pass for all would.
ghost use Rattle.std.specs.Prelude.{◌≡◌, ◌<◌, ◌≤◌, IfSome, filter, length};
ghost use Rattle.csv_tables.specs.StatementTables.{rows_in, tables_in};
ghost use Rattle.statement_meaning.specs.Combinations.{rows_at};
ghost use Rattle.statement_meaning.specs.Vectors.{matching};
ghost use Rattle.row_tests.specs.NumberTests.{number_holds};
ghost use Rattle.table_index.specs.Indexes.{IsBuilt};
ghost use Rattle.table_index.specs.StatementIndexes.{indexes_in};
ghost use Rattle.selectivity_counts.specs.Built.{AreBuilt};

use csv_tables::Table;
use index_ranges::count_in;
use row_tests::{NumberRange, packed_test, ready_pred, row_meets};
use row_values::{Pred, Query, Value};
use std::rc::Rc;
use table_index::{Index, index_of};

/// How many of these numbers are in the range.
fn count_numbers(numbers: &[i64], range: NumberRange) -> u64
    ensures { result ≡ length (filter (number_holds range.test) numbers.now) }
{
    let mut count = 0;
    for number in numbers {
        count += u64::from(range.holds(*number));
    }
    count
}

/// How many rows of the table meet the predicate, cell by cell.
#[tactic(auto, using(crate::proofs::Matching::one_more_match))]
fn count_cells(table: &Table, pred: &Pred, args: &[Value]) -> u64
    ensures { result ≡ matching args.now pred.now table.now.rows }
{
    let test = ready_pred(args, table, pred);
    let mut count = 0;
    for row in 0..table.len() {
        count += u64::from(row_meets(table, row, args, test));
    }
    count
}

/// How many rows of the table meet the predicate.
fn count_rows(table: &Table, pred: &Pred, args: &[Value]) -> u64
    ensures value { result ≡ matching args.now pred.now table.now.rows }
    ensures bound { result ≤ length table.now.rows }
{
    match packed_test(args, table, pred) {
        Some((numbers, range)) => count_numbers(numbers, range),
        None => count_cells(table, pred, args),
    }
}

/// How many rows of the table meet the predicate, by an index over its column where one is given.
/// It takes no memory.
///
/// A cell or an argument that isn't there meets nothing, and neither do values of two kinds.
pub fn count(table: &Table, index: Option<&Index>, pred: &Pred, args: &[Value]) -> u64
    requires { IfSome index (λ index. IsBuilt table.now pred.now.at.column index.now) }
    ensures value { result ≡ matching args.now pred.now table.now.rows }
    ensures bound { result ≤ length table.now.rows }
{
    match index {
        Some(index) => count_in(index, table, &pred.test, args),
        None => count_rows(table, pred, args),
    }
}

/// How many rows of its place's table meet a predicate of a statement, by the index over its column
/// where there is one.
pub(crate) fn count_on_place(
    q: &Query,
    tables: &[Rc<Table>],
    indexes: &[Option<Rc<Index>>],
    pred: &Pred,
    args: &[Value],
) -> u64
    requires one_each { length tables.now ≡ length q.now.places }
    requires built { AreBuilt q.now (tables_in tables.now) (indexes_in indexes.now) }
    requires placed { pred.now.at.place < length q.now.places }
    ensures { result ≡ matching args.now pred.now (rows_at (rows_in (tables_in tables.now)) pred.now.at.place) }
{
    let table = &tables[usize::from(pred.at.place)];
    let index = index_of(q, indexes, pred.at.place, pred.at.column);
    count(table, index, pred, args)
}
