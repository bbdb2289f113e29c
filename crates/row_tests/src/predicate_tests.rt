//! Predicates with their operands looked up once, ready for many rows of a table.
//!
//! A test of whole numbers against whole numbers is kept as a range beside the packed list of its
//! column, so that no cell is matched; any other stands as it is in the statement.
ghost use Rattle.std.specs.Prelude.{◌≡◌, ℕ, [], IfOk, IfSome, false, length, slice_get, slice_index_or};
ghost use Rattle.std.specs.Option.{option_map_or};
ghost use Rattle.csv_tables.specs.Tables.{AreNumbers};
ghost use Rattle.statement_meaning.specs.Conditions.{holds, meets, row_passes};
ghost use Rattle.row_tests.specs.Ready.{ready_holds, all_hold};
ghost use Rattle.row_tests.specs.NumberTests.{number_holds};

use crate::cells::cell_in;
use crate::number_tests::NumberRange;
use crate::value_tests::{meets_test, number_test};
use csv_tables::Table;
use row_values::{OutOfMemory, Pred, Test, Value};
use std::alloc::Global;

/// A predicate that is ready to be asked of the rows of a table: of the packed numbers of its
/// column, or of the cells in the column of this number.
#[derive(Clone, Copy, Debug)]
pub enum Ready<'a> {
    Numbers(&'a [i64], NumberRange),
    Cells(usize, &'a Test),
}

/// The packed numbers of a column, counted from 0; none where the table has no such column of whole
/// numbers.
fn packed(table: &Table, column: usize) -> Option<&[i64]>
    ensures { IfSome result (λ numbers. AreNumbers table.now column numbers.now) }
{
    if column >= table.schema().columns().len() {
        return None;
    }
    table.numbers(column)
}

/// What a predicate of whole numbers against whole numbers asks: the packed numbers of its column,
/// one for each row, and the range of those that meet it. None for any other.
pub fn packed_test<'a>(
    args: &[Value],
    table: &'a Table,
    pred: &Pred,
) -> Option<(&'a [i64], NumberRange)>
    ensures one_each { IfSome result (λ found. length found.0.now ≡ length table.now.rows) }
    ensures value { IfSome result (λ found. (row : ℕ)
        → option_map_or (number_holds found.1.test) (slice_get found.0.now row) false
        ≡ holds args.now pred.now (slice_index_or table.now.rows row [])) }
{
    let numbers = packed(table, usize::from(pred.at.column))?;
    let test = number_test(args, &pred.test)?;
    Some((numbers, test.range()))
}

/// A predicate, ready for these arguments and the rows of this table.
pub fn ready_pred<'a>(args: &[Value], table: &'a Table, pred: &'a Pred) -> Ready<'a>
    ensures { (row : ℕ) → ready_holds args.now table.now result row
        ≡ holds args.now pred.now (slice_index_or table.now.rows row []) }
{
    match packed_test(args, table, pred) {
        Some((numbers, range)) => Ready::Numbers(numbers, range),
        None => Ready::Cells(usize::from(pred.at.column), &pred.test),
    }
}

/// The predicates on this place, ready for these arguments and the rows of this table.
pub fn ready_preds<'a>(
    alloc: Global,
    preds: &'a [Pred],
    table: &'a Table,
    args: &[Value],
    place: u8,
) -> Result<Vec<Ready<'a>>, OutOfMemory>
    ensures { IfOk result (λ ready. (row : ℕ) → all_hold args.now table.now ready.items row
        ≡ row_passes args.now preds.now place (slice_index_or table.now.rows row [])) }
{
    let mut ready = Vec::new(alloc);
    for pred in preds {
        if pred.at.place == place {
            ready.push(ready_pred(args, table, pred))?;
        }
    }
    Ok(ready)
}

/// Whether the number of a row is there and in this range.
#[inline]
#[tactic(auto, using(crate::proofs::PackedTests::number_missing))]
fn number_meets(numbers: &[i64], row: usize, range: NumberRange) -> bool
    ensures { result ≡ option_map_or (number_holds range.test) (slice_get numbers.now row) false }
{
    if row >= numbers.len() {
        return false;
    }
    range.holds(numbers[row])
}

/// Whether the cell of a row in this column is there and meets a test. It stands apart, so that
/// what calls it for other columns stays short.
#[inline(never)]
#[tactic(auto, using(crate::proofs::NoCell::no_cell_meets))]
fn cell_meets(table: &Table, row: usize, args: &[Value], column: usize, test: &Test) -> bool
    ensures { result ≡ meets args.now test.now (slice_get (slice_index_or table.now.rows row []) column) }
{
    match cell_in(table, row, column) {
        Some(cell) => meets_test(args, test, cell),
        None => false,
    }
}

/// Whether a row meets a ready predicate.
#[inline(always)]
pub fn row_meets(table: &Table, row: usize, args: &[Value], ready: Ready) -> bool
    ensures { result ≡ ready_holds args.now table.now ready.entry row }
{
    match ready {
        Ready::Numbers(numbers, range) => number_meets(numbers, row, range),
        Ready::Cells(column, test) => cell_meets(table, row, args, column, test),
    }
}

/// Whether a row meets all ready predicates.
#[inline]
pub fn passes(table: &Table, row: usize, args: &[Value], ready: &[Ready]) -> bool
    ensures { result ≡ all_hold args.now table.now ready.now row }
{
    for one in ready {
        if !row_meets(table, row, args, *one) {
            return false;
        }
    }
    true
}
