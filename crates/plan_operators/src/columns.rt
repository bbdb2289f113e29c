//! Columns read by row number, and by combinations: what edges and keys compare.
//!
//! A column of whole numbers is read from its packed list, any other cell by cell. A cell that isn't
//! there joins nothing, and comes before all others. The way in is `column_of`.
ghost use Rattle.std.specs.Prelude.{◌≡◌, ℕ, [], List, slice_get, slice_index_or};
ghost use Rattle.std.specs.Option.{option_map};
ghost use Rattle.std.specs.Ordering.{is_eq};
ghost use Rattle.row_values.specs.Orders.{cell_order, compares};
ghost use Rattle.csv_tables.specs.StatementTables.{rows_in, tables_in};
ghost use Rattle.statement_meaning.specs.Combinations.{row_at};
ghost use Rattle.statement_meaning.specs.Meaning.{cell_of};
ghost use Rattle.plan_operators.specs.Columns.{cell_read, cell_seen, value_read};

use crate::combos::Combo;
use crate::source::table_of;
use csv_tables::Table;
use row_tests::cell_in;
use row_values::{ColRef, Value, Words};
use std::cmp::Ordering;
use std::rc::Rc;

/// A cell as it was read: a number by itself, a text where it stands in its table.
#[derive(Clone, Copy)]
pub enum Cell<'a> {
    Number(i64),
    Text(&'a Words),
}

/// The cells of a column by row number: packed numbers, or the column of this number in a table.
#[derive(Clone, Copy)]
pub enum ColumnCells<'a> {
    Numbers(&'a [i64]),
    Values(&'a Table, usize),
}

/// A column of a place, which combinations are read at.
#[derive(Clone, Copy)]
pub struct PlaceColumn<'a> {
    pub place: u8,
    pub cells: ColumnCells<'a>,
}

/// How two cells stand; one that isn't there comes first.
#[inline]
pub fn order_of(a: Option<Cell<'_>>, b: Option<Cell<'_>>) -> Ordering
    ensures { result ≡ cell_order (option_map value_read a.entry) (option_map value_read b.entry) }
{
    match (a, b) {
        (Some(Cell::Number(x)), Some(Cell::Number(y))) => x.cmp(&y),
        (Some(Cell::Text(x)), Some(Cell::Text(y))) => x.as_str().cmp(y.as_str()),
        (Some(Cell::Number(_)), Some(Cell::Text(_))) => Ordering::Less,
        (Some(Cell::Text(_)), Some(Cell::Number(_))) => Ordering::Greater,
        (None, None) => Ordering::Equal,
        (None, Some(_)) => Ordering::Less,
        (Some(_), None) => Ordering::Greater,
    }
}

/// Whether two cells are there and equal.
#[inline]
pub fn are_equal(a: Option<Cell<'_>>, b: Option<Cell<'_>>) -> bool
    ensures { result ≡ compares is_eq (option_map value_read a.entry) (option_map value_read b.entry) }
{
    match (a, b) {
        (Some(Cell::Number(x)), Some(Cell::Number(y))) => x.cmp(&y).is_eq(),
        (Some(Cell::Text(x)), Some(Cell::Text(y))) => x.as_str().cmp(y.as_str()).is_eq(),
        _ => false,
    }
}

impl<'a> ColumnCells<'a> {
    /// The cell of a row; none where there is no such cell.
    #[inline]
    pub fn cell(&self, row: u32) -> Option<Cell<'a>>
        ensures { option_map value_read result ≡ cell_read self.now row }
    {
        match *self {
            ColumnCells::Numbers(numbers) => match numbers.get(row as usize) {
                Some(number) => Some(Cell::Number(*number)),
                None => None,
            },
            ColumnCells::Values(table, column) => match cell_in(table, row as usize, column) {
                Some(Value::Int(number)) => Some(Cell::Number(*number)),
                Some(Value::Text(text)) => Some(Cell::Text(text)),
                None => None,
            },
        }
    }
}

impl<'a> PlaceColumn<'a> {
    /// The cell that a combination has in this column.
    #[inline]
    pub fn cell(&self, combo: &Combo) -> Option<Cell<'a>>
        ensures { option_map value_read result ≡ cell_seen self.now combo.now }
    {
        self.cells.cell(combo.row(self.place))
    }
}

/// The cells of a column of a table, counted from 0.
fn cells_of<'a>(table: &'a Table, column: usize) -> ColumnCells<'a>
    ensures { (row : ℕ) → cell_read result row ≡ slice_get (slice_index_or table.now.rows row []) column }
{
    if column >= table.schema().columns().len() {
        return ColumnCells::Values(table, column);
    }
    match table.numbers(column) {
        Some(numbers) => ColumnCells::Numbers(numbers),
        None => ColumnCells::Values(table, column),
    }
}

/// A column of a place among these tables; where there is no such table it has no cells.
pub fn column_of<'a>(tables: &'a [Rc<Table>], at: ColRef) -> PlaceColumn<'a>
    ensures place { result.place ≡ at.place }
    ensures cells { (row : ℕ) → cell_read result.cells row
        ≡ slice_get (row_at (rows_in (tables_in tables.now)) at.place row) at.column }
    ensures value { (c : List ℕ) → cell_seen result c ≡ cell_of (rows_in (tables_in tables.now)) c at }
{
    let cells = match table_of(tables, at.place) {
        Some(table) => cells_of(table, usize::from(at.column)),
        None => ColumnCells::Numbers(&[]),
    };
    PlaceColumn {
        place: at.place,
        cells,
    }
}
