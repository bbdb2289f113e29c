//! What a result row keeps at an item: the row of a cell, or a whole number.
//!
//! A tally begins with the first member of its group and takes in one member after the other. A row
//! of a statement without groups is the group of its one combination.
ghost use Rattle.std.specs.Prelude.{◌≡◌, ◌++◌, ◌∷◌, [], ℕ, List, All, IfOk, length, map};
ghost use Rattle.std.specs.Prelude.{pos, ℤ, ◌+ℤ◌, ◌≤ℤ◌, ◌^◌, slice_index_or, if◌then◌else◌};
ghost use Rattle.std.specs.Option.{option_map};
ghost use Rattle.std.specs.Ordering.{is_lt};
ghost use Rattle.row_values.specs.Orders.{cell_order};
ghost use Rattle.row_values.specs.declared.values.Value.{Value as Cells};
ghost use Rattle.csv_tables.specs.StatementTables.{rows_in, tables_in};
ghost use Rattle.plan_operators.specs.Columns.{cell_read, cell_seen, value_read};
ghost use Rattle.statement_meaning.specs.Meaning.{number_in, shown_item, sum_of};
ghost use Rattle.result_shape.specs.Tallies.{AreTalliesOf, HasRoom, IsReadyItem, IsTallyOf, column_in};

use csv_tables::Table;
use plan_operators::{Cell, Combo, PlaceColumn, column_of, order_of};
use row_values::{ColRef, Item, OutOfMemory};
use std::alloc::Global;
use std::rc::Rc;

/// What a row shows at an item: a whole number, or the cell in a column of its place's table, of
/// the row of this number.
#[derive(Clone, Copy, Debug)]
pub enum Tally {
    Number(i128),
    Cell(ColRef, u32),
}

/// An item with the column that it reads at hand.
#[derive(Clone, Copy)]
pub struct ReadyItem<'a> {
    pub(crate) item: Item,
    pub(crate) column: PlaceColumn<'a>,
}

/// The column that an item reads; COUNT(*) reads none, and any will do.
fn column_in(item: Item) -> ColRef
    ensures { result ≡ column_in item }
{
    match item {
        Item::Column(at) => at,
        Item::CountAll => ColRef {
            place: 0,
            column: 0,
        },
        Item::Sum(at) => at,
        Item::Min(at) => at,
        Item::Max(at) => at,
    }
}

/// The item, ready for combinations over these tables.
pub(crate) fn ready_item<'a>(tables: &'a [Rc<Table>], item: Item) -> ReadyItem<'a>
    ensures item { result.item ≡ item }
    ensures ready { IsReadyItem (rows_in (tables_in tables.now)) result }
{
    ReadyItem {
        item,
        column: column_of(tables, column_in(item)),
    }
}

/// The whole number in a cell; any other counts for nothing.
#[inline]
fn number_of(cell: Option<Cell<'_>>) -> i64
    ensures value { result ≡ number_in (option_map value_read cell.entry) }
    ensures low { pos 0 ≤ℤ (result +ℤ pos (2 ^ 63)) }
    ensures high { result ≤ℤ pos (2 ^ 63) }
{
    match cell {
        Some(Cell::Number(number)) => number,
        Some(Cell::Text(_)) => 0,
        None => 0,
    }
}

/// The tally of an item over one combination.
#[inline]
pub(crate) fn first_tally(ready: &ReadyItem<'_>, c: &Combo) -> Tally
    ensures { (tables : List (List (List Cells))) → IsReadyItem tables ready.now
        → IsTallyOf tables c.now (c.now ∷ []) ready.now.item result }
{
    match ready.item {
        Item::Column(at) => Tally::Cell(at, c.row(at.place)),
        Item::CountAll => Tally::Number(1),
        Item::Sum(_) => Tally::Number(i128::from(number_of(ready.column.cell(c)))),
        Item::Min(at) => Tally::Cell(at, c.row(at.place)),
        Item::Max(at) => Tally::Cell(at, c.row(at.place)),
    }
}

/// The sum of a number that has room and a whole number.
#[inline]
fn plus(number: i128, more: i64) -> i128
    requires low { pos 0 ≤ℤ (number +ℤ pos (2 ^ 126)) }
    requires high { number ≤ℤ pos (2 ^ 126) }
    ensures { result ≡ (number +ℤ more) }
{
    number + i128::from(more)
}

/// The number of a tally once a combination is counted, or its whole number added.
#[inline(always)]
fn more_number(ready: &ReadyItem<'_>, number: i128, c: &Combo) -> i128
    requires low { pos 0 ≤ℤ (number +ℤ pos (2 ^ 126)) }
    requires high { number ≤ℤ pos (2 ^ 126) }
    ensures { (tables : List (List (List Cells))) (first : List ℕ) (members : List (List ℕ))
        → IsReadyItem tables ready.now → IsTallyOf tables first members ready.now.item (Tally.Number number)
        → IsTallyOf tables first (members ++ c.now ∷ []) ready.now.item (Tally.Number result) }
{
    match ready.item {
        Item::Column(_) => number,
        Item::CountAll => number + 1,
        Item::Sum(_) => plus(number, number_of(ready.column.cell(c))),
        Item::Min(_) => number,
        Item::Max(_) => number,
    }
}

/// The row of the lesser of two cells of a column; of the first where they tie. It stands apart, so
/// that what takes a member in stays short.
#[inline(never)]
fn lesser_row(column: &PlaceColumn<'_>, row: u32, other: u32) -> u32
    ensures { cell_read column.now.cells result
        ≡ (if is_lt (cell_order (cell_read column.now.cells other) (cell_read column.now.cells row))
        then cell_read column.now.cells other else cell_read column.now.cells row) }
{
    if order_of(column.cells.cell(other), column.cells.cell(row)).is_lt() {
        other
    } else {
        row
    }
}

/// The row of the greater of two cells, likewise.
#[inline(never)]
fn greater_row(column: &PlaceColumn<'_>, row: u32, other: u32) -> u32
    ensures { cell_read column.now.cells result
        ≡ (if is_lt (cell_order (cell_read column.now.cells row) (cell_read column.now.cells other))
        then cell_read column.now.cells other else cell_read column.now.cells row) }
{
    if order_of(column.cells.cell(row), column.cells.cell(other)).is_lt() {
        other
    } else {
        row
    }
}

/// The row of the cell that a tally keeps once a combination is taken in.
#[inline(always)]
fn more_row(ready: &ReadyItem<'_>, at: ColRef, row: u32, c: &Combo) -> u32
    ensures { (tables : List (List (List Cells))) (first : List ℕ) (members : List (List ℕ))
        → IsReadyItem tables ready.now → IsTallyOf tables first members ready.now.item (Tally.Cell at row)
        → IsTallyOf tables first (members ++ c.now ∷ []) ready.now.item (Tally.Cell at result) }
{
    match ready.item {
        Item::Column(_) => row,
        Item::CountAll => row,
        Item::Sum(_) => row,
        Item::Min(_) => lesser_row(&ready.column, row, c.row(ready.column.place)),
        Item::Max(_) => greater_row(&ready.column, row, c.row(ready.column.place)),
    }
}

/// The tally once one more member of its group is taken in. It is always inlined: a tally that a
/// call gave was written in parts and is then copied whole, and the copy waits for each part.
#[inline(always)]
pub(crate) fn more_tally(ready: &ReadyItem<'_>, tally: Tally, c: &Combo) -> Tally
    requires { HasRoom tally }
    ensures { (tables : List (List (List Cells))) (first : List ℕ) (members : List (List ℕ))
        → IsReadyItem tables ready.now → IsTallyOf tables first members ready.now.item tally
        → IsTallyOf tables first (members ++ c.now ∷ []) ready.now.item result }
{
    match tally {
        Tally::Number(number) => Tally::Number(more_number(ready, number, c)),
        Tally::Cell(at, row) => Tally::Cell(at, more_row(ready, at, row, c)),
    }
}

/// The tallies of the items over one combination.
pub(crate) fn first_tallies(
    alloc: Global,
    items: &[ReadyItem<'_>],
    c: &Combo,
) -> Result<Vec<Tally>, OutOfMemory>
    ensures count { IfOk result (λ tallies. length tallies.items ≡ length items.now) }
    ensures tallies { (tables : List (List (List Cells))) → All (IsReadyItem tables) items.now
        → IfOk result (λ tallies. AreTalliesOf tables c.now (c.now ∷ [])
        (map (λ ready. ready.item) items.now) tallies.items) }
{
    let mut tallies = Vec::with_capacity(alloc, items.len())?;
    for item in items {
        tallies.push(first_tally(item, c))?;
    }
    Ok(tallies)
}

/// Takes one more member of their group into the tallies of the items.
pub(crate) fn add_member(items: &[ReadyItem<'_>], tallies: &mut [Tally], c: &Combo)
    requires count { length tallies.old ≡ length items.now }
    requires room { All HasRoom tallies.old }
    ensures { (tables : List (List (List Cells))) (first : List ℕ) (members : List (List ℕ))
        → All (IsReadyItem tables) items.now
        → AreTalliesOf tables first members (map (λ ready. ready.item) items.now) tallies.old
        → AreTalliesOf tables first (members ++ c.now ∷ []) (map (λ ready. ready.item) items.now) tallies.new }
{
    for (i, item) in items.iter().enumerate() {
        tallies[i] = more_tally(item, tallies[i], c);
    }
}
