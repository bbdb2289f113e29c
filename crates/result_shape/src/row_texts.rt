//! The line of a result row: `row `, then the items joined by commas, without an end.
//!
//! The way in is `row_text`.
ghost use Rattle.std.specs.Prelude.{◌≡◌, ◌<◌, ◌++◌, IfOk, OnOk, length, slice_index_or, string_bytes, [], ◌∷◌};
ghost use Rattle.std.specs.Option.{option_map};
ghost use Rattle.csv_tables.specs.StatementTables.{rows_in, tables_in};
ghost use Rattle.plan_operators.specs.Columns.{value_read};
ghost use Rattle.statement_meaning.specs.Meaning.{shown_cell, shown_row};
ghost use Rattle.statement_meaning.specs.Spelling.{further_items, item_text, items_text, row_line};
ghost use Rattle.result_shape.specs.Rows.{rows_seen};
ghost use Rattle.result_shape.specs.Tallies.{tallies_shown, tally_shown};

use crate::numbered::tallies_from;
use crate::rows::{Kept, Rows};
use crate::tallies::{Tally, first_tally, ready_item};
use csv_tables::Table;
use plan_operators::{Cell, Combo, column_of};
use row_values::{Item, OutOfMemory, Query, Words};
use std::alloc::Global;
use std::rc::Rc;
use value_spelling::{push_number, push_quoted, push_whole};

/// Adds a cell as it was read; one that isn't there shows as the empty text.
fn push_read(text: &mut String, cell: Option<Cell<'_>>) -> Result<(), OutOfMemory>
    ensures { OnOk result (string_bytes text.new
        ≡ string_bytes text.old ++ item_text (shown_cell (option_map value_read cell.entry))) }
{
    match cell {
        Some(Cell::Number(number)) => push_number(text, number),
        Some(Cell::Text(words)) => push_quoted(text, words.as_str()),
        None => push_quoted(text, ""),
    }
}

/// Adds what an item shows.
fn push_tally(text: &mut String, tables: &[Rc<Table>], tally: Tally) -> Result<(), OutOfMemory>
    ensures { OnOk result (string_bytes text.new
        ≡ string_bytes text.old ++ item_text (tally_shown (rows_in (tables_in tables.now)) tally)) }
{
    match tally {
        Tally::Number(number) => push_whole(text, number),
        Tally::Cell(at, row) => push_read(text, column_of(tables, at).cells.cell(row)),
    }
}

/// Adds what further items show, with a comma before each.
fn push_further(
    text: &mut String,
    tables: &[Rc<Table>],
    tallies: &[Tally],
) -> Result<(), OutOfMemory>
    ensures { OnOk result (string_bytes text.new
        ≡ string_bytes text.old ++ further_items (tallies_shown (rows_in (tables_in tables.now)) tallies.now)) }
{
    for tally in tallies {
        text.push(',')?;
        push_tally(text, tables, *tally)?;
    }
    Ok(())
}

/// Adds what the items show, joined by commas.
fn push_tallies(
    text: &mut String,
    tables: &[Rc<Table>],
    tallies: &[Tally],
) -> Result<(), OutOfMemory>
    ensures { OnOk result (string_bytes text.new
        ≡ string_bytes text.old ++ items_text (tallies_shown (rows_in (tables_in tables.now)) tallies.now)) }
{
    match tallies {
        [] => Ok(()),
        [first, further @ ..] => {
            push_tally(text, tables, *first)?;
            push_further(text, tables, further)
        }
    }
}

/// What the items show of one combination.
fn line_of_combo(
    alloc: Global,
    tables: &[Rc<Table>],
    items: &[Item],
    combo: Combo,
) -> Result<Vec<Tally>, OutOfMemory>
    ensures { IfOk result (λ line. tallies_shown (rows_in (tables_in tables.now)) line.items
        ≡ shown_row (rows_in (tables_in tables.now)) items.now (combo ∷ []) combo) }
{
    let mut line = Vec::with_capacity(alloc, items.len())?;
    for item in items {
        line.push(first_tally(&ready_item(tables, *item), &combo))?;
    }
    Ok(line)
}

/// The line of what these items show.
fn text_of(alloc: Global, tables: &[Rc<Table>], tallies: &[Tally]) -> Result<Words, OutOfMemory>
    ensures { IfOk result (λ text. text
        ≡ row_line (tallies_shown (rows_in (tables_in tables.now)) tallies.now)) }
{
    let mut text = String::with_capacity(alloc, LINE_ROOM + ITEM_ROOM * tallies.len())?;
    text.push_str("row ")?;
    push_tallies(&mut text, tables, tallies)?;
    Ok(Words::from_string(text))
}

/// The line of the result row of this number, without its end.
pub fn row_text(alloc: Global, q: &Query, rows: &Rows, i: usize) -> Result<Words, OutOfMemory>
    requires { i < length (rows_seen q.now rows.now) }
    ensures { IfOk result (λ text. text ≡ row_line (slice_index_or (rows_seen q.now rows.now) i [])) }
{
    match &rows.kept {
        Kept::Plain(combos) => {
            let line = line_of_combo(alloc, &rows.tables, q.items(), combos[i])?;
            let text = text_of(alloc, &rows.tables, &line)?;
            Ok(text)
        }
        Kept::Groups(groups) => {
            let text = text_of(alloc, &rows.tables, &groups[i].tallies)?;
            Ok(text)
        }
        Kept::Numbered(numbered) => {
            let start = numbered.places[i].start;
            let tallies = tallies_from(&numbered.tallies, start, q.items().len());
            let text = text_of(alloc, &rows.tables, tallies)?;
            Ok(text)
        }
    }
}

/// The bytes that a line has room for from the start, and what each item adds; a longer line grows.
/// A result of many rows is held as that many texts, so room that isn't used costs time.
const LINE_ROOM: usize = 8;

const ITEM_ROOM: usize = 16;
