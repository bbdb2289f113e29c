//! The indexes of a statement: a list with one entry for each place and column, place by place.
//!
//! An entry holds the index over that column of that place's table, where there is one. The ways in
//! are `entries_of` and `index_of`, and `indexes_over` builds the whole list.
ghost use Rattle.std.specs.Prelude.{◌≡◌, ◌<◌, ◌≤◌, ◌++◌, [], IfOk, OnOk, length, map, slice_index_or};
ghost use Rattle.std.specs.Option.{option_map};
ghost use Rattle.std.specs.Rc.{rc_value};
ghost use Rattle.row_values.specs.RowNumbers.{row_numbers};
ghost use Rattle.row_values.specs.Statements.{Statement};
ghost use Rattle.csv_tables.specs.StatementTables.{AreTablesOf, tables_in};
ghost use Rattle.table_index.specs.StatementIndexes.{AreIndexesOf, entries_by_place, index_at, indexes_in};
ghost use Rattle.table_index.specs.StatementIndexes.{wanted_entries, wanted_entry};

use crate::index::Index;
use csv_tables::Table;
use row_values::{ColRef, OutOfMemory, PLACE_LIMIT, Place, Query, has_group};
use std::alloc::Global;
use std::rc::Rc;

/// The entries of this place: as many as it has columns; none where there is no such place.
pub fn entries_of<'a>(
    places: &[Place],
    indexes: &'a [Option<Rc<Index>>],
    place: u8,
) -> &'a [Option<Rc<Index>>]
    ensures { result.now ≡ slice_index_or (entries_by_place places.now indexes.now) place [] }
{
    let mut rest = indexes;
    for (number, this) in places.iter().enumerate() {
        let width = this.schema.columns().len().min(rest.len());
        let (entries, behind) = rest.split_at(width);
        if number == usize::from(place) {
            return entries;
        }
        rest = behind;
    }
    &[]
}

/// The index over this column of this place, if there is one.
pub fn index_of<'a>(
    q: &Query,
    indexes: &'a [Option<Rc<Index>>],
    place: u8,
    column: u8,
) -> Option<&'a Index>
    ensures { option_map (λ index. index.now) result ≡ index_at q.now.places (indexes_in indexes.now) place column }
{
    let entry = entries_of(q.places(), indexes, place).get(usize::from(column))?;
    entry.as_deref()
}

/// The entry of a column: its index, where the column is among these.
fn entry_over(
    alloc: Global,
    table: &Table,
    at: ColRef,
    wanted: &[ColRef],
) -> Result<Option<Rc<Index>>, OutOfMemory>
    requires { at.column < length table.now.schema }
    ensures { IfOk result (λ entry. option_map rc_value entry ≡ wanted_entry wanted.now table.now at.place at.column) }
{
    if !has_group(wanted, at) {
        return Ok(None);
    }
    let index = Index::build(alloc, table, at.column)?;
    Ok(Some(Rc::new(alloc, index)?))
}

/// Puts the entries of a place's columns behind those of the places before it.
fn push_entries(
    alloc: Global,
    entries: &mut Vec<Option<Rc<Index>>>,
    table: &Table,
    place: u8,
    wanted: &[ColRef],
) -> Result<(), OutOfMemory>
    ensures { OnOk result (indexes_in entries.new.items ≡ indexes_in entries.old.items
        ++ map (wanted_entry wanted.now table.now place) (row_numbers (length table.now.schema))) }
{
    for column in 0..table.schema().columns().len() {
        let at = ColRef {
            place,
            column: column as u8,
        };
        entries.push(entry_over(alloc, table, at, wanted)?)?;
    }
    Ok(())
}

/// The indexes of these tables over these columns: an entry for each place and column, place by
/// place, which holds the index exactly where the column is among them.
pub fn indexes_over(
    alloc: Global,
    tables: &[Rc<Table>],
    wanted: &[ColRef],
) -> Result<Vec<Option<Rc<Index>>>, OutOfMemory>
    requires { length tables.now ≤ PLACE_LIMIT }
    ensures value { IfOk result (λ indexes. indexes_in indexes.items
        ≡ wanted_entries wanted.now 0 (tables_in tables.now)) }
    ensures built { IfOk result (λ indexes. (q : Statement) → AreTablesOf q (tables_in tables.now)
        → AreIndexesOf q (tables_in tables.now) (indexes_in indexes.items)) }
{
    let mut entries = Vec::new(alloc);
    for (place, table) in tables.iter().enumerate() {
        push_entries(alloc, &mut entries, table, place as u8, wanted)?;
    }
    Ok(entries)
}
