//! Reading a table: its shape, its header, and then its cells.
//!
//! The shape of a file, by which most that is too large is refused, is found in no memory. Then the
//! cells are read at once, each column in its tag's kind or else in that of its first cell: a column
//! whose first cell is no number holds texts for certain. Where a later cell isn't of its column's
//! kind, what was read is given back, a survey of all rows finds the kinds or the first bad cell,
//! and the cells are read again. The one way in is `read_table`.
ghost use Rattle.std.specs.Prelude.{◌≡◌, ◌≢◌, ◌≤◌, ◌∷◌, ◌*◌, [], nat_lt, Err, IfErr, IfOk, IfSome, List, None, Ok};
ghost use Rattle.std.specs.Prelude.{is_some, length, option_map, true, ℕ};
ghost use Rattle.row_values.specs.declared.columns.TheConstants.{COLUMN_LIMIT};
ghost use Rattle.csv_tables.specs.Cells.{columns_from, kind_by};
ghost use Rattle.csv_tables.specs.Spelled.{fault_if, first_of, table_of};
ghost use Rattle.csv_tables.specs.Surveys.{IsShapedFile, IsSurvey, IsSurveyedFile};
ghost use Rattle.csv_tables.specs.declared.faults.TableFault.TheVariants.{Cells, Memory, NotCsv, Rows};
ghost use Rattle.csv_tables.specs.declared.table.TheConstants.{CELL_LIMIT, ROW_LIMIT};

use crate::cells::read_cells;
use crate::faults::TableFault;
use crate::header::{Heading, read_header};
use crate::records::Records;
use crate::shape::{Shape, shape_of};
use crate::survey::{Survey, survey_file};
use crate::table::{CELL_LIMIT, ROW_LIMIT, Table};
use csv::ByteRecord;
use row_values::{COLUMN_LIMIT, Column, Kind, OutOfMemory, Schema};
use std::alloc::Global;

/// The kind of a column with this tag, which holds numbers alone or not.
fn kind(kind_tag: Option<Kind>, is_number: bool) -> Kind
    ensures { result ≡ kind_by kind_tag is_number }
{
    match kind_tag {
        Some(kind) => kind,
        None => { if is_number { Kind::Int } else { Kind::Text } }
    }
}

/// The columns under the headings, with the kinds that the survey found.
fn columns(alloc: Global, headings: &[Heading], survey: &Survey) -> Result<Vec<Column>, OutOfMemory>
    requires { length survey.now.numbers.items ≡ length headings.now }
    ensures { IfOk result (λ columns. (rows : List (List (List ℕ))) → IsSurvey headings.now rows survey.now
        → columns.items ≡ columns_from 0 headings.now rows) }
{
    let mut columns = Vec::new(alloc);
    for (column, heading) in headings.iter().enumerate() {
        let is_number = survey.row_count != 0 && survey.numbers.as_slice()[column];
        columns.push(Column {
            name: heading.name.copy(alloc)?,
            kind: kind(heading.kind_tag, is_number),
        })?;
    }
    Ok(columns)
}

/// The first fault that the shape of a file shows under so many columns, if any.
fn fault_of_shape(column_count: usize, shape: &Shape) -> Option<TableFault>
    requires columns { column_count ≤ COLUMN_LIMIT }
    requires uneven { IfSome shape.now.uneven (λ number. number ≤ shape.now.row_count) }
    ensures { result ≡ first_of (fault_if (nat_lt ROW_LIMIT shape.now.row_count) Rows
        ∷ fault_if (nat_lt CELL_LIMIT (shape.now.row_count * column_count)) Cells ∷ option_map NotCsv shape.now.uneven
        ∷ []) }
{
    if shape.row_count > ROW_LIMIT {
        return Some(TableFault::Rows);
    }
    if shape.row_count * column_count > CELL_LIMIT {
        return Some(TableFault::Cells);
    }
    match shape.uneven {
        Some(number) => Some(TableFault::NotCsv(number as u32)),
        None => None,
    }
}

/// The table that a file spells, where each cell of a column is of the kind that a survey of its
/// first rows shows; none where one isn't.
fn build(
    alloc: Global,
    bytes: &[u8],
    headings: &[Heading],
    row_count: usize,
    survey: &Survey,
) -> Result<Option<Table>, OutOfMemory>
    requires { IsSurveyedFile bytes.now headings.now row_count survey.now }
    ensures table { IfOk result (λ built. IfSome built (λ table. table_of bytes.now ≡ Ok table)) }
    ensures whole { IfOk result (λ built. survey.now.row_count ≡ row_count → survey.now.bad_cell ≡ None
        → is_some built ≡ true) }
{
    let columns = columns(alloc, headings, survey)?;
    let mut row = ByteRecord::new(alloc);
    let mut records = Records::of(alloc, bytes);
    // The header, which stands in the headings already.
    let _ = records.next(&mut row)?;
    let Some(cells) = read_cells(alloc, &columns, row_count, &mut records, &mut row)? else {
        return Ok(None);
    };
    let schema = Schema::of(columns).unwrap();
    let table = Table::of(alloc, schema, row_count, cells)?;
    Ok(Some(table))
}

/// The table that a file with a sound header and shape spells, or its first bad cell.
fn read_shaped(
    alloc: Global,
    bytes: &[u8],
    headings: &[Heading],
    row_count: usize,
) -> Result<Table, TableFault>
    requires { IsShapedFile bytes.now headings.now row_count }
    ensures table { IfOk result (λ table. table_of bytes.now ≡ Ok table) }
    ensures fault { IfErr result (λ fault. fault ≢ Memory → table_of bytes.now ≡ Err fault) }
{
    let first = survey_file(alloc, bytes, headings, row_count, 1)?;
    if let Some(table) = build(alloc, bytes, headings, row_count, &first)? {
        return Ok(table);
    }
    let whole = survey_file(alloc, bytes, headings, row_count, row_count.max(1))?;
    if let Some((number, column)) = whole.bad_cell {
        return Err(TableFault::BadCell(number, column));
    }
    match build(alloc, bytes, headings, row_count, &whole)? {
        Some(table) => Ok(table),
        None => unreachable!(),
    }
}

/// The table that bytes of CSV spell, or the first fault that they have; see `TableFault` for the
/// order.
///
/// The first record is the header. A header cell `x:int` or `x:text` names a column and tags its
/// kind; a column
/// without a tag is INT exactly where there is a data row and each of its cells is a whole number.
pub fn read_table(alloc: Global, bytes: &[u8]) -> Result<Table, TableFault>
    ensures table { IfOk result (λ table. table_of bytes.now ≡ Ok table) }
    ensures fault { IfErr result (λ fault. fault ≢ Memory → table_of bytes.now ≡ Err fault) }
{
    let shape = shape_of(bytes);
    let Some(column_count) = shape.column_count else {
        return Err(TableFault::BadHeader(1));
    };
    if column_count > COLUMN_LIMIT {
        return Err(TableFault::Columns);
    }
    let mut row = ByteRecord::new(alloc);
    let mut records = Records::of(alloc, bytes);
    // The header.
    let _ = records.next(&mut row)?;
    let headings = read_header(alloc, &row)?;
    if let Some(fault) = fault_of_shape(column_count, &shape) {
        return Err(fault);
    }
    let table = read_shaped(alloc, bytes, &headings, shape.row_count)?;
    Ok(table)
}
