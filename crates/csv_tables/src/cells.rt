//! The cells of the data rows as values, one row after the other, as long as each is one of its
//! column's kind.
//!
//! The one way in is `read_cells`.
ghost use Rattle.std.specs.Prelude.{◌≡◌, ◌≤◌, ◌*◌, ◌++◌, IfOk, IfSome, is_some, length, true};
ghost use Rattle.std.specs.List.{flat_map, list_all};
ghost use Rattle.csv.specs.Records.{fields_of};
ghost use Rattle.csv_tables.specs.Cells.{are_cells, is_cell, value_of, values_from};
ghost use Rattle.csv_tables.specs.declared.table.TheConstants.{CELL_LIMIT};

use crate::header::field;
use crate::records::Records;
use csv::ByteRecord;
use row_values::{Column, Kind, OutOfMemory, Value, Words, whole_number};
use std::alloc::Global;
use std::str;

/// The value of a cell of this kind; none where the text is no such cell. A number takes no memory.
fn value(alloc: Global, kind: Kind, text: &[u8]) -> Result<Option<Value>, OutOfMemory>
    ensures cell { IfOk result (λ value. is_some value ≡ is_cell kind text.now) }
    ensures value { IfOk result (λ value. IfSome value (λ value. value ≡ value_of kind text.now)) }
{
    match kind {
        Kind::Int => match whole_number(text) {
            Some(number) => Ok(Some(Value::Int(number))),
            None => Ok(None),
        },
        Kind::Text => match str::from_utf8(text) {
            Ok(text) => Ok(Some(Value::Text(Words::of(alloc, text)?))),
            Err(_) => Ok(None),
        },
    }
}

/// Puts the values of a row behind the cells, up to a cell that isn't of its column's kind, and says
/// whether there is none.
fn push_row(
    alloc: Global,
    columns: &[Column],
    row: &ByteRecord,
    cells: &mut Vec<Value>,
) -> Result<bool, OutOfMemory>
    ensures fits { IfOk result (λ fits. fits ≡ are_cells 0 columns.now (fields_of row.now)) }
    ensures pushed { IfOk result (λ fits. fits ≡ true
        → cells.new.items ≡ cells.old.items ++ values_from 0 columns.now (fields_of row.now)) }
{
    for (column, this) in columns.iter().enumerate() {
        match value(alloc, this.kind, field(row, column))? {
            Some(value) => cells.push(value)?,
            None => return Ok(false),
        }
    }
    Ok(true)
}

/// The cells of the records that are left, of which there are so many; none exactly where one of
/// them isn't of its column's kind.
pub(crate) fn read_cells(
    alloc: Global,
    columns: &[Column],
    row_count: usize,
    records: &mut Records<'_>,
    row: &mut ByteRecord,
) -> Result<Option<Vec<Value>>, OutOfMemory>
    requires count { length records.old ≡ row_count }
    requires few { row_count * length columns.now ≤ CELL_LIMIT }
    ensures fit { IfOk result (λ cells. is_some cells ≡ list_all (are_cells 0 columns.now) records.old) }
    ensures value { IfOk result (λ cells. IfSome cells (λ cells.
        cells.items ≡ flat_map (values_from 0 columns.now) records.old)) }
{
    let mut cells = Vec::with_capacity(alloc, row_count * columns.len())?;
    for _ in 0..row_count {
        if !records.next(row)? {
            return Ok(Some(cells));
        }
        if !push_row(alloc, columns, row, &mut cells)? {
            return Ok(None);
        }
    }
    Ok(Some(cells))
}
