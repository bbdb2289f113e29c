//! The header of a file: a name for each column, and the kind that it tags, if any.
//!
//! A header cell `x:int` or `x:text` names x and tags its kind, every other cell is a name alone.
//! The one way in is
//! `read_header`.
ghost use Rattle.std.specs.Prelude.{◌≡◌, ◌≢◌, ◌≤◌, [], IfErr, IfOk, None, Some, length, map, option_map};
ghost use Rattle.std.specs.List.{list_any};
ghost use Rattle.std.specs.Str.{bytes_eq};
ghost use Rattle.csv.specs.Records.{fields_of};
ghost use Rattle.row_values.specs.declared.columns.TheConstants.{COLUMN_LIMIT};
ghost use Rattle.csv_tables.specs.Cells as cells;
ghost use Rattle.csv_tables.specs.Headers.{bad_name, heading_of, kind_tag_of, name_of};
ghost use Rattle.csv_tables.specs.declared.faults.TableFault.TheVariants.{BadHeader, Memory};

use crate::faults::TableFault;
use csv::ByteRecord;
use row_values::{Kind, Words};
use std::alloc::Global;
use std::str;

/// What a header cell says of its column.
#[derive(Debug, Drop)]
pub(crate) struct Heading {
    pub(crate) name: Words,
    pub(crate) kind_tag: Option<Kind>,
}

/// The field in this column of a record, counted from 0; an empty one where the record is shorter.
pub(crate) fn field(row: &ByteRecord, column: usize) -> &[u8]
    ensures { result.now ≡ cells.field (fields_of row.now) column }
{
    match row.get(column) {
        Some(field) => field,
        None => b"",
    }
}

/// The name in a header cell, and the kind that it tags.
fn parts(cell: &[u8]) -> (&[u8], Option<Kind>)
    ensures name { result.0.now ≡ name_of cell.now }
    ensures kind_tag { result.1 ≡ kind_tag_of cell.now }
{
    if let Some(name) = cell.strip_suffix(b":int") {
        return (name, Some(Kind::Int));
    }
    if let Some(name) = cell.strip_suffix(b":text") {
        return (name, Some(Kind::Text));
    }
    (cell, None)
}

/// Whether one of these headings has the name.
fn is_named(headings: &[Heading], name: &str) -> bool
    ensures { result ≡ list_any (bytes_eq name.now) (map (λ heading. heading.name) headings.now) }
{
    for heading in headings {
        if name == heading.name.as_str() {
            return true;
        }
    }
    false
}

/// The headings of a header; refused at the first whose name is empty, isn't UTF-8, or is there
/// already.
pub(crate) fn read_header(alloc: Global, row: &ByteRecord) -> Result<Vec<Heading>, TableFault>
    requires { length (fields_of row.now) ≤ COLUMN_LIMIT }
    ensures ok { IfOk result (λ headings. (headings.items ≡ map heading_of (fields_of row.now))
        × (bad_name 1 [] (map name_of (fields_of row.now)) ≡ None)) }
    ensures fault { IfErr result (λ fault. fault ≢ Memory
        → option_map BadHeader (bad_name 1 [] (map name_of (fields_of row.now))) ≡ Some fault) }
{
    let mut headings = Vec::new(alloc);
    for column in 0..row.len() {
        let (name, kind_tag) = parts(field(row, column));
        let fault = TableFault::BadHeader(column as u32 + 1);
        let Ok(name) = str::from_utf8(name) else {
            return Err(fault);
        };
        if name.is_empty() {
            return Err(fault);
        }
        if is_named(&headings, name) {
            return Err(fault);
        }
        headings.push(Heading {
            name: Words::of(alloc, name)?,
            kind_tag,
        })?;
    }
    Ok(headings)
}
