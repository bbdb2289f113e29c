//! A reading of the first data rows, which are as long as the header: the first bad cell, and which
//! columns hold nothing but numbers.
//!
//! It keeps no cell. The one way in is `survey_file`.
ghost use Rattle.std.specs.Prelude.{◌≡◌, ◌≤◌, ◌<◌, ◌&&◌, IfOk, length, min, take};
ghost use Rattle.std.specs.Str.{is_utf8};
ghost use Rattle.csv.specs.Records.{fields_of};
ghost use Rattle.row_values.specs.declared.columns.TheConstants.{COLUMN_LIMIT};
ghost use Rattle.csv_tables.specs.Cells.{bad_column, may_stand};
ghost use Rattle.csv_tables.specs.Numbers.{is_whole_number};
ghost use Rattle.csv_tables.specs.Surveys.{IsNew, IsShapedFile, IsSurvey, IsSurveyedFile, Notes};
ghost use Rattle.csv_tables.specs.Surveys.{numbers_after};
ghost use Rattle.csv_tables.specs.declared.table.TheConstants.{ROW_LIMIT};

use crate::header::{Heading, field};
use crate::records::Records;
use csv::ByteRecord;
use row_values::{Kind, OutOfMemory, whole_number};
use std::alloc::Global;
use std::str;

/// What such a reading found.
#[derive(Debug, Drop)]
pub(crate) struct Survey {
    pub(crate) row_count: u32,
    pub(crate) bad_cell: Option<(u32, u32)>,
    /// For each column whether each cell so far is a whole number.
    pub(crate) numbers: Vec<bool>,
}

/// Whether a cell is UTF-8, as every whole number is.
fn is_text(is_number: bool, text: &[u8]) -> bool
    requires { is_number ≡ is_whole_number text.now }
    ensures { result ≡ is_utf8 text.now }
{
    if is_number {
        return true;
    }
    match str::from_utf8(text) {
        Ok(_) => true,
        Err(_) => false,
    }
}

/// Whether a cell may stand under a heading with this tag. It notes whether its column still holds
/// nothing but numbers.
fn note_cell(kind_tag: Option<Kind>, numbers: &mut bool, text: &[u8]) -> bool
    ensures numbers { numbers.new ≡ (numbers.old && is_whole_number text.now) }
    ensures stands { result ≡ may_stand kind_tag text.now }
{
    let is_number = whole_number(text).is_some();
    *numbers = *numbers && is_number;
    match kind_tag {
        Some(Kind::Int) => is_number,
        Some(Kind::Text) => is_text(is_number, text),
        None => is_text(is_number, text),
    }
}

/// The number of the first column whose cell in this row may not stand there, if any. It notes
/// which columns still
/// hold nothing but numbers.
fn note_cells(headings: &[Heading], numbers: &mut [bool], row: &ByteRecord) -> Option<u32>
    requires one_each { length numbers.old ≡ length headings.now }
    requires few { length headings.now ≤ COLUMN_LIMIT }
    ensures bad { result ≡ bad_column 0 headings.now (fields_of row.now) }
    ensures numbers { numbers.new ≡ numbers_after 0 numbers.old (fields_of row.now) }
{
    let mut bad = None;
    for (column, heading) in headings.iter().enumerate() {
        let stands = note_cell(heading.kind_tag, &mut numbers[column], field(row, column));
        if !stands && bad.is_none() {
            bad = Some(column as u32 + 1);
        }
    }
    bad
}

impl Survey {
    /// The survey of no row, for so many columns.
    fn new(alloc: Global, column_count: usize) -> Result<Survey, OutOfMemory>
        ensures { IfOk result (λ survey. IsNew column_count survey) }
    {
        let mut numbers = Vec::new(alloc);
        for _ in 0..column_count {
            numbers.push(true)?;
        }
        Ok(Survey {
            row_count: 0,
            bad_cell: None,
            numbers,
        })
    }

    /// Notes a row more.
    fn note(&mut self, headings: &[Heading], row: &ByteRecord)
        requires room { self.old.row_count < ROW_LIMIT }
        requires one_each { length self.old.numbers.items ≡ length headings.now }
        requires few { length headings.now ≤ COLUMN_LIMIT }
        ensures { Notes headings.now (fields_of row.now) self.old self.new }
    {
        let number = self.row_count + 1;
        self.row_count = number;
        let bad = note_cells(headings, self.numbers.as_mut_slice(), row);
        self.bad_cell = self.bad_cell.or(bad.map(|column| (number, column)));
    }
}

/// The survey of the first so many of the records that are left.
fn survey_rows(
    alloc: Global,
    headings: &[Heading],
    row_count: usize,
    records: &mut Records<'_>,
    row: &mut ByteRecord,
) -> Result<Survey, OutOfMemory>
    requires few { row_count ≤ ROW_LIMIT }
    requires columns { length headings.now ≤ COLUMN_LIMIT }
    ensures { IfOk result (λ survey. IsSurvey headings.now (take row_count records.old) survey) }
{
    let mut survey = Survey::new(alloc, headings.len())?;
    for _ in 0..row_count {
        if !records.next(row)? {
            return Ok(survey);
        }
        survey.note(headings, row);
    }
    Ok(survey)
}

/// The survey of the first rows of a file: of so many, or of all.
pub(crate) fn survey_file(
    alloc: Global,
    bytes: &[u8],
    headings: &[Heading],
    row_count: usize,
    seen: usize,
) -> Result<Survey, OutOfMemory>
    requires shaped { IsShapedFile bytes.now headings.now row_count }
    requires some { 1 ≤ seen }
    ensures survey { IfOk result (λ survey. IsSurveyedFile bytes.now headings.now row_count survey) }
    ensures count { IfOk result (λ survey. survey.row_count ≡ min seen row_count) }
{
    let mut row = ByteRecord::new(alloc);
    let mut records = Records::of(alloc, bytes);
    // The header, which stands in the headings already.
    let _ = records.next(&mut row)?;
    let survey = survey_rows(alloc, headings, seen.min(row_count), &mut records, &mut row)?;
    Ok(survey)
}
