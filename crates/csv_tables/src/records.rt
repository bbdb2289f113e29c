//! The records of a file in turn, each read into one record that is used again.
//!
//! Contracts see a `Records` as the list of the records that are left, so that no caller knows the
//! crate `csv`.
//! Only want of memory ends it early.
ghost use Rattle.std.specs.Prelude.{◌≡◌, ◌∷◌, [], if◌then◌else◌, IfOk};
ghost use Rattle.csv.specs.Records.{fields_of};
ghost use Rattle.csv_tables.specs.Reading.{records_of};

use csv::{ByteRecord, Reader, ReaderBuilder};
use row_values::OutOfMemory;
use std::alloc::Global;
use std::marker::Model;

/// A reader of the records of bytes in memory; contracts see the list of those that are left.
#[derive(Drop)]
pub(crate) struct Records<'a> {
    reader: Reader<&'a [u8]>,
    ended: bool,
}

impl<'a> Model for Records<'a> {
    ghost use Rattle.std.specs.Prelude.{◌≡◌, ℕ, List, false};
    ghost use Rattle.csv_tables.specs.Reading.{IsBetween, records_left};

    ghost Value = { List (List (List ℕ)) };

    ghost view = { λ r. records_left r.ended r.reader };

    ghost invariant = { λ r. r.ended ≡ false → IsBetween r.reader };
}

impl<'a> Records<'a> {
    /// The records of these bytes. It takes no memory.
    pub(crate) fn of(alloc: Global, bytes: &'a [u8]) -> Records<'a>
        ensures { result ≡ records_of bytes.now }
    {
        let reader = ReaderBuilder::new()
            .has_headers(false)
            .flexible(true)
            .from_reader(alloc, bytes);
        Records {
            reader,
            ended: false,
        }
    }

    /// The next record into `row`, and whether there was one.
    pub(crate) fn next(&mut self, row: &mut ByteRecord) -> Result<bool, OutOfMemory>
        ensures { IfOk result (λ found. self.old ≡ (if found then fields_of row.new ∷ self.new else [])) }
    {
        if self.ended {
            return Ok(false);
        }
        self.ended = true;
        let Ok(found) = self.reader.read_byte_record(row) else {
            return Err(OutOfMemory);
        };
        self.ended = !found;
        Ok(found)
    }
}
