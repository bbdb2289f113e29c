//! The sequential scan: each row of a place is tested against the predicates on it.
//!
//! The operands are looked up once, before the first row; a column of whole numbers is read from
//! its packed list. The way in is `seq_scan`.
ghost use Rattle.std.specs.Prelude.{◌≡◌, IfOk, length, filter};
ghost use Rattle.row_values.specs.RowNumbers.{row_numbers};
ghost use Rattle.row_tests.specs.Ready.{all_hold};
ghost use Rattle.statement_meaning.specs.PartialCombinations.{RowsOnce};
ghost use Rattle.plan_operators.specs.Sources.{world_read};

use crate::source::{Source, table_of};
use csv_tables::Table;
use row_tests::{Ready, passes, ready_preds};
use row_values::{OutOfMemory, Value};
use std::alloc::Global;

/// The numbers of the rows that meet all of these, rising.
#[tactic(auto, using(crate::proofs::Scanned::scan_more))]
fn passing_rows(
    alloc: Global,
    table: &Table,
    args: &[Value],
    ready: &[Ready],
) -> Result<Vec<u32>, OutOfMemory>
    ensures { IfOk result (λ rows. rows.items
        ≡ filter (all_hold args.now table.now ready.now) (row_numbers (length table.now.rows))) }
{
    let mut rows = Vec::new(alloc);
    for row in 0..table.len() as u32 {
        if passes(table, row as usize, args, ready) {
            rows.push(row)?;
        }
    }
    Ok(rows)
}

/// The rows of a place that meet the predicates on it.
pub(crate) fn seq_scan(
    alloc: Global,
    source: &Source<'_>,
    place: u8,
) -> Result<Vec<u32>, OutOfMemory>
    ensures each_once { IfOk result (λ rows. RowsOnce (world_read source.now) place rows.items) }
{
    match table_of(source.tables, place) {
        Some(table) => {
            let ready = ready_preds(alloc, source.q.preds(), table, source.args, place)?;
            let rows = passing_rows(alloc, table, source.args, ready.as_slice())?;
            Ok(rows)
        }
        None => Ok(Vec::new(alloc)),
    }
}
