//! How many rows of a place meet all fixed predicates on it.
ghost use Rattle.std.specs.Prelude.{◌≡◌, ◌==◌, ◌&&◌, ℕ, [], IfOk, not, slice_index_or};
ghost use Rattle.row_tests.specs.Ready.{all_hold};
ghost use Rattle.row_values.specs.Statements.{is_parameterised as is_varying};
ghost use Rattle.statement_meaning.specs.Conditions.{row_passes};
ghost use Rattle.statement_statistics.specs.Statistics.{fixed_count as counted, fixed_preds};

use csv_tables::Table;
use row_tests::{Ready, passes, ready_pred};
use row_values::{OutOfMemory, Pred, is_parameterised};
use std::alloc::Global;

/// Whether a predicate is fixed and on this place.
fn is_fixed_on(pred: &Pred, place: u8) -> bool
    ensures { result ≡ (pred.now.at.place == place && not (is_varying pred.now)) }
{
    pred.at.place == place && !is_parameterised(pred)
}

/// The fixed predicates on this place, ready for the rows of this table.
fn fixed_tests<'a>(
    alloc: Global,
    preds: &'a [Pred],
    table: &'a Table,
    place: u8,
) -> Result<Vec<Ready<'a>>, OutOfMemory>
    ensures { IfOk result (λ tests. (row : ℕ) → all_hold [] table.now tests.items row
        ≡ row_passes [] (fixed_preds preds.now) place (slice_index_or table.now.rows row [])) }
{
    let mut tests = Vec::new(alloc);
    for pred in preds {
        if is_fixed_on(pred, place) {
            tests.push(ready_pred(&[], table, pred))?;
        }
    }
    Ok(tests)
}

/// How many rows of this place's table meet all fixed predicates on the place, at least 1.
pub(crate) fn fixed_count(
    alloc: Global,
    preds: &[Pred],
    table: &Table,
    place: u8,
) -> Result<u64, OutOfMemory>
    ensures { IfOk result (λ count. count ≡ counted preds.now place table.now.rows) }
{
    let tests = fixed_tests(alloc, preds, table, place)?;
    let mut count = 0;
    for row in 0..table.len() {
        count += u64::from(passes(table, row, &[], tests.as_slice()));
    }
    Ok(count.max(1))
}
