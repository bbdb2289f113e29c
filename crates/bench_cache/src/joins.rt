//! The statements that are measured: joins of a chain of places with a predicate on each.

ghost use Rattle.std.specs.Prelude.{◌≤◌};

use row_values::{Operand, OutOfMemory, Pred, Test};
use std::alloc::Global;
use worked_statements::{Numbers, USUAL, Worked, at, statement, with_numbers};

/// The join of so many places: each has a thousand rows, three columns with an index on each, a
/// parameter on the third, and the second equals the first of the next place.
pub fn join_of(alloc: Global, places: u8) -> Result<Option<Worked>, OutOfMemory>
    requires some { 1 ≤ places }
    requires few { places ≤ 5 }
{
    let mut preds = Vec::new(alloc);
    for place in 0..places {
        preds.push(Pred {
            at: at(place, 2),
            test: Test::Lt(Operand::Param(place)),
        })?;
    }
    let mut equal = Vec::new(alloc);
    for place in 1..places {
        equal.push((at(place - 1, 1), at(place, 0)))?;
    }
    let columns = ["u", "v", "w"];
    let tables = ["a", "b", "c", "d", "e"].map(|name| (name, columns.as_slice()));
    let count = usize::from(places);
    let Some(query) = statement(alloc, &tables[..count], preds, &equal, &[], &[])? else {
        return Ok(None);
    };
    let numbers = Numbers {
        rows: &[1000; 5][..count],
        fixed: &[1000; 5][..count],
        matching: &[1; 5][..count],
        distinct: &[500, 250, 400, 200][..count - 1],
        fans: &[2, 4, 1, 2, 5, 1, 1, 3, 2, 2, 4, 1, 3, 2, 1][..3 * count],
        masks: &[7; 5][..count],
        weights: USUAL,
    };
    with_numbers(alloc, query, numbers)
}
