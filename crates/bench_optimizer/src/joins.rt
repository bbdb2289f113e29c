//! The statements that are measured: joins of up to five places along a chain or to the first one.
//!
//! Each place has four columns, the first three of them with an index. There are ten predicates,
//! eight of them parameterised, and the rows are wanted in the order of the first place's third
//! column.
ghost use Rattle.std.specs.Prelude.{◌≤◌};

use row_values::{ColRef, Operand, OutOfMemory, Pred, Test, Value};
use std::alloc::Global;
use worked_statements::{Numbers, USUAL, Worked, at, statement, with_numbers};

/// The most places.
pub const MOST_PLACES: u8 = 5;

const ROWS: [u64; 5] = [200, 150, 180, 120, 160];

const MATCHING: [u64; 10] = [1, 1, 1, 1, 1, 1, 1, 1, 50, 60];

const DISTINCT: [u64; 4] = [150, 90, 60, 40];

const FANS: [u64; 20] = [2, 4, 3, 1, 1, 2, 5, 1, 3, 2, 2, 1, 4, 1, 3, 2, 2, 3, 1, 1];

/// Which places an edge joins: each to the one before, or each to the first.
#[derive(Clone, Copy, Debug, PartialEq, Eq)]
pub enum Form {
    Chain,
    Star,
}

/// The predicates: each place in turn, then again on its next column.
fn preds(alloc: Global, places: u8) -> Result<Vec<Pred>, OutOfMemory>
    requires { 1 ≤ places }
{
    let mut list = Vec::new(alloc);
    for number in 0..10 {
        let operand = if number < 8 {
            Operand::Param(number)
        } else {
            Operand::Literal(Value::Int(60))
        };
        list.push(Pred {
            at: at(number % places, 2 + number / places % 2),
            test: Test::Lt(operand),
        })?;
    }
    Ok(list)
}

/// The edges: the second column of the one place equals the first of the other.
fn edges(alloc: Global, form: Form, places: u8) -> Result<Vec<(ColRef, ColRef)>, OutOfMemory> {
    let mut list = Vec::new(alloc);
    for place in 1..places {
        let before = match form {
            Form::Chain => place - 1,
            Form::Star => 0,
        };
        list.push((at(before, 1), at(place, 0)))?;
    }
    Ok(list)
}

/// The join of so many places.
pub fn join_of(alloc: Global, form: Form, places: u8) -> Result<Option<Worked>, OutOfMemory>
    requires some { 1 ≤ places }
    requires few { places ≤ 5 }
{
    let columns = ["u", "v", "w", "x"];
    let tables = ["a", "b", "c", "d", "e"].map(|name| (name, columns.as_slice()));
    let equal = edges(alloc, form, places)?;
    let preds = preds(alloc, places)?;
    let count = usize::from(places);
    let Some(query) = statement(alloc, &tables[..count], preds, &equal, &[], &[at(0, 2)])? else {
        return Ok(None);
    };
    let numbers = Numbers {
        rows: &ROWS[..count],
        fixed: &ROWS[..count],
        matching: &MATCHING,
        distinct: &DISTINCT[..count - 1],
        fans: &FANS[..4 * count],
        masks: &[7, 7, 7, 7, 7][..count],
        weights: USUAL,
    };
    with_numbers(alloc, query, numbers)
}
