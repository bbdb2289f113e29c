//! Combinations put in order by the numbers of their first two keys.
//!
//! These numbers stand beside each combination while it is moved, so that a comparison reads no
//! column. It is a help to the sort that follows, which finds a list in order that needs no more,
//! and which alone says what the order is.
ghost use Rattle.std.specs.Prelude.{◌≡◌, IfOk, IsPermutation, map};

use plan_operators::{Cell, ColumnCells, Combo, ReadyKey};
use row_values::OutOfMemory;
use std::alloc::Global;
use std::cmp::Ordering;

/// A combination with the numbers of its first two keys.
#[derive(Drop)]
struct Headed {
    first: i64,
    second: i64,
    combo: Combo,
}

/// The number that a combination has at a key; a falling key turns it.
#[inline]
fn head_of(key: Option<&ReadyKey<'_>>, c: &Combo) -> i64 {
    let Some(key) = key else {
        return 0;
    };
    let number = match key.column.cell(c) {
        Some(Cell::Number(number)) => number,
        Some(Cell::Text(_)) => i64::MAX,
        None => i64::MIN,
    };
    if key.descending { !number } else { number }
}

/// The combinations with their numbers.
fn headed_of(
    alloc: Global,
    keys: &[ReadyKey<'_>],
    combos: &[Combo],
) -> Result<Vec<Headed>, OutOfMemory>
    ensures { IfOk result (λ headed. map (λ one. one.combo) headed.items ≡ combos.now) }
{
    let mut headed = Vec::with_capacity(alloc, combos.len())?;
    for combo in combos {
        headed.push(Headed {
            first: head_of(keys.first(), combo),
            second: head_of(keys.get(1), combo),
            combo: *combo,
        })?;
    }
    Ok(headed)
}

/// How two combinations stand by their numbers, and where these tie by their row numbers.
fn head_order(a: &Headed, b: &Headed) -> Ordering {
    a.first
        .cmp(&b.first)
        .then(a.second.cmp(&b.second))
        .then(a.combo.as_slice().cmp(b.combo.as_slice()))
}

/// The combinations without their numbers.
fn combos_of(alloc: Global, headed: &[Headed]) -> Result<Vec<Combo>, OutOfMemory>
    ensures { IfOk result (λ combos. combos.items ≡ map (λ one. one.combo) headed.now) }
{
    let mut combos = Vec::with_capacity(alloc, headed.len())?;
    for one in headed {
        combos.push(one.combo)?;
    }
    Ok(combos)
}

/// These combinations in the order of the numbers of their first two keys.
fn by_numbers(
    alloc: Global,
    keys: &[ReadyKey<'_>],
    combos: Vec<Combo>,
) -> Result<Vec<Combo>, OutOfMemory>
    ensures { IfOk result (λ sorted. IsPermutation combos.items sorted.items) }
{
    let mut headed = headed_of(alloc, keys, combos.as_slice())?;
    drop(combos);
    headed.sort_unstable_by(|a, b| head_order(a, b));
    let sorted = combos_of(alloc, headed.as_slice())?;
    Ok(sorted)
}

/// These combinations, in the order of the numbers of their first two keys where the first key
/// reads packed numbers.
pub(crate) fn by_heads(
    alloc: Global,
    keys: &[ReadyKey<'_>],
    combos: Vec<Combo>,
) -> Result<Vec<Combo>, OutOfMemory>
    ensures { IfOk result (λ sorted. IsPermutation combos.items sorted.items) }
{
    let [key, ..] = keys else {
        return Ok(combos);
    };
    match key.column.cells {
        ColumnCells::Numbers(_) => {
            let sorted = by_numbers(alloc, keys, combos)?;
            Ok(sorted)
        }
        ColumnCells::Values(_, _) => Ok(combos),
    }
}
