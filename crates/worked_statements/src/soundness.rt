//! Tests that statistics and vectors are sound for a statement.
ghost use Rattle.std.specs.Prelude.{ℕ, List, ◌≡◌, ◌<◌, ◌≤◌, ◌*◌, ◌^◌, ◌↔◌, IsTrue, IfSome, Some, All, length};
ghost use Rattle.std.specs.Prelude.{slice_get, slice_index};
ghost use Rattle.row_values.specs.declared.statement.Pred.{Pred as APred};
ghost use Rattle.plan_trees.specs.Statistics.{AreWeights, IsSoundStats, IsWithin};
ghost use Rattle.plan_trees.specs.Statistics.{selectivities_on as selectivities_of_place, weighted_size};
ghost use Rattle.worked_statements.specs.Fitting.{ArePartsSound, DoFansFit, DoesVectorFit};

use plan_trees::{Stats, Weights};
use row_values::{Place, Pred, Query, is_parameterised};

/// The most rows of a table.
const ROW_LIMIT: u64 = 1 << 20;
/// The greatest weight.
const WEIGHT_LIMIT: u16 = 1000;
/// The greatest size of a statement: its row counts multiplied, each as often as it has
/// selectivities.
const SIZE_LIMIT: u64 = 1 << 63;

/// The number at the position; 0 where there is none.
fn number_at(numbers: &[u64], position: usize) -> u64
    ensures { result ≡ slice_index numbers.now position }
{
    match numbers.get(position) {
        Some(number) => *number,
        None => 0,
    }
}

/// Whether the number is from 1 to the limit.
fn is_within(limit: u64, number: u64) -> bool
    ensures { IsTrue result ↔ IsWithin limit number }
{
    1 <= number && number <= limit
}

/// Whether each of the numbers is.
fn are_within(limit: u64, numbers: &[u64]) -> bool
    ensures { IsTrue result ↔ All (IsWithin limit) numbers.now }
{
    numbers.iter().all(|number| is_within(limit, *number))
}

/// Whether no number is 0.
fn are_some(numbers: &[u64]) -> bool
    ensures { IsTrue result ↔ All (λ number. 1 ≤ number) numbers.now }
{
    numbers.iter().all(|number| *number >= 1)
}

/// Whether each of the numbers is from 1 to the limit at its position.
fn are_each_within(limits: &[u64], numbers: &[u64]) -> bool
    ensures { IsTrue result → (k : ℕ) → k < length numbers.now
        → IsWithin (slice_index limits.now k) (slice_index numbers.now k) }
{
    for (k, number) in numbers.iter().enumerate() {
        if !is_within(number_at(limits, k), *number) {
            return false;
        }
    }
    true
}

/// Whether what matches each predicate is from 1 to the rows of its place.
fn match_within(preds: &[Pred], rows: &[u64], matching: &[u64]) -> bool
    ensures { IsTrue result → (j : ℕ) (pred : APred) → slice_get preds.now j ≡ Some pred
        → IsWithin (slice_index rows.now pred.at.place) (slice_index matching.now j) }
{
    for (j, pred) in preds.iter().enumerate() {
        let limit = number_at(rows, usize::from(pred.at.place));
        if !is_within(limit, number_at(matching, j)) {
            return false;
        }
    }
    true
}

/// Whether the numbers are one for each place and column, from 1 to the rows of the place.
fn fans_fit(places: &[Place], rows: &[u64], fans: &[u64]) -> bool
    ensures { IsTrue result → DoFansFit rows.now 0 places.now fans.now }
{
    let mut rest = fans;
    for (i, place) in places.iter().enumerate() {
        let width = place.schema.columns().len();
        if rest.len() < width {
            return false;
        }
        if !are_within(number_at(rows, i), &rest[..width]) {
            return false;
        }
        rest = &rest[width..];
    }
    rest.is_empty()
}

/// Whether the weight is from 1 to 1000.
fn is_weight(weight: u16) -> bool
    ensures { IsTrue result ↔ IsWithin 1000 weight }
{
    is_within(1000, u64::from(weight))
}

/// Whether each weight is.
fn are_weights(weights: Weights) -> bool
    ensures { IsTrue result → AreWeights weights }
{
    let rows = is_weight(weights.row) && is_weight(weights.fetch) && is_weight(weights.probe);
    let joins = is_weight(weights.hash) && is_weight(weights.sort) && is_weight(weights.out);
    rows && joins
}

/// How many predicates on the place are parameterised.
fn selectivities_on(place: usize, preds: &[Pred]) -> u32
    requires { length preds.now ≤ 32 }
    ensures { result ≡ selectivities_of_place place preds.now }
{
    let mut count = 0;
    for pred in preds {
        if is_parameterised(pred) && usize::from(pred.at.place) == place {
            count += 1;
        }
    }
    count
}

/// The number times the power of the rows, if that fits.
fn times_power(number: u64, rows: u64, count: u32) -> Option<u64>
    ensures { IfSome result (λ product. product ≡ number * rows ^ count) }
{
    let power = rows.checked_pow(count)?;
    number.checked_mul(power)
}

/// The size of the statement, if it fits: row counts multiplied, each as often as it has
/// selectivities.
fn size_of(preds: &[Pred], rows: &[u64]) -> Option<u64>
    requires { length preds.now ≤ 32 }
    ensures { IfSome result (λ size. size ≡ weighted_size preds.now 0 rows.now) }
{
    let mut size = 1;
    for (place, number) in rows.iter().enumerate() {
        let count = u32::max(1, selectivities_on(place, preds));
        size = times_power(size, *number, count)?;
    }
    Some(size)
}

/// Whether the size of the statement is within its limit.
fn is_small(preds: &[Pred], rows: &[u64]) -> bool
    requires { length preds.now ≤ 32 }
    ensures { IsTrue result → weighted_size preds.now 0 rows.now ≤ 2 ^ 63 }
{
    match size_of(preds, rows) {
        Some(size) => size <= SIZE_LIMIT,
        None => false,
    }
}

/// The rows of the place; 0 where it isn't there.
fn rows_at(q: &Query, stats: &Stats, place: u8) -> u64
    requires { IsSoundStats q.now stats.now }
    ensures { result ≡ slice_index stats.now.rows place }
{
    if usize::from(place) < q.places().len() {
        stats.rows(place)
    } else {
        0
    }
}

/// Whether the vector has a number for each parameterised predicate, from 1 to the rows of its
/// place.
pub(crate) fn does_vector_fit(q: &Query, stats: &Stats, vector: &[u64]) -> bool
    requires { IsSoundStats q.now stats.now }
    ensures { IsTrue result → DoesVectorFit stats.now.rows q.now.preds vector.now }
{
    let preds = q.preds();
    let mut rest = vector;
    for pred in preds {
        if is_parameterised(pred) {
            if rest.is_empty() {
                return false;
            }
            if !is_within(rows_at(q, stats, pred.at.place), rest[0]) {
                return false;
            }
            rest = &rest[1..];
        }
    }
    rest.is_empty()
}

/// Whether the numbers are sound for the statement, whatever has an index.
pub(crate) fn are_sound(
    q: &Query,
    rows: &[u64],
    fixed: &[u64],
    matching: &[u64],
    distinct: &[u64],
    fans: &[u64],
    weights: Weights,
) -> bool
    ensures { IsTrue result
        → ArePartsSound q.now rows.now fixed.now matching.now distinct.now fans.now weights }
{
    let places = q.places().len();
    if rows.len() != places || fixed.len() != places {
        return false;
    }
    if matching.len() != q.preds().len() || distinct.len() != q.edges().len() {
        return false;
    }
    if !are_weights(weights) {
        return false;
    }
    if !are_within(ROW_LIMIT, rows) {
        return false;
    }
    if !are_each_within(rows, fixed) {
        return false;
    }
    if !match_within(q.preds(), rows, matching) {
        return false;
    }
    if !are_some(distinct) {
        return false;
    }
    if !fans_fit(q.places(), rows, fans) {
        return false;
    }
    is_small(q.preds(), rows)
}
