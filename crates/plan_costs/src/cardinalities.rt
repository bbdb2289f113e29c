//! Cardinalities of sets of places.
//!
//! The divisor of a cardinality can pass 128 bits: the rows multiplied fit 64 bits and divide at once, then each
//! distinct count divides, each time rounding up. That is as if the product of all divided once.
ghost use Rattle.std.specs.Prelude.{ℕ, ◌≡◌, ◌==◌, ◌&&◌, if◌then◌else◌, not, ◌<◌, ◌≤◌, ◌^◌, All, IfOk, length, map, slice_index};
ghost use Rattle.std.specs.Int.{div_ceil};
ghost use Rattle.row_values.specs.Statements.{is_parameterised, selectivity_count};
ghost use Rattle.plan_trees.specs.PlaceSets.{has};
ghost use Rattle.plan_trees.specs.Statistics.{IsSoundStats, IsSoundVector, selectivity_places};
ghost use Rattle.plan_costs.specs.Cards.{AreCards};
ghost use Rattle.cost_model.specs.Cardinalities.{card_of, is_inside, kappa, marked_product, product_over};

use plan_trees::{COST_SCALE, Stats, all_places, has_place};
use row_values::{Edge, OutOfMemory, Pred, Query, is_parameterised};
use std::alloc::Global;

/// The rows that meet the fixed predicates on the place, if it is in the set; else 1.
fn fixed_factor(stats: &Stats, set: u8, place: u8) -> u64
    requires { place < length stats.now.fixed }
    ensures { result ≡ (if has set place then slice_index stats.now.fixed place else 1) }
{
    if has_place(set, place) {
        stats.fixed(place)
    } else {
        1
    }
}

/// The rows that meet the fixed predicates, multiplied over the places of the set.
fn fixed_product(stats: &Stats, places: u8, set: u8) -> u64
    requires whole { places ≡ length stats.now.fixed }
    requires some { (k : ℕ) → k < length stats.now.fixed → 1 ≤ slice_index stats.now.fixed k }
    requires small { product_over set 0 stats.now.fixed ≤ 2 ^ 63 }
    ensures { result ≡ product_over set 0 stats.now.fixed }
{
    let mut product = 1;
    for place in 0..places {
        product *= fixed_factor(stats, set, place);
    }
    product
}

/// The rows of the predicate's place, if it is parameterised and its place is in the set; else 1.
fn rows_factor(stats: &Stats, set: u8, pred: &Pred) -> u64
    requires { pred.now.at.place < length stats.now.rows }
    ensures { result ≡ (if is_parameterised pred.now && has set pred.now.at.place
        then slice_index stats.now.rows pred.now.at.place else 1) }
{
    if is_parameterised(pred) && has_place(set, pred.at.place) {
        stats.rows(pred.at.place)
    } else {
        1
    }
}

/// The number divided by the factor, rounded up. Most factors are 1, and most numbers fit 64 bits: to divide more takes
/// long.
fn divided(number: u128, factor: u64) -> u128
    requires { 1 ≤ factor }
    ensures { result ≡ div_ceil number factor }
{
    if factor == 1 {
        return number;
    }
    match u64::try_from(number) {
        Ok(small) => u128::from(small.div_ceil(factor)),
        Err(_) => number.div_ceil(u128::from(factor)),
    }
}

/// The rows of each parameterised predicate's place in the set, multiplied.
fn rows_product(preds: &[Pred], stats: &Stats, set: u8) -> u64
    requires there { All (λ pred. pred.at.place < length stats.now.rows) preds.now }
    requires some { (k : ℕ) → k < length stats.now.rows → 1 ≤ slice_index stats.now.rows k }
    requires small { marked_product (map (has set) (selectivity_places preds.now))
        (map (slice_index stats.now.rows) (selectivity_places preds.now)) ≤ 2 ^ 63 }
    ensures { result ≡ marked_product (map (has set) (selectivity_places preds.now))
        (map (slice_index stats.now.rows) (selectivity_places preds.now)) }
{
    let mut product = 1;
    for pred in preds {
        product *= rows_factor(stats, set, pred);
    }
    product
}

/// The distinct count of the edge of this number, if its places are in the set; else 1.
fn distinct_factor(stats: &Stats, set: u8, number: u8, edge: &Edge) -> u64
    requires { number < length stats.now.distinct }
    ensures { result ≡ (if is_inside set edge.now then slice_index stats.now.distinct number else 1) }
{
    if has_place(set, edge.left.place) && has_place(set, edge.right.place) {
        stats.edge_distinct(number)
    } else {
        1
    }
}

/// The number divided by the distinct count of each edge inside the set, rounded up.
fn by_distinct(number: u128, edges: &[Edge], stats: &Stats, set: u8) -> u128
    requires each { length edges.now ≡ length stats.now.distinct }
    requires few { length edges.now ≤ 32 }
    requires some { (k : ℕ) → k < length stats.now.distinct → 1 ≤ slice_index stats.now.distinct k }
    ensures { result ≡ div_ceil number (marked_product (map (is_inside set) edges.now) stats.now.distinct) }
{
    let mut left = number;
    for (i, edge) in edges.iter().enumerate() {
        let factor = distinct_factor(stats, set, i as u8, edge);
        left = divided(left, factor);
    }
    left
}

/// The number, if the place is in the set; else 1.
fn selected_factor(set: u8, place: u8, number: u64) -> u64
    ensures { result ≡ (if has set place then number else 1) }
{
    if has_place(set, place) { number } else { 1 }
}

/// The selectivities of the predicates on the places of the set, multiplied.
fn selected_product(preds: &[Pred], set: u8, s: &[u64]) -> u64
    requires each { length s.now ≡ selectivity_count preds.now }
    requires some { (k : ℕ) → k < length s.now → 1 ≤ slice_index s.now k }
    requires small { marked_product (map (has set) (selectivity_places preds.now)) s.now ≤ 2 ^ 63 }
    ensures { result ≡ marked_product (map (has set) (selectivity_places preds.now)) s.now }
{
    let mut product = 1;
    let mut next = 0;
    for pred in preds {
        if is_parameterised(pred) {
            product *= selected_factor(set, pred.at.place, s[next]);
            next += 1;
        }
    }
    product
}

/// The part of the set's cardinality that no selectivity changes, on the cost scale.
pub(crate) fn constant_part(q: &Query, stats: &Stats, set: u8) -> u128
    requires { IsSoundStats q.now stats.now }
    ensures { result ≡ kappa q.now stats.now set }
{
    let fixed = fixed_product(stats, q.places().len() as u8, set);
    let start = COST_SCALE * u128::from(fixed);
    let over_rows = divided(start, rows_product(q.preds(), stats, set));
    by_distinct(over_rows, q.edges(), stats, set)
}

/// The cardinality of the set of places at the vector, on the cost scale.
pub fn card(q: &Query, stats: &Stats, set: u8, s: &[u64]) -> u128
    requires sound { IsSoundStats q.now stats.now }
    requires vector { IsSoundVector q.now stats.now s.now }
    requires there { set < 2 ^ length q.now.places }
    ensures value { result ≡ card_of q.now stats.now s.now set }
{
    let selected = selected_product(q.preds(), set, s);
    constant_part(q, stats, set) * u128::from(selected)
}

/// The cardinalities of all sets of places, in the order of their numbers from that of no place on.
pub fn all_cards(
    alloc: Global,
    q: &Query,
    stats: &Stats,
    s: &[u64],
) -> Result<Vec<u128>, OutOfMemory>
    requires sound { IsSoundStats q.now stats.now }
    requires vector { IsSoundVector q.now stats.now s.now }
    ensures value { IfOk result (λ list. AreCards q.now stats.now s.now list.items) }
{
    let end = all_places(q.places().len()) + 1;
    let mut list = Vec::new(alloc);
    for set in 0..end {
        list.push(card(q, stats, set, s))?;
    }
    Ok(list)
}

/// The cardinality of the set, read off those of all sets.
pub(crate) fn card_at(cards: &[u128], set: u8) -> u128
    requires { set < length cards.now }
    ensures { result ≡ slice_index cards.now set }
{
    cards[usize::from(set)]
}
