//! What a sort costs.
//!
//! It compares each row as often as the product of the set's tables has digits: that many halvings find the row's
//! place, however few rows the set is expected to have.
ghost use Rattle.std.specs.Prelude.{ℕ, ◌≡◌, ◌*◌, ◌<◌, ◌≤◌, ◌^◌, if◌then◌else◌, length, slice_index};
ghost use Rattle.plan_trees.specs.PlaceSets.{has};
ghost use Rattle.plan_trees.specs.Statistics.{IsSoundStats, IsSoundVector};
ghost use Rattle.cost_model.specs.Cardinalities.{product_over};
ghost use Rattle.cost_model.specs.Costs as costs;
ghost use Rattle.plan_costs.specs.Cards.{AreCards};

use crate::accesses::digits;
use crate::cardinalities::{card, card_at};
use plan_trees::{Stats, has_place};
use row_values::Query;

/// The rows of the place's table, if it is in the set; else 1.
fn table_factor(stats: &Stats, set: u8, place: u8) -> u64
    requires { place < length stats.now.rows }
    ensures { result ≡ (if has set place then slice_index stats.now.rows place else 1) }
{
    if has_place(set, place) {
        stats.rows(place)
    } else {
        1
    }
}

/// The rows of the tables, multiplied over the places of the set.
fn table_product(stats: &Stats, places: u8, set: u8) -> u64
    requires whole { places ≡ length stats.now.rows }
    requires some { (k : ℕ) → k < length stats.now.rows → 1 ≤ slice_index stats.now.rows k }
    requires small { product_over set 0 stats.now.rows ≤ 2 ^ 63 }
    ensures { result ≡ product_over set 0 stats.now.rows }
{
    let mut product = 1;
    for place in 0..places {
        product *= table_factor(stats, set, place);
    }
    product
}

/// What a sort of the set's rows costs for each of them.
pub(crate) fn comparisons(q: &Query, stats: &Stats, set: u8) -> u128
    requires { IsSoundStats q.now stats.now }
    ensures { result ≡ stats.now.weights.sort * costs.digits (product_over set 0 stats.now.rows) }
{
    let tables = table_product(stats, q.places().len() as u8, set);
    u128::from(stats.weights().sort) * u128::from(digits(tables))
}

/// What it costs to sort so many rows of the set.
pub(crate) fn sort_cost_of(q: &Query, stats: &Stats, set: u8, card: u128) -> u128
    requires sound { IsSoundStats q.now stats.now }
    requires fits { stats.now.weights.sort * costs.digits (product_over set 0 stats.now.rows) * card
        < 2 ^ 128 }
    ensures value { result
        ≡ stats.now.weights.sort * costs.digits (product_over set 0 stats.now.rows) * card }
{
    comparisons(q, stats, set) * card
}

/// What it costs to sort the rows of the set, on the cost scale.
pub fn sort_cost(q: &Query, stats: &Stats, set: u8, s: &[u64]) -> u128
    requires sound { IsSoundStats q.now stats.now }
    requires vector { IsSoundVector q.now stats.now s.now }
    requires there { set < 2 ^ length q.now.places }
    ensures value { result ≡ costs.sort_cost q.now stats.now s.now set }
{
    q.sound();
    sort_cost_of(q, stats, set, card(q, stats, set, s))
}

/// What it costs to sort the rows of the set, read off the cardinalities of all sets.
pub fn sort_cost_with(q: &Query, stats: &Stats, cards: &[u128], set: u8, s: &[u64]) -> u128
    requires sound { IsSoundStats q.now stats.now }
    requires vector { IsSoundVector q.now stats.now s.now }
    requires cards { AreCards q.now stats.now s.now cards.now }
    requires there { set < 2 ^ length q.now.places }
    ensures value { result ≡ costs.sort_cost q.now stats.now s.now set }
{
    q.sound();
    sort_cost_of(q, stats, set, card_at(cards, set))
}
