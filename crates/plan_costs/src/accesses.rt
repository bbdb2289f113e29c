//! What one run of an access costs.
//!
//! Weights are below 2^16, row counts below 2^64 and digits at most 64, so no unit passes 128 bits.
ghost use Rattle.std.specs.Prelude.{◌≡◌, ◌<◌, ◌^◌, ◌*◌, false, length, slice_get, slice_index};
ghost use Rattle.std.specs.Option.{option_map_or};
ghost use Rattle.row_values.specs.Statements.{is_parameterised, selectivity_count};
ghost use Rattle.plan_trees.specs.PlanSpace.{IsValidAccess};
ghost use Rattle.plan_trees.specs.Statistics.{IsSoundStats, IsSoundVector};
ghost use Rattle.cost_model.specs.Costs as costs;

use plan_trees::{Access, Stats};
use row_values::{Query, is_parameterised, selectivity_count};

/// How many binary digits the number has.
pub(crate) fn digits(number: u64) -> u32
    ensures { result ≡ costs.digits number }
{
    u64::BITS - number.leading_zeros()
}

/// Whether the predicate of this number is parameterised.
pub(crate) fn is_selected(q: &Query, pred: u8) -> bool
    ensures { result ≡ option_map_or is_parameterised (slice_get q.now.preds pred) false }
{
    match q.preds().get(usize::from(pred)) {
        Some(there) => is_parameterised(there),
        None => false,
    }
}

/// The rows that meet the predicate: what the vector has for it, or its fixed count.
fn rows_met(q: &Query, stats: &Stats, pred: u8, s: &[u64]) -> u64
    requires sound { IsSoundStats q.now stats.now }
    requires vector { IsSoundVector q.now stats.now s.now }
    requires there { pred < length q.now.preds }
    ensures { result ≡ costs.rows_met q.now stats.now s.now pred }
{
    if is_selected(q, pred) {
        s[selectivity_count(&q.preds()[..usize::from(pred)])]
    } else {
        stats.matching(pred)
    }
}

/// What one descent in an index of the place costs, with the rows that it finds.
pub(crate) fn look_up_cost(stats: &Stats, place: u8, found: u64) -> u128
    requires there { place < length stats.now.rows }
    ensures { result ≡ costs.look_up_cost stats.now place found }
{
    let weights = stats.weights();
    u128::from(weights.probe) * u128::from(digits(stats.rows(place)))
        + u128::from(weights.fetch) * u128::from(found)
}

/// What it costs to read all rows of the place.
pub(crate) fn scan_cost(stats: &Stats, place: u8) -> u128
    requires there { place < length stats.now.rows }
    ensures { result ≡ stats.now.weights.row * slice_index stats.now.rows place }
{
    u128::from(stats.weights().row) * u128::from(stats.rows(place))
}

/// What one run of the access costs, in rows.
pub fn access_unit(q: &Query, stats: &Stats, a: &Access, s: &[u64]) -> u128
    requires sound { IsSoundStats q.now stats.now }
    requires vector { IsSoundVector q.now stats.now s.now }
    requires valid { IsValidAccess q.now stats.now.indexed a.now }
    ensures value { result ≡ costs.access_unit q.now stats.now s.now a.now }
{
    match *a {
        Access::Seq(place) => scan_cost(stats, place),
        Access::Range(place, _, pred) => look_up_cost(stats, place, rows_met(q, stats, pred, s)),
        Access::Full(place, _) => look_up_cost(stats, place, stats.rows(place)),
    }
}
