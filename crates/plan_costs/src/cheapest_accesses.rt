//! The cheapest access of each place: what a nested loop runs for each row so far.
//!
//! It is found once for a statement and a vector, so that no set of places looks at the others again.
ghost use Rattle.std.specs.Prelude.{◌≡◌, ◌≤◌, ◌<◌, ◌⊎◌, IfOk, length};
ghost use Rattle.plan_trees.specs.Lists.{IsAccessOf};
ghost use Rattle.plan_trees.specs.Statistics.{IsSoundStats, IsSoundVector};
ghost use Rattle.plan_costs.specs.Least.{AreLeastAccesses, IsLeastAccess, IsPricedAccess};

use crate::accesses::access_unit;
use plan_trees::{Access, Stats, accesses};
use row_values::{OutOfMemory, Query};
use std::alloc::Global;

/// An access, and what one run of it costs in rows.
#[derive(Clone, Copy, Debug)]
pub struct PricedAccess {
    pub access: Access,
    pub unit: u128,
}

/// The access with what it costs.
fn priced_access(q: &Query, stats: &Stats, s: &[u64], place: u8, access: Access) -> PricedAccess
    requires sound { IsSoundStats q.now stats.now }
    requires vector { IsSoundVector q.now stats.now s.now }
    requires valid { IsAccessOf q.now stats.now.indexed place access }
    ensures priced { IsPricedAccess q.now stats.now s.now place result }
    ensures same { result.access ≡ access }
{
    let unit = access_unit(q, stats, &access, s);
    PricedAccess { access, unit }
}

/// The cheaper of the two.
fn cheaper_access(best: PricedAccess, other: PricedAccess) -> PricedAccess
    ensures one { (result ≡ best) ⊎ (result ≡ other) }
    ensures below_best { result.unit ≤ best.unit }
    ensures below_other { result.unit ≤ other.unit }
{
    if other.unit < best.unit { other } else { best }
}

/// The cheapest access of the place.
fn least_access(
    alloc: Global,
    q: &Query,
    stats: &Stats,
    s: &[u64],
    place: u8,
) -> Result<PricedAccess, OutOfMemory>
    requires sound { IsSoundStats q.now stats.now }
    requires vector { IsSoundVector q.now stats.now s.now }
    requires there { place < length q.now.places }
    ensures { IfOk result (λ least. IsLeastAccess q.now stats.now s.now place least) }
{
    let list = accesses(alloc, q, stats.indexed(), place)?;
    let mut best = priced_access(q, stats, s, place, Access::Seq(place));
    for access in &list {
        best = cheaper_access(best, priced_access(q, stats, s, place, *access));
    }
    Ok(best)
}

/// The cheapest access of each place.
pub fn least_accesses(
    alloc: Global,
    q: &Query,
    stats: &Stats,
    s: &[u64],
) -> Result<Vec<PricedAccess>, OutOfMemory>
    requires sound { IsSoundStats q.now stats.now }
    requires vector { IsSoundVector q.now stats.now s.now }
    ensures { IfOk result (λ list. AreLeastAccesses q.now stats.now s.now (length q.now.places) list.items) }
{
    let mut list = Vec::new(alloc);
    for place in 0..q.places().len() as u8 {
        list.push(least_access(alloc, q, stats, s, place)?)?;
    }
    Ok(list)
}
