//! The anchors that the selectivity check can let through, by their first selectivities.
ghost use Rattle.std.specs.Prelude.{◌≡◌, ◌≤◌, ◌<◌, ◌*◌, ◌&&◌, ◌^◌, filter, nat_le};
ghost use Rattle.std.specs.List.Sorted.{IsNonDecreasingBy};
ghost use Rattle.selectivity_check.specs.Near.{is_near};

use anchor_cache::WindowEntry;
use fraction_math::Ratio;

/// Whether the one number is within the ratio of the other, where it is the greater.
fn is_within(greater: u64, lesser: u64, lambda: Ratio) -> bool
    ensures { result ≡ nat_le (greater * lambda.den) (lambda.num * lesser) }
{
    u128::from(greater) * u128::from(lambda.den()) <= u128::from(lambda.num()) * u128::from(lesser)
}

/// The entries whose first selectivity is within the ratio of this one, in their order.
pub(crate) fn window(entries: &[WindowEntry], first: u64, lambda: Ratio) -> &[WindowEntry]
    requires { IsNonDecreasingBy (λ entry. entry.first) entries.now }
    ensures { result.now ≡ filter (λ entry. is_near lambda first entry.first) entries.now }
{
    let end = entries.partition_point(|entry| is_within(entry.first, first, lambda));
    let low_enough = &entries[..end];
    let start = low_enough.partition_point(|entry| !is_within(first, entry.first, lambda));
    &low_enough[start..]
}
