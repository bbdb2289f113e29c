//! The check itself, and the first anchor that passes it.
ghost use Rattle.std.specs.Prelude.{◌≡◌, ◌≤◌, ◌<◌, ◌==◌, ◌^◌, ◌++◌, ◌∷◌, [], All, AllPairs, List, map, nat_lt};
ghost use Rattle.std.specs.Prelude.{position, true};
ghost use Rattle.std.specs.Option.{option_map_or};
ghost use Rattle.cache_model.specs.Choices.{greater_product, passes_selectivity_check};
ghost use Rattle.anchor_cache.specs.Anchors.{held};
ghost use Rattle.anchor_cache.specs.Instances.{IsInstanceFor};
ghost use Rattle.anchor_cache.specs.declared.window.WindowEntry.{WindowEntry as Entry};
ghost use Rattle.selectivity_check.specs.Search.{IsFirstOf, place_in};

use crate::window::window;
use anchor_cache::{Anchor, Cache, WindowEntry};
use cost_polynomials::grown;
use fraction_math::{Ratio, le_scaled};

/// Whether the anchor's plan may answer the instance.
fn passes(anchor: &Anchor, q: &[u64], lambda: Ratio) -> bool
    requires numbers { All (λ n. 1 ≤ n) q.now }
    requires anchor_numbers { All (λ n. 1 ≤ n) anchor.now.at }
    requires least { 1 ≤ anchor.now.least }
    requires plan_cost { 1 ≤ anchor.now.plan_cost }
    requires near { greater_product q.now anchor.now.at ≤ 2 ^ 63 }
    ensures { result ≡ passes_selectivity_check lambda q.now (held anchor.now) }
{
    let up = grown(q, anchor.at.as_slice());
    let down = grown(anchor.at.as_slice(), q);
    le_scaled(
        &[
            anchor.plan_cost,
            u128::from(up.to),
            u128::from(down.to),
            u128::from(lambda.den()),
        ],
        &[
            u128::from(lambda.num()),
            anchor.least,
            u128::from(up.from),
            u128::from(down.from),
        ],
    )
}

/// Where the anchor of this execution stands.
fn place_of(anchors: &[Anchor], execution: u64) -> Option<usize>
    requires { AllPairs (λ a b. a.execution < b.execution) anchors.now }
    ensures { result ≡ place_in (map held anchors.now) execution }
{
    let place = anchors.partition_point(|anchor| anchor.execution < execution);
    let anchor = anchors.get(place)?;
    if anchor.execution == execution {
        Some(place)
    } else {
        None
    }
}

/// Whether the place is before the one found so far.
fn is_before(place: usize, found: Option<usize>) -> bool
    ensures { result ≡ option_map_or (nat_lt place) found true }
{
    match found {
        Some(first) => place < first,
        None => true,
    }
}

/// The place found so far, or that of the entry's anchor where this passes and stands before it.
fn earlier(
    found: Option<usize>,
    cache: &Cache,
    entry: WindowEntry,
    q: &[u64],
    lambda: Ratio,
) -> Option<usize>
    requires { IsInstanceFor cache.now.anchors q.now }
    ensures { (entries : List Entry)
        → IsFirstOf (passes_selectivity_check lambda q.now) cache.now.anchors entries found
        → IsFirstOf (passes_selectivity_check lambda q.now) cache.now.anchors (entries ++ entry ∷ []) result }
{
    let anchors = cache.anchors();
    let Some(place) = place_of(anchors, entry.execution) else {
        return found;
    };
    if is_before(place, found) && passes(&anchors[place], q, lambda) {
        Some(place)
    } else {
        found
    }
}

/// Where the first anchor in the list stands that passes the selectivity check. It is `None` exactly where none passes.
pub fn by_selectivity(cache: &Cache, q: &[u64], lambda: Ratio) -> Option<usize>
    requires { IsInstanceFor cache.now.anchors q.now }
    ensures { result ≡ position (passes_selectivity_check lambda q.now) cache.now.anchors }
{
    let first = q.first().copied().unwrap_or(0);
    let near = window(cache.by_first_selectivity(), first, lambda);
    let mut found = None;
    for entry in near {
        found = earlier(found, cache, *entry, q, lambda);
    }
    found
}
