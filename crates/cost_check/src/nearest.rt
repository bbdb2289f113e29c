//! The anchors nearest to an instance.
ghost use Rattle.std.specs.Prelude.{◌≡◌, ◌<◌, ◌≤◌, ◌^◌, All, length, map, not, position, take};
ghost use Rattle.cache_model.specs.Choices.{candidates_of, greater_product, lesser_product};
ghost use Rattle.anchor_cache.specs.Anchors.{held};
ghost use Rattle.cost_check.specs.Nearest.{is_nearer as nearer, near_of, put_near};

use anchor_cache::Anchor;
use arrayvec::ArrayVec;
use cache_model::RECOST_LIMIT;

/// An anchor by where it stands, and how near it is: the greater and the lesser of each two numbers of its vector and
/// the instance's, multiplied.
#[derive(Clone, Copy, Debug, Default)]
pub(crate) struct Near {
    pub(crate) position: usize,
    pub(crate) greater: u64,
    pub(crate) lesser: u64,
}

/// The nearest anchors so far, in order.
pub(crate) type Nearest = ArrayVec<Near, RECOST_LIMIT>;

/// How near the vector is to the instance, for the anchor at this position.
fn how_near(position: usize, q: &[u64], at: &[u64]) -> Near
    requires numbers { All (λ n. 1 ≤ n) at.now }
    requires fits { greater_product q.now at.now < 2 ^ 64 }
    ensures position { result.position ≡ position }
    ensures greater { result.greater ≡ greater_product q.now at.now }
    ensures lesser { result.lesser ≡ lesser_product q.now at.now }
    ensures no_more { result.lesser ≤ result.greater }
{
    let none = Near {
        position,
        greater: 1,
        lesser: 1,
    };
    match q {
        [] => none,
        [here, q @ ..] => match at {
            [] => none,
            [there, at @ ..] => {
                let rest = how_near(position, q, at);
                Near {
                    position,
                    greater: (*here).max(*there) * rest.greater,
                    lesser: (*here).min(*there) * rest.lesser,
                }
            }
        },
    }
}

/// Whether the first is nearer than the second.
fn is_nearer(a: &Near, b: &Near) -> bool
    ensures { result ≡ nearer a.now b.now }
{
    u128::from(a.greater) * u128::from(b.lesser) < u128::from(b.greater) * u128::from(a.lesser)
}

/// Where the first stands that isn't nearer than the new one.
fn first_no_nearer(nearest: &[Near], new: &Near) -> Option<usize>
    ensures { result ≡ position (λ near. not (nearer near new.now)) nearest.now }
{
    nearest.iter().position(|near| !is_nearer(near, new))
}

/// The anchor is put before the first that isn't nearer, and where there are too many then, the last goes.
fn put(nearest: &mut Nearest, new: Near, limit: usize)
    requires limit { limit ≤ RECOST_LIMIT }
    requires few { length nearest.old.items ≤ limit }
    ensures { nearest.new.items ≡ take limit (put_near new nearest.old.items) }
{
    let place = first_no_nearer(nearest.as_slice(), &new).unwrap_or(nearest.len());
    if place == limit {
        return;
    }
    if nearest.len() == limit {
        nearest.pop();
    }
    nearest.insert(place, new);
}

/// The anchors nearest to the instance, as many as the limit; of those as near as one another the first in the list.
pub(crate) fn nearest_of(anchors: &[Anchor], q: &[u64], limit: usize) -> Nearest
    requires limit { limit ≤ RECOST_LIMIT }
    requires numbers { All (λ anchor. All (λ n. 1 ≤ n) anchor.at) anchors.now }
    requires near { All (λ anchor. greater_product q.now anchor.at < 2 ^ 64) anchors.now }
    ensures { result.items ≡ map (near_of q.now) (candidates_of q.now limit (map held anchors.now)) }
{
    let mut nearest = ArrayVec::new();
    let mut before = anchors;
    while let [earlier @ .., anchor] = before {
        let new = how_near(earlier.len(), q, anchor.at.as_slice());
        put(&mut nearest, new, limit);
        before = earlier;
    }
    nearest
}
