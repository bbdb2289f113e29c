//! The anchors in the order of their first selectivities: the selectivity check looks at a window of them alone.
ghost use Rattle.std.specs.Prelude.{◌≡◌, ◌<◌, ◌≤◌, ◌+◌, ◌++◌, ◌∷◌, [], List, length, map, vec_capacity, vec_len};
ghost use Rattle.cache_model.specs.Caches.{Anchor as Held};
ghost use Rattle.anchor_cache.specs.Anchors.{held};
ghost use Rattle.anchor_cache.specs.Window.{IsOrdered, entry_of};

use crate::anchors::Anchor;

/// An anchor by its first selectivity, which is 0 where it has none.
#[derive(Clone, Copy, Debug, PartialEq, Eq)]
pub struct WindowEntry {
    pub first: u64,
    pub execution: u64,
}

fn entry(anchor: &Anchor) -> WindowEntry
    ensures { result ≡ entry_of (held anchor.now) }
{
    WindowEntry {
        first: anchor.at.as_slice().first().copied().unwrap_or(0),
        execution: anchor.execution,
    }
}

/// The anchor is put behind those whose first selectivity is no greater.
pub(crate) fn insert(ordered: &mut Vec<WindowEntry>, anchor: &Anchor)
    requires room { vec_len ordered.old < vec_capacity ordered.old }
    ensures ordered { (anchors : List Held) → IsOrdered anchors ordered.old.items
        → IsOrdered (anchors ++ held anchor.now ∷ []) ordered.new.items }
    ensures len { vec_len ordered.new ≡ vec_len ordered.old + 1 }
    ensures capacity { vec_capacity ordered.new ≡ vec_capacity ordered.old }
{
    let new = entry(anchor);
    let place = ordered.partition_point(|old| old.first <= new.first);
    let _ = ordered.insert(place, new);
}

/// These anchors in order, in place of what was there.
pub(crate) fn put_in_order(ordered: &mut Vec<WindowEntry>, anchors: &[Anchor])
    requires room { length anchors.now ≤ vec_capacity ordered.old }
    ensures ordered { IsOrdered (map held anchors.now) ordered.new.items }
    ensures capacity { vec_capacity ordered.new ≡ vec_capacity ordered.old }
{
    ordered.clear();
    for anchor in anchors {
        ordered.push_reserved(entry(anchor));
    }
    ordered.sort_unstable_by_key(|entry| entry.first);
}
