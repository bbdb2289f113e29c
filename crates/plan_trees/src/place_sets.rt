//! Sets of places: a byte in which bit t stands for place t.
//!
//! This is the one module that shifts and masks. A statement has at most five places, so a set is
//! below 32.
ghost use Rattle.std.specs.Prelude.{◌≡◌, ◌<◌, ◌≤◌, ◌+◌, IsTrue, false};
ghost use Rattle.plan_trees.specs.PlaceSets.{all_below, are_apart as apart_sets, has, one};

use row_values::PLACE_LIMIT;

/// Whether the bit is set; there is none from the 64th on.
pub(crate) fn has_bit(number: u64, bit: u8) -> bool
    ensures { result ≡ has number bit }
{
    bit < 64 && (number >> bit) % 2 == 1
}

/// Whether the set has the place.
pub fn has_place(set: u8, place: u8) -> bool
    ensures { result ≡ has set place }
{
    has_bit(u64::from(set), place)
}

/// The set of this place alone.
pub fn one_place(place: u8) -> u8
    requires { place < PLACE_LIMIT }
    ensures value { result ≡ one place }
    ensures small { result < 32 }
{
    1 << place
}

/// The set with one more place.
pub fn with_place(set: u8, place: u8) -> u8
    requires small { set < 32 }
    requires in_range { place < PLACE_LIMIT }
    requires absent { has set place ≡ false }
    ensures value { result ≡ set + one place }
    ensures small { result < 32 }
{
    set + one_place(place)
}

/// Whether the two sets are apart: no place is in both.
pub fn are_apart(left: u8, right: u8) -> bool
    ensures { result ≡ apart_sets left right }
{
    left & right == 0
}

/// The set of the places of both.
pub fn with_places(left: u8, right: u8) -> u8
    requires left { left < 32 }
    requires right { right < 32 }
    requires apart { IsTrue (apart_sets left right) }
    ensures value { result ≡ left + right }
    ensures small { result < 32 }
{
    left + right
}

/// The set of the first `count` places.
pub fn all_places(count: usize) -> u8
    requires { count ≤ PLACE_LIMIT }
    ensures value { result ≡ all_below count }
    ensures small { result < 32 }
{
    ((1_u16 << count) - 1) as u8
}
