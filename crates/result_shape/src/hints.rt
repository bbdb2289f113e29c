//! Hints at where groups stand: numbers that were looked up lately, each with the position of its
//! group.
//!
//! A look-up in the map is a walk, a hint is one comparison: combinations of a few groups that take
//! turns hardly ask the map. Each hint is an entry of the map, and where there is none the map
//! decides, so that numbers which a stranger chose cost one comparison more and no walk more. The
//! way in is `position_of`.
ghost use Rattle.std.specs.Prelude.{◌≡◌, ◌<◌, ℕ, ℤ, IfSome, Option, Some};
ghost use Rattle.std.specs.BTreeMap.{BTreeMap as Map, get};
ghost use Rattle.std.specs.Option.{option_cmp};
ghost use Rattle.std.specs.Ordering.{int_cmp};
ghost use Rattle.result_shape.specs.Hints.{AreHintsAt};

use std::collections::BTreeMap;

/// How many numbers have a hint at once: few enough to stay in the processor's nearest cache.
const HINT_COUNT: usize = 64;

/// A number, and the position of its group.
#[derive(Clone, Copy)]
pub struct Hint {
    pub(crate) number: i64,
    pub(crate) position: usize,
}

/// The hints, each in the slot of its number: the next number of the slot takes its place.
#[derive(Clone, Copy)]
pub struct Hints {
    pub(crate) slots: [Option<Hint>; HINT_COUNT],
}

/// The slot of a number.
#[inline]
fn slot_of(number: i64) -> usize
    ensures { result < HINT_COUNT }
{
    number.unsigned_abs() as usize % HINT_COUNT
}

impl Hints {
    /// No hint yet.
    pub(crate) fn new() -> Hints
        ensures { (positions : Map (Option ℤ) ℕ) → AreHintsAt positions result }
    {
        Hints {
            slots: [None; HINT_COUNT],
        }
    }

    /// The position of the group of a number that has a hint.
    #[inline]
    fn position(&self, number: i64) -> Option<usize>
        ensures { (positions : Map (Option ℤ) ℕ) → AreHintsAt positions self.now
            → IfSome result (λ position. get (option_cmp int_cmp) positions (Some number) ≡ Some position) }
    {
        match self.slots[slot_of(number)] {
            Some(hint) => {
                if hint.number == number {
                    Some(hint.position)
                } else {
                    None
                }
            }
            None => None,
        }
    }

    /// The group of a number is at this position.
    fn put(&mut self, number: i64, position: usize)
        ensures { (positions : Map (Option ℤ) ℕ) → get (option_cmp int_cmp) positions (Some number) ≡ Some position
            → AreHintsAt positions self.old → AreHintsAt positions self.new }
    {
        self.slots[slot_of(number)] = Some(Hint { number, position });
    }
}

/// The position of a number in a map, which becomes its hint.
fn position_in(
    positions: &BTreeMap<Option<i64>, usize>,
    hints: &mut Hints,
    number: i64,
) -> Option<usize>
    requires { AreHintsAt positions.now hints.old }
    ensures value { result ≡ get (option_cmp int_cmp) positions.now (Some number) }
    ensures hints { AreHintsAt positions.now hints.new }
{
    match positions.get(&Some(number)).copied() {
        Some(position) => {
            hints.put(number, position);
            Some(position)
        }
        None => None,
    }
}

/// The position of a number in a map, of which these are hints.
#[inline]
pub(crate) fn position_of(
    positions: &BTreeMap<Option<i64>, usize>,
    hints: &mut Hints,
    number: Option<i64>,
) -> Option<usize>
    requires { AreHintsAt positions.now hints.old }
    ensures value { result ≡ get (option_cmp int_cmp) positions.now number }
    ensures hints { AreHintsAt positions.now hints.new }
{
    let Some(number) = number else {
        return positions.get(&None).copied();
    };
    match hints.position(number) {
        Some(position) => Some(position),
        None => position_in(positions, hints, number),
    }
}
