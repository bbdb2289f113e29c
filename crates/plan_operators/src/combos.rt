//! Combinations of row numbers: one for each place of a statement, in the order of FROM.
//!
//! A combination is held in place and copied. While a plan runs it has 0 at the places that are not
//! in yet. `Combos` is a list of them.
ghost use Rattle.std.specs.Prelude.{◌≡◌, ◌<◌, ◌≤◌, ◌↔◌, ◌++◌, ◌∷◌, [], IfOk, IfSome, IsSome, OnOk, length, replicate};
ghost use Rattle.std.specs.Prelude.{OnErr, set, slice_index_or};
ghost use Rattle.statement_meaning.specs.PartialCombinations.{merged};
ghost use Rattle.plan_trees.specs.PlaceSets.{has};

use plan_trees::has_place;
use row_values::{OutOfMemory, PLACE_LIMIT};
use std::alloc::Global;
use std::marker::Model;

/// At most five row numbers, held in place; contracts see the list.
#[derive(Debug, Drop)]
pub struct Combo {
    rows: [u32; PLACE_LIMIT],
    count: u8,
}

impl Model for Combo {
    ghost use Rattle.std.specs.Prelude.{ℕ, List, take, length};

    ghost Value = { List ℕ };

    ghost use Rattle.plan_trees.specs.Padded.{padded};
    ghost use Rattle.plan_operators.specs.Padded.{IsCombo, combo_back, combo_inside};

    ghost view = { λ c. take c.count c.rows };

    ghost invariant = { IsCombo };

    ghost inverse = { λ xs. combo_inside (padded 5 xs) (length xs) };

    ghost inverse_ok = { combo_back };
}

impl Clone for Combo {
    ghost use Rattle.std.specs.Prelude.{◌≡◌};

    ghost is_clone = { λ original copied. copied ≡ original };

    fn clone(&self) -> Result<Combo, OutOfMemory> {
        Ok(*self)
    }
}

impl Copy for Combo {}

impl Combo {
    /// The row number 0 for each of so many places.
    pub fn zeros(count: usize) -> Combo
        requires { count ≤ PLACE_LIMIT }
        ensures { result ≡ replicate count 0 }
    {
        Combo {
            rows: [0; PLACE_LIMIT],
            count: count as u8,
        }
    }

    /// These row numbers; none exactly where there are more than five.
    pub fn of(rows: &[u32]) -> Option<Combo>
        ensures value { IfSome result (λ combo. combo ≡ rows.now) }
        ensures found { IsSome result ↔ (length rows.now ≤ PLACE_LIMIT) }
    {
        if rows.len() > PLACE_LIMIT {
            return None;
        }
        let mut kept = [0; PLACE_LIMIT];
        for (place, row) in rows.iter().enumerate() {
            kept[place] = *row;
        }
        Some(Combo {
            rows: kept,
            count: rows.len() as u8,
        })
    }

    /// The row numbers in the order of FROM.
    #[inline]
    pub fn as_slice(&self) -> &[u32]
        ensures { result.now ≡ self.now }
    {
        &self.rows[..usize::from(self.count)]
    }

    /// The row number of a place, and 0 where there is no such place.
    #[inline]
    pub fn row(&self, place: u8) -> u32
        ensures { result ≡ slice_index_or self.now place 0 }
    {
        match self.as_slice().get(usize::from(place)) {
            Some(row) => *row,
            None => 0,
        }
    }

    /// Puts another row number at a place; where there is no such place, nothing changes.
    #[inline]
    pub fn put(&mut self, place: u8, row: u32)
        ensures { self.new ≡ set self.old place row }
    {
        if place < self.count {
            self.rows[usize::from(place)] = row;
        }
    }

    /// Two combinations made one: the rows of the first at the places of its set, else the second's.
    #[inline]
    pub fn merge(set: u8, first: Combo, second: Combo) -> Combo
        requires { length first ≡ length second }
        ensures { result ≡ merged (has set) first second }
    {
        let mut made = second;
        for place in 0..first.count {
            if has_place(set, place) {
                made.put(place, first.row(place));
            }
        }
        made
    }
}

/// A list of combinations, which grows at its end; contracts see the list of lists.
#[derive(Debug, Drop)]
pub struct Combos {
    list: Vec<Combo>,
}

impl Model for Combos {
    ghost use Rattle.std.specs.Prelude.{ℕ, List};

    ghost Value = { List (List ℕ) };

    ghost view = { λ combos. combos.list.items };
}

impl Combos {
    /// No combination. It takes no memory.
    pub fn new(alloc: Global) -> Combos
        ensures { result ≡ [] }
    {
        Combos {
            list: Vec::new(alloc),
        }
    }

    /// These combinations. It takes no memory.
    pub(crate) fn of(list: Vec<Combo>) -> Combos
        ensures { result ≡ list.items }
    {
        Combos { list }
    }

    /// One more combination at the end; for want of memory the list stays as it was.
    pub fn push(&mut self, combo: Combo) -> Result<(), OutOfMemory>
        ensures ok { OnOk result (self.new ≡ self.old ++ combo ∷ []) }
        ensures err { OnErr result (self.new ≡ self.old) }
    {
        self.list.push(combo)?;
        Ok(())
    }

    /// How many there are.
    pub fn len(&self) -> usize
        ensures { result ≡ length self.now }
    {
        self.list.len()
    }

    /// The row number of a combination at a place.
    pub fn row(&self, i: usize, place: u8) -> u32
        requires position { i < length self.now }
        requires place { place < length (slice_index_or self.now i []) }
        ensures { result ≡ slice_index_or (slice_index_or self.now i []) place 0 }
    {
        self.list[i].row(place)
    }

    /// The combinations in order.
    pub fn as_slice(&self) -> &[Combo]
        ensures { result.now ≡ self.now }
    {
        self.list.as_slice()
    }
}
