//! Groups by one column of whole numbers.
//!
//! A map has the position of the group of each number, in its order: keys that a stranger chose cost
//! no more comparisons than any others. Hints spare most look-ups in it. The tallies of all groups
//! stand in one list, so that a group takes no memory of its own. The way in is `take_in`.
ghost use Rattle.std.specs.Prelude.{◌≡◌, ◌<◌, ◌≤◌, ◌+◌, ◌*◌, ◌++◌, ◌∷◌, ◌⊎◌, [], ℕ, List, All, IfOk, IfSome, IsPermutation, OnErr, OnOk};
ghost use Rattle.std.specs.Prelude.{None, drop, false, length, map, slice_index_or, take};
ghost use Rattle.std.specs.BTreeMap.{get};
ghost use Rattle.std.specs.Option.{option_cmp};
ghost use Rattle.std.specs.Ordering.{int_cmp};
ghost use Rattle.row_values.specs.Statements.{Statement};
ghost use Rattle.row_values.specs.declared.statement.Item.{Item as Shown};
ghost use Rattle.row_values.specs.declared.values.Value.{Value as Cells};
ghost use Rattle.statement_meaning.specs.Meaning.{is_same_group};
ghost use Rattle.result_shape.specs.Groups.{AreReadyFor};
ghost use Rattle.result_shape.specs.Numbered.{AreNumbered, AreWhole, HaveRoom, IsNumberOf, number_seen};
ghost use Rattle.result_shape.specs.Tallies.{HasRoom, IsReadyItem, IsTallyOf};

use crate::hints::{Hints, position_of};
use crate::tallies::{ReadyItem, Tally, first_tallies, more_tally};
use plan_operators::{ColumnCells, Combo, ReadyKey};
use row_values::OutOfMemory;
use std::alloc::Global;
use std::collections::BTreeMap;

/// A column of packed numbers of a place.
#[derive(Clone, Copy)]
pub struct NumberColumn<'a> {
    pub(crate) place: u8,
    pub(crate) numbers: &'a [i64],
}

/// Groups in the order in which they began: the first member of each, and the tallies of all, as
/// many for each as there are items.
#[derive(Drop)]
pub struct NumberGroups<'a> {
    pub(crate) column: NumberColumn<'a>,
    pub(crate) positions: BTreeMap<Option<i64>, usize>,
    pub(crate) hints: Hints,
    pub(crate) firsts: Vec<Combo>,
    pub(crate) tallies: Vec<Tally>,
}

/// A group by number: where its tallies begin among those of all.
#[derive(Debug, Drop)]
pub struct Placed {
    pub(crate) number: Option<i64>,
    pub(crate) first: Combo,
    pub(crate) start: usize,
}

/// Groups by number in the order in which they are shown, and the tallies of all.
#[derive(Debug, Drop)]
pub struct NumberRows {
    pub(crate) places: Vec<Placed>,
    pub(crate) tallies: Vec<Tally>,
}

impl<'a> NumberColumn<'a> {
    /// The number of a combination; none where there is no such row.
    #[inline]
    pub(crate) fn number(&self, c: &Combo) -> Option<i64>
        ensures { result ≡ number_seen self.now c.now }
    {
        self.numbers.get(c.row(self.place) as usize).copied()
    }
}

/// The column of one rising key whose numbers are packed.
pub(crate) fn number_column<'a>(keys: &[ReadyKey<'a>]) -> Option<NumberColumn<'a>>
    ensures { IfSome result (IsNumberOf keys.now) }
{
    let [key] = keys else {
        return None;
    };
    if key.descending {
        return None;
    }
    match key.column.cells {
        ColumnCells::Numbers(numbers) => Some(NumberColumn {
            place: key.column.place,
            numbers,
        }),
        ColumnCells::Values(_, _) => None,
    }
}

/// Takes one more member of their group into tallies, of which the group's begin at this index.
fn add_member_at(items: &[ReadyItem<'_>], tallies: &mut [Tally], start: usize, c: &Combo)
    requires bound { start + length items.now ≤ length tallies.old }
    requires room { (k : ℕ) (e : Tally) → k < length items.now → HasRoom (slice_index_or tallies.old (start + k) e) }
    ensures taken { (k : ℕ) (d : ReadyItem) (e : Tally) → k < length items.now
        → (tables : List (List (List Cells))) (first : List ℕ) (members : List (List ℕ))
        → IsReadyItem tables (slice_index_or items.now k d)
        → IsTallyOf tables first members (slice_index_or items.now k d).item (slice_index_or tallies.old (start + k) e)
        → IsTallyOf tables first (members ++ c.now ∷ []) (slice_index_or items.now k d).item
        (slice_index_or tallies.new (start + k) e) }
    ensures others { (k : ℕ) (e : Tally) → (k < start) ⊎ (start + length items.now ≤ k)
        → slice_index_or tallies.new k e ≡ slice_index_or tallies.old k e }
    ensures length { length tallies.new ≡ length tallies.old }
{
    for (i, item) in items.iter().enumerate() {
        tallies[start + i] = more_tally(item, tallies[start + i], c);
    }
}

impl<'a> NumberGroups<'a> {
    /// No group yet. It takes no memory.
    pub(crate) fn new(alloc: Global, column: NumberColumn<'a>) -> NumberGroups<'a>
        ensures column { result.column ≡ column.entry }
        ensures firsts { result.firsts.items ≡ [] }
        ensures tallies { result.tallies.items ≡ [] }
        ensures whole { (count : ℕ) → AreWhole count result }
    {
        NumberGroups {
            column,
            positions: BTreeMap::new(alloc),
            hints: Hints::new(),
            firsts: Vec::new(alloc),
            tallies: Vec::new(alloc),
        }
    }

    /// The group of a combination begins, which has this number.
    fn begin(
        &mut self,
        alloc: Global,
        items: &[ReadyItem<'_>],
        number: Option<i64>,
        c: &Combo,
    ) -> Result<(), OutOfMemory>
        requires whole { AreWhole (length items.now) self.old }
        requires number { number ≡ number_seen self.old.column c.now }
        requires absent { get (option_cmp int_cmp) self.old.positions number ≡ None }
        ensures begun { (q : Statement) (tables : List (List (List Cells))) (h : List (List ℕ)) (keys : List ReadyKey)
            → AreReadyFor q tables keys items.now → IsNumberOf keys self.old.column
            → AreNumbered q tables h self.old.firsts.items self.old.tallies.items
            → OnOk result (AreNumbered q tables (h ++ c.now ∷ []) self.new.firsts.items self.new.tallies.items) }
        ensures whole { OnOk result (AreWhole (length items.now) self.new) }
        ensures column { self.new.column ≡ self.old.column }
    {
        let position = self.firsts.len();
        let made = first_tallies(alloc, items, c)?;
        self.firsts.push(*c)?;
        self.tallies.extend_from_slice(&made)?;
        self.positions.insert(number, position)?;
        Ok(())
    }

    /// Takes a combination into its group, or begins one.
    pub(crate) fn take_in(
        &mut self,
        alloc: Global,
        items: &[ReadyItem<'_>],
        c: &Combo,
    ) -> Result<(), OutOfMemory>
        requires whole { AreWhole (length items.now) self.old }
        requires room { HaveRoom (length items.now) self.old }
        ensures taken { (q : Statement) (tables : List (List (List Cells))) (h : List (List ℕ)) (keys : List ReadyKey)
            → AreReadyFor q tables keys items.now → IsNumberOf keys self.old.column
            → AreNumbered q tables h self.old.firsts.items self.old.tallies.items
            → OnOk result (AreNumbered q tables (h ++ c.now ∷ []) self.new.firsts.items self.new.tallies.items) }
        ensures whole { OnOk result (AreWhole (length items.now) self.new) }
        ensures column { self.new.column ≡ self.old.column }
        ensures memory { (q : Statement) (tables : List (List (List Cells))) (h : List (List ℕ)) (keys : List ReadyKey)
            → AreReadyFor q tables keys items.now → IsNumberOf keys self.old.column
            → AreNumbered q tables h self.old.firsts.items self.old.tallies.items
            → OnErr result (All (λ member. is_same_group tables q.groups member c.now ≡ false) h) }
    {
        let number = self.column.number(c);
        match position_of(&self.positions, &mut self.hints, number) {
            Some(position) => {
                let start = position * items.len();
                add_member_at(items, &mut self.tallies, start, c);
                Ok(())
            }
            None => self.begin(alloc, items, number, c),
        }
    }

    /// Each group with its number, its first member, and where its tallies begin, where a group has
    /// as many as this.
    pub(crate) fn placed(&self, alloc: Global, count: usize) -> Result<Vec<Placed>, OutOfMemory>
        ensures firsts { IfOk result (λ placed. map (λ one. one.first) placed.items ≡ self.now.firsts.items) }
        ensures starts { IfOk result (λ placed. (i : ℕ) (d : Placed) → i < length placed.items
            → (slice_index_or placed.items i d).start ≡ i * count) }
    {
        let mut placed = Vec::with_capacity(alloc, self.firsts.len())?;
        let mut start: usize = 0;
        for first in &self.firsts {
            placed.push(Placed {
                number: self.column.number(first),
                first: *first,
                start,
            })?;
            start = start.checked_add(count).ok_or(OutOfMemory)?;
        }
        Ok(placed)
    }
}

/// Puts groups in the order of their numbers.
pub(crate) fn sort_by_number(placed: Vec<Placed>) -> Vec<Placed>
    ensures { IsPermutation placed.items result.items }
{
    let mut sorted = placed;
    sorted.sort_unstable_by(|a, b| a.number.cmp(&b.number));
    sorted
}

/// So many tallies from this index on; fewer where there are no more.
pub(crate) fn tallies_from(tallies: &[Tally], start: usize, count: usize) -> &[Tally]
    ensures { result.now ≡ take count (drop start tallies.now) }
{
    let rest = &tallies[start.min(tallies.len())..];
    &rest[..count.min(rest.len())]
}
