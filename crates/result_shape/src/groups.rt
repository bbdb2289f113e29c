//! Groups of a statement, each with its tallies, in the order of their keys.
//!
//! A combination goes into the group of its GROUP BY values, or begins one. The way in is `take_in`.
ghost use Rattle.std.specs.Prelude.{◌≡◌, ◌<◌, ◌∷◌, [], ℕ, List, All, IfOk, OnErr, OnOk, length, map};
ghost use Rattle.std.specs.List.Sorted.{IsStrictlySortedBy};
ghost use Rattle.row_values.specs.Statements.{Statement};
ghost use Rattle.row_values.specs.declared.values.Value.{Value as Cells};
ghost use Rattle.statement_meaning.specs.Meaning.{group_keys, keys_order};
ghost use Rattle.result_shape.specs.Tallies.{AreTalliesOf, IsReadyItem};
ghost use Rattle.result_shape.specs.Groups.{AreReadyFor, HasPlace, IsRoomy, IsTakenIn, firsts};

use crate::tallies::{ReadyItem, Tally, add_member, first_tallies};
use plan_operators::{Combo, ReadyKey, keys_order_of};
use row_values::OutOfMemory;
use std::alloc::Global;

/// A group: its first member, and what its members show together.
#[derive(Debug, Drop)]
pub struct Group {
    pub(crate) first: Combo,
    pub(crate) tallies: Vec<Tally>,
}

/// The group of one combination.
fn group_of(alloc: Global, items: &[ReadyItem<'_>], c: &Combo) -> Result<Group, OutOfMemory>
    ensures first { IfOk result (λ group. group.first ≡ c.now) }
    ensures tallies { (tables : List (List (List Cells))) → All (IsReadyItem tables) items.now
        → IfOk result (λ group. AreTalliesOf tables c.now (c.now ∷ [])
        (map (λ ready. ready.item) items.now) group.tallies.items) }
{
    let tallies = first_tallies(alloc, items, c)?;
    Ok(Group { first: *c, tallies })
}

/// Takes a combination into its group, or begins one: whether it began one.
pub(crate) fn take_in(
    alloc: Global,
    keys: &[ReadyKey<'_>],
    items: &[ReadyItem<'_>],
    groups: &mut Vec<Group>,
    c: &Combo,
) -> Result<bool, OutOfMemory>
    requires { All (IsRoomy (length items.now)) groups.old.items }
    ensures taken { (q : Statement) (tables : List (List (List Cells))) → AreReadyFor q tables keys.now items.now
        → IsStrictlySortedBy (keys_order tables (group_keys q.groups)) (firsts groups.old.items)
        → IfOk result (IsTakenIn keys.now items.now c.now groups.old.items groups.new.items) }
    ensures memory { (q : Statement) (tables : List (List (List Cells))) → AreReadyFor q tables keys.now items.now
        → IsStrictlySortedBy (keys_order tables (group_keys q.groups)) (firsts groups.old.items)
        → OnErr result (HasPlace keys.now c.now groups.old.items) }
    ensures some { OnOk result (0 < length groups.new.items) }
{
    match groups.binary_search_by(|group| keys_order_of(keys, &group.first, c)) {
        Ok(at) => {
            add_member(items, &mut groups[at].tallies, c);
            Ok(false)
        }
        Err(at) => {
            let group = group_of(alloc, items, c)?;
            groups.insert(at, group)?;
            Ok(true)
        }
    }
}
