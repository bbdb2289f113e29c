//! All groups of a statement in runs, one behind the other in the order of their keys.
//!
//! A group that begins moves at most the rest of its run, so many groups in any order cost no more
//! than their search. The way in is `gather`, the way out `joined`.
ghost use Rattle.std.specs.Prelude.{◌≡◌, ◌<◌, ◌++◌, ◌∷◌, [], ℕ, List, All, IfOk, OnErr, OnOk, false, length, suc};
ghost use Rattle.row_values.specs.Statements.{Statement};
ghost use Rattle.row_values.specs.declared.values.Value.{Value as Cells};
ghost use Rattle.statement_meaning.specs.Meaning.{is_same_group};
ghost use Rattle.result_shape.specs.Groups.{AreGroupsOf, AreReadyFor, AreRuns, IsRoomy, LiesBetween, groups_in};

use crate::groups::{Group, take_in};
use crate::tallies::ReadyItem;
use plan_operators::{Combo, ReadyKey, keys_order_of};
use row_values::OutOfMemory;
use std::alloc::Global;

/// The most groups in a run before it is cut in two.
const RUN_LENGTH: usize = 256;

/// The run in which the group of a combination is, or goes in, by halving.
fn run_of(keys: &[ReadyKey<'_>], runs: &[Vec<Group>], c: &Combo) -> usize
    requires some { 0 < length runs.now }
    requires runs { AreRuns runs.now }
    ensures bound { result < length runs.now }
    ensures place { LiesBetween keys.now c.now runs.now result (suc result) }
{
    let mut low = 0;
    let mut high = runs.len();
    while high - low > 1 {
        let middle = low + (high - low) / 2;
        if keys_order_of(keys, &runs[middle][0].first, c).is_gt() {
            high = middle;
        } else {
            low = middle;
        }
    }
    low
}

/// Cuts the run at this index in two where it has grown past its length.
fn cut_run(runs: &mut Vec<Vec<Group>>, at: usize) -> Result<(), OutOfMemory>
    requires bound { at < length runs.old.items }
    requires runs { AreRuns runs.old.items }
    ensures groups { OnOk result (groups_in runs.new.items ≡ groups_in runs.old.items) }
    ensures runs { OnOk result (AreRuns runs.new.items) }
{
    let run = &mut runs[at];
    if run.len() <= RUN_LENGTH {
        return Ok(());
    }
    let rest = run.split_off(RUN_LENGTH / 2)?;
    runs.insert(at + 1, rest)?;
    Ok(())
}

/// Takes a combination into its group, or begins one.
pub(crate) fn gather(
    alloc: Global,
    keys: &[ReadyKey<'_>],
    items: &[ReadyItem<'_>],
    runs: &mut Vec<Vec<Group>>,
    c: &Combo,
) -> Result<(), OutOfMemory>
    requires runs { AreRuns runs.old.items }
    requires roomy { All (IsRoomy (length items.now)) (groups_in runs.old.items) }
    ensures gathered { (q : Statement) (tables : List (List (List Cells))) (h : List (List ℕ))
        → AreReadyFor q tables keys.now items.now → AreGroupsOf q tables h (groups_in runs.old.items)
        → OnOk result (AreGroupsOf q tables (h ++ c.now ∷ []) (groups_in runs.new.items)) }
    ensures runs { OnOk result (AreRuns runs.new.items) }
    ensures memory { (q : Statement) (tables : List (List (List Cells))) (h : List (List ℕ))
        → AreReadyFor q tables keys.now items.now → AreGroupsOf q tables h (groups_in runs.old.items)
        → OnErr result (All (λ member. is_same_group tables q.groups member c.now ≡ false) h) }
{
    if runs.is_empty() {
        let mut run = Vec::new(alloc);
        take_in(alloc, keys, items, &mut run, c)?;
        runs.push(run)?;
        return Ok(());
    }
    let at = run_of(keys, runs.as_slice(), c);
    if take_in(alloc, keys, items, &mut runs[at], c)? {
        cut_run(runs, at)?;
    }
    Ok(())
}

/// The groups of all runs, in their order.
pub(crate) fn joined(alloc: Global, runs: Vec<Vec<Group>>) -> Result<Vec<Group>, OutOfMemory>
    ensures { IfOk result (λ groups. groups.items ≡ groups_in runs.items) }
{
    let mut groups = Vec::new(alloc);
    for mut run in runs {
        groups.append(&mut run)?;
    }
    Ok(groups)
}
