//! The lists of all valid accesses of a place, and of all valid steps that take a place into a set.
//!
//! Whoever looks at all plans walks these lists: nothing valid is missing, and nothing else is in
//! them.
ghost use Rattle.std.specs.Prelude.{ℕ, ◌≡◌, ◌<◌, IfOk, MatchOption, length};
ghost use Rattle.row_values.specs.Statements.{IsColumn};
ghost use Rattle.plan_trees.specs.Lists.{GainsAll, IsAccessOf, IsFullBefore, IsListOf, IsLoopAmong, IsProbeBefore};
ghost use Rattle.plan_trees.specs.Lists.{IsRangeBefore, IsRangeBy, IsStepInto};
ghost use Rattle.plan_trees.specs.PlanSpace.{IsValidHashJoin, column_of};
ghost use Rattle.plan_trees.specs.Trees.{place_entering, place_of};

use crate::plans::{Access, StepKind};
use crate::statistics::Indexed;
use crate::validity::{is_valid_access, is_valid_hash_join, is_valid_step};
use row_values::{OutOfMemory, Query};
use std::alloc::Global;

/// Adds the access, if it is valid.
fn push_access(
    list: &mut Vec<Access>,
    q: &Query,
    ix: &Indexed,
    access: Access,
) -> Result<(), OutOfMemory>
    ensures { IfOk result (λ _. GainsAll (IsAccessOf q.now ix.now (place_of access)) (λ a. a ≡ access)
        list.old.items list.new.items) }
{
    if is_valid_access(q, ix, access) {
        list.push(access)?;
    }
    Ok(())
}

/// Adds the range over the place that the predicate of this number asks for, if it is valid.
fn push_range(
    list: &mut Vec<Access>,
    q: &Query,
    ix: &Indexed,
    place: u8,
    number: u8,
) -> Result<(), OutOfMemory>
    ensures { IfOk result (λ _. GainsAll (IsAccessOf q.now ix.now place) (IsRangeBy place number)
        list.old.items list.new.items) }
{
    match q.preds().get(usize::from(number)) {
        Some(pred) => {
            push_access(list, q, ix, Access::Range(place, pred.at.column, number))?;
            Ok(())
        }
        None => Ok(()),
    }
}

/// Adds the valid ranges over the place.
fn push_ranges(
    list: &mut Vec<Access>,
    q: &Query,
    ix: &Indexed,
    place: u8,
) -> Result<(), OutOfMemory>
    ensures { IfOk result (λ _. GainsAll (IsAccessOf q.now ix.now place)
        (IsRangeBefore place (length q.now.preds)) list.old.items list.new.items) }
{
    for number in 0..q.preds().len() as u8 {
        push_range(list, q, ix, place, number)?;
    }
    Ok(())
}

/// How many columns the place has; none where the place isn't there.
fn column_count(q: &Query, place: u8) -> u8
    ensures { (column : ℕ) → IsColumn q.now.places (column_of place column) → column < result }
{
    match q.places().get(usize::from(place)) {
        Some(entry) => entry.schema.columns().len() as u8,
        None => 0,
    }
}

/// Adds the valid accesses of all rows of the place in the order of an index.
fn push_fulls(
    list: &mut Vec<Access>,
    q: &Query,
    ix: &Indexed,
    place: u8,
    columns: u8,
) -> Result<(), OutOfMemory>
    ensures { IfOk result (λ _. GainsAll (IsAccessOf q.now ix.now place) (IsFullBefore place columns)
        list.old.items list.new.items) }
{
    for column in 0..columns {
        push_access(list, q, ix, Access::Full(place, column))?;
    }
    Ok(())
}

/// All valid accesses of the place.
pub fn accesses(
    alloc: Global,
    q: &Query,
    ix: &Indexed,
    place: u8,
) -> Result<Vec<Access>, OutOfMemory>
    ensures { IfOk result (λ list. IsListOf (IsAccessOf q.now ix.now place) list.items) }
{
    let mut list = Vec::new(alloc);
    push_access(&mut list, q, ix, Access::Seq(place))?;
    push_ranges(&mut list, q, ix, place)?;
    push_fulls(&mut list, q, ix, place, column_count(q, place))?;
    Ok(list)
}

/// Adds the step over the set, if it is valid.
fn push_step(
    list: &mut Vec<StepKind>,
    q: &Query,
    ix: &Indexed,
    set: u8,
    step: StepKind,
) -> Result<(), OutOfMemory>
    ensures { IfOk result (λ _. GainsAll (IsStepInto q.now ix.now set (place_entering step)) (λ s. s ≡ step)
        list.old.items list.new.items) }
{
    if is_valid_step(q, ix, set, step) {
        list.push(step)?;
    }
    Ok(())
}

/// Adds the valid nested loops over these accesses of the place.
fn push_loops(
    list: &mut Vec<StepKind>,
    q: &Query,
    ix: &Indexed,
    set: u8,
    place: u8,
    accesses: &[Access],
) -> Result<(), OutOfMemory>
    requires { IsListOf (IsAccessOf q.now ix.now place) accesses.now }
    ensures { IfOk result (λ _. GainsAll (IsStepInto q.now ix.now set place)
        (IsLoopAmong accesses.now (length accesses.now)) list.old.items list.new.items) }
{
    for access in accesses {
        push_step(list, q, ix, set, StepKind::Loop(*access))?;
    }
    Ok(())
}

/// Adds the valid look-ups in the place.
fn push_probes(
    list: &mut Vec<StepKind>,
    q: &Query,
    ix: &Indexed,
    set: u8,
    place: u8,
) -> Result<(), OutOfMemory>
    ensures { IfOk result (λ _. GainsAll (IsStepInto q.now ix.now set place)
        (IsProbeBefore place (length q.now.edges)) list.old.items list.new.items) }
{
    for edge in 0..q.edges().len() as u8 {
        push_step(list, q, ix, set, StepKind::Probe(place, edge))?;
    }
    Ok(())
}

/// All valid steps over the set that take in the place: nested loops, and look-ups by an edge to
/// the place.
pub fn steps(
    alloc: Global,
    q: &Query,
    ix: &Indexed,
    set: u8,
    place: u8,
) -> Result<Vec<StepKind>, OutOfMemory>
    ensures { IfOk result (λ list. IsListOf (IsStepInto q.now ix.now set place) list.items) }
{
    let mut list = Vec::new(alloc);
    push_loops(
        &mut list,
        q,
        ix,
        set,
        place,
        &accesses(alloc, q, ix, place)?,
    )?;
    push_probes(&mut list, q, ix, set, place)?;
    Ok(list)
}

/// An edge on which a hash join of these two sets of places is valid, if there is one.
pub fn hash_join_edge(q: &Query, left: u8, right: u8) -> Option<u8>
    ensures { MatchOption result ((edge : ℕ) → ¬ IsValidHashJoin q.now left right edge)
        (λ edge. IsValidHashJoin q.now left right edge) }
{
    for edge in 0..q.edges().len() as u8 {
        if is_valid_hash_join(q, left, right, edge) {
            return Some(edge);
        }
    }
    None
}
