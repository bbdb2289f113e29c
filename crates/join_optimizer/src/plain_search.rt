//! Every valid plan of a statement, one by one, and the least of their costs: what the tests compare with.
//!
//! No plan is left out for its cost, and each is costed by itself, by its polynomial.
ghost use Rattle.plan_trees.specs.Statistics.{IsSoundVector};

use crate::found::stepped;
use plan_costs::poly_of;
use plan_trees::{
    Plan, Top, accesses, all_places, has_place, has_wanted, is_sorted, is_valid_hash_join,
    one_place, steps, valid, wants_some_order,
};
use row_values::OutOfMemory;
use std::alloc::Global;
use std::rc::Rc;
use worked_statements::Worked;

/// Plans of one set of places.
type Plans = Vec<Rc<Plan>>;

/// The plans of the set, if they were listed.
fn plans_at(sets: &[Plans], set: u8) -> &[Rc<Plan>] {
    match sets.get(usize::from(set)) {
        Some(plans) => plans.as_slice(),
        None => &[],
    }
}

/// Adds each access of the place.
fn push_accesses(
    alloc: Global,
    w: &Worked,
    place: u8,
    list: &mut Plans,
) -> Result<(), OutOfMemory> {
    let each = accesses(alloc, &w.query, w.stats.indexed(), place)?;
    for access in &each {
        list.push(Rc::new(alloc, Plan::Base(*access))?)?;
    }
    Ok(())
}

/// Adds each step that takes in the place, over each plan of the others.
fn push_steps(
    alloc: Global,
    w: &Worked,
    sets: &[Plans],
    from: u8,
    place: u8,
    list: &mut Plans,
) -> Result<(), OutOfMemory> {
    let each = steps(alloc, &w.query, w.stats.indexed(), from, place)?;
    for step in &each {
        for outer in plans_at(sets, from) {
            list.push(stepped(alloc, outer, *step)?)?;
        }
    }
    Ok(())
}

/// Adds the hash joins of the outer plan with each of the inner ones, on this edge.
fn push_hash_joins(
    alloc: Global,
    outer: &Rc<Plan>,
    inners: &[Rc<Plan>],
    edge: u8,
    list: &mut Plans,
) -> Result<(), OutOfMemory> {
    for inner in inners {
        let join = Plan::Hash(outer.clone()?, inner.clone()?, edge);
        list.push(Rc::new(alloc, join)?)?;
    }
    Ok(())
}

/// Adds each hash join of plans of the two sets.
fn push_splits(
    alloc: Global,
    w: &Worked,
    sets: &[Plans],
    left: u8,
    right: u8,
    list: &mut Plans,
) -> Result<(), OutOfMemory> {
    for edge in 0..w.query.edges().len() as u8 {
        if is_valid_hash_join(&w.query, left, right, edge) {
            for outer in plans_at(sets, left) {
                push_hash_joins(alloc, outer, plans_at(sets, right), edge, list)?;
            }
        }
    }
    Ok(())
}

/// Each plan that isn't in the wanted order, with a sort over it.
fn sorts_over(
    alloc: Global,
    w: &Worked,
    set: u8,
    plans: &[Rc<Plan>],
) -> Result<Plans, OutOfMemory> {
    let mut list = Vec::new(alloc);
    if !wants_some_order(&w.query) || !has_wanted(&w.query, set) {
        return Ok(list);
    }
    for plan in plans {
        if !is_sorted(&w.query, plan) {
            list.push(Rc::new(alloc, Plan::Sort(plan.clone()?))?)?;
        }
    }
    Ok(list)
}

/// Every valid plan of the set, over those of the smaller sets.
fn plans_of(alloc: Global, w: &Worked, sets: &[Plans], set: u8) -> Result<Plans, OutOfMemory> {
    let mut list = Vec::new(alloc);
    for place in 0..w.query.places().len() as u8 {
        if set == one_place(place) {
            push_accesses(alloc, w, place, &mut list)?;
        } else if has_place(set, place) {
            push_steps(alloc, w, sets, set ^ one_place(place), place, &mut list)?;
        }
    }
    for right in 1..set {
        push_splits(alloc, w, sets, set - right, right, &mut list)?;
    }
    let mut sorts = sorts_over(alloc, w, set, &list)?;
    list.append(&mut sorts)?;
    Ok(list)
}

/// What the top costs at the vector, if it is valid.
fn cost_of(alloc: Global, w: &Worked, top: &Top, s: &[u64]) -> Result<Option<u128>, OutOfMemory>
    requires { IsSoundVector w.now.query w.now.stats s.now }
{
    if !valid(&w.query, w.stats.indexed(), top) {
        return Ok(None);
    }
    let poly = poly_of(alloc, &w.query, &w.stats, top)?;
    Ok(poly.eval(s))
}

/// The lower of the two.
fn lower(least: Option<u128>, cost: Option<u128>) -> Option<u128> {
    match (least, cost) {
        (Some(a), Some(b)) => Some(a.min(b)),
        (None, other) => other,
        (some, None) => some,
    }
}

/// The least cost of the tops over this plan.
fn least_over(
    alloc: Global,
    w: &Worked,
    plan: &Rc<Plan>,
    s: &[u64],
) -> Result<Option<u128>, OutOfMemory>
    requires { IsSoundVector w.now.query w.now.stats s.now }
{
    let rows = cost_of(alloc, w, &Top::Rows(plan.clone()?), s)?;
    let sorted = cost_of(alloc, w, &Top::SortedGroups(plan.clone()?), s)?;
    let hashed = cost_of(alloc, w, &Top::HashGroups(plan.clone()?), s)?;
    Ok(lower(rows, lower(sorted, hashed)))
}

/// The least cost of all valid plans.
pub(crate) fn least_of_all(
    alloc: Global,
    w: &Worked,
    s: &[u64],
) -> Result<Option<u128>, OutOfMemory>
    requires { IsSoundVector w.now.query w.now.stats s.now }
{
    let all = all_places(w.query.places().len());
    let mut sets = Vec::new(alloc);
    sets.push(Vec::new(alloc))?;
    for set in 1..all {
        let plans = plans_of(alloc, w, &sets, set)?;
        sets.push(plans)?;
    }
    let whole = plans_of(alloc, w, &sets, all)?;
    let mut least = None;
    for plan in &whole {
        least = lower(least, least_over(alloc, w, plan, s)?);
    }
    Ok(least)
}
