//! The cheapest plans found so far, and what takes their place.
//!
//! Each call keeps the best so far unless the new plan costs less; only then is memory taken. Plans of fewer places
//! are shared by `Rc`.
ghost use Rattle.std.specs.Prelude.{◌≡◌, ◌<◌, ◌+◌, ◌^◌, IfOk, IfSome, true};
ghost use Rattle.plan_trees.specs.Trees.{Join, HashJoin, Sort, Base, tree};
ghost use Rattle.join_optimizer.specs.Found.{accessed, cheaper, cost_of, is_less, joined, ordered, priced, seen, stepped as with_step};

use plan_trees::{Access, Plan, StepKind, is_sorted, is_sorted_access};
use row_values::{OutOfMemory, Query};
use std::alloc::Global;
use std::rc::Rc;

/// A plan that was found, with its cost.
#[derive(Debug, Drop)]
pub(crate) struct Found {
    pub plan: Rc<Plan>,
    pub cost: u128,
}

/// What the search knows of a set of places: the cheapest plan, and the cheapest in the wanted order.
#[derive(Debug, Drop)]
pub(crate) struct Cheapest {
    pub any: Option<Found>,
    pub sorted: Option<Found>,
}

/// Whether a plan of this cost is cheaper than the best so far.
fn improves(best: &Option<Found>, cost: u128) -> bool
    ensures { result ≡ is_less cost (cost_of (seen best.now)) }
{
    match best {
        None => true,
        Some(found) => cost < found.cost,
    }
}

/// The plan with one more step over it.
pub(crate) fn stepped(
    alloc: Global,
    plan: &Rc<Plan>,
    step: StepKind,
) -> Result<Rc<Plan>, OutOfMemory>
    ensures { IfOk result (λ above. tree above.value ≡ Join (tree plan.now.value) step) }
{
    let outer = plan.clone()?;
    match step {
        StepKind::Loop(access) => Ok(Rc::new(alloc, Plan::Loop(outer, access))?),
        StepKind::Probe(place, edge) => Ok(Rc::new(alloc, Plan::Probe(outer, place, edge))?),
    }
}

/// The cheaper of the best so far and the access.
pub(crate) fn take_access(
    alloc: Global,
    access: Access,
    cost: u128,
    best: Option<Found>,
) -> Result<Option<Found>, OutOfMemory>
    ensures { IfOk result (λ after. seen after ≡ cheaper (seen best) (priced (Base access) cost)) }
{
    if !improves(&best, cost) {
        return Ok(best);
    }
    let plan = Rc::new(alloc, Plan::Base(access))?;
    Ok(Some(Found { plan, cost }))
}

/// The cheaper of the best so far and the access, if it gives the wanted order.
pub(crate) fn take_sorted_access(
    alloc: Global,
    q: &Query,
    access: Access,
    cost: u128,
    best: Option<Found>,
) -> Result<Option<Found>, OutOfMemory>
    ensures { IfOk result (λ after. seen after ≡ cheaper (seen best) (accessed q.now access cost true)) }
{
    if !is_sorted_access(q, access) {
        return Ok(best);
    }
    let after = take_access(alloc, access, cost, best)?;
    Ok(after)
}

/// The cheaper of the best so far and the outer plan with a step over it.
pub(crate) fn take_step(
    alloc: Global,
    outer: &Option<Found>,
    step: StepKind,
    cost: u128,
    best: Option<Found>,
) -> Result<Option<Found>, OutOfMemory>
    requires { IfSome outer.now (λ found. found.cost + cost < 2 ^ 128) }
    ensures { IfOk result (λ after. seen after
        ≡ cheaper (seen best) (with_step step cost (seen outer.now))) }
{
    let Some(below) = outer else {
        return Ok(best);
    };
    let total = below.cost + cost;
    if !improves(&best, total) {
        return Ok(best);
    }
    let plan = stepped(alloc, &below.plan, step)?;
    Ok(Some(Found { plan, cost: total }))
}

/// The cheaper of the best so far and the hash join of the two plans.
pub(crate) fn take_hash_join(
    alloc: Global,
    outer: &Option<Found>,
    inner: &Option<Found>,
    edge: u8,
    cost: u128,
    best: Option<Found>,
) -> Result<Option<Found>, OutOfMemory>
    requires { IfSome outer.now (λ left. IfSome inner.now (λ right. left.cost + right.cost + cost < 2 ^ 128)) }
    ensures { IfOk result (λ after. seen after
        ≡ cheaper (seen best) (joined edge cost (seen outer.now) (seen inner.now))) }
{
    let Some(left) = outer else {
        return Ok(best);
    };
    let Some(right) = inner else {
        return Ok(best);
    };
    let total = left.cost + right.cost + cost;
    if !improves(&best, total) {
        return Ok(best);
    }
    let plan = Rc::new(
        alloc,
        Plan::Hash(left.plan.clone()?, right.plan.clone()?, edge),
    )?;
    Ok(Some(Found { plan, cost: total }))
}

/// The cheaper of the best so far and this plan as it is.
fn take_same(found: &Found, best: Option<Found>) -> Result<Option<Found>, OutOfMemory>
    ensures { IfOk result (λ after. seen after
        ≡ cheaper (seen best) (priced (tree found.now.plan.value) found.now.cost)) }
{
    let cost = found.cost;
    if !improves(&best, cost) {
        return Ok(best);
    }
    let plan = found.plan.clone()?;
    Ok(Some(Found { plan, cost }))
}

/// The cheaper of the best so far and this plan with a sort over it.
fn take_sort(
    alloc: Global,
    found: &Found,
    cost: u128,
    best: Option<Found>,
) -> Result<Option<Found>, OutOfMemory>
    requires { found.now.cost + cost < 2 ^ 128 }
    ensures { IfOk result (λ after. seen after
        ≡ cheaper (seen best) (priced (Sort (tree found.now.plan.value)) (found.now.cost + cost))) }
{
    let total = found.cost + cost;
    if !improves(&best, total) {
        return Ok(best);
    }
    let plan = Rc::new(alloc, Plan::Sort(found.plan.clone()?))?;
    Ok(Some(Found { plan, cost: total }))
}

/// The cheaper of the best so far and this plan in the wanted order: as it is, if it has that order, else sorted.
pub(crate) fn take_ordered(
    alloc: Global,
    q: &Query,
    any: &Option<Found>,
    cost: u128,
    best: Option<Found>,
) -> Result<Option<Found>, OutOfMemory>
    requires { IfSome any.now (λ found. found.cost + cost < 2 ^ 128) }
    ensures { IfOk result (λ after. seen after ≡ cheaper (seen best) (ordered q.now cost (seen any.now))) }
{
    let Some(found) = any else {
        return Ok(best);
    };
    if is_sorted(q, &found.plan) {
        let after = take_same(found, best)?;
        return Ok(after);
    }
    let after = take_sort(alloc, found, cost, best)?;
    Ok(after)
}
