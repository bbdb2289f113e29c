//! What plans cost as expressions of the selectivities: the equations of the cost model, case by case.
//!
//! A cardinality is a constant times selectivities. The one product of two expressions with selectivities is that of
//! a nested loop: its access is of a place that the outer side doesn't have, so no selectivity is in both.
ghost use Rattle.std.specs.Prelude.{◌≡◌, ◌<◌, ◌≤◌, ◌+◌, ◌*◌, ◌^◌, ℕ, List, IfOk, IsTrue, length, if◌then◌else◌};
ghost use Rattle.row_values.specs.Statements.{IsSoundQuery, selectivity_count};
ghost use Rattle.row_values.specs.declared.statement.TheConstants.{SELECTIVITY_LIMIT};
ghost use Rattle.plan_trees.specs.PlaceSets.{are_apart, has, one};
ghost use Rattle.plan_trees.specs.PlanSpace.{IsValidAccess, IsValidPlan, IsValidStep, IsValidTop};
ghost use Rattle.plan_trees.specs.Statistics.{IsSoundStats, selectivity_places};
ghost use Rattle.plan_trees.specs.Trees.{place_entering, places_of, top_tree, tree};
ghost use Rattle.growth_checker.specs.Expression.{Constant, Plus, Selectivity, Times, formula, value_at};
ghost use Rattle.cost_model.specs.Costs.{top_cost};
ghost use Rattle.cost_model.specs.Laws.{IsVectorOf};
ghost use Rattle.plan_costs.specs.Formulas.{IsCostFormula, card_formula, found_formula, grouped_formula, join_formula, out_formula, plan_formula, range_formula, run_formula, selected, sort_formula, step_formula, top_formula, unit_formula};

use crate::accesses::{is_selected, look_up_cost, scan_cost};
use crate::cardinalities::constant_part;
use crate::sorts::comparisons;
use crate::steps::edge_fan;
use growth_checker::Expr;
use plan_trees::{
    Access, COST_SCALE, Plan, Stats, StepKind, Top, has_place, one_place, place_read, step_place,
    with_place, with_places,
};
use row_values::{OutOfMemory, Pred, Query, is_parameterised, selectivity_count};
use std::alloc::Global;
use std::rc::Rc;

/// The sum of both.
fn sum(alloc: Global, left: Expr, right: Expr) -> Result<Expr, OutOfMemory>
    ensures { IfOk result (λ e. formula e ≡ Plus (formula left) (formula right)) }
{
    Ok(Expr::Sum(Rc::new(alloc, left)?, Rc::new(alloc, right)?))
}

/// The product of both.
fn product(alloc: Global, left: Expr, right: Expr) -> Result<Expr, OutOfMemory>
    ensures { IfOk result (λ e. formula e ≡ Times (formula left) (formula right)) }
{
    Ok(Expr::Mul(Rc::new(alloc, left)?, Rc::new(alloc, right)?))
}

/// The expression times this selectivity, if the place is in the set; else the expression.
fn with_selectivity(
    alloc: Global,
    e: Expr,
    set: u8,
    place: u8,
    next: u8,
) -> Result<Expr, OutOfMemory>
    ensures { IfOk result (λ made. formula made
        ≡ (if has set place then Times (formula e) (Selectivity next) else formula e)) }
{
    if has_place(set, place) {
        product(alloc, e, Expr::Sel(next))
    } else {
        Ok(e)
    }
}

/// The expression times the selectivities of the predicates on the places of the set.
fn with_selectivities(alloc: Global, e: Expr, preds: &[Pred], set: u8) -> Result<Expr, OutOfMemory>
    requires { selectivity_count preds.now ≤ SELECTIVITY_LIMIT }
    ensures { IfOk result (λ made. formula made
        ≡ selected set 0 (formula e) (selectivity_places preds.now)) }
{
    let mut made = e;
    let mut next = 0;
    for pred in preds {
        if is_parameterised(pred) {
            made = with_selectivity(alloc, made, set, pred.at.place, next)?;
            next += 1;
        }
    }
    Ok(made)
}

/// The cardinality of the set of places.
fn card_expr(alloc: Global, q: &Query, stats: &Stats, set: u8) -> Result<Expr, OutOfMemory>
    requires { IsSoundStats q.now stats.now }
    ensures { IfOk result (λ e. formula e ≡ card_formula q.now stats.now set) }
{
    let constant = Expr::Num(constant_part(q, stats, set));
    with_selectivities(alloc, constant, q.preds(), set)
}

/// The cardinality of the set of places, this many times.
fn weighed_card(
    alloc: Global,
    q: &Query,
    stats: &Stats,
    weight: u128,
    set: u8,
) -> Result<Expr, OutOfMemory>
    requires { IsSoundStats q.now stats.now }
    ensures { IfOk result (λ e. formula e ≡ Times (Constant weight) (card_formula q.now stats.now set)) }
{
    product(alloc, Expr::Num(weight), card_expr(alloc, q, stats, set)?)
}

/// What the rows that come out cost, where they are those of this set of places.
fn out_expr(alloc: Global, q: &Query, stats: &Stats, set: u8) -> Result<Expr, OutOfMemory>
    requires { IsSoundStats q.now stats.now }
    ensures { IfOk result (λ e. formula e ≡ out_formula q.now stats.now set) }
{
    weighed_card(alloc, q, stats, u128::from(stats.weights().out), set)
}

/// One descent in an index of the place, and the rows of this selectivity that it finds.
fn found_expr(alloc: Global, stats: &Stats, place: u8, next: u8) -> Result<Expr, OutOfMemory>
    requires { place < length stats.now.rows }
    ensures { IfOk result (λ e. formula e ≡ found_formula stats.now place next) }
{
    let descent = Expr::Num(look_up_cost(stats, place, 0));
    let weight = Expr::Num(u128::from(stats.weights().fetch));
    let rows = product(alloc, weight, Expr::Sel(next))?;
    sum(alloc, descent, rows)
}

/// What one run of an index range scan costs, for this predicate on the place.
fn range_expr(
    alloc: Global,
    q: &Query,
    stats: &Stats,
    place: u8,
    pred: u8,
) -> Result<Expr, OutOfMemory>
    requires sound { IsSoundStats q.now stats.now }
    requires place { place < length q.now.places }
    requires pred { pred < length q.now.preds }
    ensures { IfOk result (λ e. formula e ≡ range_formula q.now stats.now place pred) }
{
    if is_selected(q, pred) {
        let next = selectivity_count(&q.preds()[..usize::from(pred)]);
        found_expr(alloc, stats, place, next as u8)
    } else {
        let matching = stats.matching(pred);
        Ok(Expr::Num(look_up_cost(stats, place, matching)))
    }
}

/// What one run of the access costs, in rows.
fn unit_expr(alloc: Global, q: &Query, stats: &Stats, access: Access) -> Result<Expr, OutOfMemory>
    requires sound { IsSoundStats q.now stats.now }
    requires valid { IsValidAccess q.now stats.now.indexed access }
    ensures { IfOk result (λ e. formula e ≡ unit_formula q.now stats.now access) }
{
    match access {
        Access::Seq(place) => Ok(Expr::Num(scan_cost(stats, place))),
        Access::Range(place, _, pred) => range_expr(alloc, q, stats, place, pred),
        Access::Full(place, _) => {
            let rows = stats.rows(place);
            Ok(Expr::Num(look_up_cost(stats, place, rows)))
        }
    }
}

/// What a step costs for each row so far: a run of its access, or a look-up.
fn run_expr(alloc: Global, q: &Query, stats: &Stats, step: StepKind) -> Result<Expr, OutOfMemory>
    requires query { IsSoundQuery q.now }
    requires sound { IsSoundStats q.now stats.now }
    requires valid { (set : ℕ) × IsValidStep q.now stats.now.indexed set step }
    ensures { IfOk result (λ e. formula e ≡ run_formula q.now stats.now step) }
{
    match step {
        StepKind::Loop(access) => unit_expr(alloc, q, stats, access),
        StepKind::Probe(place, edge) => {
            let found = edge_fan(q, stats, place, edge);
            Ok(Expr::Num(look_up_cost(stats, place, found)))
        }
    }
}

/// What the step adds to the cost of a plan of these places.
fn step_expr(
    alloc: Global,
    q: &Query,
    stats: &Stats,
    set: u8,
    step: StepKind,
) -> Result<Expr, OutOfMemory>
    requires query { IsSoundQuery q.now }
    requires sound { IsSoundStats q.now stats.now }
    requires small { set < 32 }
    requires valid { IsValidStep q.now stats.now.indexed set step }
    ensures { IfOk result (λ e. formula e ≡ step_formula q.now stats.now set step) }
{
    let before = card_expr(alloc, q, stats, set)?;
    let runs = product(alloc, before, run_expr(alloc, q, stats, step)?)?;
    let after = with_place(set, step_place(step));
    sum(alloc, runs, out_expr(alloc, q, stats, after)?)
}

/// What a hash join adds to the costs of its two sides, of these places.
fn join_expr(
    alloc: Global,
    q: &Query,
    stats: &Stats,
    left: u8,
    right: u8,
) -> Result<Expr, OutOfMemory>
    requires sound { IsSoundStats q.now stats.now }
    requires left { left < 32 }
    requires right { right < 32 }
    requires apart { IsTrue (are_apart left right) }
    ensures { IfOk result (λ e. formula e ≡ join_formula q.now stats.now left right) }
{
    let outer = card_expr(alloc, q, stats, left)?;
    let both = sum(alloc, outer, card_expr(alloc, q, stats, right)?)?;
    let weight = Expr::Num(u128::from(stats.weights().hash));
    let hashed = product(alloc, weight, both)?;
    let after = with_places(left, right);
    sum(alloc, hashed, out_expr(alloc, q, stats, after)?)
}

/// What it costs to sort the rows of the set.
fn sort_expr(alloc: Global, q: &Query, stats: &Stats, set: u8) -> Result<Expr, OutOfMemory>
    requires { IsSoundStats q.now stats.now }
    ensures { IfOk result (λ e. formula e ≡ sort_formula q.now stats.now set) }
{
    weighed_card(alloc, q, stats, comparisons(q, stats, set), set)
}

/// The cost of a plan, and its places.
#[derive(Drop)]
struct Costing {
    cost: Expr,
    set: u8,
}

/// The plan with one more place.
fn after_step(
    alloc: Global,
    q: &Query,
    stats: &Stats,
    outer: Costing,
    step: StepKind,
) -> Result<Costing, OutOfMemory>
    requires query { IsSoundQuery q.now }
    requires sound { IsSoundStats q.now stats.now }
    requires small { outer.set < 32 }
    requires valid { IsValidStep q.now stats.now.indexed outer.set step }
    ensures cost { IfOk result (λ made. formula made.cost
        ≡ Plus (formula outer.cost) (step_formula q.now stats.now outer.set step)) }
    ensures places { IfOk result (λ made. made.set ≡ outer.set + one (place_entering step)) }
{
    let added = step_expr(alloc, q, stats, outer.set, step)?;
    let set = with_place(outer.set, step_place(step));
    let cost = sum(alloc, outer.cost, added)?;
    Ok(Costing { cost, set })
}

/// The hash join of two plans.
fn after_join(
    alloc: Global,
    q: &Query,
    stats: &Stats,
    outer: Costing,
    inner: Costing,
) -> Result<Costing, OutOfMemory>
    requires sound { IsSoundStats q.now stats.now }
    requires left { outer.set < 32 }
    requires right { inner.set < 32 }
    requires apart { IsTrue (are_apart outer.set inner.set) }
    ensures cost { IfOk result (λ made. formula made.cost
        ≡ Plus (Plus (formula outer.cost) (formula inner.cost))
        (join_formula q.now stats.now outer.set inner.set)) }
    ensures places { IfOk result (λ made. made.set ≡ outer.set + inner.set) }
{
    let added = join_expr(alloc, q, stats, outer.set, inner.set)?;
    let set = with_places(outer.set, inner.set);
    let sides = sum(alloc, outer.cost, inner.cost)?;
    let cost = sum(alloc, sides, added)?;
    Ok(Costing { cost, set })
}

/// The cost of a plan, and its places.
fn plan_costing(alloc: Global, q: &Query, stats: &Stats, p: &Plan) -> Result<Costing, OutOfMemory>
    requires query { IsSoundQuery q.now }
    requires sound { IsSoundStats q.now stats.now }
    requires valid { IsValidPlan q.now stats.now.indexed (tree p.now) }
    ensures cost { IfOk result (λ made. formula made.cost ≡ plan_formula q.now stats.now (tree p.now)) }
    ensures places { IfOk result (λ made. made.set ≡ places_of (tree p.now)) }
{
    match p {
        Plan::Base(access) => {
            let scale = Expr::Num(COST_SCALE);
            let cost = product(alloc, scale, unit_expr(alloc, q, stats, *access)?)?;
            let set = one_place(place_read(*access));
            Ok(Costing { cost, set })
        }
        Plan::Loop(outer, access) => {
            let below = plan_costing(alloc, q, stats, outer)?;
            after_step(alloc, q, stats, below, StepKind::Loop(*access))
        }
        Plan::Probe(outer, place, edge) => {
            let below = plan_costing(alloc, q, stats, outer)?;
            after_step(alloc, q, stats, below, StepKind::Probe(*place, *edge))
        }
        Plan::Hash(outer, inner, _) => {
            let left = plan_costing(alloc, q, stats, outer)?;
            let right = plan_costing(alloc, q, stats, inner)?;
            after_join(alloc, q, stats, left, right)
        }
        Plan::Sort(outer) => {
            let below = plan_costing(alloc, q, stats, outer)?;
            let set = below.set;
            let cost = sum(alloc, below.cost, sort_expr(alloc, q, stats, set)?)?;
            Ok(Costing { cost, set })
        }
    }
}

/// The cost of a plan, and this weight for each of its rows.
fn grouped_expr(
    alloc: Global,
    q: &Query,
    stats: &Stats,
    weight: u16,
    p: &Plan,
) -> Result<Expr, OutOfMemory>
    requires query { IsSoundQuery q.now }
    requires sound { IsSoundStats q.now stats.now }
    requires valid { IsValidPlan q.now stats.now.indexed (tree p.now) }
    ensures { IfOk result (λ e. formula e ≡ grouped_formula q.now stats.now weight (tree p.now)) }
{
    let below = plan_costing(alloc, q, stats, p)?;
    let rows = weighed_card(alloc, q, stats, u128::from(weight), below.set)?;
    sum(alloc, below.cost, rows)
}

/// The formula of a plan under its top.
fn top_expr(alloc: Global, q: &Query, stats: &Stats, p: &Top) -> Result<Expr, OutOfMemory>
    requires query { IsSoundQuery q.now }
    requires sound { IsSoundStats q.now stats.now }
    requires valid { IsValidTop q.now stats.now.indexed (top_tree p.now) }
    ensures { IfOk result (λ e. formula e ≡ top_formula q.now stats.now (top_tree p.now)) }
{
    let weights = stats.weights();
    match p {
        Top::Rows(plan) => {
            let made = plan_costing(alloc, q, stats, plan)?;
            Ok(made.cost)
        }
        Top::SortedGroups(plan) => grouped_expr(alloc, q, stats, weights.row, plan),
        Top::HashGroups(plan) => grouped_expr(alloc, q, stats, weights.hash, plan),
    }
}

/// What a plan costs, as an expression of the selectivities.
pub fn expr_of(alloc: Global, q: &Query, stats: &Stats, p: &Top) -> Result<Expr, OutOfMemory>
    requires sound { IsSoundStats q.now stats.now }
    requires valid { IsValidTop q.now stats.now.indexed (top_tree p.now) }
    ensures value { IfOk result (λ e. (s : List ℕ) → IsVectorOf q.now s
        → value_at (formula e) s ≡ top_cost q.now stats.now s (top_tree p.now)) }
    ensures sound { IfOk result (λ e. IsCostFormula (selectivity_count q.now.preds) (formula e)) }
{
    q.sound();
    let cost = top_expr(alloc, q, stats, p)?;
    Ok(cost)
}
