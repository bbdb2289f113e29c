//! Which plans are valid for a statement, and which give the wanted order.
//!
//! A valid plan reads each place once, by an access that there is, and joins as its edges say; a
//! sort stands only
//! where the order isn't there yet. `valid` decides it. No call takes memory.
ghost use Rattle.std.specs.Prelude.{◌≡◌, ◌<◌, ◌≤◌, ◌+◌, ◌↔◌, IsTrue, MatchOption, IsSomeAnd, All, Some, slice_get};
ghost use Rattle.std.specs.Prelude.{length, map};
ghost use Rattle.std.specs.Option.{option_map};
ghost use Rattle.plan_trees.specs.Indexes.{has_index};
ghost use Rattle.row_values.specs.Statements.{IsColumn};
ghost use Rattle.plan_trees.specs.PlaceSets.{all_below, one};
ghost use Rattle.plan_trees.specs.PlanSpace.{IsValidAccess, IsValidHashJoin, IsValidStep, IsValidPlan, IsValidTop};
ghost use Rattle.plan_trees.specs.PlanSpace.{SuitsStatement, ascending, column_of, column_in, connects, joins_to};
ghost use Rattle.plan_trees.specs.PlanSpace.{has_all_keys, is_grouped, is_only_key};
ghost use Rattle.plan_trees.specs.PlanSpace.{is_sorted_access as gives_wanted_order, is_sorted_plan, wanted_order};
ghost use Rattle.plan_trees.specs.PlanSpace.{wants_order};
ghost use Rattle.plan_trees.specs.Trees.{place_entering, places_of, plan_below, top_tree, tree};

use crate::place_sets::{all_places, are_apart, has_place, one_place, with_place, with_places};
use crate::plans::{Access, Plan, StepKind, Top, place_read, step_place};
use crate::statistics::Indexed;
use row_values::{ColRef, Edge, OrderKey, PLACE_LIMIT, Query};

/// Whether the statement groups its rows.
pub fn groups_rows(q: &Query) -> bool
    ensures { result ≡ is_grouped q.now }
{
    !q.groups().is_empty()
}

/// Whether the statement wants an order.
pub fn wants_some_order(q: &Query) -> bool
    ensures { result ≡ wants_order q.now }
{
    groups_rows(q) || !q.order().is_empty()
}

/// Whether the place and its column are there.
fn is_column(q: &Query, place: u8, column: u8) -> bool
    ensures { IsTrue result ↔ IsColumn q.now.places (column_of place column) }
{
    match q.places().get(usize::from(place)) {
        Some(entry) => usize::from(column) < entry.schema.columns().len(),
        None => false,
    }
}

/// Whether the predicate is on this column.
fn is_pred_on(q: &Query, pred: u8, at: ColRef) -> bool
    ensures { IsTrue result ↔ (option_map (λ p. p.at) (slice_get q.now.preds pred) ≡ Some at) }
{
    match q.preds().get(usize::from(pred)) {
        Some(there) => there.at == at,
        None => false,
    }
}

/// Whether the access is valid.
pub fn is_valid_access(q: &Query, ix: &Indexed, access: Access) -> bool
    ensures { IsTrue result ↔ IsValidAccess q.now ix.now access }
{
    match access {
        Access::Seq(place) => usize::from(place) < q.places().len(),
        Access::Range(place, column, pred) => {
            is_column(q, place, column)
                && ix.has(place, column)
                && is_pred_on(q, pred, ColRef { place, column })
        }
        Access::Full(place, column) => is_column(q, place, column) && ix.has(place, column),
    }
}

/// Whether the edge joins a place of the set to this place.
fn joins(set: u8, place: u8, edge: Edge) -> bool
    ensures { result ≡ joins_to set place edge }
{
    (edge.right.place == place && has_place(set, edge.left.place))
        || (edge.left.place == place && has_place(set, edge.right.place))
}

/// The column of this place in the edge.
pub fn edge_column(place: u8, edge: Edge) -> u8
    ensures { result ≡ column_in place edge }
{
    if edge.right.place == place {
        edge.right.column
    } else {
        edge.left.column
    }
}

/// Whether the edge is there, joins a place of the set to this place, and its column of this place
/// has an index.
fn is_probed(q: &Query, ix: &Indexed, set: u8, place: u8, edge: u8) -> bool
    ensures { IsTrue result ↔ IsSomeAnd (slice_get q.now.edges edge)
        (λ e. IsTrue (joins_to set place e) × IsTrue (has_index ix.now place (column_in place e))) }
{
    match q.edges().get(usize::from(edge)) {
        Some(there) => joins(set, place, *there) && ix.has(place, edge_column(place, *there)),
        None => false,
    }
}

/// Whether the step is valid over this set of places.
pub fn is_valid_step(q: &Query, ix: &Indexed, set: u8, step: StepKind) -> bool
    ensures { IsTrue result ↔ IsValidStep q.now ix.now set step }
{
    match step {
        StepKind::Loop(access) => {
            is_valid_access(q, ix, access) && !has_place(set, place_read(access))
        }
        StepKind::Probe(place, edge) => {
            usize::from(place) < q.places().len()
                && !has_place(set, place)
                && is_probed(q, ix, set, place, edge)
        }
    }
}

/// Whether the edge connects the two sets.
fn connects_both(left: u8, right: u8, edge: Edge) -> bool
    ensures { result ≡ connects left right edge }
{
    (has_place(left, edge.left.place) && has_place(right, edge.right.place))
        || (has_place(left, edge.right.place) && has_place(right, edge.left.place))
}

/// Whether the edge is there and connects the two sets.
fn is_connected(q: &Query, left: u8, right: u8, edge: u8) -> bool
    ensures { IsTrue result ↔ IsSomeAnd (slice_get q.now.edges edge)
        (λ e. IsTrue (connects left right e)) }
{
    match q.edges().get(usize::from(edge)) {
        Some(there) => connects_both(left, right, *there),
        None => false,
    }
}

/// Whether a hash join of plans of these two sets of places is valid on the edge.
pub fn is_valid_hash_join(q: &Query, left: u8, right: u8, edge: u8) -> bool
    ensures { IsTrue result ↔ IsValidHashJoin q.now left right edge }
{
    are_apart(left, right) && is_connected(q, left, right, edge)
}

/// Whether this column ascending is the one wanted key.
fn is_wanted(q: &Query, at: ColRef) -> bool
    ensures { result ≡ is_only_key (wanted_order q.now) at }
{
    match q.groups() {
        [] => match q.order() {
            [key] => key.at == at && !key.descending,
            _ => false,
        },
        [group] => *group == at,
        _ => false,
    }
}

/// Whether the access gives the wanted order.
pub fn is_sorted_access(q: &Query, access: Access) -> bool
    ensures { result ≡ gives_wanted_order q.now access }
{
    match access {
        Access::Seq(_) => false,
        Access::Range(place, column, _) => is_wanted(q, ColRef { place, column }),
        Access::Full(place, column) => is_wanted(q, ColRef { place, column }),
    }
}

/// Whether the plan's rows come in the wanted order.
pub fn is_sorted(q: &Query, p: &Plan) -> bool
    ensures { result ≡ is_sorted_plan q.now (tree p.now) }
{
    match p {
        Plan::Base(access) => is_sorted_access(q, *access),
        Plan::Loop(outer, _) => is_sorted(q, outer),
        Plan::Probe(outer, _, _) => is_sorted(q, outer),
        Plan::Hash(outer, _, _) => is_sorted(q, outer),
        Plan::Sort(_) => wants_some_order(q),
    }
}

/// Whether the set has the place of each GROUP BY column.
fn has_groups(set: u8, groups: &[ColRef]) -> bool
    ensures { result ≡ has_all_keys set (map ascending groups.now) }
{
    for group in groups {
        if !has_place(set, group.place) {
            return false;
        }
    }
    true
}

/// Whether the set has the place of each ORDER BY key.
fn has_keys(set: u8, order: &[OrderKey]) -> bool
    ensures { result ≡ has_all_keys set order.now }
{
    for key in order {
        if !has_place(set, key.at.place) {
            return false;
        }
    }
    true
}

/// Whether the set has the place of each wanted key.
pub fn has_wanted(q: &Query, set: u8) -> bool
    ensures { result ≡ has_all_keys set (wanted_order q.now) }
{
    if groups_rows(q) {
        has_groups(set, q.groups())
    } else {
        has_keys(set, q.order())
    }
}

/// The places after a step, if it is valid.
fn places_after(q: &Query, ix: &Indexed, set: u8, step: StepKind) -> Option<u8>
    requires few { length q.now.places ≤ PLACE_LIMIT }
    requires small { set < 32 }
    ensures { MatchOption result (¬ IsValidStep q.now ix.now set step)
        (λ after. IsValidStep q.now ix.now set step × (after ≡ set + one (place_entering step))
        × (after < 32)) }
{
    if is_valid_step(q, ix, set, step) {
        Some(with_place(set, step_place(step)))
    } else {
        None
    }
}

/// The places after a hash join, if it is valid.
fn places_joined(q: &Query, left: u8, right: u8, edge: u8) -> Option<u8>
    requires left { left < 32 }
    requires right { right < 32 }
    ensures { MatchOption result (¬ IsValidHashJoin q.now left right edge)
        (λ both. IsValidHashJoin q.now left right edge × (both ≡ left + right) × (both < 32)) }
{
    if is_valid_hash_join(q, left, right, edge) {
        Some(with_places(left, right))
    } else {
        None
    }
}

/// The places of the plan, if it is valid.
fn places_if_valid(q: &Query, ix: &Indexed, p: &Plan) -> Option<u8>
    requires { length q.now.places ≤ PLACE_LIMIT }
    ensures { MatchOption result (¬ IsValidPlan q.now ix.now (tree p.now))
        (λ set. IsValidPlan q.now ix.now (tree p.now) × (set ≡ places_of (tree p.now)) × (set < 32)) }
{
    match p {
        Plan::Base(access) => {
            if is_valid_access(q, ix, *access) {
                Some(one_place(place_read(*access)))
            } else {
                None
            }
        }
        Plan::Loop(outer, access) => {
            let set = places_if_valid(q, ix, outer)?;
            places_after(q, ix, set, StepKind::Loop(*access))
        }
        Plan::Probe(outer, place, edge) => {
            let set = places_if_valid(q, ix, outer)?;
            places_after(q, ix, set, StepKind::Probe(*place, *edge))
        }
        Plan::Hash(outer, inner, edge) => {
            let left = places_if_valid(q, ix, outer)?;
            let right = places_if_valid(q, ix, inner)?;
            places_joined(q, left, right, *edge)
        }
        Plan::Sort(outer) => {
            let set = places_if_valid(q, ix, outer)?;
            if wants_some_order(q) && has_wanted(q, set) && !is_sorted(q, outer) {
                Some(set)
            } else {
                None
            }
        }
    }
}

/// Whether the plan is valid and reads all places.
fn is_whole(q: &Query, ix: &Indexed, p: &Plan) -> bool
    ensures { IsTrue result ↔ (IsValidPlan q.now ix.now (tree p.now)
        × (places_of (tree p.now) ≡ all_below (length q.now.places))) }
{
    let count = q.places().len();
    match places_if_valid(q, ix, p) {
        Some(set) => set == all_places(count),
        None => false,
    }
}

/// Whether the top suits the statement.
fn suits(q: &Query, p: &Top) -> bool
    ensures { IsTrue result ↔ SuitsStatement q.now (top_tree p.now) }
{
    match p {
        Top::Rows(plan) => !groups_rows(q) && (!wants_some_order(q) || is_sorted(q, plan)),
        Top::SortedGroups(plan) => groups_rows(q) && is_sorted(q, plan),
        Top::HashGroups(_) => groups_rows(q),
    }
}

/// The plan under a top.
pub fn plan_under(p: &Top) -> &Plan
    ensures { tree result.now ≡ plan_below (top_tree p.now) }
{
    match p {
        Top::Rows(plan) => plan,
        Top::SortedGroups(plan) => plan,
        Top::HashGroups(plan) => plan,
    }
}

/// Whether the plan is valid for the statement where these columns have an index.
pub fn valid(q: &Query, ix: &Indexed, p: &Top) -> bool
    ensures { IsTrue result ↔ IsValidTop q.now ix.now (top_tree p.now) }
{
    is_whole(q, ix, plan_under(p)) && suits(q, p)
}
