//! What is wrong with a statement whose references are known: kinds that don't go together, and
//! items or keys that
//! the grouping doesn't allow.
//!
//! Each `first_..` gives the first case in text order, and takes no memory.
ghost use Rattle.std.specs.Prelude.{◌≡◌, ◌≤◌, length};
ghost use Rattle.std.specs.List.{list_all};
ghost use Rattle.std.specs.Option.{option_map};
ghost use Rattle.name_binder.specs.Refusals as refusals;

use crate::parts::{bound_item, col_ref};
use crate::raw_operands::operands;
use crate::references::{item_ref, kind_meant, meant};
use row_values::{ColRef, Item, Kind, PLACE_LIMIT, Place, has_group};
use sql_parser::{RawCond, RawItem, RawKey, RawOperand, RawRef, RawTest};

/// Whether both kinds are there and are one.
fn are_one_kind(left: Option<Kind>, right: Option<Kind>) -> bool
    ensures { result ≡ refusals.are_one_kind left right }
{
    match (left, right) {
        (Some(Kind::Int), Some(Kind::Int)) => true,
        (Some(Kind::Text), Some(Kind::Text)) => true,
        _ => false,
    }
}

/// Whether a column of this kind can be compared with the operand.
fn takes_operand(left: Option<Kind>, operand: &RawOperand) -> bool
    ensures { result ≡ refusals.takes_operand left operand.now }
{
    match operand {
        RawOperand::Literal(value) => are_one_kind(left, Some(value.kind())),
        RawOperand::Param => true,
    }
}

/// Whether a column of this kind can be compared with each of the operands.
fn takes_all(left: Option<Kind>, operands: &[RawOperand]) -> bool
    ensures { result ≡ list_all (refusals.takes_operand left) operands.now }
{
    operands.iter().all(|operand| takes_operand(left, operand))
}

/// Whether a column of this kind can be tested so.
fn takes_test(left: Option<Kind>, test: &RawTest) -> bool
    ensures { result ≡ refusals.takes_test left test.now }
{
    let (front, back) = operands(test);
    takes_all(left, front) && takes_all(left, back)
}

/// Whether the two columns are of one place or of two kinds.
fn is_misfit_edge(places: &[Place], a: &RawRef, b: &RawRef) -> bool
    ensures { result ≡ refusals.is_misfit places.now (RawCond.Same a.now b.now) }
{
    meant(places, a).place == meant(places, b).place
        || !are_one_kind(kind_meant(places, a), kind_meant(places, b))
}

/// Whether the condition compares what doesn't go together.
fn is_misfit(places: &[Place], cond: &RawCond) -> bool
    ensures { result ≡ refusals.is_misfit places.now cond.now }
{
    match cond {
        RawCond::Test(r, test) => !takes_test(kind_meant(places, r), test),
        RawCond::Same(a, b) => is_misfit_edge(places, a, b),
    }
}

/// The column on the left.
fn left_of(cond: &RawCond) -> &RawRef
    ensures { result.now ≡ refusals.left_of cond.now }
{
    match cond {
        RawCond::Test(r, _) => r,
        RawCond::Same(a, _) => a,
    }
}

/// The column on the left of the first misfit.
pub fn first_misfit<'a>(places: &[Place], conds: &'a [RawCond]) -> Option<&'a RawRef>
    ensures { option_map (λ r. r.now) result ≡ refusals.first_misfit places.now conds.now }
{
    for cond in conds {
        if is_misfit(places, cond) {
            return Some(left_of(cond));
        }
    }
    None
}

/// Whether the grouping doesn't allow the item.
fn is_ungrouped_item(groups: &[ColRef], item: &Item) -> bool
    ensures { result ≡ refusals.is_ungrouped_item groups.now item.now }
{
    match item {
        Item::Column(at) => !groups.is_empty() && !has_group(groups, *at),
        _ => groups.is_empty(),
    }
}

/// Whether the grouping doesn't allow a key on this column.
fn is_ungrouped_key(groups: &[ColRef], at: ColRef) -> bool
    ensures { result ≡ refusals.is_ungrouped_key groups.now at }
{
    !groups.is_empty() && !has_group(groups, at)
}

/// The first item that the grouping doesn't allow.
pub fn first_ungrouped_item<'a>(
    groups: &[ColRef],
    places: &[Place],
    items: &'a [RawItem],
) -> Option<&'a RawItem>
    requires { length places.now ≤ PLACE_LIMIT }
    ensures { option_map (λ item. item.now) result ≡ refusals.first_ungrouped_item groups.now places.now items.now }
{
    for item in items {
        if is_ungrouped_item(groups, &bound_item(places, item)) {
            return Some(item);
        }
    }
    None
}

/// The first ORDER BY key that the grouping doesn't allow.
pub fn first_ungrouped_key<'a>(
    groups: &[ColRef],
    places: &[Place],
    order: &'a [RawKey],
) -> Option<&'a RawKey>
    requires { length places.now ≤ PLACE_LIMIT }
    ensures { option_map (λ key. key.now) result ≡ refusals.first_ungrouped_key groups.now places.now order.now }
{
    for key in order {
        if is_ungrouped_key(groups, col_ref(places, &key.at)) {
            return Some(key);
        }
    }
    None
}

/// Whether the item is a SUM over texts.
fn is_sum_of_text(places: &[Place], item: &RawItem) -> bool
    ensures { result ≡ refusals.is_sum_of_text places.now item.now }
{
    match item {
        RawItem::Sum(r) => are_one_kind(kind_meant(places, r), Some(Kind::Text)),
        _ => false,
    }
}

/// The reference of the first SUM over texts.
pub fn first_sum_of_text<'a>(places: &[Place], items: &'a [RawItem]) -> Option<&'a RawRef>
    ensures { option_map (λ r. r.now) result ≡ refusals.first_sum_of_text places.now items.now }
{
    for item in items {
        if is_sum_of_text(places, item) {
            return item_ref(item);
        }
    }
    None
}
