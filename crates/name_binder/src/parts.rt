//! The parts of the bound statement: each reference as the column that it means, each parameter
//! with its number.
//!
//! All calls are for statements within the limits: few places, few parameterised predicates, and
//! few operands in
//! each IN.
ghost use Rattle.std.specs.Prelude.{◌≡◌, ◌≤◌, ◌<◌, ◌+◌, false, length, IfOk, map};
ghost use Rattle.name_binder.specs.References as names;
ghost use Rattle.name_binder.specs.Parameters.{parameterised_count};
ghost use Rattle.name_binder.specs.Refusals as refusals;
ghost use Rattle.name_binder.specs.Binding as binding;

use crate::raw_operands::{is_parameter, test_count};
use crate::references::meant;
use row_values::{
    ColRef, Edge, Item, OPERAND_LIMIT, Operand, Operands, OrderKey, OutOfMemory, PLACE_LIMIT,
    Place, Pred, SELECTIVITY_LIMIT, Test,
};
use sql_parser::{RawCond, RawItem, RawKey, RawOperand, RawOperands, RawRef, RawTest};
use std::alloc::Global;

/// The column that the reference means.
pub fn col_ref(places: &[Place], r: &RawRef) -> ColRef
    requires { length places.now ≤ PLACE_LIMIT }
    ensures { result ≡ names.meant places.now r.now }
{
    let at = meant(places, r);
    ColRef {
        place: at.place as u8,
        column: at.column,
    }
}

/// The item with its column.
pub fn bound_item(places: &[Place], item: &RawItem) -> Item
    requires { length places.now ≤ PLACE_LIMIT }
    ensures { result ≡ refusals.bound_item places.now item.now }
{
    match item {
        RawItem::Column(r) => Item::Column(col_ref(places, r)),
        RawItem::CountAll => Item::CountAll,
        RawItem::Sum(r) => Item::Sum(col_ref(places, r)),
        RawItem::Min(r) => Item::Min(col_ref(places, r)),
        RawItem::Max(r) => Item::Max(col_ref(places, r)),
    }
}

/// The items with their columns.
pub fn bound_items(
    alloc: Global,
    places: &[Place],
    items: &[RawItem],
) -> Result<Vec<Item>, OutOfMemory>
    requires { length places.now ≤ PLACE_LIMIT }
    ensures { IfOk result (λ bound. bound.items ≡ map (refusals.bound_item places.now) items.now) }
{
    let mut bound = Vec::new(alloc);
    for item in items {
        bound.push(bound_item(places, item))?;
    }
    Ok(bound)
}

/// The GROUP BY columns.
pub fn bound_groups(
    alloc: Global,
    places: &[Place],
    groups: &[RawRef],
) -> Result<Vec<ColRef>, OutOfMemory>
    requires { length places.now ≤ PLACE_LIMIT }
    ensures { IfOk result (λ bound. bound.items ≡ refusals.bound_groups places.now groups.now) }
{
    let mut bound = Vec::new(alloc);
    for r in groups {
        bound.push(col_ref(places, r))?;
    }
    Ok(bound)
}

/// The ORDER BY keys with their columns.
pub fn bound_keys(
    alloc: Global,
    places: &[Place],
    order: &[RawKey],
) -> Result<Vec<OrderKey>, OutOfMemory>
    requires { length places.now ≤ PLACE_LIMIT }
    ensures { IfOk result (λ bound. bound.items ≡ map (binding.bound_key places.now) order.now) }
{
    let mut bound = Vec::new(alloc);
    for key in order {
        bound.push(OrderKey {
            at: col_ref(places, &key.at),
            descending: key.descending,
        })?;
    }
    Ok(bound)
}

/// The edges in text order.
pub fn bound_edges(
    alloc: Global,
    places: &[Place],
    conds: &[RawCond],
) -> Result<Vec<Edge>, OutOfMemory>
    requires { length places.now ≤ PLACE_LIMIT }
    ensures { IfOk result (λ edges. edges.items ≡ binding.edges_of places.now conds.now) }
{
    let mut edges = Vec::new(alloc);
    for cond in conds {
        if let RawCond::Same(a, b) = cond {
            edges.push(Edge {
                left: col_ref(places, a),
                right: col_ref(places, b),
            })?;
        }
    }
    Ok(edges)
}

/// The number of the next parameter, behind this operand.
fn next_number(next: u8, operand: &RawOperand) -> u8
    requires { next < 255 }
    ensures value { result ≡ binding.next_number next operand.now }
    ensures bound { result ≤ next + 1 }
{
    if is_parameter(operand) {
        next + 1
    } else {
        next
    }
}

/// The operand, a parameter with this number.
fn operand_from(alloc: Global, next: u8, operand: &RawOperand) -> Result<Operand, OutOfMemory>
    ensures { IfOk result (λ bound. bound ≡ binding.operand_from next operand.now) }
{
    match operand {
        RawOperand::Literal(value) => Ok(Operand::Literal(value.copy(alloc)?)),
        RawOperand::Param => Ok(Operand::Param(next)),
    }
}

/// The operands, their parameters with the numbers from this one on.
fn operands_from(
    alloc: Global,
    first: u8,
    operands: &[RawOperand],
) -> Result<Vec<Operand>, OutOfMemory>
    requires first { first ≤ 128 }
    requires few { length operands.now ≤ OPERAND_LIMIT }
    ensures { IfOk result (λ bound. bound.items ≡ binding.operands_from first operands.now) }
{
    let mut bound = Vec::new(alloc);
    let mut next = first;
    for operand in operands {
        bound.push(operand_from(alloc, next, operand)?)?;
        next = next_number(next, operand);
    }
    Ok(bound)
}

/// The IN, its parameters with the numbers from this one on.
fn one_of(alloc: Global, next: u8, operands: &RawOperands) -> Result<Test, OutOfMemory>
    requires next { next ≤ 128 }
    requires few { refusals.is_long (RawTest.OneOf operands.now) ≡ false }
    ensures { IfOk result (λ bound. bound ≡ binding.test_from next (RawTest.OneOf operands.now)) }
{
    let bound = operands_from(alloc, next, operands.as_slice())?;
    match Operands::of(bound) {
        Some(operands) => Ok(Test::OneOf(operands)),
        None => unreachable!(),
    }
}

/// The test, its parameters with the numbers from this one on.
fn test_from(alloc: Global, next: u8, test: &RawTest) -> Result<Test, OutOfMemory>
    requires next { next ≤ 128 }
    requires few { refusals.is_long test.now ≡ false }
    ensures { IfOk result (λ bound. bound ≡ binding.test_from next test.now) }
{
    let bound = match test {
        RawTest::Lt(a) => Test::Lt(operand_from(alloc, next, a)?),
        RawTest::Le(a) => Test::Le(operand_from(alloc, next, a)?),
        RawTest::Gt(a) => Test::Gt(operand_from(alloc, next, a)?),
        RawTest::Ge(a) => Test::Ge(operand_from(alloc, next, a)?),
        RawTest::Eq(a) => Test::Eq(operand_from(alloc, next, a)?),
        RawTest::Between(a, b) => Test::Between(
            operand_from(alloc, next, a)?,
            operand_from(alloc, next_number(next, a), b)?,
        ),
        RawTest::OneOf(operands) => one_of(alloc, next, operands)?,
    };
    Ok(bound)
}

/// The predicates in text order, their parameters numbered from 0.
pub fn bound_preds(
    alloc: Global,
    places: &[Place],
    conds: &[RawCond],
) -> Result<Vec<Pred>, OutOfMemory>
    requires places { length places.now ≤ PLACE_LIMIT }
    requires parameters { parameterised_count conds.now ≤ SELECTIVITY_LIMIT }
    requires operands { refusals.has_long conds.now ≡ false }
    ensures { IfOk result (λ preds. preds.items ≡ binding.preds_from places.now 0 conds.now) }
{
    let mut preds = Vec::new(alloc);
    let mut next = 0;
    for cond in conds {
        if let RawCond::Test(r, test) = cond {
            preds.push(Pred {
                at: col_ref(places, r),
                test: test_from(alloc, next, test)?,
            })?;
            next += test_count(test);
        }
    }
    Ok(preds)
}
