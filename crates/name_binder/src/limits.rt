//! The limits of a statement, and which of them it passes first.
ghost use Rattle.std.specs.Prelude.{◌≡◌};
ghost use Rattle.std.specs.Option.{option_map};
ghost use Rattle.name_binder.specs.Parameters as parameters;
ghost use Rattle.name_binder.specs.Refusals as refusals;

use crate::raw_operands::{has_parameter, operands};
use row_values::{
    CONDITION_LIMIT, ITEM_LIMIT, KEY_LIMIT, OPERAND_LIMIT, PLACE_LIMIT, SELECTIVITY_LIMIT,
};
use sql_parser::{RawCond, RawTest, Select};

/// Whether the condition has a parameter.
fn is_parameterised(cond: &RawCond) -> bool
    ensures { result ≡ parameters.is_parameterised cond.now }
{
    match cond {
        RawCond::Test(_, test) => {
            let (front, back) = operands(test);
            has_parameter(front) || has_parameter(back)
        }
        RawCond::Same(_, _) => false,
    }
}

/// How many conditions have a parameter.
fn parameterised_count(conds: &[RawCond]) -> usize
    ensures { result ≡ parameters.parameterised_count conds.now }
{
    let mut count = 0;
    for cond in conds {
        if is_parameterised(cond) {
            count += 1;
        }
    }
    count
}

/// Whether the test is an IN of too many operands.
fn is_long(test: &RawTest) -> bool
    ensures { result ≡ refusals.is_long test.now }
{
    match test {
        RawTest::OneOf(operands) => operands.as_slice().len() > OPERAND_LIMIT,
        _ => false,
    }
}

/// Whether the condition is an IN of too many operands.
fn is_long_cond(cond: &RawCond) -> bool
    ensures { result ≡ refusals.is_long_cond cond.now }
{
    match cond {
        RawCond::Test(_, test) => is_long(test),
        RawCond::Same(_, _) => false,
    }
}

/// Whether an IN of too many operands is among the conditions.
fn has_long(conds: &[RawCond]) -> bool
    ensures { result ≡ refusals.has_long conds.now }
{
    conds.iter().any(|cond| is_long_cond(cond))
}

/// Which limit the statement passes, the first in the order in which they count.
pub fn first_excess(s: &Select) -> Option<&'static str>
    ensures { option_map (λ word. word.now) result ≡ refusals.first_excess s.now }
{
    if s.places().len() > PLACE_LIMIT {
        return Some("tables");
    }
    if parameterised_count(s.conds()) > SELECTIVITY_LIMIT {
        return Some("predicates");
    }
    if s.conds().len() > CONDITION_LIMIT {
        return Some("conditions");
    }
    if has_long(s.conds()) {
        return Some("operands");
    }
    if s.items().len() > ITEM_LIMIT {
        return Some("items");
    }
    if s.groups().len() > KEY_LIMIT || s.order().len() > KEY_LIMIT {
        return Some("keys");
    }
    None
}
