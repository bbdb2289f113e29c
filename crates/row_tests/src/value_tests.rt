//! Tests of a single value.
//!
//! `meets_test` tests any value; `number_test` makes a test against whole numbers alone, which
//! compares them at once. An IN stays as it is: its numbers would make every test as large as the
//! longest IN, and tests are copied.
ghost use Rattle.std.specs.Prelude.{◌≡◌, Some, IfSome, is_some, option_map};
ghost use Rattle.row_values.specs.declared.values.Value.{Value as AnyValue};
ghost use Rattle.std.specs.Prelude.{Option as Maybe};
ghost use Rattle.row_values.specs.Orders.{order_between};
ghost use Rattle.statement_meaning.specs.Conditions.{operand_value, equals_one, meets};
ghost use Rattle.row_tests.specs.Ready.{is_number_in, is_number, has_numbers};

use crate::number_tests::NumberTest;
use row_values::{Operand, Test, Value, compare};
use std::cmp::Ordering;

/// What an operand stands for; none where its argument isn't there.
pub fn value_of<'a>(args: &'a [Value], operand: &'a Operand) -> Option<&'a Value>
    ensures { option_map (λ value. value.now) result ≡ operand_value args.now operand.now }
{
    match operand {
        Operand::Literal(value) => Some(value),
        Operand::Param(number) => args.get(usize::from(*number)),
    }
}

/// How a cell stands to an operand; none where the operand isn't there or the kinds differ.
fn order_to(args: &[Value], cell: &Value, operand: &Operand) -> Option<Ordering>
    ensures { result ≡ order_between (Some cell.now) (operand_value args.now operand.now) }
{
    match value_of(args, operand) {
        None => None,
        Some(value) => compare(cell, value),
    }
}

/// Whether a cell equals one of the operands.
fn is_one_of(args: &[Value], operands: &[Operand], cell: &Value) -> bool
    ensures { result ≡ equals_one args.now (Some cell.now) operands.now }
{
    for operand in operands {
        if order_to(args, cell, operand).is_some_and(|order| order.is_eq()) {
            return true;
        }
    }
    false
}

/// Whether a cell meets a test.
pub fn meets_test(args: &[Value], test: &Test, cell: &Value) -> bool
    ensures { result ≡ meets args.now test.now (Some cell.now) }
{
    match test {
        Test::Lt(a) => order_to(args, cell, a).is_some_and(|order| order.is_lt()),
        Test::Le(a) => order_to(args, cell, a).is_some_and(|order| order.is_le()),
        Test::Gt(a) => order_to(args, cell, a).is_some_and(|order| order.is_gt()),
        Test::Ge(a) => order_to(args, cell, a).is_some_and(|order| order.is_ge()),
        Test::Eq(a) => order_to(args, cell, a).is_some_and(|order| order.is_eq()),
        Test::Between(a, b) => {
            order_to(args, cell, a).is_some_and(|order| order.is_ge())
                && order_to(args, cell, b).is_some_and(|order| order.is_le())
        }
        Test::OneOf(operands) => is_one_of(args, operands.as_slice(), cell),
    }
}

/// The whole number that an operand stands for, if it does for one.
fn number_of(args: &[Value], operand: &Operand) -> Option<i64>
    ensures found { is_some result ≡ is_number (operand_value args.now operand.now) }
    ensures value { IfSome result (λ number. operand_value args.now operand.now ≡ Some (AnyValue.Int number)) }
{
    match value_of(args, operand) {
        Some(Value::Int(number)) => Some(*number),
        _ => None,
    }
}

/// The test against whole numbers that this test is; none exactly where an operand is none, or it
/// is an IN.
pub fn number_test(args: &[Value], test: &Test) -> Option<NumberTest>
    ensures found { is_some result ≡ has_numbers args.now test.now }
    ensures value { IfSome result (λ numbers. (cell : Maybe AnyValue) → is_number_in numbers cell
        ≡ meets args.now test.now cell) }
{
    match test {
        Test::Lt(a) => Some(NumberTest::Lt(number_of(args, a)?)),
        Test::Le(a) => Some(NumberTest::Le(number_of(args, a)?)),
        Test::Gt(a) => Some(NumberTest::Gt(number_of(args, a)?)),
        Test::Ge(a) => Some(NumberTest::Ge(number_of(args, a)?)),
        Test::Eq(a) => Some(NumberTest::Eq(number_of(args, a)?)),
        Test::Between(a, b) => Some(NumberTest::Between(number_of(args, a)?, number_of(args, b)?)),
        Test::OneOf(_) => None,
    }
}
