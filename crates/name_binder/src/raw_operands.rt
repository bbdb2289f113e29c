//! The operands of a test: what is the same for every form of test is said over them once.
ghost use Rattle.std.specs.Prelude.{◌≡◌, ◌≤◌, ◌*◌, ◌++◌, false, if◌then◌else◌, length};
ghost use Rattle.std.specs.List.{list_any};
ghost use Rattle.name_binder.specs.Parameters as parameters;
ghost use Rattle.name_binder.specs.Refusals as refusals;

use row_values::OPERAND_LIMIT;
use sql_parser::{RawOperand, RawTest};
use std::slice;

/// What the column is compared with: the operands of the first slice in text order, then those of
/// the second.
pub fn operands(test: &RawTest) -> (&[RawOperand], &[RawOperand])
    ensures { result.0.now ++ result.1.now ≡ parameters.operands_of test.now }
{
    match test {
        RawTest::Lt(a) => (slice::from_ref(a), &[]),
        RawTest::Le(a) => (slice::from_ref(a), &[]),
        RawTest::Gt(a) => (slice::from_ref(a), &[]),
        RawTest::Ge(a) => (slice::from_ref(a), &[]),
        RawTest::Eq(a) => (slice::from_ref(a), &[]),
        RawTest::Between(a, b) => (slice::from_ref(a), slice::from_ref(b)),
        RawTest::OneOf(operands) => (operands.as_slice(), &[]),
    }
}

/// Whether the operand is a parameter.
pub fn is_parameter(operand: &RawOperand) -> bool
    ensures { result ≡ parameters.is_parameter operand.now }
{
    match operand {
        RawOperand::Literal(_) => false,
        RawOperand::Param => true,
    }
}

/// Whether one of the operands is a parameter.
pub fn has_parameter(operands: &[RawOperand]) -> bool
    ensures { result ≡ list_any parameters.is_parameter operands.now }
{
    operands.iter().any(|operand| is_parameter(operand))
}

/// How many parameters these operands are, few enough for one IN.
fn parameter_count(operands: &[RawOperand]) -> u8
    requires { length operands.now ≤ OPERAND_LIMIT }
    ensures value { result ≡ parameters.parameter_count operands.now }
    ensures bound { result ≤ length operands.now }
{
    let mut count = 0;
    for operand in operands {
        if is_parameter(operand) {
            count += 1;
        }
    }
    count
}

/// How many parameters the test has, whose operands are few enough: none where it isn't
/// parameterised.
#[tactic(auto, using(crate::proofs::Operands::count_append))]
pub fn test_count(test: &RawTest) -> u8
    requires { refusals.is_long test.now ≡ false }
    ensures value { result ≡ parameters.test_count test.now }
    ensures bound { result ≤ OPERAND_LIMIT }
    ensures few { result ≤ OPERAND_LIMIT
        * (if list_any parameters.is_parameter (parameters.operands_of test.now) then 1 else 0) }
{
    let (front, back) = operands(test);
    let first = parameter_count(front);
    let second = parameter_count(back);
    first + second
}
