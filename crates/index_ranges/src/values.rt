//! The values of an IN in ascending order, each once.
//!
//! They are looked for one after the other, so that none need be kept: an IN has few operands.
ghost use Rattle.std.specs.Prelude.{◌≡◌};
ghost use Rattle.std.specs.Option.{option_map};
ghost use Rattle.index_ranges.specs.Values.{next_above};

use row_tests::value_of;
use row_values::{Operand, Value};

/// The least of the operands' values above this one, if any.
pub(crate) fn next_value<'a>(
    args: &'a [Value],
    operands: &'a [Operand],
    last: Option<&Value>,
) -> Option<&'a Value>
    ensures { option_map (λ value. value.now) result
        ≡ next_above args.now (option_map (λ value. value.now) last.entry) operands.now }
{
    let mut next = None;
    for operand in operands {
        let value = value_of(args, operand);
        if last.cmp(&value).is_lt() && (next.is_none() || value.cmp(&next).is_lt()) {
            next = value;
        }
    }
    next
}
