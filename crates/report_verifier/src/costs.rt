//! Costs as a report spells them.
ghost use Rattle.std.specs.Prelude.{◌≡◌, ◌≢◌, ℕ, IfOk, IfSome, IfNone, string_bytes};
ghost use Rattle.report_verifier.specs.Claims.{IsCostText};

use bound_certificate::number_spelled;
use row_values::OutOfMemory;
use std::alloc::Global;

/// The cost that the text spells; none where it is spelled otherwise than it is written. Below 2^64 it takes no memory.
pub fn cost_in(alloc: Global, text: &str) -> Result<Option<u128>, OutOfMemory>
    ensures found { IfOk result (λ cost. IfSome cost (λ c. IsCostText text.now c)) }
    ensures none { IfOk result (λ cost. IfNone cost ((c : ℕ) → ¬ IsCostText text.now c)) }
{
    if let Some(cost) = number_spelled(text) {
        return Ok(Some(u128::from(cost)));
    }
    let Ok(cost) = text.parse::<u128>() else {
        return Ok(None);
    };
    let written = format!(in alloc; "{cost}")?;
    if written.as_str() == text {
        Ok(Some(cost))
    } else {
        Ok(None)
    }
}
