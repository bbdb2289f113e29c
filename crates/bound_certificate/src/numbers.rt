//! Whole numbers as they are written: in decimal, with no sign and no zero in front.
ghost use Rattle.std.specs.Prelude.{ℕ, ◌≡◌, ◌≢◌, ◌<◌, ◌^◌, IfNone, IfSome, decimal};

/// The number below 2^64 whose decimal spelling the text is.
pub fn number_spelled(text: &str) -> Option<u64>
    ensures some { IfSome result (λ number. text.now ≡ decimal number) }
    ensures none { IfNone result ((number : ℕ) → number < 2 ^ 64 → text.now ≢ decimal number) }
{
    let first = text.as_bytes().first()?;
    if *first == b'+' {
        return None;
    }
    if *first == b'0' {
        return if text == "0" { Some(0) } else { None };
    }
    text.parse::<u64>().ok()
}
