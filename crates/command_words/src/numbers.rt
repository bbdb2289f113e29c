//! Numbers and fractions, as words spell them. No call takes memory.
ghost use Rattle.std.specs.Prelude.{◌≡◌, ◌<◌, ◌≤◌, ◌^◌, IfSome, option_map};
ghost use Rattle.command_words.specs.Numbers as spelled;

use fraction_math::Ratio;
use row_values::whole_number;

/// The largest part of a fraction.
const LARGEST_PART: u64 = (1 << 63) - 1;

/// Whether the text is a number's digits but for what stands in front: it begins with no minus, and
/// with no zero that others follow.
fn begins_plainly(text: &[u8]) -> bool
    ensures { result ≡ spelled.begins_plainly text.now }
{
    match text {
        [b'-', ..] | [b'0', _, ..] => false,
        _ => true,
    }
}

/// The number that the text spells, if it is one of these.
pub fn number_between(least: u64, most: u64, text: &str) -> Option<u64>
    requires { most < 2 ^ 63 }
    ensures value { result ≡ spelled.number_between least most text.now }
    ensures range { IfSome result (λ number. (least ≤ number) × (number ≤ most)) }
{
    if !begins_plainly(text.as_bytes()) {
        return None;
    }
    let number = u64::try_from(whole_number(text.as_bytes())?).ok()?;
    if least <= number && number <= most {
        Some(number)
    } else {
        None
    }
}

/// The two parts of the text round the first of these bytes, if it has one.
pub fn parts_at(byte: char, text: &str) -> Option<(&str, &str)>
    requires { byte < 128 }
    ensures { option_map (λ parts. (parts.0.now, parts.1.now)) result ≡ spelled.parts_at byte text.now }
{
    text.split_once(byte)
}

/// The part of a fraction that the text spells.
fn part(text: &str) -> Option<u64>
    ensures { result ≡ spelled.part_of text.now }
{
    number_between(1, LARGEST_PART, text)
}

/// The fraction that the text spells: `N/D`, or `N` for `N/1`.
pub fn fraction(text: &str) -> Option<Ratio>
    ensures { result ≡ spelled.fraction_of text.now }
{
    match parts_at('/', text) {
        None => Ratio::new(part(text)?, 1),
        Some((num, den)) => Ratio::new(part(num)?, part(den)?),
    }
}

/// Whether the one fraction is at most the other, as true fractions.
pub fn is_at_most(a: Ratio, b: Ratio) -> bool
    ensures { result ≡ spelled.is_at_most a b }
{
    u128::from(a.num()) * u128::from(b.den()) <= u128::from(b.num()) * u128::from(a.den())
}

/// The lesser of two fractions.
pub fn lesser(a: Ratio, b: Ratio) -> Ratio
    ensures { result ≡ spelled.lesser a b }
{
    if is_at_most(a, b) { a } else { b }
}
