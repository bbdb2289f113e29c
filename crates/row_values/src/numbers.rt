//! Whole numbers as texts spell them: in statements, in arguments and in cells.
//!
//! A whole number is decimal digits, behind a minus or not, with a value of 64 bits. A plus, white
//! space and a
//! point are none of it, and leading zeros are fine. The one way in is `whole_number`.
ghost use Rattle.std.specs.Prelude.{◌≡◌, ◌&&◌, ◌^◌, if◌then◌else◌, nat_lt, None, Some};
ghost use Rattle.row_values.specs.Numbers.{are_digits, read_on, whole_number_of};

/// The number that digits spell; none where there is another byte or none, or the number passes 64
/// bits.
fn digits_value(digits: &[u8]) -> Option<u64>
    ensures { result ≡ (if are_digits digits.now && nat_lt (read_on 0 digits.now) (2 ^ 64)
        then Some (read_on 0 digits.now) else None) }
{
    if digits.is_empty() {
        return None;
    }
    let mut value: u64 = 0;
    for digit in digits {
        if !digit.is_ascii_digit() {
            return None;
        }
        value = value
            .checked_mul(10)?
            .checked_add(u64::from(*digit - b'0'))?;
    }
    Some(value)
}

/// The whole number that the text spells; none exactly where it spells none. It takes no memory.
pub fn whole_number(text: &[u8]) -> Option<i64>
    ensures { result ≡ whole_number_of text.now }
{
    match text {
        [b'-', digits @ ..] => 0_i64.checked_sub_unsigned(digits_value(digits)?),
        _ => 0_i64.checked_add_unsigned(digits_value(text)?),
    }
}
