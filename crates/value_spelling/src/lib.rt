//! How a value stands in a row line: a number in decimal, a text between double quotes.
//!
//! In a text `"` and `\` have a `\` before them, and control bytes are written `\x` and two
//! hexadecimal digits; what needs no escape is copied in one piece. Each function adds at the end of
//! a text that grows.
#![tactic(auto)]

ghost use Rattle.std.specs.Prelude.{◌≡◌, ◌<◌, ◌++◌, false, OnOk, IsTrue, string_bytes};
ghost use Rattle.std.specs.List.{flat_map};
ghost use Rattle.std.specs.Fmt.{signed_decimal, digit_glyph};
ghost use Rattle.statement_meaning.specs.Spelling.{escaped, quoted};
ghost use Rattle.value_spelling.specs.Escapes.{needs_escape};

use row_values::OutOfMemory;

/// Whether a byte of a text stands for itself only behind a `\`.
fn is_escaped(byte: u8) -> bool
    ensures { result ≡ needs_escape byte }
{
    byte == b'"' || byte == b'\\' || byte < 0x20 || byte == 0x7f
}

/// A small hexadecimal digit.
fn hex_digit(digit: u8) -> char
    requires { digit < 16 }
    ensures { result ≡ digit_glyph false digit }
{
    if digit < 10 {
        char::from(b'0' + digit)
    } else {
        char::from(b'a' + (digit - 10))
    }
}

/// Adds a byte as it is escaped.
fn push_escaped(text: &mut String, byte: u8) -> Result<(), OutOfMemory>
    requires { IsTrue (needs_escape byte) }
    ensures { OnOk result (string_bytes text.new ≡ string_bytes text.old ++ escaped byte) }
{
    if byte == b'"' || byte == b'\\' {
        text.push('\\')?;
        text.push(char::from(byte))?;
    } else {
        text.push('\\')?;
        text.push('x')?;
        text.push(hex_digit(byte / 16))?;
        text.push(hex_digit(byte % 16))?;
    }
    Ok(())
}

/// Adds a text without its quotes.
fn push_escapes(text: &mut String, words: &str) -> Result<(), OutOfMemory>
    ensures { OnOk result (string_bytes text.new ≡ string_bytes text.old ++ flat_map escaped words.now) }
{
    let mut start = 0;
    for (i, byte) in words.as_bytes().iter().enumerate() {
        if is_escaped(*byte) {
            text.push_str(&words[start..i])?;
            push_escaped(text, *byte)?;
            start = i + 1;
        }
    }
    text.push_str(&words[start..])?;
    Ok(())
}

/// Adds a text between double quotes.
pub fn push_quoted(text: &mut String, words: &str) -> Result<(), OutOfMemory>
    ensures { OnOk result (string_bytes text.new ≡ string_bytes text.old ++ quoted words.now) }
{
    text.push('"')?;
    push_escapes(text, words)?;
    text.push('"')?;
    Ok(())
}

/// Adds a whole number in decimal.
pub fn push_number(text: &mut String, number: i64) -> Result<(), OutOfMemory>
    ensures { OnOk result (string_bytes text.new ≡ string_bytes text.old ++ signed_decimal number) }
{
    write!(text, "{number}")?;
    Ok(())
}

/// Adds a whole number of up to 128 bits in decimal.
pub fn push_whole(text: &mut String, number: i128) -> Result<(), OutOfMemory>
    ensures { OnOk result (string_bytes text.new ≡ string_bytes text.old ++ signed_decimal number) }
{
    write!(text, "{number}")?;
    Ok(())
}

#[cfg(test)]
mod tests;
