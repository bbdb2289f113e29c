//! Parts of a line: what stands between spaces and tabs.
//!
//! A text is cut where a part ends and where the next one begins. Only the names, numbers and texts that are taken
//! are copied.
ghost use Rattle.std.specs.Prelude.{◌≡◌, option_map, IfOk};
ghost use Rattle.script_report.specs.Parts as parts;

use row_values::{OutOfMemory, Value, Words};
use sql_parser::{Token, take_token};
use std::alloc::Global;

/// Whether the byte separates parts: a space or a tab.
fn is_blank(byte: u8) -> bool
    ensures { result ≡ parts.is_blank byte }
{
    byte == b' ' || byte == b'\t'
}

/// The text without the spaces and tabs in front.
pub fn skip_blanks(text: &str) -> &str
    ensures { result.now ≡ parts.skip_blanks text.now }
{
    for (i, byte) in text.as_bytes().iter().enumerate() {
        if !is_blank(*byte) {
            return &text[i..];
        }
    }
    ""
}

/// The text up to its first space or tab.
pub fn first_part(text: &str) -> &str
    ensures { result.now ≡ parts.first_part text.now }
{
    for (i, byte) in text.as_bytes().iter().enumerate() {
        if is_blank(*byte) {
            return &text[..i];
        }
    }
    text
}

/// What stands behind the first part and the spaces and tabs after it.
pub fn after_part(text: &str) -> &str
    ensures { result.now ≡ parts.after_part text.now }
{
    for (i, byte) in text.as_bytes().iter().enumerate() {
        if is_blank(*byte) {
            return skip_blanks(&text[i..]);
        }
    }
    ""
}

/// The next part, from where a part ends; none where the part goes on.
fn next_part(text: &str) -> Option<&str>
    ensures { option_map (λ rest. rest.now) result ≡ parts.next_part text.now }
{
    match text.as_bytes() {
        [] => Some(text),
        [byte, ..] if is_blank(*byte) => Some(skip_blanks(text)),
        _ => None,
    }
}

/// The name at the front, plain or quoted, and the parts behind it; none where no name stands there.
#[tactic(auto, unfolding(crate::specs::Parts::name_part))]
pub fn name_part(alloc: Global, text: &str) -> Result<Option<(Words, &str)>, OutOfMemory>
    ensures { IfOk result (λ found. option_map (λ f. (f.0, f.1.now)) found ≡ parts.name_part text.now) }
{
    let Some((token, rest)) = take_token(alloc, text)? else {
        return Ok(None);
    };
    let Token::Name(name) = token else {
        return Ok(None);
    };
    match next_part(rest) {
        Some(next) => Ok(Some((name, next))),
        None => Ok(None),
    }
}

/// The number or text at the front, and the parts behind it; none where neither stands there.
#[tactic(auto, unfolding(crate::specs::Parts::value_part))]
pub fn value_part(alloc: Global, text: &str) -> Result<Option<(Value, &str)>, OutOfMemory>
    ensures { IfOk result (λ found. option_map (λ f. (f.0, f.1.now)) found ≡ parts.value_part text.now) }
{
    let Some((token, rest)) = take_token(alloc, text)? else {
        return Ok(None);
    };
    let Token::Literal(value) = token else {
        return Ok(None);
    };
    match next_part(rest) {
        Some(next) => Ok(Some((value, next))),
        None => Ok(None),
    }
}
