//! Heads: the lines that begin with a digit. A head begins with the number of a script line.
ghost use Rattle.std.specs.Prelude.{◌≡◌, IfOk, option_map};
ghost use Rattle.row_values.specs.Names.{canonical_name};
ghost use Rattle.report_items.specs.Heads as heads;

use row_values::{OutOfMemory, Words, canonical_name, is_plain_name, whole_number};
use sql_parser::{Token, take_token};
use std::alloc::Global;

/// What the head of an execution says.
#[derive(Drop)]
pub struct Heading {
    pub line: u64,
    pub name: Words,
    pub number: u64,
}

/// Whether the line is a head.
pub fn is_head(line: &str) -> bool
    ensures { result ≡ heads.is_head line.now }
{
    match line.as_bytes() {
        [] => false,
        [byte, ..] => byte.is_ascii_digit(),
    }
}

/// What stands behind the word, where the text begins with it.
pub fn behind<'a>(text: &'a str, word: &str) -> Option<&'a str>
    ensures { option_map (λ rest. rest.now) result ≡ heads.behind word.now text.now }
{
    text.strip_prefix(word)
}

/// What stands before the first space and behind it, where there is one.
fn split_at_space(text: &str) -> Option<(&str, &str)>
    ensures { option_map (λ parts. (parts.0.now, parts.1.now)) result ≡ heads.split_at_space text.now }
{
    text.split_once(' ')
}

/// The text up to its first space.
fn first_word(text: &str) -> &str
    ensures { result.now ≡ heads.first_word text.now }
{
    match split_at_space(text) {
        Some((word, _)) => word,
        None => text,
    }
}

/// What stands between the first space of the head and its next one.
pub fn second_word(head: &str) -> Option<&str>
    ensures { option_map (λ word. word.now) result ≡ heads.second_word head.now }
{
    let (_, rest) = split_at_space(head)?;
    Some(first_word(rest))
}

/// A whole number as a count, which is at least 1.
fn counted(number: i64) -> Option<u64>
    ensures { result ≡ heads.counted (Some number) }
{
    if number < 1 {
        return None;
    }
    Some(number as u64)
}

/// The number from 1 to 2^63 - 1 that the text spells without a zero in front.
fn number_of(text: &str) -> Option<u64>
    ensures { result ≡ heads.number_of text.now }
{
    if text.starts_with('0') {
        return None;
    }
    counted(whole_number(text.as_bytes())?)
}

/// The number in front of a head, and what stands behind the space after it.
fn numbered(head: &str) -> Option<(u64, &str)>
    ensures { option_map (λ found. (found.0, found.1.now)) result ≡ heads.numbered head.now }
{
    let (digits, rest) = split_at_space(head)?;
    Some((number_of(digits)?, rest))
}

/// What stands behind the canonical spelling of the name, where the text begins with it.
fn behind_name<'a>(alloc: Global, text: &'a str, name: &str) -> Result<Option<&'a str>, OutOfMemory>
    ensures { IfOk result (λ found. option_map (λ rest. rest.now) found
        ≡ heads.behind (canonical_name name.now) text.now) }
{
    if is_plain_name(name) {
        return Ok(behind(text, name));
    }
    let spelled = canonical_name(alloc, name)?;
    Ok(behind(text, spelled.as_str()))
}

/// The name whose canonical spelling stands at the front, and what stands behind it.
#[tactic(auto, unfolding(crate::specs::Heads::name_at))]
fn name_at(alloc: Global, text: &str) -> Result<Option<(Words, &str)>, OutOfMemory>
    ensures { IfOk result (λ found. option_map (λ f. (f.0, f.1.now)) found ≡ heads.name_at text.now) }
{
    let Some((token, _)) = take_token(alloc, text)? else {
        return Ok(None);
    };
    let Token::Name(name) = token else {
        return Ok(None);
    };
    match behind_name(alloc, text, name.as_str())? {
        Some(rest) => Ok(Some((name, rest))),
        None => Ok(None),
    }
}

/// `NAME execution E`, of this script line.
fn execution_in(alloc: Global, line: u64, text: &str) -> Result<Option<Heading>, OutOfMemory>
    ensures { IfOk result (λ heading. heading ≡ heads.execution_in line text.now) }
{
    let Some((name, rest)) = name_at(alloc, text)? else {
        return Ok(None);
    };
    let Some(digits) = behind(rest, " execution ") else {
        return Ok(None);
    };
    match number_of(digits) {
        Some(number) => Ok(Some(Heading { line, name, number })),
        None => Ok(None),
    }
}

/// What stands behind the cursor's name and a space.
fn after_cursor(alloc: Global, text: &str) -> Result<Option<&str>, OutOfMemory>
    ensures { IfOk result (λ found. option_map (λ rest. rest.now) found ≡ heads.after_cursor text.now) }
{
    let Some((_, rest)) = name_at(alloc, text)? else {
        return Ok(None);
    };
    Ok(behind(rest, " "))
}

/// What the head of an execution says, `ran NAME execution E` or `opened CUR NAME execution E`, behind the number.
fn told_in(alloc: Global, line: u64, text: &str) -> Result<Option<Heading>, OutOfMemory>
    ensures { IfOk result (λ heading. heading ≡ heads.told_in line text.now) }
{
    if let Some(rest) = behind(text, "ran ") {
        return execution_in(alloc, line, rest);
    }
    let Some(rest) = behind(text, "opened ") else {
        return Ok(None);
    };
    match after_cursor(alloc, rest)? {
        Some(rest) => execution_in(alloc, line, rest),
        None => Ok(None),
    }
}

/// What the head of an execution says; none where the head has another form.
#[tactic(auto, unfolding(crate::specs::Heads::heading_of))]
pub fn heading_of(alloc: Global, head: &str) -> Result<Option<Heading>, OutOfMemory>
    ensures { IfOk result (λ heading. heading ≡ heads.heading_of head.now) }
{
    match numbered(head) {
        Some((line, rest)) => told_in(alloc, line, rest),
        None => Ok(None),
    }
}

/// The line that was refused as having too many rows; none where the head has another form.
#[tactic(auto, unfolding(crate::specs::Heads::too_large_in))]
pub fn too_large_in(head: &str) -> Option<u64>
    ensures { result ≡ heads.too_large_in head.now }
{
    let (line, rest) = numbered(head)?;
    if rest == "refused 12 too many rows" {
        Some(line)
    } else {
        None
    }
}

/// Whether the head is that of an execution by its second word.
pub fn is_of_execution(head: &str) -> bool
    ensures { result ≡ heads.is_of_execution head.now }
{
    match second_word(head) {
        Some(word) => word == "ran" || word == "opened",
        None => false,
    }
}
