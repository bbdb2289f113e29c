//! Which words are accepted, and what they are: options with their values, and positionals.
//!
//! `read_items` walks over the words once. An option without `=` has its value in the next word;
//! behind `--` each word is a positional.
ghost use Rattle.std.specs.Prelude.{◌≡◌, IfOk, map, option_map, string_bytes};
ghost use Rattle.command_words.specs.Items as accepted;
ghost use Rattle.command_words.specs.Numbers.{parts_at as parts_around};
ghost use Rattle.command_words.specs.Views as views;

use crate::numbers::parts_at;
use row_values::OutOfMemory;
use std::alloc::Global;

/// What words give.
#[derive(Clone, Copy, Debug)]
pub enum Item<'a> {
    /// An option's name and its value.
    Value(&'a str, &'a str),
    /// A word by itself.
    Positional(&'a str),
}

/// What the next word may be.
#[derive(Clone, Copy, Debug)]
enum Next<'a> {
    /// Any word.
    AnyWord,
    /// The value of the option of this name.
    ValueOf(&'a str),
    /// A positional, whatever it looks like.
    PositionalOnly,
}

/// What a word gives, if anything, and what the next one may be.
#[derive(Clone, Copy, Debug)]
struct Met<'a> {
    item: Option<Item<'a>>,
    next: Next<'a>,
}

/// Whether the word begins with `-` and is longer than that.
fn is_dashed(word: &str) -> bool
    ensures { result ≡ accepted.is_dashed word.now }
{
    match word.as_bytes() {
        [first, _, ..] => *first == b'-',
        _ => false,
    }
}

/// What stands behind `--`.
fn after_dashes(word: &str) -> Option<&str>
    ensures { option_map (λ rest. rest.now) result ≡ accepted.after_dashes word.now }
{
    word.strip_prefix('-')?.strip_prefix('-')
}

/// Whether an option has this name.
fn is_option(name: &str) -> bool
    ensures { result ≡ accepted.is_option name.now }
{
    name == "lambda" || name == "keep" || name == "budget" || name == "recosts" || name == "weights"
}

/// What an option comes to, by what stands behind its `--`.
fn option_met(text: &str) -> Option<Met<'_>>
    ensures { option_map views.met_view result
        ≡ accepted.option_met text.now (parts_around 61 text.now) }
{
    match parts_at('=', text) {
        None if is_option(text) => Some(Met {
            item: None,
            next: Next::ValueOf(text),
        }),
        Some((name, value)) if is_option(name) => Some(Met {
            item: Some(Item::Value(name, value)),
            next: Next::AnyWord,
        }),
        _ => None,
    }
}

/// What a dashed word comes to.
fn dashed_met(word: &str) -> Option<Met<'_>>
    ensures { option_map views.met_view result ≡ accepted.dashed_met (accepted.after_dashes word.now) }
{
    let text = after_dashes(word)?;
    if text.is_empty() {
        return Some(Met {
            item: None,
            next: Next::PositionalOnly,
        });
    }
    option_met(text)
}

/// What a word comes to where this may come next; none where it is refused.
fn word_met<'a>(next: Next<'a>, word: &'a str) -> Option<Met<'a>>
    ensures { option_map views.met_view result ≡ accepted.word_met (views.next_view next.entry) word.now }
{
    match next {
        Next::AnyWord if is_dashed(word) => dashed_met(word),
        Next::ValueOf(_) if is_dashed(word) => None,
        Next::ValueOf(name) => Some(Met {
            item: Some(Item::Value(name, word)),
            next: Next::AnyWord,
        }),
        _ => Some(Met {
            item: Some(Item::Positional(word)),
            next,
        }),
    }
}

/// The items of the words, in order; none where a word is refused.
pub fn read_items(alloc: Global, words: &[String]) -> Result<Option<Vec<Item<'_>>>, OutOfMemory>
    ensures { IfOk result (λ found. option_map (λ items. map views.item_view items.items) found
        ≡ accepted.items_of accepted.AnyWord (map string_bytes words.now)) }
{
    let mut items = Vec::new(alloc);
    let mut next = Next::AnyWord;
    for word in words {
        let Some(met) = word_met(next, word.as_str()) else {
            return Ok(None);
        };
        if let Some(item) = met.item {
            items.push(item)?;
        }
        next = met.next;
    }
    match next {
        Next::ValueOf(_) => Ok(None),
        _ => Ok(Some(items)),
    }
}
