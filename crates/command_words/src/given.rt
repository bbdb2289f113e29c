//! What items give: at most one value for each option, and the positionals in order.
ghost use Rattle.std.specs.Prelude.{◌≡◌, IfOk, map, option_map};
ghost use Rattle.command_words.specs.Settings as settings;
ghost use Rattle.command_words.specs.Views as views;

use crate::items::Item;
use row_values::OutOfMemory;
use std::alloc::Global;

/// The texts that options are given, and the positionals.
#[derive(Debug, Drop)]
pub struct Given<'a> {
    /// The bound on cost.
    pub lambda: Option<&'a str>,
    /// The bound under which a plan is kept.
    pub keep: Option<&'a str>,
    /// How many plans a cache holds.
    pub budget: Option<&'a str>,
    /// How many plans are costed anew.
    pub recosts: Option<&'a str>,
    /// The file of the weights.
    pub weights: Option<&'a str>,
    /// The words that are no options and no values of them.
    pub positionals: Vec<&'a str>,
}

/// The value that the item gives to the option of this name.
fn value_in<'a>(name: &str, item: &Item<'a>) -> Option<&'a str>
    ensures { views.text_if result ≡ settings.value_in name.now (views.item_view item.now) }
{
    match item {
        Item::Value(other, value) if *other == name => Some(*value),
        _ => None,
    }
}

/// The value that the items give to the option of this name, if any; none where they give two.
fn value_of<'a>(name: &str, items: &[Item<'a>]) -> Option<Option<&'a str>>
    ensures { option_map views.text_if result ≡ settings.value_of name.now (map views.item_view items.now) }
{
    let mut found = None;
    for item in items {
        if let Some(value) = value_in(name, item) {
            if found.is_some() {
                return None;
            }
            found = Some(value);
        }
    }
    Some(found)
}

/// The items that are positionals.
fn positionals_of<'a>(alloc: Global, items: &[Item<'a>]) -> Result<Vec<&'a str>, OutOfMemory>
    ensures { IfOk result (λ words. map (λ word. word.now) words.items
        ≡ settings.positionals_of (map views.item_view items.now)) }
{
    let mut words = Vec::new(alloc);
    for item in items {
        if let Item::Positional(word) = item {
            words.push(*word)?;
        }
    }
    Ok(words)
}

/// What the items give; none where an option is given twice.
pub fn given_in<'a>(alloc: Global, items: &[Item<'a>]) -> Result<Option<Given<'a>>, OutOfMemory>
    ensures { IfOk result (λ found. option_map views.given_view found
        ≡ settings.given_of (map views.item_view items.now)) }
{
    let Some(lambda) = value_of("lambda", items) else {
        return Ok(None);
    };
    let Some(keep) = value_of("keep", items) else {
        return Ok(None);
    };
    let Some(budget) = value_of("budget", items) else {
        return Ok(None);
    };
    let Some(recosts) = value_of("recosts", items) else {
        return Ok(None);
    };
    let Some(weights) = value_of("weights", items) else {
        return Ok(None);
    };
    let positionals = positionals_of(alloc, items)?;
    Ok(Some(Given {
        lambda,
        keep,
        budget,
        recosts,
        weights,
        positionals,
    }))
}
