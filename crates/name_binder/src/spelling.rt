//! How a reference and an item are shown in a refusal: as they were written, each name in canonical
//! spelling.
//!
//! `ref_shown` and `item_shown` are the ways in; a name alone is shown by `canonical_name` of
//! row_values.
ghost use Rattle.std.specs.Prelude.{◌≡◌, ◌++◌, IfOk, OnOk, codes, string_bytes};
ghost use Rattle.name_binder.specs.Spelling as spelled;

use row_values::{OutOfMemory, Words, push_name};
use sql_parser::{RawItem, RawRef};
use std::alloc::Global;

/// Adds a reference as it was written.
fn push_ref(out: &mut String, r: &RawRef) -> Result<(), OutOfMemory>
    ensures { OnOk result (string_bytes out.new ≡ string_bytes out.old ++ spelled.ref_text r.now) }
{
    if let Some(alias) = &r.alias {
        push_name(out, alias.as_str())?;
        out.push_str(".")?;
    }
    push_name(out, r.column.as_str())?;
    Ok(())
}

/// Adds an aggregate of a reference.
fn push_call(out: &mut String, call: &str, r: &RawRef) -> Result<(), OutOfMemory>
    ensures { OnOk result (string_bytes out.new ≡ string_bytes out.old ++ call.now ++ spelled.ref_text r.now
        ++ codes ")") }
{
    out.push_str(call)?;
    push_ref(out, r)?;
    out.push_str(")")?;
    Ok(())
}

/// Adds an item.
fn push_item(out: &mut String, item: &RawItem) -> Result<(), OutOfMemory>
    ensures { OnOk result (string_bytes out.new ≡ string_bytes out.old ++ spelled.item_text item.now) }
{
    match item {
        RawItem::Column(r) => push_ref(out, r)?,
        RawItem::CountAll => out.push_str("COUNT(*)")?,
        RawItem::Sum(r) => push_call(out, "SUM(", r)?,
        RawItem::Min(r) => push_call(out, "MIN(", r)?,
        RawItem::Max(r) => push_call(out, "MAX(", r)?,
    }
    Ok(())
}

/// The canonical spelling of a reference.
pub fn ref_shown(alloc: Global, r: &RawRef) -> Result<Words, OutOfMemory>
    ensures { IfOk result (λ words. words ≡ spelled.ref_text r.now) }
{
    let mut out = String::new(alloc);
    push_ref(&mut out, r)?;
    Ok(Words::from_string(out))
}

/// The canonical spelling of an item.
pub fn item_shown(alloc: Global, item: &RawItem) -> Result<Words, OutOfMemory>
    ensures { IfOk result (λ words. words ≡ spelled.item_text item.now) }
{
    let mut out = String::new(alloc);
    push_item(&mut out, item)?;
    Ok(Words::from_string(out))
}
