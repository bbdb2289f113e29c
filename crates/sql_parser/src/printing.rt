//! From a statement to its one canonical spelling.
//!
//! Each part is written at the end of the text so far, each name in its canonical spelling. `print` is the one way in.
ghost use Rattle.std.specs.Prelude.{◌≡◌, ◌++◌, codes, OnOk, IfOk, string_bytes};
ghost use Rattle.sql_parser.specs.Grammar.{IsStatementText};
ghost use Rattle.sql_parser.specs.Tokens as token;
ghost use Rattle.sql_parser.specs.Canonical as spelled;

use crate::statement::{RawCond, RawItem, RawKey, RawOperand, RawPlace, RawRef, RawTest, Select};
use row_values::{OutOfMemory, Value, Words, push_name};
use std::alloc::Global;

/// Writes a text between single quotes, each quote in it doubled.
fn push_text(out: &mut String, text: &str) -> Result<(), OutOfMemory>
    ensures { OnOk result (string_bytes out.new ≡ string_bytes out.old ++ token.quoted 39 text.now) }
{
    out.push('\'')?;
    let mut rest = text;
    'quotes: while let Some((part, after)) = rest.split_once('\'') {
        out.push_str(part)?;
        out.push_str("''")?;
        rest = after;
    }
    out.push_str(rest)?;
    out.push('\'')?;
    Ok(())
}

/// Writes a reference.
fn push_ref(out: &mut String, at: &RawRef) -> Result<(), OutOfMemory>
    ensures { OnOk result (string_bytes out.new ≡ string_bytes out.old ++ spelled.ref_text at.now) }
{
    if let Some(alias) = &at.alias {
        push_name(out, alias.as_str())?;
        out.push_str(".")?;
    }
    push_name(out, at.column.as_str())?;
    Ok(())
}

/// Writes an aggregate of a column.
fn push_aggregate(out: &mut String, name: &str, at: &RawRef) -> Result<(), OutOfMemory>
    ensures { OnOk result (string_bytes out.new
        ≡ string_bytes out.old ++ (name.now ++ spelled.ref_text at.now ++ codes ")")) }
{
    out.push_str(name)?;
    push_ref(out, at)?;
    out.push_str(")")?;
    Ok(())
}

/// Writes an item.
fn push_item(out: &mut String, item: &RawItem) -> Result<(), OutOfMemory>
    ensures { OnOk result (string_bytes out.new ≡ string_bytes out.old ++ spelled.item_text item.now) }
{
    match item {
        RawItem::Column(at) => push_ref(out, at),
        RawItem::CountAll => out.push_str("COUNT(*)"),
        RawItem::Sum(at) => push_aggregate(out, "SUM(", at),
        RawItem::Min(at) => push_aggregate(out, "MIN(", at),
        RawItem::Max(at) => push_aggregate(out, "MAX(", at),
    }
}

/// Writes a place.
fn push_place(out: &mut String, place: &RawPlace) -> Result<(), OutOfMemory>
    ensures { OnOk result (string_bytes out.new ≡ string_bytes out.old ++ spelled.place_text place.now) }
{
    push_name(out, place.table.as_str())?;
    if place.alias == place.table {
        return Ok(());
    }
    out.push_str(" AS ")?;
    push_name(out, place.alias.as_str())?;
    Ok(())
}

/// Writes an operand.
fn push_operand(alloc: Global, out: &mut String, operand: &RawOperand) -> Result<(), OutOfMemory>
    ensures { OnOk result (string_bytes out.new ≡ string_bytes out.old ++ spelled.operand_text operand.now) }
{
    match operand {
        RawOperand::Literal(Value::Int(number)) => out.push_str(number.to_string(alloc)?.as_str()),
        RawOperand::Literal(Value::Text(text)) => push_text(out, text.as_str()),
        RawOperand::Param => out.push_str("?"),
    }
}

/// Writes an operator and its operand.
fn push_compared(
    alloc: Global,
    out: &mut String,
    sign: &str,
    operand: &RawOperand,
) -> Result<(), OutOfMemory>
    ensures { OnOk result (string_bytes out.new
        ≡ string_bytes out.old ++ (sign.now ++ spelled.operand_text operand.now)) }
{
    out.push_str(sign)?;
    push_operand(alloc, out, operand)?;
    Ok(())
}

/// Writes these with a separator between two, behind a word; nothing where there is none.
fn push_operands(
    alloc: Global,
    out: &mut String,
    word: &str,
    separator: &str,
    operands: &[RawOperand],
) -> Result<(), OutOfMemory>
    ensures { OnOk result (string_bytes out.new
        ≡ string_bytes out.old ++ spelled.listed_text word.now separator.now spelled.operand_text operands.now) }
{
    let mut before = word;
    for part in operands {
        out.push_str(before)?;
        push_operand(alloc, out, part)?;
        before = separator;
    }
    Ok(())
}

/// Writes a test.
fn push_test(alloc: Global, out: &mut String, test: &RawTest) -> Result<(), OutOfMemory>
    ensures { OnOk result (string_bytes out.new ≡ string_bytes out.old ++ spelled.test_text test.now) }
{
    match test {
        RawTest::Lt(operand) => push_compared(alloc, out, " < ", operand),
        RawTest::Le(operand) => push_compared(alloc, out, " <= ", operand),
        RawTest::Gt(operand) => push_compared(alloc, out, " > ", operand),
        RawTest::Ge(operand) => push_compared(alloc, out, " >= ", operand),
        RawTest::Eq(operand) => push_compared(alloc, out, " = ", operand),
        RawTest::Between(low, high) => {
            push_compared(alloc, out, " BETWEEN ", low)?;
            push_compared(alloc, out, " AND ", high)?;
            Ok(())
        }
        RawTest::OneOf(operands) => {
            push_operands(alloc, out, " IN (", ", ", operands.as_slice())?;
            out.push_str(")")?;
            Ok(())
        }
    }
}

/// Writes a condition.
fn push_cond(alloc: Global, out: &mut String, cond: &RawCond) -> Result<(), OutOfMemory>
    ensures { OnOk result (string_bytes out.new ≡ string_bytes out.old ++ spelled.cond_text cond.now) }
{
    match cond {
        RawCond::Test(at, test) => {
            push_ref(out, at)?;
            push_test(alloc, out, test)?;
            Ok(())
        }
        RawCond::Same(left, right) => {
            push_ref(out, left)?;
            out.push_str(" = ")?;
            push_ref(out, right)?;
            Ok(())
        }
    }
}

/// Writes a key of ORDER BY.
fn push_key(out: &mut String, key: &RawKey) -> Result<(), OutOfMemory>
    ensures { OnOk result (string_bytes out.new ≡ string_bytes out.old ++ spelled.key_text key.now) }
{
    push_ref(out, &key.at)?;
    if key.descending {
        out.push_str(" DESC")?;
    }
    Ok(())
}

/// Writes these with a separator between two, behind a word; nothing where there is none.
fn push_items(
    out: &mut String,
    word: &str,
    separator: &str,
    items: &[RawItem],
) -> Result<(), OutOfMemory>
    ensures { OnOk result (string_bytes out.new
        ≡ string_bytes out.old ++ spelled.listed_text word.now separator.now spelled.item_text items.now) }
{
    let mut before = word;
    for part in items {
        out.push_str(before)?;
        push_item(out, part)?;
        before = separator;
    }
    Ok(())
}

/// Writes these with a separator between two, behind a word; nothing where there is none.
fn push_places(
    out: &mut String,
    word: &str,
    separator: &str,
    places: &[RawPlace],
) -> Result<(), OutOfMemory>
    ensures { OnOk result (string_bytes out.new
        ≡ string_bytes out.old ++ spelled.listed_text word.now separator.now spelled.place_text places.now) }
{
    let mut before = word;
    for part in places {
        out.push_str(before)?;
        push_place(out, part)?;
        before = separator;
    }
    Ok(())
}

/// Writes these with a separator between two, behind a word; nothing where there is none.
fn push_conds(
    alloc: Global,
    out: &mut String,
    word: &str,
    separator: &str,
    conds: &[RawCond],
) -> Result<(), OutOfMemory>
    ensures { OnOk result (string_bytes out.new
        ≡ string_bytes out.old ++ spelled.listed_text word.now separator.now spelled.cond_text conds.now) }
{
    let mut before = word;
    for part in conds {
        out.push_str(before)?;
        push_cond(alloc, out, part)?;
        before = separator;
    }
    Ok(())
}

/// Writes these with a separator between two, behind a word; nothing where there is none.
fn push_refs(
    out: &mut String,
    word: &str,
    separator: &str,
    refs: &[RawRef],
) -> Result<(), OutOfMemory>
    ensures { OnOk result (string_bytes out.new
        ≡ string_bytes out.old ++ spelled.listed_text word.now separator.now spelled.ref_text refs.now) }
{
    let mut before = word;
    for part in refs {
        out.push_str(before)?;
        push_ref(out, part)?;
        before = separator;
    }
    Ok(())
}

/// Writes these with a separator between two, behind a word; nothing where there is none.
fn push_keys(
    out: &mut String,
    word: &str,
    separator: &str,
    keys: &[RawKey],
) -> Result<(), OutOfMemory>
    ensures { OnOk result (string_bytes out.new
        ≡ string_bytes out.old ++ spelled.listed_text word.now separator.now spelled.key_text keys.now) }
{
    let mut before = word;
    for part in keys {
        out.push_str(before)?;
        push_key(out, part)?;
        before = separator;
    }
    Ok(())
}

/// The canonical spelling of a statement: `parse` of it gives this very statement again.
pub fn print(alloc: Global, s: &Select) -> Result<Words, OutOfMemory>
    ensures value { IfOk result (λ words. words ≡ spelled.canonical_text s.now) }
    ensures read_again { IfOk result (λ words. IsStatementText words s.now) }
{
    let mut out = String::new(alloc);
    push_items(&mut out, "SELECT ", ", ", s.items())?;
    push_places(&mut out, " FROM ", ", ", s.places())?;
    push_conds(alloc, &mut out, " WHERE ", " AND ", s.conds())?;
    push_refs(&mut out, " GROUP BY ", ", ", s.groups())?;
    push_keys(&mut out, " ORDER BY ", ", ", s.order())?;
    Ok(Words::from_string(out))
}
