//! How a name is spelled: as it is where it reads as a name, else in double quotes.
//!
//! `canonical_name` is the one spelling; the printers of statements, plans and replies all use it.
ghost use Rattle.std.specs.Prelude.{◌≡◌, ◌++◌, IfOk, OnOk, string_bytes};
ghost use Rattle.std.specs.List.{flat_map};
ghost use Rattle.row_values.specs.Names as spelled;

use crate::OutOfMemory;
use crate::plain::is_plain_name;
use crate::text::Words;
use std::alloc::Global;

/// Adds the name in double quotes, each double quote in it as two.
fn push_quoted(out: &mut String, name: &str) -> Result<(), OutOfMemory>
    ensures { OnOk result (string_bytes out.new ≡ string_bytes out.old ++ spelled.quoted_name name.now) }
{
    out.push('"')?;
    push_doubled(out, name)?;
    out.push('"')?;
    Ok(())
}

/// Adds the name, each double quote in it as two.
fn push_doubled(out: &mut String, name: &str) -> Result<(), OutOfMemory>
    ensures { OnOk result (string_bytes out.new
        ≡ string_bytes out.old ++ flat_map spelled.doubled name.now) }
{
    for letter in name.chars() {
        push_letter(out, letter)?;
    }
    Ok(())
}

/// Adds one character, a double quote as two.
fn push_letter(out: &mut String, letter: char) -> Result<(), OutOfMemory>
    ensures { OnOk result (string_bytes out.new ≡ string_bytes out.old ++ spelled.letter_bytes letter) }
{
    if letter == '"' {
        out.push('"')?;
    }
    out.push(letter)?;
    Ok(())
}

/// Adds the canonical spelling of a name.
pub fn push_name(out: &mut String, name: &str) -> Result<(), OutOfMemory>
    ensures { OnOk result (string_bytes out.new ≡ string_bytes out.old ++ spelled.canonical_name name.now) }
{
    if is_plain_name(name) {
        out.push_str(name)?;
        Ok(())
    } else {
        push_quoted(out, name)?;
        Ok(())
    }
}

/// The canonical spelling of a name.
pub fn canonical_name(alloc: Global, name: &str) -> Result<Words, OutOfMemory>
    ensures { IfOk result (λ words. words ≡ spelled.canonical_name name.now) }
{
    let mut out = String::new(alloc);
    push_name(&mut out, name)?;
    Ok(Words::from_string(out))
}

#[cfg(test)]
mod tests {
    use super::*;
    use std::test::Fail;

    #[test]
    fn names_are_quoted_where_they_must_be(rt: HostRuntime) -> Result<(), Fail> {
        let cases = [
            ("a letter", "t", "t"),
            ("an underscore, then digits", "_01", "_01"),
            ("a digit first", "1a", "\"1a\""),
            ("a space", "order id", "\"order id\""),
            ("a reserved word", "select", "\"select\""),
            ("a reserved word in mixed case", "BetWeen", "\"BetWeen\""),
            ("a reserved word and a letter", "ins", "ins"),
            ("a double quote", "a\"b", "\"a\"\"b\""),
            ("two double quotes", "\"\"", "\"\"\"\"\"\""),
            ("a letter of two bytes", "é", "\"é\""),
            ("nothing", "", "\"\""),
        ];
        for (what, name, spelled) in cases {
            let words = canonical_name(rt.alloc(), name)?;
            assert_eq!(rt; words.as_str(), spelled, "{what}");
        }
        Ok(())
    }
}
