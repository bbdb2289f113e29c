//! Cells as a row line shows them, worked out by hand.
use super::*;
use std::test::Fail;

#[test]
fn numbers_are_decimal(rt: HostRuntime) -> Result<(), Fail> {
    let cases = [
        ("none", 0, "0"),
        ("below 0", -7, "-7"),
        ("the least", i64::MIN, "-9223372036854775808"),
        ("the greatest", i64::MAX, "9223372036854775807"),
    ];
    for (what, number, want) in cases {
        let mut text = String::new(rt.alloc());
        push_number(&mut text, number)?;
        assert_eq!(rt; text.as_str(), want, "{what}");
    }
    Ok(())
}

#[test]
fn texts_are_quoted(rt: HostRuntime) -> Result<(), Fail> {
    let cases = [
        ("empty", "", "\"\""),
        ("plain", "Bonn am Rhein", "\"Bonn am Rhein\""),
        ("a quote", "a\"b", "\"a\\\"b\""),
        ("a backslash at the end", "a\\", "\"a\\\\\""),
        ("a line feed at the start", "\na", "\"\\x0aa\""),
        (
            "two control bytes in a row",
            "a\u{1}\u{1f}b",
            "\"a\\x01\\x1fb\"",
        ),
        ("the last of them", "\u{7f}", "\"\\x7f\""),
        ("letters of two and three bytes", "ä\t€", "\"ä\\x09€\""),
    ];
    for (what, words, want) in cases {
        let mut text = String::new(rt.alloc());
        push_quoted(&mut text, words)?;
        assert_eq!(rt; text.as_str(), want, "{what}");
    }
    Ok(())
}
