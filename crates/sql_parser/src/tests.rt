//! Statements read and printed, at the edges of each production and of each rule of spelling.
use crate::{ParseFault, parse, print};
use row_values::Words;
use std::alloc::Global;

/// What `print` writes of what `parse` reads; none where the text is no statement.
fn shown(alloc: Global, text: &str) -> Result<Option<Words>, ParseFault> {
    match parse(alloc, text) {
        Ok(select) => Ok(Some(print(alloc, &select)?)),
        Err(ParseFault::Syntax) => Ok(None),
        Err(ParseFault::Memory) => Err(ParseFault::Memory),
    }
}

#[test]
fn statements_are_spelled_one_way(rt: HostRuntime) -> Result<(), ParseFault> {
    let cases = [
        (
            "a name with a space, small letters, a semicolon",
            "select \"order id\" from t where day >= 5 ;",
            "SELECT \"order id\" FROM t WHERE day >= 5",
        ),
        (
            "zero has no sign",
            "SELECT a FROM t WHERE b < -0",
            "SELECT a FROM t WHERE b < 0",
        ),
        (
            "no needless zeros",
            "SELECT a FROM t WHERE b > -007 AND b <= 00",
            "SELECT a FROM t WHERE b > -7 AND b <= 0",
        ),
        (
            "the least whole number",
            "SELECT a FROM t WHERE b = -9223372036854775808",
            "SELECT a FROM t WHERE b = -9223372036854775808",
        ),
        (
            "a reserved word as a name keeps its quotes, a plain name loses them",
            "SELECT \"select\", \"Inner\", \"a_1\" FROM \"t\"",
            "SELECT \"select\", \"Inner\", a_1 FROM t",
        ),
        (
            "a quote in a name stays doubled",
            "SELECT \"a\"\"b\" FROM t",
            "SELECT \"a\"\"b\" FROM t",
        ),
        (
            "an alias that is the table's name goes, another gets its AS",
            "SELECT c FROM a AS a, b x, c AS C",
            "SELECT c FROM a, b AS x, c AS C",
        ),
        (
            "joins are commas, their conditions stand before those of WHERE",
            "SELECT a.x FROM a JOIN b ON a.x = b.x AND b.y < ? inner join c y ON y.z = b.z WHERE a.z > 1",
            "SELECT a.x FROM a, b, c AS y WHERE a.x = b.x AND b.y < ? AND y.z = b.z AND a.z > 1",
        ),
        (
            "line ends and tabs are white space",
            "\r\nSELECT\ta\r\nFROM\nt\n",
            "SELECT a FROM t",
        ),
        (
            "a number ends where a word begins",
            "SELECT v,w FROM t WHERE v<5AND w<=-6ORDER BY v",
            "SELECT v, w FROM t WHERE v < 5 AND w <= -6 ORDER BY v",
        ),
        (
            "texts keep their bytes, and a quote in one is doubled",
            "SELECT a FROM t WHERE a = 'it''s ;\té\"' AND b = ''",
            "SELECT a FROM t WHERE a = 'it''s ;\té\"' AND b = ''",
        ),
        (
            "space round brackets and dots goes, ASC goes, DESC stays",
            "SELECT t . a, COUNT ( * ), sum ( b ), Min(c), MAX(t.d) FROM t GROUP BY a, t.b ORDER BY a ASC, b desc, c",
            "SELECT t.a, COUNT(*), SUM(b), MIN(c), MAX(t.d) FROM t GROUP BY a, t.b ORDER BY a, b DESC, c",
        ),
        (
            "the AND of BETWEEN is its own",
            "SELECT a FROM t WHERE a between 1 and ? AND b = c AND d = ?",
            "SELECT a FROM t WHERE a BETWEEN 1 AND ? AND b = c AND d = ?",
        ),
        (
            "an IN of a parameter and a number",
            "SELECT v FROM t WHERE v IN (?, 3)",
            "SELECT v FROM t WHERE v IN (?, 3)",
        ),
        (
            "space in the brackets of an IN goes, also where none was",
            "SELECT v FROM t WHERE t.v in( 'a' ,-0,?)AND v IN\t(?)",
            "SELECT v FROM t WHERE t.v IN ('a', 0, ?) AND v IN (?)",
        ),
    ];
    for (what, text, want) in cases {
        let found = shown(rt.alloc(), text)?;
        assert!(rt; found.is_some_and(|words| words.as_str() == want), "{what}");
        let again = shown(rt.alloc(), want)?;
        assert!(rt;
            again.is_some_and(|words| words.as_str() == want),
            "again: {what}"
        );
    }
    Ok(())
}

#[test]
fn other_texts_are_refused(rt: HostRuntime) -> Result<(), ParseFault> {
    let cases = [
        ("nothing", ""),
        ("no item", "SELECT FROM t"),
        ("a comma behind the last item", "SELECT a, FROM t"),
        ("no place", "SELECT a FROM"),
        ("two aliases", "SELECT a FROM t x y"),
        ("an alias that is reserved", "SELECT a FROM t AS select"),
        ("a join with no condition", "SELECT a FROM t JOIN u"),
        ("INNER with no JOIN", "SELECT a FROM t INNER u ON a = b"),
        ("no condition", "SELECT a FROM t WHERE"),
        ("no operand", "SELECT a FROM t WHERE a <"),
        ("a literal on the left", "SELECT a FROM t WHERE 1 < a"),
        ("columns compared by order", "SELECT a FROM t WHERE a < b"),
        ("BETWEEN with one end", "SELECT a FROM t WHERE a BETWEEN 1"),
        ("a comma for AND", "SELECT a FROM t WHERE a = 1, b = 2"),
        ("GROUP with no BY", "SELECT a FROM t GROUP a"),
        ("two directions", "SELECT a FROM t ORDER BY a DESC ASC"),
        (
            "ORDER before GROUP",
            "SELECT a FROM t ORDER BY a GROUP BY a",
        ),
        ("two semicolons", "SELECT a FROM t;;"),
        ("COUNT of a column", "SELECT COUNT(a) FROM t"),
        ("an empty name", "SELECT \"\" FROM t"),
        ("an open name", "SELECT \"a\"\" FROM t"),
        ("an open text", "SELECT a FROM t WHERE a = 'b"),
        (
            "a number above 64 bits",
            "SELECT a FROM t WHERE a = 9223372036854775808",
        ),
        (
            "a number below 64 bits",
            "SELECT a FROM t WHERE a = -9223372036854775809",
        ),
        (
            "a sign with space behind it",
            "SELECT a FROM t WHERE a = - 5",
        ),
        ("IN with no brackets", "SELECT a FROM t WHERE a IN 1"),
        ("IN of no operand", "SELECT a FROM t WHERE a IN ()"),
        ("IN of a column", "SELECT a FROM t WHERE a IN (b)"),
        (
            "a comma behind the last operand of an IN",
            "SELECT a FROM t WHERE a IN (1, ?,)",
        ),
        ("an IN that isn't closed", "SELECT a FROM t WHERE a IN (1"),
        ("a byte of no token", "SELECT a FROM t WHERE a = #"),
        ("a letter of two bytes outside quotes", "SELECT é FROM t"),
    ];
    for (what, text) in cases {
        let found = shown(rt.alloc(), text)?;
        assert!(rt; found.is_none(), "{what}");
    }
    Ok(())
}

#[test]
fn long_texts_are_read_in_one_pass(rt: HostRuntime) -> Result<(), ParseFault> {
    let mut text = String::new(rt.alloc());
    text.push_str("SELECT a")?;
    for _ in 0..20_000 {
        text.push_str(" , \t\r\n a")?;
    }
    text.push_str(" FROM t WHERE a < 0")?;
    for _ in 0..20_000 {
        text.push_str(" AND b BETWEEN ? AND 'c'")?;
    }
    for _ in 0..200_000 {
        text.push_str("    ")?;
    }
    let select = parse(rt.alloc(), text.as_str())?;
    assert_eq!(rt; select.items().len(), 20_001);
    assert_eq!(rt; select.conds().len(), 20_001);
    Ok(())
}
