//! Each access path under each of the seven tests, and what meets a predicate, counted in each way.
use super::gives;
use crate::{WorkedStatement, WorkedTables, numbers};
use std::alloc::Global;
use std::process::Abort;
use std::test::Fail;

/// A table of numbers, the outermost among them, and of texts, some of which differ in their last byte alone, both with
/// doubles; and one of the same columns without a row.
const TEXTS: [(&str, &str); 2] = [
    (
        "t",
        "v,w\n5,b\n5,a\n7,b\n-9223372036854775808,aa\n9223372036854775807,ac\n3,ab\n4,\n0,two words è\n-1,two words é\n5,ab\n",
    ),
    ("none", "v:int,w:text\n"),
];

/// Each case: a condition on numbers, and the rows of the first table that meet it.
const ON_NUMBERS: &str = "\
v < 5 | 3; 5; 6; 7; 8
v < -9223372036854775808 |
v <= 4 | 3; 5; 6; 7; 8
v <= 5 | 0; 1; 3; 5; 6; 7; 8; 9
v <= 9223372036854775807 | 0; 1; 2; 3; 4; 5; 6; 7; 8; 9
v > 5 | 2; 4
v > 9223372036854775807 |
v >= 5 | 0; 1; 2; 4; 9
v >= 6 | 2; 4
v >= -9223372036854775808 | 0; 1; 2; 3; 4; 5; 6; 7; 8; 9
v = 5 | 0; 1; 9
v = 6 |
v = -9223372036854775808 | 3
v BETWEEN 0 AND 5 | 0; 1; 5; 6; 7; 9
v BETWEEN 5 AND 5 | 0; 1; 9
v BETWEEN 6 AND 6 |
v BETWEEN 7 AND 5 |
v IN (5) | 0; 1; 9
v IN (7, 5, 8, 7) | 0; 1; 2; 9
v IN (9223372036854775807, -9223372036854775808) | 3; 4
v < ? | 3; 5; 6; 7; 8
v > ? | 2; 4
v = ? | 0; 1; 9
v BETWEEN ? AND 7 | 0; 1; 2; 9
v BETWEEN ? AND ? |
v IN (7, ?, ?) | 0; 1; 2; 5; 9
v IN (?, 5, ?) | 0; 1; 5; 9
v >= 5 AND w = 'b' | 0; 2";

/// The same with a condition on texts.
const ON_TEXTS: &str = "\
w < 'ab' | 1; 3; 6
w < '' |
w <= 'ab' | 1; 3; 5; 6; 9
w > 'ab' | 0; 2; 4; 7; 8
w > 'two words é' |
w >= 'b' | 0; 2; 7; 8
w >= 'two words é' | 8
w = 'ab' | 5; 9
w = 'ad' |
w = 'two words è' | 7
w BETWEEN 'aa' AND 'ac' | 3; 4; 5; 9
w BETWEEN 'ab' AND 'ab' | 5; 9
w BETWEEN 'ad' AND 'ad' |
w BETWEEN 'b' AND 'a' |
w IN ('ab') | 5; 9
w IN ('b', 'a', 'b', '') | 0; 1; 2; 6
w IN ('two words é', 'ac', 'ad') | 4; 8
w <= 'ab' AND v > -1 | 1; 5; 6; 9";

/// As many rows meet the first predicate as are found by trying all, by the column and by an index over it.
fn is_counted(rt: &impl Abort, s: &WorkedStatement, condition: &str) -> Result<(), Fail> {
    let counts = s.counts(0).ok_or("no predicate")?;
    assert_eq!(rt; counts.counted, counts.tried, "{condition}, counted");
    assert_eq!(rt;
        counts.by_index,
        Some(counts.tried),
        "{condition}, counted by the index"
    );
    Ok(())
}

/// Each access path gives these rows of the table, and so does trying all.
fn each_path_gives(
    rt: &impl Abort,
    alloc: Global,
    tables: &WorkedTables,
    table: &str,
    condition: &str,
    paths: &str,
    want: &str,
) -> Result<(), Fail> {
    let sql = format!(in alloc; "SELECT v FROM {table} t WHERE {condition}")?;
    let s = tables.of(alloc, sql.as_str(), "t.v t.w", &[5, 3])?;
    let tried = numbers(alloc, &s.tried(alloc)?)?;
    assert_eq!(rt; tried.as_str(), want, "{condition}");
    for path in paths.split_whitespace() {
        gives(rt, alloc, &s, path, false, want, condition)?;
    }
    is_counted(rt, &s, condition)
}

/// Each of these paths does under each condition, and gives nothing where the table has no row.
fn each_path_agrees(rt: &impl Abort, alloc: Global, cases: &str, paths: &str) -> Result<(), Fail> {
    let tables = WorkedTables::read(alloc, &TEXTS)?;
    for case in cases.lines() {
        let (condition, rows) = case.split_once(" |").ok_or("no rows")?;
        each_path_gives(rt, alloc, &tables, "t", condition, paths, rows.trim())?;
        each_path_gives(rt, alloc, &tables, "none", condition, paths, "")?;
    }
    Ok(())
}

#[test]
fn paths_by_numbers(rt: HostRuntime) -> Result<(), Fail> {
    let paths = "rows(seq(t)) rows(full(t.v)) rows(full(t.w)) rows(range(t.v,1))";
    each_path_agrees(&rt, rt.alloc(), ON_NUMBERS, paths)
}

#[test]
fn paths_by_texts(rt: HostRuntime) -> Result<(), Fail> {
    let paths = "rows(seq(t)) rows(full(t.v)) rows(full(t.w)) rows(range(t.w,1))";
    each_path_agrees(&rt, rt.alloc(), ON_TEXTS, paths)
}
