//! Plans of each form, compared with trying all combinations, and the examples that documents work by hand.
mod access_paths;
mod examples;
mod joins;
mod large_tables;

use crate::{WorkedStatement, WorkedTables, numbers};
use std::alloc::Global;
use std::process::Abort;
use std::test::Fail;

/// More combinations than any case has.
const MANY: usize = 1_000_000;

/// Tables with keys that stand more than once, and one without a row.
const TEXTS: [(&str, &str); 5] = [
    ("l", "k,w\n1,a\n1,b\n2,b\n5,\n"),
    ("r", "k,n,w\n1,10,b\n1,20,a\n3,30,b\n2,10,\n2,40,a\n"),
    ("m", "n,v\n10,1\n20,2\n20,3\n40,1\n50,4\n"),
    ("d", "v,k\n1,1\n2,2\n3,1\n1,5\n"),
    ("none", "k:int,n:int,w:text\n"),
];

/// Whole numbers from a text.
fn whole_numbers(alloc: Global, words: &str) -> Result<Vec<i64>, Fail> {
    let mut list = Vec::new(alloc);
    for word in words.split_whitespace() {
        list.push(word.parse::<i64>().unwrap_or(0))?;
    }
    Ok(list)
}

/// The plan gives these combinations, each once, all at once and one at a time; where asked for, in the wanted order.
fn gives(
    rt: &impl Abort,
    alloc: Global,
    s: &WorkedStatement,
    plan: &str,
    is_ordered: bool,
    want: &str,
    what: &str,
) -> Result<(), Fail> {
    let run = s.run(alloc, plan)?;
    let given = numbers(alloc, &run)?;
    assert_eq!(rt; given.as_str(), want, "{what}: {plan}");
    let pulled = s.pulled(alloc, plan, MANY)?;
    let given = numbers(alloc, &pulled)?;
    assert_eq!(rt; given.as_str(), want, "{what}, pulled: {plan}");
    if is_ordered {
        assert!(rt; s.is_in_order(alloc, &run)?, "{what}, in order: {plan}");
        assert!(rt;
            s.is_in_order(alloc, &pulled)?,
            "{what}, pulled in order: {plan}"
        );
    }
    Ok(())
}

/// Each plan of a case gives the combinations that trying all gives; where asked for, in the wanted order.
fn case_agrees(
    rt: &impl Abort,
    alloc: Global,
    tables: &WorkedTables,
    case: &str,
    is_ordered: bool,
) -> Result<(), Fail> {
    let mut lines = case.lines();
    let what = lines.next().unwrap_or("");
    let sql = lines.next().unwrap_or("");
    let indexed = lines.next().unwrap_or("");
    let arguments = whole_numbers(alloc, lines.next().unwrap_or(""))?;
    let s = tables.of(alloc, sql, indexed, &arguments)?;
    let tried = numbers(alloc, &s.tried(alloc)?)?;
    for plan in lines {
        gives(rt, alloc, &s, plan, is_ordered, tried.as_str(), what)?;
    }
    Ok(())
}

/// Each case does.
fn agree(rt: &impl Abort, alloc: Global, cases: &str, is_ordered: bool) -> Result<(), Fail> {
    let tables = WorkedTables::read(alloc, &TEXTS)?;
    for case in cases.split("\n---\n") {
        case_agrees(rt, alloc, &tables, case, is_ordered)?;
    }
    Ok(())
}
