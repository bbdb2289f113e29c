//! The examples that documents work by hand, over small tables: their selectivities, and what their plans give.
use super::{gives, whole_numbers};
use crate::{WorkedStatement, WorkedTables};
use row_values::OutOfMemory;
use std::alloc::Global;
use std::process::Abort;
use std::test::Fail;

const KEYS: [(&str, &str); 2] = [("l", "k\n1\n1\n2\n"), ("r", "k,n\n1,10\n1,20\n3,30\n")];

/// Each case: what it shows, the statement, its indexes, its arguments, its selectivities, its rows, and plans of it.
const DUPLICATE_JOIN_KEYS: &str = "\
each pair of rows
SELECT l.k, r.n FROM l, r WHERE l.k = r.k



row 1,10; row 1,20; row 1,10; row 1,20
rows(loop(seq(l),seq(r)))
rows(loop(seq(r),seq(l)))
rows(hash(seq(l),seq(r),1))
rows(hash(seq(r),seq(l),1))
---
a table with itself
SELECT x.k FROM l AS x, l AS y WHERE x.k = y.k



row 1; row 1; row 1; row 1; row 2
rows(loop(seq(x),seq(y)))
rows(hash(seq(x),seq(y),1))
---
no key in common
SELECT l.k FROM l, r WHERE l.k = r.n




rows(loop(seq(l),seq(r)))
rows(hash(seq(l),seq(r),1))";

const OUTERMOST: [(&str, &str); 1] = [(
    "t",
    "v\n5\n5\n7\n-9223372036854775808\n9223372036854775807\n",
)];

const ENDS_OF_RANGES: &str = "\
at most
SELECT v FROM t WHERE v <= ?
t.v
5
3
row 5; row 5; row -9223372036854775808
rows(seq(t))
rows(range(t.v,1))
rows(full(t.v))
---
at least
SELECT v FROM t WHERE v >= ?
t.v
5
4
row 5; row 5; row 7; row 9223372036854775807
rows(seq(t))
rows(range(t.v,1))
---
at most the greatest
SELECT v FROM t WHERE v <= ?
t.v
9223372036854775807
5
row 5; row 5; row 7; row -9223372036854775808; row 9223372036854775807
rows(seq(t))
rows(range(t.v,1))
---
below the least
SELECT v FROM t WHERE v < ?
t.v
-9223372036854775808
1

rows(seq(t))
rows(range(t.v,1))
---
crossed ends
SELECT v FROM t WHERE v BETWEEN ? AND ?
t.v
7 5
1

rows(seq(t))
rows(range(t.v,1))";

/// The selectivities of the statement, joined by blanks.
fn selectivities(alloc: Global, s: &WorkedStatement) -> Result<String, OutOfMemory> {
    let mut text = String::new(alloc);
    for number in s.vector().as_slice() {
        if !text.is_empty() {
            text.push(' ')?;
        }
        text.push_str(&format!(in alloc; "{number}")?)?;
    }
    Ok(text)
}

/// The plan gives these rows, all at once and one at a time.
fn gives_rows(
    rt: &impl Abort,
    alloc: Global,
    s: &WorkedStatement,
    plan: &str,
    want: &str,
    what: &str,
) -> Result<(), Fail> {
    let lines = s.lines(alloc, plan)?;
    assert_eq!(rt; lines.as_str(), want, "{what}: {plan}");
    let pulled = s.pulled_rows(alloc, plan)?;
    let lines = s.lines_of(alloc, &pulled)?;
    assert_eq!(rt; lines.as_str(), want, "{what}, pulled: {plan}");
    Ok(())
}

/// A case has its selectivities, and each of its plans gives its rows.
fn case_gives_rows(
    rt: &impl Abort,
    alloc: Global,
    tables: &WorkedTables,
    case: &str,
) -> Result<(), Fail> {
    let mut lines = case.lines();
    let what = lines.next().unwrap_or("");
    let sql = lines.next().unwrap_or("");
    let indexed = lines.next().unwrap_or("");
    let arguments = whole_numbers(alloc, lines.next().unwrap_or(""))?;
    let at = lines.next().unwrap_or("");
    let rows = lines.next().unwrap_or("");
    let s = tables.of(alloc, sql, indexed, &arguments)?;
    assert_eq!(rt; selectivities(alloc, &s)?.as_str(), at, "{what}");
    for plan in lines {
        gives_rows(rt, alloc, &s, plan, rows, what)?;
    }
    Ok(())
}

/// Each case does.
pub(super) fn give_rows(
    rt: &impl Abort,
    alloc: Global,
    texts: &[(&str, &str)],
    cases: &str,
) -> Result<(), Fail> {
    let tables = WorkedTables::read(alloc, texts)?;
    for case in cases.split("\n---\n") {
        case_gives_rows(rt, alloc, &tables, case)?;
    }
    Ok(())
}

#[test]
fn duplicate_join_keys(rt: HostRuntime) -> Result<(), Fail> {
    let alloc = rt.alloc();
    give_rows(&rt, alloc, &KEYS, DUPLICATE_JOIN_KEYS)?;
    let tables = WorkedTables::read(alloc, &KEYS)?;
    let s = tables.of(alloc, "SELECT l.k, r.n FROM l, r WHERE l.k = r.k", "", &[])?;
    let plan = "rows(hash(seq(l),seq(r),1))";
    gives(
        &rt,
        alloc,
        &s,
        plan,
        false,
        "0,0; 0,1; 1,0; 1,1",
        "each pair",
    )
}

#[test]
fn ends_of_ranges(rt: HostRuntime) -> Result<(), Fail> {
    give_rows(&rt, rt.alloc(), &OUTERMOST, ENDS_OF_RANGES)
}
