//! Counts and statistics worked out by hand.
ghost use Rattle.std.specs.Prelude.{◌≡◌, ◌≤◌, IfOk, IfSome, length, map};
ghost use Rattle.csv_tables.specs.StatementTables.{AreTablesOf, tables_in};
ghost use Rattle.plan_trees.specs.Statistics.{IsSoundStats};

use crate::{CountFault, Distincts, count, stats, vector};
use csv_tables::{Table, read_table};
use plan_trees::{Stats, Vector, Weights};
use row_values::{
    ColRef, Edge, Item, Operand, Operands, OutOfMemory, Place, Pred, Query, Test, Value, Words,
};
use std::alloc::Global;
use std::rc::Rc;
use std::test::Fail;
use table_index::Index;

const WEIGHTS: Weights = Weights {
    row: 1,
    fetch: 2,
    probe: 1,
    hash: 2,
    sort: 1,
    out: 1,
};

/// One column of 5, 5, 7 and the two outermost numbers.
const ENDS: &[u8] = b"v\n5\n5\n7\n-9223372036854775808\n9223372036854775807\n";

fn at(place: u8, column: u8) -> ColRef {
    ColRef { place, column }
}

fn on(place: u8, column: u8, test: Test) -> Pred {
    Pred {
        at: at(place, column),
        test,
    }
}

fn int(number: i64) -> Operand {
    Operand::Literal(Value::Int(number))
}

fn text(alloc: Global, letters: &str) -> Result<Operand, OutOfMemory> {
    Ok(Operand::Literal(Value::Text(Words::of(alloc, letters)?)))
}

/// The test `IN (5, 5, 7)`.
fn in_five_five_seven(alloc: Global) -> Result<Test, OutOfMemory> {
    match Operands::of(vec![in alloc; int(5), int(5), int(7)]?) {
        Some(operands) => Ok(Test::OneOf(operands)),
        None => Err(OutOfMemory),
    }
}

fn table_of(alloc: Global, bytes: &[u8]) -> Result<Rc<Table>, OutOfMemory> {
    match read_table(alloc, bytes) {
        Ok(table) => Ok(Rc::new(alloc, table)?),
        Err(_) => Err(OutOfMemory),
    }
}

fn tables_of(alloc: Global, files: &[&[u8]]) -> Result<Vec<Rc<Table>>, OutOfMemory> {
    let mut tables = Vec::new(alloc);
    for file in files {
        tables.push(table_of(alloc, file)?)?;
    }
    Ok(tables)
}

/// The numbers 1 to 40,000 as a table of one column.
fn forty_thousand(alloc: Global) -> Result<Rc<Table>, OutOfMemory> {
    let mut text = String::new(alloc);
    text.push_str("v\n")?;
    for number in 1..40001 {
        let line = format!(in alloc; "{number}\n")?;
        text.push_str(line.as_str())?;
    }
    table_of(alloc, text.as_str().as_bytes())
}

/// The tables as the places a, b, .. of FROM.
fn places_of(alloc: Global, tables: &[Rc<Table>]) -> Result<Vec<Place>, OutOfMemory>
    ensures { IfOk result (λ places. map (λ table. table.schema) (tables_in tables.now)
        ≡ map (λ place. place.schema) places.items) }
{
    let mut places = Vec::new(alloc);
    for (place, table) in tables.iter().enumerate() {
        let alias = ["a", "b", "c", "d", "e"].get(place).copied().unwrap_or("");
        places.push(Place {
            table: Words::of(alloc, "t")?,
            alias: Words::of(alloc, alias)?,
            schema: table.schema().copy(alloc)?,
        })?;
    }
    Ok(places)
}

/// The statement `SELECT a.c0 FROM t a, t b, ..` over these tables with these conditions.
fn statement_over(
    alloc: Global,
    tables: &[Rc<Table>],
    preds: Vec<Pred>,
    edges: Vec<Edge>,
) -> Result<Option<Query>, OutOfMemory>
    ensures { IfOk result (λ found. IfSome found (λ q. AreTablesOf q (tables_in tables.now))) }
{
    let places = places_of(alloc, tables)?;
    let items = vec![in alloc; Item::Column(at(0, 0))]?;
    Ok(Query::make(
        places,
        preds,
        edges,
        items,
        Vec::new(alloc),
        Vec::new(alloc),
    ))
}

/// Puts a number behind the text.
fn push_number(alloc: Global, text: &mut String, number: u64) -> Result<(), OutOfMemory> {
    let word = format!(in alloc; " {number}")?;
    text.push_str(word.as_str())?;
    Ok(())
}

/// Statistics as `rows 5 fixed 3 matching 1 4 3 distinct fans 2`.
fn text_of(alloc: Global, q: &Query, stats: &Stats) -> Result<String, OutOfMemory>
    requires { IsSoundStats q.now stats.now }
{
    let mut text = String::new(alloc);
    text.push_str("rows")?;
    for place in 0..q.places().len() {
        push_number(alloc, &mut text, stats.rows(place as u8))?;
    }
    text.push_str(" fixed")?;
    for place in 0..q.places().len() {
        push_number(alloc, &mut text, stats.fixed(place as u8))?;
    }
    text.push_str(" matching")?;
    for pred in 0..q.preds().len() {
        push_number(alloc, &mut text, stats.matching(pred as u8))?;
    }
    text.push_str(" distinct")?;
    for edge in 0..q.edges().len() {
        push_number(alloc, &mut text, stats.edge_distinct(edge as u8))?;
    }
    text.push_str(" fans")?;
    for (place, this) in q.places().iter().enumerate() {
        for column in 0..this.schema.columns().len() {
            push_number(alloc, &mut text, stats.fan(place as u8, column as u8))?;
        }
    }
    Ok(text)
}

/// What the statistics of a statement without an index say; or the fault, or that there is no such
/// statement. Kept distinct counts give the same.
fn stats_text(
    alloc: Global,
    tables: &[Rc<Table>],
    preds: Vec<Pred>,
    edges: Vec<Edge>,
) -> Result<String, OutOfMemory> {
    let Some(q) = statement_over(alloc, tables, preds, edges)? else {
        return String::from_str(alloc, "no statement");
    };
    match stats(alloc, &q, tables, &[], WEIGHTS) {
        Ok(stats) => text_of(alloc, &q, &stats),
        Err(CountFault::Wide(place)) => format!(in alloc; "wide {place}"),
        Err(CountFault::Memory) => Err(OutOfMemory),
    }
}

#[test]
fn statistics_are_counts(rt: HostRuntime) -> Result<(), OutOfMemory> {
    let alloc = rt.alloc();
    let ends = tables_of(alloc, &[ENDS])?;
    let words: &[u8] = b"k,w\n1,b\n2,a\n3,b\n4,aa\n";
    let words = tables_of(alloc, &[words])?;
    let empty: &[u8] = b"a,b:int\n";
    let empty = tables_of(alloc, &[empty])?;
    let left: &[u8] = b"k\n1\n1\n2\n";
    let right: &[u8] = b"k,n\n1,10\n1,20\n3,30\n4,40\n4,40\n";
    let keys = tables_of(alloc, &[left, right])?;
    let cases = [
        (
            "ends of ranges, parameterised and fixed predicates mixed",
            ends,
            vec![in alloc;
                on(0, 0, Test::Le(Operand::Param(0))),
                on(0, 0, Test::Ge(int(5))),
                on(0, 0, in_five_five_seven(alloc)?),
            ]?,
            Vec::new(alloc),
            "rows 5 fixed 3 matching 1 4 3 distinct fans 2",
        ),
        (
            "texts",
            words,
            vec![in alloc;
                on(0, 1, Test::Gt(text(alloc, "a")?)),
                on(0, 0, Test::Lt(int(4))),
            ]?,
            Vec::new(alloc),
            "rows 4 fixed 2 matching 3 3 distinct fans 1 2",
        ),
        (
            "no data row",
            empty,
            vec![in alloc; on(0, 1, Test::Lt(int(10)))]?,
            Vec::new(alloc),
            "rows 1 fixed 1 matching 1 distinct fans 1 1",
        ),
        (
            "duplicate join keys: two and three distinct ones",
            keys,
            vec![in alloc; on(1, 1, Test::Eq(int(40)))]?,
            vec![in alloc;
                Edge {
                    left: at(0, 0),
                    right: at(1, 0)
                },
            ]?,
            "rows 3 5 fixed 3 2 matching 2 distinct 3 fans 2 2 2",
        ),
    ];
    for (what, tables, preds, edges, want) in cases {
        let said = stats_text(alloc, tables.as_slice(), preds, edges)?;
        assert_eq!(rt; said.as_str(), want, "{what}");
    }
    Ok(())
}

#[test]
fn a_wide_statement_names_its_place(rt: HostRuntime) -> Result<(), OutOfMemory> {
    let alloc = rt.alloc();
    let table = forty_thousand(alloc)?;
    let cases = [
        ("four places", 4, 0, "rows 40000 40000 40000 40000"),
        ("place e of five", 5, 0, "wide 4"),
        ("five parameterised predicates on place b", 3, 5, "wide 1"),
    ];
    for (what, places, parameters, want) in cases {
        let mut tables = Vec::new(alloc);
        for _ in 0..places {
            tables.push(table.clone()?)?;
        }
        let mut preds = Vec::new(alloc);
        for parameter in 0..parameters {
            preds.push(on(1, 0, Test::Lt(Operand::Param(parameter))))?;
        }
        let said = stats_text(alloc, tables.as_slice(), preds, Vec::new(alloc))?;
        assert!(rt; said.as_str().starts_with(want), "{what}");
    }
    Ok(())
}

/// How many rows of a table meet a predicate, without an index and with one over its column.
fn both_counts(alloc: Global, table: &Table, pred: &Pred) -> Result<(u64, u64), OutOfMemory> {
    if usize::from(pred.at.column) >= table.schema().columns().len() {
        return Ok((0, 0));
    }
    let index = Index::build(alloc, table, pred.at.column)?;
    let args = [Value::Int(7), Value::Int(5)];
    Ok((
        count(table, None, pred, &args),
        count(table, Some(&index), pred, &args),
    ))
}

#[test]
fn an_index_changes_no_count(rt: HostRuntime) -> Result<(), OutOfMemory> {
    let alloc = rt.alloc();
    let bytes = b"v,w\n5,b\n5,a\n7,b\n-9223372036854775808,aa\n9223372036854775807,c\n";
    let table = table_of(alloc, bytes)?;
    let both = Test::Between(Operand::Param(1), Operand::Param(0));
    let cases = [
        ("at most 5", on(0, 0, Test::Le(Operand::Param(1))), 3),
        ("at least 5", on(0, 0, Test::Ge(Operand::Param(1))), 4),
        ("at most the greatest", on(0, 0, Test::Le(int(i64::MAX))), 5),
        ("below the least", on(0, 0, Test::Lt(int(i64::MIN))), 0),
        ("above 5", on(0, 0, Test::Gt(int(5))), 2),
        ("from 5 to 7", on(0, 0, both), 3),
        (
            "ends that cross",
            on(0, 0, Test::Between(int(7), int(5))),
            0,
        ),
        (
            "a value twice in an IN",
            on(0, 0, in_five_five_seven(alloc)?),
            3,
        ),
        (
            "a missing argument",
            on(0, 0, Test::Eq(Operand::Param(2))),
            0,
        ),
        ("a text above a", on(0, 1, Test::Gt(text(alloc, "a")?)), 4),
        (
            "a text equal to b",
            on(0, 1, Test::Eq(text(alloc, "b")?)),
            2,
        ),
        ("another kind", on(0, 1, Test::Eq(int(5))), 0),
    ];
    for (what, pred, want) in &cases {
        assert_eq!(rt; both_counts(alloc, &table, pred)?, (*want, *want), "{what}");
    }
    Ok(())
}

#[test]
fn distinct_counts_are_kept_with_a_table(rt: HostRuntime) -> Result<(), OutOfMemory> {
    let alloc = rt.alloc();
    let bytes = b"v,w\n5,b\n5,a\n7,b\n";
    let kept = Distincts::of(alloc, &*table_of(alloc, bytes)?)?;
    assert_eq!(rt; kept.as_slice(), [2, 2].as_slice());
    let none = Distincts::of(alloc, &*table_of(alloc, b"a,b:int\n")?)?;
    assert_eq!(rt; none.as_slice(), [0, 0].as_slice());
    Ok(())
}

/// The vector of a statement of one predicate over one table; no number where there is none.
fn vector_at(
    alloc: Global,
    tables: &[Rc<Table>],
    test: Test,
    args: &[Value],
) -> Result<Vector, OutOfMemory> {
    let preds = vec![in alloc; on(0, 0, test)]?;
    match statement_over(alloc, tables, preds, Vec::new(alloc))? {
        Some(q) => Ok(vector(&q, tables, &[], args)),
        None => Err(OutOfMemory),
    }
}

#[test]
fn a_vector_counts_each_end(rt: HostRuntime) -> Result<(), OutOfMemory> {
    let alloc = rt.alloc();
    let tables = tables_of(alloc, &[ENDS])?;
    let both = Test::Between(Operand::Param(0), Operand::Param(1));
    let cases = [
        ("at most 5", Test::Le(Operand::Param(0)), [5, 0], 3),
        ("at least 5", Test::Ge(Operand::Param(0)), [5, 0], 4),
        (
            "at most the greatest",
            Test::Le(Operand::Param(0)),
            [i64::MAX, 0],
            5,
        ),
        (
            "below the least",
            Test::Lt(Operand::Param(0)),
            [i64::MIN, 0],
            1,
        ),
        ("ends that cross", both, [7, 5], 1),
    ];
    for (what, test, [first, second], want) in cases {
        let args = [Value::Int(first), Value::Int(second)];
        let vector = vector_at(alloc, tables.as_slice(), test, &args)?;
        assert_eq!(rt; vector.as_slice(), [want].as_slice(), "{what}");
    }
    Ok(())
}
