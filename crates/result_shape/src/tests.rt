//! Result rows worked out by hand, of combinations in whatever order they come.
ghost use Rattle.std.specs.Prelude.{◌<◌};

use crate::{Pushed, Rows, RowsFault, Shaper, finish, row_text};
use csv_tables::{Table, read_table};
use plan_operators::{Combo, Combos};
use row_values::{ColRef, Item, OrderKey, OutOfMemory, Place, Query, Words};
use std::alloc::Global;
use std::rc::Rc;
use std::test::Fail;

fn at(place: u8, column: u8) -> ColRef {
    ColRef { place, column }
}

fn up(place: u8, column: u8) -> OrderKey {
    OrderKey {
        at: at(place, column),
        descending: false,
    }
}

fn down(place: u8, column: u8) -> OrderKey {
    OrderKey {
        at: at(place, column),
        descending: true,
    }
}

/// The tables of these CSV texts.
fn tables_of(alloc: Global, texts: &[&str]) -> Result<Vec<Rc<Table>>, OutOfMemory> {
    let mut tables = Vec::new(alloc);
    for text in texts {
        let Ok(table) = read_table(alloc, text.as_bytes()) else {
            return Err(OutOfMemory);
        };
        tables.push(Rc::new(alloc, table)?)?;
    }
    Ok(tables)
}

/// The statement over these tables, without a condition.
fn statement_of(
    alloc: Global,
    tables: &[Rc<Table>],
    items: &[Item],
    groups: &[ColRef],
    order: &[OrderKey],
) -> Result<Query, OutOfMemory> {
    let aliases = ["a", "b", "c", "d", "e"];
    let mut places = Vec::new(alloc);
    for (table, alias) in tables.iter().zip(aliases.iter()) {
        places.push(Place {
            table: Words::of(alloc, alias)?,
            alias: Words::of(alloc, alias)?,
            schema: table.schema().copy(alloc)?,
        })?;
    }
    let (items, groups, order) = (
        items.to_vec(alloc)?,
        groups.to_vec(alloc)?,
        order.to_vec(alloc)?,
    );
    let (preds, edges) = (Vec::new(alloc), Vec::new(alloc));
    Query::make(places, preds, edges, items, groups, order).ok_or(OutOfMemory)
}

/// The lines of the rows of these combinations, joined by `; `.
fn lines_of(
    alloc: Global,
    q: &Query,
    tables: &[Rc<Table>],
    combos: &[&[u32]],
) -> Result<String, OutOfMemory> {
    let mut list = Combos::new(alloc);
    for rows in combos {
        let Some(combo) = Combo::of(rows) else {
            return Err(OutOfMemory);
        };
        list.push(combo)?;
    }
    match finish(alloc, q, tables, list) {
        Ok(rows) => text_of(alloc, q, &rows),
        Err(_) => Err(OutOfMemory),
    }
}

/// The lines of all rows, joined by `; `.
fn text_of(alloc: Global, q: &Query, rows: &Rows) -> Result<String, OutOfMemory> {
    let mut text = String::new(alloc);
    for i in 0..rows.len() {
        if i != 0 {
            text.push_str("; ")?;
        }
        let line = row_text(alloc, q, rows, i)?;
        text.push_str(line.as_str())?;
    }
    Ok(text)
}

#[test]
fn duplicate_join_keys(rt: HostRuntime) -> Result<(), Fail> {
    let alloc = rt.alloc();
    let tables = tables_of(alloc, &["k\n1\n1\n2\n", "k,n\n1,10\n1,20\n3,30\n"])?;
    let items = [Item::Column(at(0, 0)), Item::Column(at(1, 1))];
    let combos: [&[u32]; 4] = [&[1, 1], &[0, 1], &[1, 0], &[0, 0]];
    let cases: [(&str, &[OrderKey], &str); 4] = [
        (
            "in the order of FROM",
            &[],
            "row 1,10; row 1,20; row 1,10; row 1,20",
        ),
        (
            "by a key, ties in the order of FROM",
            &[up(1, 1)],
            "row 1,10; row 1,10; row 1,20; row 1,20",
        ),
        (
            "the greatest first",
            &[down(1, 1)],
            "row 1,20; row 1,20; row 1,10; row 1,10",
        ),
        (
            "a key that ties, and then another",
            &[up(0, 0), down(1, 1)],
            "row 1,20; row 1,20; row 1,10; row 1,10",
        ),
    ];
    for (what, order, want) in cases {
        let q = statement_of(alloc, &tables, &items, &[], order)?;
        let lines = lines_of(alloc, &q, &tables, &combos)?;
        assert_eq!(rt; lines.as_str(), want, "{what}");
    }
    Ok(())
}

#[test]
fn groups_of_two_columns(rt: HostRuntime) -> Result<(), Fail> {
    let alloc = rt.alloc();
    let text =
        "g,h,n,s\n2,x,5,pear\n1,y,9223372036854775807,fig\n2,w,-3,\"say \"\"a\\b\"\"\"\n1,y,9223372036854775807,apple\n2,x,-7,\"\"\n1,y,4,fig\n";
    let tables = tables_of(alloc, &[text])?;
    let items = [
        Item::Column(at(0, 1)),
        Item::CountAll,
        Item::Sum(at(0, 2)),
        Item::Min(at(0, 3)),
        Item::Max(at(0, 3)),
        Item::Min(at(0, 2)),
        Item::Max(at(0, 2)),
    ];
    let groups = [at(0, 0), at(0, 1)];
    let one_y = "row \"y\",3,18446744073709551618,\"apple\",\"fig\",4,9223372036854775807";
    let two_w = "row \"w\",1,-3,\"say \\\"a\\\\b\\\"\",\"say \\\"a\\\\b\\\"\",-3,-3";
    let two_x = "row \"x\",2,-2,\"\",\"pear\",-7,5";
    let combos: [&[u32]; 6] = [&[0], &[1], &[2], &[3], &[4], &[5]];
    let backwards: [&[u32]; 6] = [&[5], &[4], &[3], &[2], &[1], &[0]];
    let by_values = format!(in alloc; "{one_y}; {two_w}; {two_x}")?;
    let by_second = format!(in alloc; "{one_y}; {two_x}; {two_w}")?;
    let cases: [(&str, &[OrderKey], &str); 3] = [
        ("by the GROUP BY values", &[], by_values.as_str()),
        ("by a key", &[down(0, 1)], by_second.as_str()),
        (
            "by a key that ties, then by the values",
            &[up(0, 0)],
            by_values.as_str(),
        ),
    ];
    for (what, order, want) in cases {
        let q = statement_of(alloc, &tables, &items, &groups, order)?;
        let lines = lines_of(alloc, &q, &tables, &combos)?;
        assert_eq!(rt; lines.as_str(), want, "{what}");
        let lines = lines_of(alloc, &q, &tables, &backwards)?;
        assert_eq!(rt; lines.as_str(), want, "{what}, from the last one on");
    }
    Ok(())
}

#[test]
fn one_at_a_time(rt: HostRuntime) -> Result<(), Fail> {
    let alloc = rt.alloc();
    let tables = tables_of(alloc, &["v\n1\n2\n3\n"])?;
    let q = statement_of(alloc, &tables, &[Item::Column(at(0, 0))], &[], &[])?;
    let shaper = Shaper::begin(alloc, &q, &tables)?;
    match shaper.end(&q) {
        Ok(rows) => assert_eq!(rt; rows.len(), 0, "nothing pushed"),
        Err(fault) => assert_eq!(rt; fault, RowsFault::Memory, "nothing pushed"),
    }
    let mut shaper = Shaper::begin(alloc, &q, &tables)?;
    let pushed = shaper.push(&q, &Combo::zeros(1))?;
    assert_eq!(rt; pushed, Pushed::More, "one pushed");
    match shaper.end(&q) {
        Ok(rows) => {
            let lines = text_of(alloc, &q, &rows)?;
            assert_eq!(rt; lines.as_str(), "row 1", "one pushed");
        }
        Err(fault) => assert_eq!(rt; fault, RowsFault::Memory, "one pushed"),
    }
    Ok(())
}

#[test]
fn a_million_rows_and_one_more(rt: HostRuntime) -> Result<(), Fail> {
    let alloc = rt.alloc();
    let tables = tables_of(alloc, &["v\n1\n"])?;
    let q = statement_of(alloc, &tables, &[Item::Column(at(0, 0))], &[], &[])?;
    for count in [1_000_000, 1_000_001] {
        let mut list = Combos::new(alloc);
        for _ in 0..count {
            list.push(Combo::zeros(1))?;
        }
        match finish(alloc, &q, &tables, list) {
            Ok(rows) => assert_eq!(rt;
                (count, rows.len()),
                (1_000_000, 1_000_000),
                "as many as may be"
            ),
            Err(fault) => {
                assert_eq!(rt;
                    (count, fault),
                    (1_000_001, RowsFault::TooManyRows),
                    "one more"
                )
            }
        }
    }
    Ok(())
}

/// The next of numbers in no order, below 2,147,483,647.
fn next(number: u64) -> u64 {
    number.wrapping_mul(48_271) % 2_147_483_647
}

#[test]
fn many_groups_against_plain_counts(rt: HostRuntime) -> Result<(), Fail> {
    let alloc = rt.alloc();
    let mut text = String::new(alloc);
    text.push_str("g,n\n")?;
    let (mut counts, mut sums) = ([0_i64; 600], [0_i64; 600]);
    let mut seed = 1;
    let mut list = Combos::new(alloc);
    for row in 0..2_000 {
        seed = next(seed);
        let group = (seed % 600) as usize;
        seed = next(seed);
        let number = (seed % 1_000) as i64 - 500;
        write!(text, "{group},{number}\n")?;
        counts[group] = counts[group].wrapping_add(1);
        sums[group] = sums[group].wrapping_add(number);
        let Some(combo) = Combo::of(&[row]) else {
            return Err(OutOfMemory.into());
        };
        list.push(combo)?;
    }
    let mut want = String::new(alloc);
    for group in 0..600 {
        if counts[group] > 0 {
            let (count, sum) = (counts[group], sums[group]);
            if !want.is_empty() {
                want.push_str("; ")?;
            }
            write!(want, "row {group},{count},{sum}")?;
        }
    }
    let tables = tables_of(alloc, &[text.as_str()])?;
    let items = [Item::Column(at(0, 0)), Item::CountAll, Item::Sum(at(0, 1))];
    let q = statement_of(alloc, &tables, &items, &[at(0, 0)], &[])?;
    match finish(alloc, &q, &tables, list) {
        Ok(rows) => {
            let lines = text_of(alloc, &q, &rows)?;
            assert_eq!(rt; lines.as_str(), want.as_str(), "a row for each group");
        }
        Err(fault) => assert_eq!(rt; fault, RowsFault::Memory, "a row for each group"),
    }
    Ok(())
}
