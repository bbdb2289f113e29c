//! Each call once: a table in two versions, its indexes, a statement over it, its instances, its cursors, and what is
//! refused.
ghost use Rattle.std.specs.Prelude.{◌≡◌, ◌≤◌, ◌<◌, ◌+◌};

use super::*;
use plan_trees::Weights;
use row_values::Words;
use sql_parser::parse;
use std::alloc::Global;
use std::test::Fail;

/// A store in which each kind of work weighs 1.
fn empty_store(alloc: Global) -> Store
    ensures { result.catalog.versions ≡ 0 }
{
    Store::new(
        alloc,
        Weights {
            row: 1,
            fetch: 1,
            probe: 1,
            hash: 1,
            sort: 1,
            out: 1,
        },
    )
}

/// Whether a load of a file of this text as table `t` answers these rows.
fn loads(alloc: Global, store: &mut Store, text: &str, want: u32) -> Result<bool, Fail>
    requires { store.old.catalog.versions < 1000 }
    ensures { store.new.catalog.versions ≤ store.old.catalog.versions + 1 }
{
    let name = Words::of(alloc, "t")?;
    match store.load(&name, text.as_bytes()) {
        Ok((rows, _)) => Ok(rows == want),
        Err(_) => Ok(false),
    }
}

/// Whether a load of a file of this text as table `t` is refused by this number.
fn refuses(alloc: Global, store: &mut Store, text: &str, want: u8) -> Result<bool, Fail>
    requires { store.old.catalog.versions < 1000 }
    ensures { store.new.catalog.versions ≤ store.old.catalog.versions + 1 }
{
    let name = Words::of(alloc, "t")?;
    match store.load(&name, text.as_bytes()) {
        Err(StoreFault::Refused(why)) => Ok(why.code == want),
        _ => Ok(false),
    }
}

/// Whether a preparation of this statement as `q` gives this number.
fn prepares(alloc: Global, store: &mut Store, text: &str, want: u32) -> Result<bool, Fail>
    ensures { store.new.catalog.versions ≤ store.old.catalog.versions }
{
    let name = Words::of(alloc, "q")?;
    let select = parse(alloc, text).ok().ok_or("no statement")?;
    match store.prepare(&name, &select) {
        Ok(number) => Ok(number == want),
        Err(_) => Ok(false),
    }
}

/// Whether the statement `q` has so many places, reads `t` and not `q`, and its tables have so many rows each.
fn tells(alloc: Global, store: &Store, places: usize, rows: usize) -> Result<bool, Fail> {
    let q = Words::of(alloc, "q")?;
    let t = Words::of(alloc, "t")?;
    let Some(statement) = store.find(&q) else {
        return Ok(false);
    };
    let told = store.query(statement).places().len() == places
        && store.reads(statement, &t)
        && !store.reads(statement, &q);
    let tables = store.tables_of(statement)?;
    Ok(told && tables.len() == places && tables.iter().all(|table| table.len() == rows))
}

#[test]
fn versions(rt: HostRuntime) -> Result<(), Fail> {
    let mut store = empty_store(rt.alloc());
    assert!(rt;
        loads(rt.alloc(), &mut store, "v\n1\n5\n12\n", 3)?,
        "the first"
    );
    assert!(rt;
        refuses(rt.alloc(), &mut store, "w\n1\n", 16)?,
        "another column"
    );
    assert!(rt;
        loads(rt.alloc(), &mut store, "v:int\n7\n", 1)?,
        "the second"
    );
    assert_eq!(rt; store.versions(), 2);
    Ok(())
}

#[test]
fn a_statement_of_two_places(rt: HostRuntime) -> Result<(), Fail> {
    let mut store = empty_store(rt.alloc());
    assert!(rt;
        loads(rt.alloc(), &mut store, "v\n1\n5\n12\n", 3)?,
        "its table"
    );
    let prepared = prepares(rt.alloc(), &mut store, "SELECT b.v FROM t a, t b", 0)?;
    assert!(rt; prepared, "it is the first");
    assert!(rt; tells(rt.alloc(), &store, 2, 3)?, "what is told of it");
    Ok(())
}

/// The number of the refusal of an index over this column of this table; 0 where it isn't refused.
fn index_refusal(alloc: Global, store: &mut Store, table: &str, column: &str) -> Result<u8, Fail>
    ensures { store.new.catalog.versions ≤ store.old.catalog.versions }
{
    let table = Words::of(alloc, table)?;
    let column = Words::of(alloc, column)?;
    match store.add_index(&table, &column) {
        Ok(()) => Ok(0),
        Err(StoreFault::Refused(why)) => Ok(why.code),
        Err(StoreFault::Memory) => Err(Fail::from("memory")),
    }
}

#[test]
fn indexes_are_refused(rt: HostRuntime) -> Result<(), Fail> {
    let mut store = empty_store(rt.alloc());
    assert!(rt; loads(rt.alloc(), &mut store, "v\n5\n1\n", 2)?, "its table");
    let table = index_refusal(rt.alloc(), &mut store, "s", "v")?;
    assert_eq!(rt; table, 2, "no such table");
    let column = index_refusal(rt.alloc(), &mut store, "t", "w")?;
    assert_eq!(rt; column, 3, "no such column");
    let none = index_refusal(rt.alloc(), &mut store, "t", "v")?;
    assert_eq!(rt; none, 0, "a column");
    Ok(())
}

/// Whether a cursor of this name may be opened; where it may, it is opened over the statement `q`.
fn opens(alloc: Global, store: &mut Store, cursor: &Words) -> Result<bool, Fail> {
    let q = Words::of(alloc, "q")?;
    let Some(statement) = store.find(&q) else {
        return Ok(false);
    };
    match store.may_hold(cursor) {
        Ok(()) => {
            store.hold_cursor(cursor, statement)?;
            Ok(true)
        }
        Err(StoreFault::Refused(_)) => Ok(false),
        Err(StoreFault::Memory) => Err(Fail::from("memory")),
    }
}

#[test]
fn cursors_by_name(rt: HostRuntime) -> Result<(), Fail> {
    let mut store = empty_store(rt.alloc());
    let first = Words::of(rt.alloc(), "c")?;
    let second = Words::of(rt.alloc(), "d")?;
    assert!(rt; loads(rt.alloc(), &mut store, "v\n5\n1\n", 2)?, "its table");
    let prepared = prepares(rt.alloc(), &mut store, "SELECT b.v FROM t a, t b", 0)?;
    assert!(rt; prepared, "its statement");
    assert!(rt; opens(rt.alloc(), &mut store, &first)?, "the first");
    assert!(rt; opens(rt.alloc(), &mut store, &second)?, "the second");
    assert!(rt;
        !opens(rt.alloc(), &mut store, &first)?,
        "its name is taken"
    );
    assert!(rt; store.cursor_number(&second) == Some(1), "behind the first");
    assert!(rt; store.close_cursor(&first), "it is closed");
    assert!(rt; !store.close_cursor(&first), "it is closed already");
    assert!(rt; store.cursor_number(&second) == Some(0), "the first now");
    Ok(())
}
