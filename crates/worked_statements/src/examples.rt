//! The examples that documents and tests work by hand, with the weights that the program has by
//! default.
use crate::numbers::{Numbers, USUAL, Worked, with_numbers};
use crate::statements::{at, statement};
use row_values::{Operand, OutOfMemory, Pred, Test};
use std::alloc::Global;

/// `SELECT t.v FROM t WHERE t.v < ?` over a thousand rows with an index on v: a plan is used again
/// by selectivity.
pub fn reuse_by_selectivity(alloc: Global) -> Result<Option<Worked>, OutOfMemory> {
    let mut preds = Vec::new(alloc);
    preds.push(Pred {
        at: at(0, 0),
        test: Test::Lt(Operand::Param(0)),
    })?;
    let Some(query) = statement(alloc, &[("t", &["v", "w"])], preds, &[], &[], &[])? else {
        return Ok(None);
    };
    let numbers = Numbers {
        rows: &[1000],
        fixed: &[1000],
        matching: &[1],
        distinct: &[],
        fans: &[1, 1],
        masks: &[1],
        weights: USUAL,
    };
    with_numbers(alloc, query, numbers)
}

/// `SELECT t.v FROM t WHERE t.w < ? ORDER BY t.v` over a thousand rows with an index on v: many
/// rows are read in order, few are sorted.
pub fn interesting_order(alloc: Global) -> Result<Option<Worked>, OutOfMemory> {
    let mut preds = Vec::new(alloc);
    preds.push(Pred {
        at: at(0, 1),
        test: Test::Lt(Operand::Param(0)),
    })?;
    let tables = [("t", ["v", "w"].as_slice())];
    let Some(query) = statement(alloc, &tables, preds, &[], &[], &[at(0, 0)])? else {
        return Ok(None);
    };
    let numbers = Numbers {
        rows: &[1000],
        fixed: &[1000],
        matching: &[1],
        distinct: &[],
        fans: &[1, 1],
        masks: &[1],
        weights: USUAL,
    };
    with_numbers(alloc, query, numbers)
}

/// `SELECT a.x FROM a, b, c WHERE a.x = b.x AND a.y = c.y AND b.z = c.z` over 8, 1024 and 1024
/// rows, where c.y has 512 values, and b.z and c.y have an index: to join the smallest pair first
/// isn't least.
pub fn smallest_pair_first_is_not_least(alloc: Global) -> Result<Option<Worked>, OutOfMemory> {
    let tables = [
        ("a", ["x", "y"].as_slice()),
        ("b", ["x", "z"].as_slice()),
        ("c", ["y", "z"].as_slice()),
    ];
    let equal = [
        (at(0, 0), at(1, 0)),
        (at(0, 1), at(2, 0)),
        (at(1, 1), at(2, 1)),
    ];
    let Some(query) = statement(alloc, &tables, Vec::new(alloc), &equal, &[], &[])? else {
        return Ok(None);
    };
    let numbers = Numbers {
        rows: &[8, 1024, 1024],
        fixed: &[8, 1024, 1024],
        matching: &[],
        distinct: &[1024, 512, 1024],
        fans: &[1, 1, 1, 1, 2, 1],
        masks: &[0, 2, 1],
        weights: USUAL,
    };
    with_numbers(alloc, query, numbers)
}

/// `SELECT l.k FROM l, r WHERE l.k = r.k` over three rows each, where l.k and r.k have two values:
/// join keys stand more than once.
pub fn duplicate_join_keys(alloc: Global) -> Result<Option<Worked>, OutOfMemory> {
    let tables = [("l", ["k"].as_slice()), ("r", ["k", "n"].as_slice())];
    let equal = [(at(0, 0), at(1, 0))];
    let Some(query) = statement(alloc, &tables, Vec::new(alloc), &equal, &[], &[])? else {
        return Ok(None);
    };
    let numbers = Numbers {
        rows: &[3, 3],
        fixed: &[3, 3],
        matching: &[],
        distinct: &[2],
        fans: &[2, 2, 1],
        masks: &[0, 0],
        weights: USUAL,
    };
    with_numbers(alloc, query, numbers)
}

/// `SELECT a.x FROM a, b, c, d WHERE a.x = b.x AND b.m = c.m AND c.y = d.y` over a hundred rows
/// each, where b.m and c.m have one value: a join of two pairs beats one place after the other.
pub fn bushy_beats_left_deep(alloc: Global) -> Result<Option<Worked>, OutOfMemory> {
    let tables = [
        ("a", ["x"].as_slice()),
        ("b", ["x", "m"].as_slice()),
        ("c", ["m", "y"].as_slice()),
        ("d", ["y"].as_slice()),
    ];
    let equal = [
        (at(0, 0), at(1, 0)),
        (at(1, 1), at(2, 0)),
        (at(2, 1), at(3, 0)),
    ];
    let Some(query) = statement(alloc, &tables, Vec::new(alloc), &equal, &[], &[])? else {
        return Ok(None);
    };
    let rows = [100, 100, 100, 100];
    let numbers = Numbers {
        rows: &rows,
        fixed: &rows,
        matching: &[],
        distinct: &[100, 1, 100],
        fans: &[1, 1, 100, 100, 1, 1],
        masks: &[0, 0, 0, 0],
        weights: USUAL,
    };
    with_numbers(alloc, query, numbers)
}

/// `SELECT c.id FROM c, o WHERE c.id = o.customer AND o.total > ?` over 100 customers and 1000
/// orders, with an index on c.id: with 50 orders the hash join is cheaper, with 5 the index join.
pub fn orders_above(alloc: Global) -> Result<Option<Worked>, OutOfMemory> {
    let mut preds = Vec::new(alloc);
    preds.push(Pred {
        at: at(1, 1),
        test: Test::Gt(Operand::Param(0)),
    })?;
    let tables = [
        ("c", ["id", "name"].as_slice()),
        ("o", ["customer", "total"].as_slice()),
    ];
    let equal = [(at(0, 0), at(1, 0))];
    let Some(query) = statement(alloc, &tables, preds, &equal, &[], &[])? else {
        return Ok(None);
    };
    let numbers = Numbers {
        rows: &[100, 1000],
        fixed: &[100, 1000],
        matching: &[1],
        distinct: &[100],
        fans: &[1, 1, 10, 2],
        masks: &[1, 0],
        weights: USUAL,
    };
    with_numbers(alloc, query, numbers)
}
