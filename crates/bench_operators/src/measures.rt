//! What is measured, each as often as asked for.
use crate::texts::{customers, groups, items, numbers, orders, two_groups};
use csv_tables::read_table;
use std::alloc::Global;
use table_index::Index;
use worked_tables::{WorkedFault, WorkedStatement, WorkedTables};

/// The rows of the large tables.
const MILLION: u64 = 1000000;

/// The combinations that a plan gives, so many times.
fn runs(alloc: Global, s: &WorkedStatement, plan: &str, rounds: u64) -> Result<u64, WorkedFault> {
    let mut sum: u64 = 0;
    for _ in 0..rounds {
        sum = sum.wrapping_add(s.run(alloc, plan)?.len() as u64);
    }
    Ok(sum)
}

/// The same one at a time, by pulling the plan.
fn pulls(alloc: Global, s: &WorkedStatement, plan: &str, rounds: u64) -> Result<u64, WorkedFault> {
    let mut sum: u64 = 0;
    for _ in 0..rounds {
        let mut pull = s.pull(alloc, plan)?;
        for _ in 0..u32::MAX {
            if pull.next()?.is_none() {
                break;
            }
            sum = sum.wrapping_add(1);
        }
    }
    Ok(sum)
}

/// The numbers of a statement's vector, so many times.
fn vectors(s: &WorkedStatement, rounds: u64) -> u64 {
    let mut sum: u64 = 0;
    for _ in 0..rounds {
        for number in s.vector().as_slice() {
            sum = sum.wrapping_add(*number);
        }
    }
    sum
}

/// Customers with their orders and items.
fn customers_orders_items(alloc: Global) -> Result<WorkedStatement, WorkedFault> {
    let (customers, orders, items) = (customers(alloc)?, orders(alloc)?, items(alloc)?);
    let texts = [
        ("customers", customers.as_str()),
        ("orders", orders.as_str()),
        ("items", items.as_str()),
    ];
    WorkedTables::read(alloc, &texts)?.of(
        alloc,
        "SELECT c.id FROM customers c, orders o, items i WHERE c.id = o.cid AND o.id = i.oid AND o.day BETWEEN ? AND ? AND i.ship BETWEEN ? AND ?",
        "",
        &[0, 999, 0, 999],
    )
}

/// The plan of the three tables: the customers, then their orders, then the items of these.
const TWO_HASH_JOINS: &str = "rows(hash(hash(seq(c),seq(o),1),seq(i),2))";

/// Half a million rows beside themselves by their keys, gathered into two groups.
fn beside_itself(alloc: Global) -> Result<WorkedStatement, WorkedFault> {
    let text = two_groups(alloc)?;
    WorkedTables::read(alloc, &[("t", text.as_str())])?.of(
        alloc,
        "SELECT a.g, COUNT(*) FROM t a, t b WHERE a.k = b.k GROUP BY a.g",
        "b.k",
        &[],
    )
}

/// The plan of a table beside itself by a hash join.
const BY_HASH: &str = "hash_groups(hash(seq(a),seq(b),1))";

/// The same by the index of the second one.
const BY_PROBE: &str = "hash_groups(probe(seq(a),b,1))";

/// The result rows of a plan, pulled or from the list of its combinations, so many times.
fn shaped(alloc: Global, is_pulled: bool, plan: &str, rounds: u64) -> Result<u64, WorkedFault> {
    let s = beside_itself(alloc)?;
    let mut sum: u64 = 0;
    for _ in 0..rounds {
        let rows = if is_pulled {
            s.pulled_rows(alloc, plan)?
        } else {
            s.rows(alloc, s.run(alloc, plan)?)?
        };
        sum = sum.wrapping_add(rows.len() as u64);
    }
    Ok(sum)
}

/// A statement of three predicates over so many rows, with indexes over these columns.
fn three_predicates(
    alloc: Global,
    rows: u64,
    indexed: &str,
) -> Result<WorkedStatement, WorkedFault> {
    let text = numbers(alloc, rows)?;
    WorkedTables::read(alloc, &[("t", text.as_str())])?.of(
        alloc,
        "SELECT a FROM t WHERE a < ? AND b BETWEEN ? AND ? AND c >= ?",
        indexed,
        &[800000, 100000, 900000, 250000],
    )
}

/// An index over a million numbers in no order.
fn index(alloc: Global, rounds: u64) -> Result<u64, WorkedFault> {
    let text = numbers(alloc, MILLION)?;
    let table = read_table(alloc, text.as_bytes())?;
    let mut sum: u64 = 0;
    for _ in 0..rounds {
        if table.schema().columns().len() > 1 {
            let index = Index::build(alloc, &table, 1)?;
            sum = sum.wrapping_add(u64::from(index.rows().get(1).copied().unwrap_or(0)));
        }
    }
    Ok(sum)
}

/// A load of a million rows of three numbers.
fn load(alloc: Global, rounds: u64) -> Result<u64, WorkedFault> {
    let text = numbers(alloc, MILLION)?;
    let mut sum: u64 = 0;
    for _ in 0..rounds {
        sum = sum.wrapping_add(read_table(alloc, text.as_bytes())?.len() as u64);
    }
    Ok(sum)
}

/// All rows of a million in the shape of this statement; with no statement, the combinations alone.
fn shape(alloc: Global, sql: Option<&str>, rounds: u64) -> Result<u64, WorkedFault> {
    let text = groups(alloc)?;
    let tables = WorkedTables::read(alloc, &[("t", text.as_str())])?;
    let all = tables.of(alloc, "SELECT v FROM t", "", &[])?;
    let Some(sql) = sql else {
        return runs(alloc, &all, "rows(seq(t))", rounds);
    };
    let s = tables.of(alloc, sql, "", &[])?;
    let mut sum: u64 = 0;
    for _ in 0..rounds {
        let combos = all.run(alloc, "rows(seq(t))")?;
        sum = sum.wrapping_add(s.rows(alloc, combos)?.len() as u64);
    }
    Ok(sum)
}

/// What the word asks for; none where it asks for nothing.
pub fn measured(alloc: Global, what: &str, rounds: u64) -> Result<Option<u64>, WorkedFault> {
    let sum = match what {
        "join" => runs(
            alloc,
            &customers_orders_items(alloc)?,
            TWO_HASH_JOINS,
            rounds,
        )?,
        "pull" => pulls(
            alloc,
            &customers_orders_items(alloc)?,
            TWO_HASH_JOINS,
            rounds,
        )?,
        "hash_groups" => shaped(alloc, false, BY_HASH, rounds)?,
        "pull_hash_groups" => shaped(alloc, true, BY_HASH, rounds)?,
        "probe_groups" => shaped(alloc, false, BY_PROBE, rounds)?,
        "pull_probe_groups" => shaped(alloc, true, BY_PROBE, rounds)?,
        "vector" => vectors(&three_predicates(alloc, 60000, "")?, rounds),
        "vector_by_index" => vectors(&three_predicates(alloc, 60000, "t.a t.b t.c")?, rounds),
        "index" => index(alloc, rounds)?,
        "load" => load(alloc, rounds)?,
        "scan" => {
            let s = three_predicates(alloc, MILLION, "")?;
            runs(alloc, &s, "rows(seq(t))", rounds)?
        }
        "count" => vectors(&three_predicates(alloc, MILLION, "")?, rounds),
        "all" => shape(alloc, None, rounds)?,
        "few_groups" => {
            let sql = "SELECT g, COUNT(*), SUM(v) FROM t GROUP BY g";
            shape(alloc, Some(sql), rounds)?
        }
        "many_groups" => {
            let sql = "SELECT h, COUNT(*), SUM(v) FROM t GROUP BY h";
            shape(alloc, Some(sql), rounds)?
        }
        "sort" => shape(alloc, Some("SELECT v FROM t ORDER BY g, v DESC"), rounds)?,
        _ => return Ok(None),
    };
    Ok(Some(sum))
}
