//! The examples that documents work by hand, over tables that are too large for a text here.
use super::examples::give_rows;
use super::gives;
use crate::{WorkedFault, WorkedTables};
use row_values::OutOfMemory;
use std::alloc::Global;
use std::test::Fail;

/// A column of the numbers from 1 on.
fn numbers_to(alloc: Global, column: &str, last: u32) -> Result<String, OutOfMemory> {
    let mut text = format!(in alloc; "{column}\n")?;
    for k in 0..last {
        text.push_str(&format!(in alloc; "{}\n", u64::from(k) + 1)?)?;
    }
    Ok(text)
}

/// Two columns with the same numbers from 1 on.
fn twice_numbers_to(alloc: Global, columns: &str, last: u32) -> Result<String, OutOfMemory> {
    let mut text = format!(in alloc; "{columns}\n")?;
    for k in 0..last {
        let number = u64::from(k) + 1;
        text.push_str(&format!(in alloc; "{number},{number}\n")?)?;
    }
    Ok(text)
}

/// The numbers from 1 to 512 twice, and beside them those from 1 to 1024.
fn in_two_halves(alloc: Global) -> Result<String, OutOfMemory> {
    let mut text = String::from_str(alloc, "y,z\n")?;
    for k in 0..1024u32 {
        text.push_str(&format!(in alloc; "{},{}\n", k % 512 + 1, k + 1)?)?;
    }
    Ok(text)
}

const SMALLEST_PAIR: &str = "\
by the index on c.y, then by that on b.z
SELECT a.x FROM a, b, c WHERE a.x = b.x AND a.y = c.y AND b.z = c.z
c.y b.z


row 1; row 2; row 3; row 4; row 5; row 6; row 7; row 8
rows(probe(probe(seq(a),c,2),b,3))
rows(loop(loop(seq(a),seq(b)),seq(c)))";

#[test]
fn smallest_pair_first_is_not_least(rt: HostRuntime) -> Result<(), Fail> {
    let alloc = rt.alloc();
    let (a, b) = (
        twice_numbers_to(alloc, "x,y", 8)?,
        twice_numbers_to(alloc, "x,z", 1024)?,
    );
    let c = in_two_halves(alloc)?;
    let texts = [("a", a.as_str()), ("b", b.as_str()), ("c", c.as_str())];
    give_rows(&rt, alloc, &texts, SMALLEST_PAIR)
}

/// Customers 1 to 1,500, each in one of five regions.
fn customers(alloc: Global) -> Result<String, OutOfMemory> {
    let mut text = String::from_str(alloc, "id,region\n")?;
    for k in 1..1501u64 {
        text.push_str(&format!(in alloc; "{k},r{}\n", k % 5)?)?;
    }
    Ok(text)
}

/// Orders 1 to 15,000, ten for each customer.
fn orders(alloc: Global) -> Result<String, OutOfMemory> {
    let mut text = String::from_str(alloc, "id,cid,day\n")?;
    for k in 1..15001u64 {
        text.push_str(&format!(in alloc; "{k},{},{}\n", 7 * k % 1500 + 1, k % 1000)?)?;
    }
    Ok(text)
}

/// 60,000 items, four for each order.
fn items(alloc: Global) -> Result<String, OutOfMemory> {
    let mut text = String::from_str(alloc, "oid,qty,ship\n")?;
    for k in 0..60000u64 {
        let number = k + 1;
        text.push_str(&format!(in alloc;
            "{},{},{}\n",
            k / 4 + 1,
            number % 10 + 1,
            number % 1000
        )?)?;
    }
    Ok(text)
}

const REGIONS: &str = "\
what the regions ordered
SELECT c.region, COUNT(*), SUM(i.qty) FROM customers c JOIN orders o ON c.id = o.cid JOIN items i ON o.id = i.oid WHERE o.day BETWEEN ? AND ? AND i.ship BETWEEN ? AND ? GROUP BY c.region ORDER BY c.region
o.day o.id i.oid
0 999 0 999
15000 60000
row \"r0\",12000,90000; row \"r1\",12000,84000; row \"r2\",12000,48000; row \"r3\",12000,42000; row \"r4\",12000,66000
hash_groups(hash(hash(seq(c),seq(o),1),seq(i),2))
hash_groups(hash(seq(c),probe(range(o.day,1),i,2),1))
hash_groups(hash(hash(seq(i),full(o.id),2),seq(c),1))
sorted_groups(hash(sort(seq(c)),hash(seq(i),seq(o),2),1))";

#[test]
fn customers_orders_items(rt: HostRuntime) -> Result<(), Fail> {
    let alloc = rt.alloc();
    let (customers, orders, items) = (customers(alloc)?, orders(alloc)?, items(alloc)?);
    let texts = [
        ("customers", customers.as_str()),
        ("orders", orders.as_str()),
        ("items", items.as_str()),
    ];
    give_rows(&rt, alloc, &texts, REGIONS)
}

/// Two columns of which one has the numbers from 1 to 100, and the other 1 alone.
fn beside_ones(alloc: Global, is_first: bool) -> Result<String, OutOfMemory> {
    let mut text = String::from_str(alloc, if is_first { "x,m\n" } else { "m,y\n" })?;
    for k in 1..101u32 {
        if is_first {
            text.push_str(&format!(in alloc; "{k},1\n")?)?;
        } else {
            text.push_str(&format!(in alloc; "1,{k}\n")?)?;
        }
    }
    Ok(text)
}

/// Each of a hundred pairs beside each of a hundred.
fn all_pairs(alloc: Global) -> Result<String, OutOfMemory> {
    let mut text = String::new(alloc);
    for left in 0..100u32 {
        for right in 0..100u32 {
            let mark = if text.is_empty() { "" } else { "; " };
            text.push_str(&format!(in alloc; "{mark}{left},{left},{right},{right}")?)?;
        }
    }
    Ok(text)
}

#[test]
fn bushy_beats_left_deep(rt: HostRuntime) -> Result<(), Fail> {
    let alloc = rt.alloc();
    let (a, d) = (numbers_to(alloc, "x", 100)?, numbers_to(alloc, "y", 100)?);
    let (b, c) = (beside_ones(alloc, true)?, beside_ones(alloc, false)?);
    let texts = [
        ("a", a.as_str()),
        ("b", b.as_str()),
        ("c", c.as_str()),
        ("d", d.as_str()),
    ];
    let sql = "SELECT a.x FROM a, b, c, d WHERE a.x = b.x AND b.m = c.m AND c.y = d.y";
    let s = WorkedTables::read(alloc, &texts)?.of(alloc, sql, "", &[])?;
    let want = all_pairs(alloc)?;
    let plan = "rows(hash(hash(seq(a),seq(b),1),hash(seq(c),seq(d),3),2))";
    gives(&rt, alloc, &s, plan, false, want.as_str(), "two pairs")
}

#[test]
fn wide_statement(rt: HostRuntime) -> Result<(), Fail> {
    let alloc = rt.alloc();
    let text = numbers_to(alloc, "v", 40000)?;
    let tables = WorkedTables::read(alloc, &[("t", text.as_str())])?;
    let five = tables.of(alloc, "SELECT a.v FROM t a, t b, t c, t d, t e", "", &[]);
    assert_eq!(rt; five.err(), Some(WorkedFault::Wide(4)), "the fifth place");
    let four = tables.of(alloc, "SELECT a.v FROM t a, t b, t c, t d", "", &[]);
    assert_eq!(rt; four.err(), None, "four places");
    Ok(())
}

/// How many result rows a table of so many rows has beside itself.
fn rows_beside_itself(alloc: Global, rows: u32) -> Result<usize, WorkedFault> {
    let text = numbers_to(alloc, "v", rows)?;
    let tables = WorkedTables::read(alloc, &[("t", text.as_str())])?;
    let s = tables.of(alloc, "SELECT a.v FROM t a, t b", "", &[])?;
    let combos = s.run(alloc, "rows(loop(seq(a),seq(b)))")?;
    Ok(s.rows(alloc, combos)?.len())
}

#[test]
fn too_many_rows(rt: HostRuntime) -> Result<(), Fail> {
    let alloc = rt.alloc();
    assert_eq!(rt; rows_beside_itself(alloc, 1000), Ok(1000000));
    assert_eq!(rt;
        rows_beside_itself(alloc, 1001),
        Err(WorkedFault::TooManyRows)
    );
    Ok(())
}

#[test]
fn a_pull_is_given_up(rt: HostRuntime) -> Result<(), Fail> {
    let alloc = rt.alloc();
    let text = numbers_to(alloc, "v", 100000)?;
    let tables = WorkedTables::read(alloc, &[("t", text.as_str())])?;
    let s = tables.of(alloc, "SELECT a.v FROM t a, t b", "", &[])?;
    let plan = "rows(loop(seq(a),seq(b)))";
    let combos = s.pulled(alloc, plan, 1000001)?;
    assert_eq!(rt; combos.len(), 1000001);
    let fault = s.pulled_rows(alloc, plan).err();
    assert_eq!(rt; fault, Some(WorkedFault::TooManyRows));
    Ok(())
}

/// Half a million rows, numbered from 1, in two groups.
fn in_two_groups(alloc: Global) -> Result<String, OutOfMemory> {
    let mut text = String::from_str(alloc, "k,g\n")?;
    for k in 1..500001u64 {
        text.push_str(&format!(in alloc; "{k},{}\n", k % 2)?)?;
    }
    Ok(text)
}

const HALF_A_MILLION: &str = "\
beside itself
SELECT a.g, COUNT(*) FROM t a, t b WHERE a.k = b.k GROUP BY a.g
b.k


row 0,250000; row 1,250000
hash_groups(hash(seq(a),seq(b),1))
hash_groups(probe(seq(a),b,1))";

#[test]
fn half_a_million_rows_in_groups(rt: HostRuntime) -> Result<(), Fail> {
    let alloc = rt.alloc();
    let text = in_two_groups(alloc)?;
    give_rows(&rt, alloc, &[("t", text.as_str())], HALF_A_MILLION)
}
