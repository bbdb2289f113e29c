//! The tables that are measured, as CSV texts.
use row_values::OutOfMemory;
use std::alloc::Global;

/// Customers 1 to 1,500, each in one of five regions.
pub fn customers(alloc: Global) -> Result<String, OutOfMemory> {
    let mut text = String::from_str(alloc, "id,region\n")?;
    for k in 1..1501u64 {
        text.push_str(&format!(in alloc; "{k},r{}\n", k % 5)?)?;
    }
    Ok(text)
}

/// Orders 1 to 15,000, ten for each customer.
pub fn orders(alloc: Global) -> Result<String, OutOfMemory> {
    let mut text = String::from_str(alloc, "id,cid,day\n")?;
    for k in 1..15001u64 {
        text.push_str(&format!(in alloc; "{k},{},{}\n", 7 * k % 1500 + 1, k % 1000)?)?;
    }
    Ok(text)
}

/// 60,000 items, four for each order.
pub fn items(alloc: Global) -> Result<String, OutOfMemory> {
    let mut text = String::from_str(alloc, "oid,qty,ship\n")?;
    for k in 0..60000u64 {
        text.push_str(&format!(in alloc;
            "{},{},{}\n",
            k / 4 + 1,
            (k + 1) % 10 + 1,
            (k + 1) % 1000
        )?)?;
    }
    Ok(text)
}

/// So many rows of three numbers, each column in no order.
pub fn numbers(alloc: Global, rows: u64) -> Result<String, OutOfMemory> {
    let mut text = String::from_str(alloc, "a,b,c\n")?;
    for k in 0..rows.min(1000000) {
        let (a, b, c) = (k * 643 % 1000000, k * 40503 % 1000000, k * 7919 % 1000000);
        text.push_str(&format!(in alloc; "{a},{b},{c}\n")?)?;
    }
    Ok(text)
}

/// A million rows of a column of ten values, one of 500,000, and one of a million.
pub fn groups(alloc: Global) -> Result<String, OutOfMemory> {
    let mut text = String::from_str(alloc, "g,h,v\n")?;
    for k in 0..1000000u64 {
        let (g, h, v) = (k % 10, k * 7919 % 500000, k * 643 % 1000000);
        text.push_str(&format!(in alloc; "{g},{h},{v}\n")?)?;
    }
    Ok(text)
}

/// Half a million rows, numbered from 1, in two groups.
pub fn two_groups(alloc: Global) -> Result<String, OutOfMemory> {
    let mut text = String::from_str(alloc, "k,g\n")?;
    for k in 1..500001u64 {
        text.push_str(&format!(in alloc; "{k},{}\n", k % 2)?)?;
    }
    Ok(text)
}
