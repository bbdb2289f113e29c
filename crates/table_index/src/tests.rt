//! Indexes worked out by hand.
ghost use Rattle.std.specs.Prelude.{◌≡◌, ◌<◌, IfOk, Some, length, slice_get};
ghost use Rattle.row_values.specs.declared.values.Kind.TheVariants as kind;
ghost use Rattle.csv_tables.specs.Tables.{column_kinds};
ghost use Rattle.table_index.specs.Bounds.{FitsColumn};
ghost use Rattle.table_index.specs.Indexes.{IsBuilt};

use crate::{Bound, Index, distinct_values};
use csv_tables::{Table, read_table};
use row_values::{Kind, OutOfMemory, Value, Words};
use std::alloc::Global;

/// A table whose first column is of whole numbers.
fn numbers_of(alloc: Global, bytes: &[u8]) -> Result<Table, OutOfMemory>
    ensures inside { IfOk result (λ table. 0 < length table.schema) }
    ensures kind { IfOk result (λ table. slice_get (column_kinds table.schema) 0 ≡ Some kind.Int) }
{
    let Ok(table) = read_table(alloc, bytes) else {
        return Err(OutOfMemory);
    };
    if table.schema().columns().is_empty() {
        return Err(OutOfMemory);
    }
    if table.numbers(0).is_none() {
        return Err(OutOfMemory);
    }
    Ok(table)
}

/// A table whose first column is of texts.
#[tactic(auto, using(csv_tables::proofs::PackedColumns::kind_read))]
fn texts_of(alloc: Global, bytes: &[u8]) -> Result<Table, OutOfMemory>
    ensures inside { IfOk result (λ table. 0 < length table.schema) }
    ensures kind { IfOk result (λ table. slice_get (column_kinds table.schema) 0 ≡ Some kind.Text) }
{
    let Ok(table) = read_table(alloc, bytes) else {
        return Err(OutOfMemory);
    };
    if table.schema().columns().is_empty() {
        return Err(OutOfMemory);
    }
    match table.schema().columns()[0].kind {
        Kind::Text => Ok(table),
        Kind::Int => Err(OutOfMemory),
    }
}

/// The rows of an index as `3 0 1`.
fn rows_text(alloc: Global, rows: &[u32]) -> Result<String, OutOfMemory> {
    let mut text = String::new(alloc);
    for (position, row) in rows.iter().enumerate() {
        if position != 0 {
            text.push_str(" ")?;
        }
        let row = format!(in alloc; "{row}")?;
        text.push_str(row.as_str())?;
    }
    Ok(text)
}

#[test]
fn numbers_are_ordered_by_value_and_row(rt: HostRuntime) -> Result<(), OutOfMemory> {
    let alloc = rt.alloc();
    let bytes = b"v\n5\n5\n7\n-9223372036854775808\n9223372036854775807\n";
    let table = numbers_of(alloc, bytes)?;
    let index = Index::build(alloc, &table, 0)?;
    let rows = rows_text(alloc, index.rows())?;
    assert_eq!(rt; rows.as_str(), "3 0 1 2 4");
    let five = Value::Int(5);
    let six = Value::Int(6);
    let seven = Value::Int(7);
    let all = index.range(&table, Bound::Free, Bound::Free);
    assert_eq!(rt; all, (0, 5));
    let at_most_five = index.range(&table, Bound::Free, Bound::Closed(&five));
    assert_eq!(rt; at_most_five, (0, 3));
    let below_five = index.range(&table, Bound::Free, Bound::Strict(&five));
    assert_eq!(rt; below_five, (0, 1));
    let at_least_five = index.range(&table, Bound::Closed(&five), Bound::Free);
    assert_eq!(rt; at_least_five, (1, 5));
    let above_five = index.range(&table, Bound::Strict(&five), Bound::Free);
    assert_eq!(rt; above_five, (3, 5));
    let equal_to_five = index.range(&table, Bound::Closed(&five), Bound::Closed(&five));
    assert_eq!(rt; equal_to_five, (1, 3));
    let between = index.range(&table, Bound::Strict(&five), Bound::Strict(&seven));
    assert_eq!(rt; between, (3, 3));
    let missing = index.range(&table, Bound::Closed(&six), Bound::Closed(&six));
    assert_eq!(rt; missing, (3, 3));
    let crossing = index.range(&table, Bound::Closed(&seven), Bound::Closed(&five));
    assert_eq!(rt; crossing, (3, 3));
    assert_eq!(rt; index.distinct(&table), 4);
    assert_eq!(rt; distinct_values(alloc, &table, 0)?, 4);
    Ok(())
}

#[test]
fn texts_are_ordered_by_bytes(rt: HostRuntime) -> Result<(), OutOfMemory> {
    let alloc = rt.alloc();
    let table = texts_of(alloc, b"v:text\nab\naa\n10\nab\n9\n")?;
    let index = Index::build(alloc, &table, 0)?;
    let rows = rows_text(alloc, index.rows())?;
    assert_eq!(rt; rows.as_str(), "2 4 1 0 3");
    let aa = Value::Text(Words::of(alloc, "aa")?);
    let ab = Value::Text(Words::of(alloc, "ab")?);
    let from_aa = index.range(&table, Bound::Closed(&aa), Bound::Free);
    assert_eq!(rt; from_aa, (2, 5));
    let below_ab = index.range(&table, Bound::Free, Bound::Strict(&ab));
    assert_eq!(rt; below_ab, (0, 3));
    assert_eq!(rt; index.distinct(&table), 4);
    assert_eq!(rt; distinct_values(alloc, &table, 0)?, 4);
    Ok(())
}

#[test]
fn an_empty_table_has_an_empty_index(rt: HostRuntime) -> Result<(), OutOfMemory> {
    let alloc = rt.alloc();
    let table = numbers_of(alloc, b"v:int\n")?;
    let index = Index::build(alloc, &table, 0)?;
    assert!(rt; index.rows().is_empty());
    let five = Value::Int(5);
    let equal_to_five = index.range(&table, Bound::Closed(&five), Bound::Closed(&five));
    assert_eq!(rt; equal_to_five, (0, 0));
    assert_eq!(rt; index.distinct(&table), 0);
    assert_eq!(rt; distinct_values(alloc, &table, 0)?, 0);
    Ok(())
}
