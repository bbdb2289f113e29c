//! Keys of an order, ready for many combinations.
//!
//! Their columns are looked up once; `keys_order_of` then tells how two combinations stand.
ghost use Rattle.std.specs.Prelude.{◌≡◌, ℕ, List, IfOk, map};
ghost use Rattle.plan_trees.specs.PlanSpace.{ascending, wanted_order};
ghost use Rattle.csv_tables.specs.StatementTables.{rows_in, tables_in};
ghost use Rattle.statement_meaning.specs.Meaning.{key_order, keys_order};
ghost use Rattle.plan_operators.specs.Keys.{key_rank, keys_rank};
ghost use Rattle.plan_operators.specs.Sources.{rows_read};

use crate::columns::{PlaceColumn, column_of, order_of};
use crate::combos::Combo;
use crate::source::Source;
use csv_tables::Table;
use row_values::{ColRef, OrderKey, OutOfMemory};
use std::alloc::Global;
use std::cmp::Ordering;
use std::rc::Rc;

/// A key of an order with its column at hand.
#[derive(Clone, Copy)]
pub struct ReadyKey<'a> {
    pub column: PlaceColumn<'a>,
    pub descending: bool,
}

/// How two combinations stand by a key.
#[inline]
fn key_order_of(key: &ReadyKey<'_>, a: &Combo, b: &Combo) -> Ordering
    ensures { result ≡ key_rank key.now a.now b.now }
{
    let (first, second) = if key.descending { (b, a) } else { (a, b) };
    order_of(key.column.cell(first), key.column.cell(second))
}

/// How two combinations stand by the first key that tells them apart.
#[inline]
pub fn keys_order_of(keys: &[ReadyKey<'_>], a: &Combo, b: &Combo) -> Ordering
    ensures { result ≡ keys_rank keys.now a.now b.now }
{
    for key in keys {
        let order = key_order_of(key, a, b);
        if order.is_ne() {
            return order;
        }
    }
    Ordering::Equal
}

/// The key, ready for the combinations over these tables.
pub fn ready_key<'a>(tables: &'a [Rc<Table>], key: OrderKey) -> ReadyKey<'a>
    ensures { (a b : List ℕ) → key_rank result a b ≡ key_order (rows_in (tables_in tables.now)) key a b }
{
    ReadyKey {
        column: column_of(tables, key.at),
        descending: key.descending,
    }
}

/// The keys, ready for the combinations over these tables.
pub fn ready_keys<'a>(
    alloc: Global,
    tables: &'a [Rc<Table>],
    keys: &[OrderKey],
) -> Result<Vec<ReadyKey<'a>>, OutOfMemory>
    ensures { IfOk result (λ ready. (a b : List ℕ) → keys_rank ready.items a b
        ≡ keys_order (rows_in (tables_in tables.now)) keys.now a b) }
{
    let mut ready = Vec::new(alloc);
    for key in keys {
        ready.push(ready_key(tables, *key))?;
    }
    Ok(ready)
}

/// These columns as keys, each ascending.
pub fn ascending_keys(alloc: Global, columns: &[ColRef]) -> Result<Vec<OrderKey>, OutOfMemory>
    ensures { IfOk result (λ keys. keys.items ≡ map ascending columns.now) }
{
    let mut keys = Vec::new(alloc);
    for column in columns {
        keys.push(OrderKey {
            at: *column,
            descending: false,
        })?;
    }
    Ok(keys)
}

/// The keys of the wanted order, ready.
pub fn wanted_keys<'a>(alloc: Global, source: &Source<'a>) -> Result<Vec<ReadyKey<'a>>, OutOfMemory>
    ensures { IfOk result (λ ready. (a b : List ℕ) → keys_rank ready.items a b
        ≡ keys_order (rows_read source.now) (wanted_order source.now.q.now) a b) }
{
    let groups = source.q.groups();
    if groups.is_empty() {
        let ready = ready_keys(alloc, source.tables, source.q.order())?;
        return Ok(ready);
    }
    let keys = ascending_keys(alloc, groups)?;
    let ready = ready_keys(alloc, source.tables, keys.as_slice())?;
    Ok(ready)
}
