//! The first place at which the product of rows passes 2^63.
//!
//! Each place counts its rows once for each parameterised predicate on it, and at least once. The
//! one way in is `wide_place`; it takes no memory.
ghost use Rattle.std.specs.Prelude.{◌≡◌, ◌<◌, ◌≤◌, ◌*◌, ◌^◌, IfNone, IfSome, length};
ghost use Rattle.csv_tables.specs.StatementTables.{rows_in, tables_in};
ghost use Rattle.plan_trees.specs.Statistics.{selectivities_on as selectivities_of_place};
ghost use Rattle.row_values.specs.declared.statement.TheConstants.{CONDITION_LIMIT};
ghost use Rattle.statement_statistics.specs.Statistics.{first_wide};

use csv_tables::Table;
use row_values::{Pred, Query, is_parameterised};
use std::rc::Rc;

/// The greatest product of rows: with it every cost fits 128 bits.
const SIZE_LIMIT: u64 = 1 << 63;

/// How many parameterised predicates are on the place.
fn selectivities_on(place: u8, preds: &[Pred]) -> u32
    requires { length preds.now ≤ CONDITION_LIMIT }
    ensures { result ≡ selectivities_of_place place preds.now }
{
    let mut count = 0;
    for pred in preds {
        if is_parameterised(pred) && pred.at.place == place {
            count += 1;
        }
    }
    count
}

/// The size times the rows of a place, so many times over; none where that passes the limit.
#[tactic(auto, using(crate::proofs::WidePlaces::power_within))]
fn times_power(size: u64, rows: u64, times: u32) -> Option<u64>
    requires { 1 ≤ size }
    ensures value { IfSome result (λ product. product ≡ size * rows ^ times) }
    ensures within { IfSome result (λ product. product ≤ SIZE_LIMIT) }
    ensures none { IfNone result (SIZE_LIMIT < size * rows ^ times) }
{
    let power = rows.checked_pow(times)?;
    let product = size.checked_mul(power)?;
    if product > SIZE_LIMIT {
        return None;
    }
    Some(product)
}

/// The first place at which the product of rows passes the limit, if any.
pub(crate) fn wide_place(q: &Query, tables: &[Rc<Table>]) -> Option<u8>
    requires { length tables.now ≡ length q.now.places }
    ensures { result ≡ first_wide q.now (rows_in (tables_in tables.now)) }
{
    let preds = q.preds();
    let mut size = 1;
    for (place, table) in tables.iter().enumerate() {
        let rows = table.len().max(1) as u64;
        let times = selectivities_on(place as u8, preds).max(1);
        match times_power(size, rows, times) {
            Some(product) => size = product,
            None => return Some(place as u8),
        }
    }
    None
}
