//! The costs of what was found, as potentials.
ghost use Rattle.std.specs.Prelude.{◌≡◌, All, IfOk, IsSome, map};
ghost use Rattle.join_optimizer.specs.Found.{cost_of, seen};
ghost use Rattle.join_optimizer.specs.Potentials.{numbers};

use crate::found::{Cheapest, Found};
use plan_costs::Cell;
use row_values::OutOfMemory;
use std::alloc::Global;

/// What the plan costs, if there is one.
fn found_cost(found: &Option<Found>) -> Option<u128>
    ensures { result ≡ cost_of (seen found.now) }
{
    match found {
        Some(there) => Some(there.cost),
        None => None,
    }
}

/// The numbers of a set.
fn cell_numbers(cell: &Cheapest) -> Cell
    requires { IsSome cell.now.any }
    ensures { result ≡ numbers cell.now }
{
    match &cell.any {
        Some(found) => Cell {
            any: found.cost,
            sorted: found_cost(&cell.sorted),
        },
        None => unreachable!(),
    }
}

/// The numbers of these sets, in order.
pub(crate) fn potentials_of(alloc: Global, cells: &[Cheapest]) -> Result<Vec<Cell>, OutOfMemory>
    requires { All (λ cell. IsSome cell.any) cells.now }
    ensures { IfOk result (λ list. list.items ≡ map numbers cells.now) }
{
    let mut list = Vec::new(alloc);
    for cell in cells {
        list.push(cell_numbers(cell))?;
    }
    Ok(list)
}
