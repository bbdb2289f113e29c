//! Lower bounds on the costs of plans, a cell for each set of places.
//!
//! It keeps what it is given. Contracts see the list of cells and the number; that they are the tight table, or a
//! feasible one, is said where they are made or tested. No call takes memory.
ghost use Rattle.std.specs.Prelude.{◌≡◌};

use std::marker::Model;

/// What is known of one set of places: a number for all its plans, and one for those in the wanted order, where
/// there are such plans.
#[derive(Clone, Copy, Debug, PartialEq, Eq)]
pub struct Cell {
    pub any: u128,
    pub sorted: Option<u128>,
}

/// A list of cells, and a number for the whole statement.
#[derive(Debug, Drop)]
pub struct Potentials {
    cells: Vec<Cell>,
    least: u128,
}

impl Model for Potentials {
    ghost use Rattle.plan_costs.specs.LowerBounds.{LowerBounds};

    ghost Value = { LowerBounds };

    ghost view = { λ p. record { cells = p.cells.items; least = p.least } };
}

impl Potentials {
    /// These cells and this number.
    pub fn of(cells: Vec<Cell>, least: u128) -> Potentials
        ensures { result ≡ record { cells = cells.items; least = least } }
    {
        Potentials { cells, least }
    }

    /// The cells in order: in the optimiser's list the set of the places k has position k - 1.
    pub fn cells(&self) -> &[Cell]
        ensures { result.now ≡ self.now.cells }
    {
        &self.cells
    }

    /// The number that no valid plan is said to undercut.
    pub fn least(&self) -> u128
        ensures { result ≡ self.now.least }
    {
        self.least
    }
}
