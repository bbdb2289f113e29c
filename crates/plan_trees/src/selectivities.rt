//! Selectivity vectors: for each parameterised predicate, in text order, how many rows meet it.
//!
//! The numbers are counts of at least 1, not fractions. That a vector fits a statement is
//! `IsSoundVector`.
ghost use Rattle.std.specs.Prelude.{◌≡◌, ◌≤◌, ◌↔◌, IfSome, IsSome, length};

use row_values::{OutOfMemory, SELECTIVITY_LIMIT};
use std::marker::Model;

/// At most eight counts, held in place; contracts see the list.
#[derive(Debug, Drop)]
pub struct Vector {
    numbers: [u64; SELECTIVITY_LIMIT],
    count: usize,
}

impl Model for Vector {
    ghost use Rattle.std.specs.Prelude.{ℕ, List, take, length};

    ghost Value = { List ℕ };

    ghost use Rattle.plan_trees.specs.Padded.{IsVector, padded, vector_back, vector_inside};

    ghost view = { λ v. take v.count v.numbers };

    ghost invariant = { IsVector };

    ghost inverse = { λ xs. vector_inside (padded 8 xs) (length xs) };

    ghost inverse_ok = { vector_back };
}

impl Clone for Vector {
    ghost use Rattle.std.specs.Prelude.{◌≡◌};

    ghost is_clone = { λ original copied. copied ≡ original };

    fn clone(&self) -> Result<Vector, OutOfMemory> {
        Ok(*self)
    }
}

impl Copy for Vector {}

impl Vector {
    /// These numbers; none exactly where there are more than eight. It takes no memory.
    pub fn of(s: &[u64]) -> Option<Vector>
        ensures value { IfSome result (λ vector. vector ≡ s.now) }
        ensures found { IsSome result ↔ (length s.now ≤ SELECTIVITY_LIMIT) }
    {
        if s.len() > SELECTIVITY_LIMIT {
            return None;
        }
        let mut numbers = [0; SELECTIVITY_LIMIT];
        for (i, number) in s.iter().enumerate() {
            numbers[i] = *number;
        }
        Some(Vector {
            numbers,
            count: s.len(),
        })
    }

    /// The numbers in order.
    pub fn as_slice(&self) -> &[u64]
        ensures { result.now ≡ self.now }
    {
        &self.numbers[..self.count]
    }
}
