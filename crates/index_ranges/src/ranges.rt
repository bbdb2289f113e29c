//! Ranges of positions, held in place.
//!
//! There are at most sixteen, one for each operand that an IN may have.
ghost use Rattle.std.specs.Prelude.{◌≡◌, ◌<◌, ◌++◌, ◌∷◌, [], if◌then◌else◌, length, nat_lt};
ghost use Rattle.row_values.specs.declared.operands.TheConstants.{OPERAND_LIMIT};

use row_values::OPERAND_LIMIT;
use std::marker::Model;

/// Ranges of positions in an index, each from its first position up to its end; contracts see the
/// list.
#[derive(Debug, Drop)]
pub struct Ranges {
    ranges: [(usize, usize); OPERAND_LIMIT],
    count: usize,
}

impl Model for Ranges {
    ghost use Rattle.std.specs.Prelude.{ℕ, List, ◌≤◌, take};

    ghost Value = { List (ℕ × ℕ) };

    ghost view = { λ r. take r.count r.ranges };

    ghost invariant = { λ r. r.count ≤ 16 };
}

impl Ranges {
    /// No range.
    pub(crate) fn none() -> Ranges
        ensures { result ≡ [] }
    {
        Ranges {
            ranges: [(0, 0); OPERAND_LIMIT],
            count: 0,
        }
    }

    /// Puts a range behind the others, if it has a position.
    pub(crate) fn push(&mut self, range: (usize, usize))
        requires { length self.old < OPERAND_LIMIT }
        ensures { self.new ≡ (if nat_lt range.0 range.1 then self.old ++ range ∷ [] else self.old) }
    {
        if range.0 < range.1 {
            self.ranges[self.count] = range;
            self.count += 1;
        }
    }

    /// The ranges in order.
    pub fn as_slice(&self) -> &[(usize, usize)]
        ensures { result.now ≡ self.now }
    {
        &self.ranges[..self.count]
    }
}
