//! The operands of an IN.
//!
//! Every `Operands` has one operand at least and sixteen at most; `Operands::of` is the one way in.
ghost use Rattle.std.specs.Prelude.{◌≡◌, ◌↔◌, IfSome, IsSome};
ghost use Rattle.row_values.specs.Operands.{AreOperands};

use crate::statement::Operand;
use std::marker::Model;

/// The most operands of one IN: so a parameterised predicate has at most as many parameters.
pub const OPERAND_LIMIT: usize = 16;

/// What an IN compares its column with, in text order; contracts see the list.
#[derive(Debug, Drop)]
pub struct Operands {
    parts: Vec<Operand>,
}

impl Model for Operands {
    ghost use Rattle.std.specs.Prelude.{List};
    ghost use Rattle.row_values.specs.declared.statement.Operand.{Operand};
    ghost use Rattle.row_values.specs.Operands.{AreOperands};

    ghost Value = { List Operand };

    ghost view = { λ s. s.parts.items };

    ghost invariant = { λ s. AreOperands s.parts.items };
}

impl Operands {
    /// These operands; none exactly where there is none of them or there are more than sixteen. It
    /// takes no
    /// memory.
    pub fn of(parts: Vec<Operand>) -> Option<Operands>
        ensures value { IfSome result (λ operands. operands ≡ parts.items) }
        ensures found { IsSome result ↔ AreOperands parts.items }
    {
        if parts.is_empty() || parts.len() > OPERAND_LIMIT {
            return None;
        }
        Some(Operands { parts })
    }

    /// The operands in order.
    pub fn as_slice(&self) -> &[Operand]
        ensures value { result.now ≡ self.now }
        ensures sound { AreOperands self.now }
    {
        self.parts.as_slice()
    }
}
