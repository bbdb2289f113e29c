//! Why a statement can't be bound, in the order in which the refusals count.
use row_values::{OutOfMemory, Words};
use std::alloc::AllocFailed;

/// Why a statement can't be bound, with what the refusal shows in canonical spelling.
#[derive(Debug, Drop, PartialEq, Eq)]
pub enum BindFault {
    /// A table that isn't known: its name.
    UnknownTable(Words),
    /// An alias that equals an earlier one.
    AliasTwice(Words),
    /// A column that no place has: the reference.
    UnknownColumn(Words),
    /// A column that two places or more have: the reference.
    Ambiguous(Words),
    /// A literal of another kind than its column, or an edge within one place or between two kinds:
    /// the
    /// reference on the left.
    Misfit(Words),
    /// A limit passed: `tables`, `predicates`, `conditions`, `items` or `keys`.
    TooMany(Words),
    /// An item or a key that the grouping doesn't allow.
    NotGrouped(Words),
    /// A SUM over texts: its reference.
    SumOfText(Words),
    Memory,
}

impl From<OutOfMemory> for BindFault {
    ghost use Rattle.std.specs.Prelude.{◌≡◌};
    ghost use Rattle.name_binder.specs.declared.faults.BindFault.TheVariants.{Memory};

    ghost from_gives = { λ _ fault. fault ≡ Memory };

    fn from(_error: OutOfMemory) -> BindFault {
        BindFault::Memory
    }
}

impl<T: Drop> From<AllocFailed<T>> for BindFault {
    ghost use Rattle.std.specs.Prelude.{◌≡◌};
    ghost use Rattle.name_binder.specs.declared.faults.BindFault.TheVariants.{Memory};

    ghost from_gives = { λ _ fault. fault ≡ Memory };

    fn from(_error: AllocFailed<T>) -> BindFault {
        BindFault::Memory
    }
}
