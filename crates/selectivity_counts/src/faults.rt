//! Why a statement has no statistics.
ghost use Rattle.std.specs.Prelude.{◌≡◌};

use row_values::OutOfMemory;

/// What is wrong with a statement over its tables, or want of memory.
#[derive(Clone, Copy, Debug, PartialEq, Eq)]
pub enum CountFault {
    /// The product of rows passes 2^63 at this place first.
    Wide(u8),
    /// There wasn't memory enough.
    Memory,
}

impl From<OutOfMemory> for CountFault {
    ghost use Rattle.selectivity_counts.specs.declared.faults.CountFault.TheVariants.{Memory};

    ghost from_gives = { λ _ fault. fault ≡ Memory };

    fn from(_error: OutOfMemory) -> CountFault {
        CountFault::Memory
    }
}
