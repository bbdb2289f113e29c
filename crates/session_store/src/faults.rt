//! Why the catalog turns a call down.
use row_values::{OutOfMemory, Refusal};
use std::alloc::AllocFailed;

/// A refusal, or want of memory. Neither changes the catalog.
#[derive(Debug, Drop)]
pub enum StoreFault {
    Refused(Refusal),
    Memory,
}

impl From<OutOfMemory> for StoreFault {
    ghost use Rattle.std.specs.Prelude.{◌≡◌};
    ghost use Rattle.session_store.specs.declared.faults.StoreFault.TheVariants.{Memory};

    ghost from_gives = { λ _ fault. fault ≡ Memory };

    fn from(_error: OutOfMemory) -> StoreFault {
        StoreFault::Memory
    }
}

impl<T: Drop> From<AllocFailed<T>> for StoreFault {
    ghost use Rattle.std.specs.Prelude.{◌≡◌};
    ghost use Rattle.session_store.specs.declared.faults.StoreFault.TheVariants.{Memory};

    ghost from_gives = { λ _ fault. fault ≡ Memory };

    fn from(_error: AllocFailed<T>) -> StoreFault {
        StoreFault::Memory
    }
}
