//! Why a text isn't read.
use row_values::OutOfMemory;
use std::alloc::AllocFailed;

/// `Syntax`: the text is no statement. `Memory`: there was no memory left.
#[derive(Clone, Copy, Debug, Drop, PartialEq, Eq)]
pub enum ParseFault {
    Syntax,
    Memory,
}

impl From<OutOfMemory> for ParseFault {
    ghost use Rattle.std.specs.Prelude.{◌≡◌};
    ghost use Rattle.sql_parser.specs.declared.faults.ParseFault.TheVariants.{Memory};

    ghost from_gives = { λ _ e. e ≡ Memory };

    fn from(_: OutOfMemory) -> ParseFault {
        ParseFault::Memory
    }
}

impl<T: Drop> From<AllocFailed<T>> for ParseFault {
    ghost use Rattle.std.specs.Prelude.{◌≡◌};
    ghost use Rattle.sql_parser.specs.declared.faults.ParseFault.TheVariants.{Memory};

    ghost from_gives = { λ _ e. e ≡ Memory };

    fn from(_: AllocFailed<T>) -> ParseFault {
        ParseFault::Memory
    }
}
