//! Why bytes are no table.
//!
//! The variants stand in the order in which they count. Rows and columns are numbered from 1, the
//! header is no row.
ghost use Rattle.std.specs.Prelude.{◌≡◌};

use row_values::OutOfMemory;
use std::alloc::AllocFailed;

/// The first thing that is wrong with the bytes of a table, or want of memory, which may come
/// before any of them.
#[derive(Clone, Copy, Debug, PartialEq, Eq)]
pub enum TableFault {
    /// More columns than a table may have.
    Columns,
    /// The column of this number has no name, one that isn't UTF-8, or one that is there already.
    BadHeader(u32),
    /// More data rows than a table may have.
    Rows,
    /// More cells than a table may have.
    Cells,
    /// The data row of this number hasn't as many fields as the header.
    NotCsv(u32),
    /// The cell in this data row and column isn't UTF-8, or no whole number under a header cell
    /// that says so.
    BadCell(u32, u32),
    /// There wasn't memory enough.
    Memory,
}

impl From<OutOfMemory> for TableFault {
    ghost use Rattle.csv_tables.specs.declared.faults.TableFault.TheVariants.{Memory};

    ghost from_gives = { λ _ fault. fault ≡ Memory };

    fn from(_error: OutOfMemory) -> TableFault {
        TableFault::Memory
    }
}

impl<T: Drop> From<AllocFailed<T>> for TableFault {
    ghost use Rattle.csv_tables.specs.declared.faults.TableFault.TheVariants.{Memory};

    ghost from_gives = { λ _ fault. fault ≡ Memory };

    fn from(_error: AllocFailed<T>) -> TableFault {
        TableFault::Memory
    }
}
