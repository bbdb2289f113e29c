//! What doesn't fit in a worked example.
use csv_tables::TableFault;
use name_binder::BindFault;
use plan_trees::PlanFault;
use result_shape::RowsFault;
use row_values::OutOfMemory;
use selectivity_counts::CountFault;
use sql_parser::ParseFault;
use std::alloc::AllocFailed;

/// What doesn't fit.
#[derive(Clone, Copy, Debug, PartialEq, Eq)]
pub enum WorkedFault {
    /// A text isn't CSV with a header and a value for each column.
    NotATable,
    /// Two tables have the same name.
    NameTwice,
    /// The SQL text isn't a statement, or asks for what the tables don't have.
    NotAStatement,
    /// An index is asked for over a column that no place has.
    NotAColumn,
    /// The product of rows passes 2^63 at this place first.
    Wide(u8),
    /// The text doesn't spell a plan that is valid for the statement and its indexes.
    NotAPlan,
    /// There are more rows than a result may have.
    TooManyRows,
    /// For want of memory.
    Memory,
}

impl From<OutOfMemory> for WorkedFault {
    fn from(_: OutOfMemory) -> WorkedFault {
        WorkedFault::Memory
    }
}

impl<T: Drop> From<AllocFailed<T>> for WorkedFault {
    fn from(_: AllocFailed<T>) -> WorkedFault {
        WorkedFault::Memory
    }
}

impl From<TableFault> for WorkedFault {
    fn from(fault: TableFault) -> WorkedFault {
        match fault {
            TableFault::Memory => WorkedFault::Memory,
            _ => WorkedFault::NotATable,
        }
    }
}

impl From<ParseFault> for WorkedFault {
    fn from(fault: ParseFault) -> WorkedFault {
        match fault {
            ParseFault::Syntax => WorkedFault::NotAStatement,
            ParseFault::Memory => WorkedFault::Memory,
        }
    }
}

impl From<BindFault> for WorkedFault {
    fn from(fault: BindFault) -> WorkedFault {
        match fault {
            BindFault::Memory => WorkedFault::Memory,
            _ => WorkedFault::NotAStatement,
        }
    }
}

impl From<CountFault> for WorkedFault {
    fn from(fault: CountFault) -> WorkedFault {
        match fault {
            CountFault::Wide(place) => WorkedFault::Wide(place),
            CountFault::Memory => WorkedFault::Memory,
        }
    }
}

impl From<PlanFault> for WorkedFault {
    fn from(fault: PlanFault) -> WorkedFault {
        match fault {
            PlanFault::NotAPlan => WorkedFault::NotAPlan,
            PlanFault::Memory => WorkedFault::Memory,
        }
    }
}

impl From<RowsFault> for WorkedFault {
    fn from(fault: RowsFault) -> WorkedFault {
        match fault {
            RowsFault::TooManyRows => WorkedFault::TooManyRows,
            RowsFault::Memory => WorkedFault::Memory,
        }
    }
}
