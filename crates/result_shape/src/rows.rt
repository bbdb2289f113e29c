//! Result rows, kept as row numbers and whole numbers beside the tables that they name.
ghost use Rattle.std.specs.Prelude.{◌≡◌, length};
ghost use Rattle.row_values.specs.Statements.{Statement};
ghost use Rattle.result_shape.specs.Rows.{rows_seen};

use crate::groups::Group;
use crate::numbered::NumberRows;
use csv_tables::Table;
use plan_operators::Combo;
use row_values::OutOfMemory;
use std::rc::Rc;

/// The most result rows of a statement: it bounds what a result holds in memory.
pub const ROW_LIMIT: usize = 1000000;

/// Why there are no rows.
#[derive(Debug, Drop, PartialEq, Eq)]
pub enum RowsFault {
    /// There are more than `ROW_LIMIT`.
    TooManyRows,
    /// For want of memory.
    Memory,
}

impl From<OutOfMemory> for RowsFault {
    ghost use Rattle.result_shape.specs.declared.rows.RowsFault.TheVariants.{Memory};

    ghost from_gives = { λ _ fault. fault ≡ Memory };

    fn from(_: OutOfMemory) -> RowsFault {
        RowsFault::Memory
    }
}

/// What rows are kept as: a combination for each, or a group, which may keep its tallies among
/// those of all.
#[derive(Debug, Drop)]
pub(crate) enum Kept {
    Plain(Vec<Combo>),
    Groups(Vec<Group>),
    Numbered(NumberRows),
}

/// The result rows of a statement: at most `ROW_LIMIT`.
#[derive(Debug, Drop)]
pub struct Rows {
    pub(crate) tables: Vec<Rc<Table>>,
    pub(crate) kept: Kept,
}

impl Rows {
    /// How many there are.
    pub fn len(&self) -> usize
        ensures { (q : Statement) → result ≡ length (rows_seen q self.now) }
    {
        match &self.kept {
            Kept::Plain(combos) => combos.len(),
            Kept::Groups(groups) => groups.len(),
            Kept::Numbered(rows) => rows.places.len(),
        }
    }
}
