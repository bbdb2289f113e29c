//! The distinct counts of a table's columns.
//!
//! Each costs a sort of its column, so they are made once and kept beside the table: `stats_with`
//! takes them.
ghost use Rattle.std.specs.Prelude.{◌≡◌, IfOk, map};
ghost use Rattle.std.specs.Rc.{rc_value};
ghost use Rattle.csv_tables.specs.StatementTables.{tables_in};
ghost use Rattle.selectivity_counts.specs.Kept.{AreDistinctsOf, distinct_counts};

use csv_tables::Table;
use row_values::OutOfMemory;
use std::alloc::Global;
use std::marker::Model;
use std::rc::Rc;
use table_index::distinct_values;

/// How many distinct values each column of a table has; contracts see the list.
#[derive(Debug, Drop)]
pub struct Distincts {
    counts: Vec<u64>,
}

impl Model for Distincts {
    ghost use Rattle.std.specs.Prelude.{ℕ, List};

    ghost Value = { List ℕ };

    ghost view = { λ distincts. distincts.counts.items };
}

impl Distincts {
    /// The distinct counts of this table's columns.
    pub fn of(alloc: Global, t: &Table) -> Result<Distincts, OutOfMemory>
        ensures { IfOk result (λ distincts. distincts ≡ distinct_counts t.now) }
    {
        let mut counts = Vec::new(alloc);
        for (column, _) in t.schema().columns().iter().enumerate() {
            counts.push(distinct_values(alloc, t, column as u8)?)?;
        }
        Ok(Distincts { counts })
    }

    /// The counts in the order of the columns.
    pub fn as_slice(&self) -> &[u64]
        ensures { result.now ≡ self.now }
    {
        self.counts.as_slice()
    }
}

/// The distinct counts of each of these tables.
pub(crate) fn distincts_of(
    alloc: Global,
    tables: &[Rc<Table>],
) -> Result<Vec<Rc<Distincts>>, OutOfMemory>
    ensures { IfOk result (λ lists. AreDistinctsOf (tables_in tables.now) (map rc_value lists.items)) }
{
    let mut lists = Vec::with_capacity(alloc, tables.len())?;
    for table in tables {
        lists.push(Rc::new(alloc, Distincts::of(alloc, table)?)?)?;
    }
    Ok(lists)
}
