//! Indexing a column: the index stays over the loads that follow.
ghost use Rattle.std.specs.Prelude.{◌≡◌, ◌<◌, IfOk, IfSome, length};
ghost use Rattle.catalog_model.specs.Catalogs.{put_index};
ghost use Rattle.catalog_model.specs.Indexing.{column_named as number_named, indexing_of};
ghost use Rattle.session_store.specs.Kept.{HasColumn, put_held};
ghost use Rattle.session_store.specs.Outcomes.{Indexes, KeepsIndex, Names};

use crate::faults::StoreFault;
use crate::held::Held;
use crate::store::Store;
use row_values::{Column, OutOfMemory, Refusal, Words, canonical_name};

/// The number of the column of this name.
fn column_named(columns: &[Column], name: &Words) -> Option<usize>
    ensures value { result ≡ number_named columns.now name.now }
    ensures within { IfSome result (λ number. number < length columns.now) }
{
    columns.iter().position(|column| column.name == *name)
}

impl Store {
    /// The number of the column of this name of the table of this name.
    fn column_of(&self, table: &Words, column: &Words) -> Result<u8, StoreFault>
        ensures wanted { Names (indexing_of self.now.catalog table.now column.now) result }
        ensures there { IfOk result (λ number. HasColumn self.now.catalog.tables table.now number) }
    {
        let Some(held) = self.tables.get(table) else {
            let shown = canonical_name(self.alloc, table.as_str())?;
            return Err(StoreFault::Refused(Refusal::unknown_table(shown)));
        };
        match column_named(held.table().schema().columns(), column) {
            Some(number) => Ok(number as u8),
            None => {
                let shown = canonical_name(self.alloc, column.as_str())?;
                Err(StoreFault::Refused(Refusal::unknown_column(shown)))
            }
        }
    }

    /// What is held of the table of this name, with this column indexed.
    fn held_indexed(&self, table: &Words, column: u8) -> Result<Held, OutOfMemory>
        requires { HasColumn self.now.catalog.tables table.now column }
        ensures { IfOk result (λ held. put_held self.now.catalog.tables table.now held
            ≡ put_index self.now.catalog.tables table.now column) }
    {
        match self.tables.get(table) {
            Some(before) => before.with_index(self.alloc, column),
            None => unreachable!(),
        }
    }

    /// Indexes this column of the table of this name.
    fn put_index(&mut self, table: &Words, column: u8) -> Result<(), StoreFault>
        requires { HasColumn self.old.catalog.tables table.now column }
        ensures value { KeepsIndex self.old.catalog table.now column result self.new.catalog }
        ensures cursors { self.new.cursors ≡ self.old.cursors }
    {
        let held = self.held_indexed(table, column)?;
        let measures = self.measures_with(table, &held)?;
        self.tables.insert(table.copy(self.alloc)?, held)?;
        self.measures = measures;
        Ok(())
    }

    /// Indexes the column of this name of the table of this name; a column that has an index keeps it. It is refused
    /// where there is no such table or no such column.
    pub fn add_index(&mut self, table: &Words, column: &Words) -> Result<(), StoreFault>
        ensures value { Indexes (indexing_of self.old.catalog table.now column.now) self.old.catalog table.now result
            self.new.catalog }
        ensures cursors { self.new.cursors ≡ self.old.cursors }
    {
        let number = match self.column_of(table, column) {
            Ok(number) => number,
            Err(fault) => return Err(fault),
        };
        self.put_index(table, number)
    }
}
