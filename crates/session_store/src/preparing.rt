//! Preparing a statement: it is bound to the tables that are loaded, and kept under its name.
ghost use Rattle.std.specs.Prelude.{◌≡◌, ◌≢◌, ◌<◌, All, IfOk, IfSome, None, length};
ghost use Rattle.name_binder.specs.Binding.{binding_of};
ghost use Rattle.catalog_model.specs.Catalogs.{find_statement, schemas_of};
ghost use Rattle.catalog_model.specs.Faults as faults;
ghost use Rattle.catalog_model.specs.Preparing.{preparing_of};
ghost use Rattle.catalog_model.specs.Sound.{IsLoaded};
ghost use Rattle.catalog_model.specs.declared.TheConstants.{STATEMENT_LIMIT};
ghost use Rattle.session_store.specs.Kept.{put_held};
ghost use Rattle.session_store.specs.Outcomes.{Binds, KeepsStatement, Prepares};

use crate::faults::StoreFault;
use crate::held::Held;
use crate::store::Store;
use catalog_model::STATEMENT_LIMIT;
use name_binder::{BindFault, bind};
use row_values::{OutOfMemory, Place, Query, Refusal, Words, canonical_name};
use sql_parser::Select;

/// The refusal of a statement that can't be bound.
fn bind_refusal(fault: BindFault) -> StoreFault
    ensures refused { fault ≢ BindFault.Memory → result ≡ StoreFault.Refused (faults.bind_refusal fault) }
    ensures memory { fault ≡ BindFault.Memory → result ≡ StoreFault.Memory }
{
    let refusal = match fault {
        BindFault::UnknownTable(shown) => Refusal::unknown_table(shown),
        BindFault::AliasTwice(shown) => Refusal::name_taken(shown),
        BindFault::UnknownColumn(shown) => Refusal::unknown_column(shown),
        BindFault::Ambiguous(shown) => Refusal::ambiguous(shown),
        BindFault::Misfit(shown) => Refusal::misfit(shown),
        BindFault::TooMany(shown) => Refusal::too_many(shown),
        BindFault::NotGrouped(shown) => Refusal::not_grouped(shown),
        BindFault::SumOfText(shown) => Refusal::misfit(shown),
        BindFault::Memory => return StoreFault::Memory,
    };
    StoreFault::Refused(refusal)
}

impl Store {
    /// The statement over the tables that are loaded.
    fn bound(&self, select: &Select) -> Result<Query, StoreFault>
        ensures { Binds (binding_of (schemas_of self.now.catalog.tables) select.now) result }
    {
        match bind(self.alloc, select, self) {
            Ok(q) => Ok(q),
            Err(fault) => Err(bind_refusal(fault)),
        }
    }

    /// What is held under this name with its distinct counts, unless they are kept already.
    fn counted_at(&self, table: &Words) -> Result<Option<Held>, OutOfMemory>
        ensures { IfOk result (λ found. IfSome found (λ held. put_held self.now.catalog.tables table.now held
            ≡ self.now.catalog.tables)) }
    {
        match self.tables.get(table) {
            None => Ok(None),
            Some(held) => {
                if held.is_counted() {
                    return Ok(None);
                }
                let held = held.counted(self.alloc)?;
                Ok(Some(held))
            }
        }
    }

    /// Keeps the distinct counts of the table of this name.
    fn keep_counts(&mut self, table: &Words) -> Result<(), OutOfMemory>
        ensures { self.new ≡ self.old }
    {
        match self.counted_at(table)? {
            None => Ok(()),
            Some(held) => {
                self.tables.insert(table.copy(self.alloc)?, held)?;
                Ok(())
            }
        }
    }

    /// Keeps the distinct counts of the tables of these places.
    fn keep_all_counts(&mut self, places: &[Place]) -> Result<(), OutOfMemory>
        ensures { self.new ≡ self.old }
    {
        for place in places {
            self.keep_counts(&place.table)?;
        }
        Ok(())
    }

    /// Puts a statement whose tables are loaded under a free name, behind the others.
    fn insert_statement(&mut self, name: &Words, q: Query) -> Result<(), StoreFault>
        requires free { find_statement self.old.catalog.statements name.now ≡ None }
        requires loaded { All (IsLoaded self.old.catalog.tables) q.places }
        requires room { length self.old.catalog.statements < STATEMENT_LIMIT }
        ensures value { KeepsStatement self.old.catalog name.now q result self.new.catalog }
        ensures cursors { self.new.cursors ≡ self.old.cursors }
    {
        q.sound();
        let measures = self.measures_and(&q)?;
        self.statements.insert(name.copy(self.alloc)?, q)?;
        self.measures = measures;
        Ok(())
    }

    /// The same, with the distinct counts of its tables kept.
    fn put_statement(&mut self, name: &Words, q: Query) -> Result<(), StoreFault>
        requires free { find_statement self.old.catalog.statements name.now ≡ None }
        requires loaded { All (IsLoaded self.old.catalog.tables) q.places }
        requires room { length self.old.catalog.statements < STATEMENT_LIMIT }
        ensures value { KeepsStatement self.old.catalog name.now q result self.new.catalog }
        ensures cursors { self.new.cursors ≡ self.old.cursors }
    {
        self.keep_all_counts(q.places())?;
        self.insert_statement(name, q)
    }

    /// Keeps the statement under this name, and tells its number, from 0. It is refused where the name is taken, the
    /// statement can't be bound, or there are too many.
    #[tactic(auto, unfolding(catalog_model::specs::Preparing::preparing_of))]
    pub fn prepare(&mut self, name: &Words, select: &Select) -> Result<u32, StoreFault>
        ensures value { Prepares (preparing_of self.old.catalog name.now select.now) self.old.catalog name.now result
            self.new.catalog }
        ensures cursors { self.new.cursors ≡ self.old.cursors }
    {
        if self.statements.contains_key(name) {
            let shown = canonical_name(self.alloc, name.as_str())?;
            return Err(StoreFault::Refused(Refusal::name_taken(shown)));
        }
        let q = match self.bound(select) {
            Ok(q) => q,
            Err(fault) => return Err(fault),
        };
        let number = self.statements.len();
        if number >= STATEMENT_LIMIT {
            let refusal = Refusal::store_limit(self.alloc, "statements")?;
            return Err(StoreFault::Refused(refusal));
        }
        self.put_statement(name, q)?;
        Ok(number as u32)
    }
}
