//! The catalog, and what it tells.
ghost use Rattle.std.specs.Prelude.{◌≡◌, ◌<◌, List, length, slice_get, IfOk, IfSome, IfNone, All, Some, None};
ghost use Rattle.std.specs.Option.{option_map};
ghost use Rattle.row_values.specs.Statements.{Statement as Bound};
ghost use Rattle.csv_tables.specs.StatementTables.{AreTablesOf, rows_in, tables_in};
ghost use Rattle.csv_tables.specs.Tables.{TableValue};
ghost use Rattle.plan_trees.specs.Statistics.{AreWeights};
ghost use Rattle.table_index.specs.StatementIndexes.{AreIndexesOf, indexes_in, masks_of};
ghost use Rattle.catalog_model.specs.Catalogs.{ArePresent, find_statement, masks_now, number_of};
ghost use Rattle.catalog_model.specs.Catalogs.{reads_table, tables_of};
ghost use Rattle.catalog_model.specs.Sound.{IsLoaded};
ghost use Rattle.session_store.specs.Kept.{AreHeld, empty_state};

use crate::cursors::OpenCursor;
use crate::held;
use crate::held::Held;
use crate::measures::Measure;
use csv_tables::Table;
use indexmap::IndexMap;
use name_binder::Schemas;
use plan_trees::Weights;
use row_values::{OutOfMemory, Place, Query, Schema, Words};
use std::alloc::Global;
use std::marker::Model;
use std::rc::Rc;
use table_index::Index;

/// The tables and statements of a session, and its open cursors with what they hold; contracts see a catalog, which is
/// sound, and the cursors.
#[derive(Drop)]
pub struct Store {
    pub(crate) alloc: Global,
    pub(crate) weights: Weights,
    pub(crate) tables: IndexMap<Words, Held>,
    pub(crate) statements: IndexMap<Words, Query>,
    /// The measure of each statement over the present tables, in their order.
    pub(crate) measures: Vec<Measure>,
    /// In the order in which they came.
    pub(crate) cursors: Vec<OpenCursor>,
    pub(crate) versions: u64,
}

impl Model for Store {
    ghost use Rattle.session_store.specs.Kept.{IsKept, StoreState, state_in};

    ghost Value = { StoreState };

    ghost view = { λ s. state_in s.tables.entries s.statements.entries s.versions s.weights s.cursors.items };

    ghost invariant = { λ s. IsKept
        (state_in s.tables.entries s.statements.entries s.versions s.weights s.cursors.items) s.measures.items };
}

impl Schemas for Store {
    ghost use Rattle.catalog_model.specs.Catalogs.{schemas_of};

    ghost tables = { λ s. schemas_of s.catalog.tables };

    fn schema(&self, table: &str) -> Option<&Schema> {
        for (name, held) in self.tables.iter() {
            if name.as_str() == table {
                return Some(held.table().schema());
            }
        }
        None
    }
}

impl Store {
    /// Nothing is kept yet. It takes no memory.
    pub fn new(alloc: Global, weights: Weights) -> Store
        requires { AreWeights weights }
        ensures { result ≡ empty_state weights }
    {
        Store {
            alloc,
            weights,
            tables: IndexMap::new(alloc),
            statements: IndexMap::new(alloc),
            measures: Vec::new(alloc),
            cursors: Vec::new(alloc),
            versions: 0,
        }
    }

    /// How many versions of tables there were: the number of the next one.
    pub fn versions(&self) -> u64
        ensures { result ≡ self.now.catalog.versions }
    {
        self.versions
    }

    /// The number of the statement of this name, from 0; none exactly where there is none.
    pub fn find(&self, name: &Words) -> Option<u32>
        ensures found { IfSome result (λ number. option_map (λ s. s.statement)
            (slice_get self.now.catalog.statements number) ≡ find_statement self.now.catalog.statements name.now) }
        ensures within { IfSome result (λ number. number < length self.now.catalog.statements) }
        ensures none { IfNone result (find_statement self.now.catalog.statements name.now ≡ None) }
        ensures number { result ≡ number_of self.now.catalog.statements name.now }
    {
        match self.statements.get_index_of(name) {
            None => None,
            Some(number) => Some(number as u32),
        }
    }

    /// The statement of this number. Its tables are loaded, with the columns that it knows.
    pub fn query(&self, statement: u32) -> &Query
        requires { statement < length self.now.catalog.statements }
        ensures value { option_map (λ s. s.statement) (slice_get self.now.catalog.statements statement)
            ≡ Some result.now }
        ensures loaded { All (IsLoaded self.now.catalog.tables) result.now.places }
    {
        match self.statements.as_slice().get_index(statement as usize) {
            Some((_, q)) => q,
            None => unreachable!(),
        }
    }

    /// Whether the statement of this number reads the table of this name, under whatever alias.
    pub fn reads(&self, statement: u32, table: &Words) -> bool
        requires { statement < length self.now.catalog.statements }
        ensures { (q : Bound) → option_map (λ s. s.statement) (slice_get self.now.catalog.statements statement) ≡ Some q
            → result ≡ reads_table table.now q.places }
    {
        is_read(table, self.query(statement).places())
    }

    /// What is held of the table of each of these places, in their order.
    pub(crate) fn held_of(&self, places: &[Place]) -> Result<Vec<Held>, OutOfMemory>
        requires { All (IsLoaded self.now.catalog.tables) places.now }
        ensures { IfOk result (λ held. AreHeld self.now.catalog.tables places.now held.items) }
    {
        let mut held = Vec::with_capacity(self.alloc, places.len())?;
        for place in places {
            match self.tables.get(&place.table) {
                Some(one) => {
                    one.sound();
                    held.push(one.clone()?)?;
                }
                None => unreachable!(),
            }
        }
        Ok(held)
    }

    /// The present table of each place of the statement of this number, in FROM order.
    pub fn tables_of(&self, statement: u32) -> Result<Vec<Rc<Table>>, OutOfMemory>
        requires { statement < length self.now.catalog.statements }
        ensures rows { IfOk result (λ tables. (q : Bound)
            → option_map (λ s. s.statement) (slice_get self.now.catalog.statements statement) ≡ Some q
            → rows_in (tables_in tables.items) ≡ tables_of self.now.catalog.tables q) }
        ensures columns { IfOk result (λ tables. (q : Bound)
            → option_map (λ s. s.statement) (slice_get self.now.catalog.statements statement) ≡ Some q
            → AreTablesOf q (tables_in tables.items)) }
        ensures present { IfOk result (λ tables. (q : Bound)
            → option_map (λ s. s.statement) (slice_get self.now.catalog.statements statement) ≡ Some q
            → ArePresent self.now.catalog.tables q (tables_in tables.items)) }
    {
        let held = self.held_of(self.query(statement).places())?;
        let tables = held::tables_of(self.alloc, held.as_slice())?;
        Ok(tables)
    }

    /// The indexes of the statement of this number: an entry for each place and column, place by place.
    pub fn indexes_of(&self, statement: u32) -> Result<Vec<Option<Rc<Index>>>, OutOfMemory>
        requires { statement < length self.now.catalog.statements }
        ensures built { IfOk result (λ indexes. (q : Bound) (tables : List TableValue)
            → option_map (λ s. s.statement) (slice_get self.now.catalog.statements statement) ≡ Some q
            → ArePresent self.now.catalog.tables q tables → AreIndexesOf q tables (indexes_in indexes.items)) }
        ensures masks { IfOk result (λ indexes. (q : Bound)
            → option_map (λ s. s.statement) (slice_get self.now.catalog.statements statement) ≡ Some q
            → masks_of q.places indexes.items ≡ masks_now self.now.catalog.tables q) }
    {
        let held = self.held_of(self.query(statement).places())?;
        let indexes = held::indexes_of(self.alloc, held.as_slice())?;
        Ok(indexes)
    }
}

/// Whether one of these places reads the table of this name.
pub(crate) fn is_read(table: &Words, places: &[Place]) -> bool
    ensures { result ≡ reads_table table.now places.now }
{
    for place in places {
        if place.table == *table {
            return true;
        }
    }
    false
}
