//! A table that is held: its present version, and an index over each column that has one.
//!
//! Each index was built of this version over its column: a new version builds all of them over its own rows. What is
//! held is shared, so a copy takes no memory. The ways in are `Held::first`, `Held::next` and `Held::with_index`.
ghost use Rattle.std.specs.Prelude.{◌≡◌, ◌<◌, ◌++◌, None, IfOk, IfSome, OnOk, is_some, length, map, set};
ghost use Rattle.std.specs.Prelude.{slice_index_or};
ghost use Rattle.std.specs.Prelude.{true, false};
ghost use Rattle.std.specs.Rc.{rc_value};
ghost use Rattle.csv_tables.specs.StatementTables.{tables_in};
ghost use Rattle.table_index.specs.Indexes.{IsBuilt};
ghost use Rattle.table_index.specs.StatementIndexes.{indexes_in};
ghost use Rattle.selectivity_counts.specs.Kept.{AreDistinctsOf, distinct_counts};
ghost use Rattle.session_store.specs.Kept.{AreBuilt, IsIndexed, contents_of, entries_of, flags_of, unindexed};

use crate::version::TableVersion;
use csv_tables::Table;
use row_values::{Column, OutOfMemory};
use selectivity_counts::Distincts;
use std::alloc::Global;
use std::marker::Model;
use std::rc::Rc;
use table_index::Index;

/// A version of a table, and for each column its index, where there is one.
#[derive(Debug, Drop)]
pub struct Held {
    version: TableVersion,
    indexes: Rc<Vec<Option<Rc<Index>>>>,
    /// The distinct counts of the columns, once a statement reads the table.
    distincts: Option<Rc<Distincts>>,
}

impl Model for Held {
    ghost use Rattle.session_store.specs.Kept.{HeldTable, IsHeldTable, held_table};

    ghost Value = { HeldTable };

    ghost view = { λ h. held_table h.version h.indexes.value.items };

    ghost invariant = { λ h. IsHeldTable (held_table h.version h.indexes.value.items) h.distincts };
}

impl Clone for Held {
    ghost use Rattle.std.specs.Prelude.{◌≡◌};

    ghost is_clone = { λ original copied. copied ≡ original };

    fn clone(&self) -> Result<Held, OutOfMemory> {
        Ok(Held {
            version: self.version.clone()?,
            indexes: self.indexes.clone()?,
            distincts: self.distincts.clone()?,
        })
    }
}

/// No index, for each of these columns.
fn no_indexes(alloc: Global, columns: &[Column]) -> Result<Vec<Option<Rc<Index>>>, OutOfMemory>
    ensures { IfOk result (λ indexes. indexes_in indexes.items ≡ map (λ column. None) columns.now) }
{
    let mut indexes = Vec::with_capacity(alloc, columns.len())?;
    for _column in columns {
        indexes.push(None)?;
    }
    Ok(indexes)
}

/// The index of a table over this column, where it is wanted.
fn index_if(
    alloc: Global,
    table: &Table,
    column: u8,
    wanted: bool,
) -> Result<Option<Rc<Index>>, OutOfMemory>
    requires { column < length table.now.schema }
    ensures flag { IfOk result (λ entry. is_some entry ≡ wanted) }
    ensures built { IfOk result (λ entry. IfSome entry (λ index. IsBuilt table.now column index.value)) }
{
    if !wanted {
        return Ok(None);
    }
    let index = Index::build(alloc, table, column)?;
    Ok(Some(Rc::new(alloc, index)?))
}

/// The indexes of a table over those columns over which there was one.
fn rebuilt(
    alloc: Global,
    table: &Table,
    before: &[Option<Rc<Index>>],
) -> Result<Vec<Option<Rc<Index>>>, OutOfMemory>
    requires { length before.now ≡ length table.now.schema }
    ensures flags { IfOk result (λ indexes. flags_of (indexes_in indexes.items) ≡ flags_of (indexes_in before.now)) }
    ensures built { IfOk result (λ indexes. AreBuilt table.now (indexes_in indexes.items)) }
{
    let mut indexes = Vec::with_capacity(alloc, before.len())?;
    for column in 0..table.schema().columns().len() {
        let wanted = before[column].is_some();
        indexes.push(index_if(alloc, table, column as u8, wanted)?)?;
    }
    Ok(indexes)
}

/// The distinct counts of a table, where they are wanted.
fn counts_if(
    alloc: Global,
    table: &Table,
    wanted: bool,
) -> Result<Option<Rc<Distincts>>, OutOfMemory>
    ensures { IfOk result (λ distincts. IfSome distincts (λ counts. counts.value ≡ distinct_counts table.now)) }
{
    if !wanted {
        return Ok(None);
    }
    let counts = Distincts::of(alloc, table)?;
    Ok(Some(Rc::new(alloc, counts)?))
}

/// Puts these entries behind those that are there; the indexes are shared.
fn push_entries(
    entries: &mut Vec<Option<Rc<Index>>>,
    more: &[Option<Rc<Index>>],
) -> Result<(), OutOfMemory>
    ensures { OnOk result (indexes_in entries.new.items ≡ indexes_in entries.old.items ++ indexes_in more.now) }
{
    for entry in more {
        entries.push(entry.clone()?)?;
    }
    Ok(())
}

impl Held {
    /// The first version of a table: no column has an index.
    pub fn first(alloc: Global, version: TableVersion) -> Result<Held, OutOfMemory>
        ensures { IfOk result (λ held. held ≡ unindexed version) }
    {
        let indexes = no_indexes(alloc, version.table().schema().columns())?;
        Ok(Held {
            version,
            indexes: Rc::new(alloc, indexes)?,
            distincts: None,
        })
    }

    /// The next version of this table: the columns that had an index have one over the new rows, and where distinct
    /// counts were kept they are those of the new rows.
    pub fn next(&self, alloc: Global, version: TableVersion) -> Result<Held, OutOfMemory>
        requires { length version.content.schema ≡ length self.now.version.content.schema }
        ensures version { IfOk result (λ held. held.version ≡ version) }
        ensures flags { IfOk result (λ held. flags_of held.indexes ≡ flags_of self.now.indexes) }
    {
        let indexes = rebuilt(alloc, version.table(), self.indexes.as_slice())?;
        let distincts = counts_if(alloc, version.table(), self.distincts.is_some())?;
        Ok(Held {
            version,
            indexes: Rc::new(alloc, indexes)?,
            distincts,
        })
    }

    /// The same version with an index over this column; one that is there is kept.
    pub fn with_index(&self, alloc: Global, column: u8) -> Result<Held, OutOfMemory>
        requires { column < length self.now.version.content.schema }
        ensures version { IfOk result (λ held. held.version ≡ self.now.version) }
        ensures flags { IfOk result (λ held. flags_of held.indexes ≡ set (flags_of self.now.indexes) column true) }
    {
        if self.has_index(column) {
            let same = self.clone()?;
            return Ok(same);
        }
        let index = Index::build(alloc, self.version.table(), column)?;
        let mut indexes = Vec::with_capacity(alloc, self.indexes.len())?;
        push_entries(&mut indexes, self.indexes.as_slice())?;
        indexes[usize::from(column)] = Some(Rc::new(alloc, index)?);
        Ok(Held {
            version: self.version.clone()?,
            indexes: Rc::new(alloc, indexes)?,
            distincts: self.distincts.clone()?,
        })
    }

    /// The distinct counts of the columns: those that are kept, or made here.
    fn distincts(&self, alloc: Global) -> Result<Rc<Distincts>, OutOfMemory>
        ensures { IfOk result (λ counts. counts.value ≡ distinct_counts self.now.version.content) }
    {
        match &self.distincts {
            Some(counts) => counts.clone(),
            None => {
                let counts = Distincts::of(alloc, self.version.table())?;
                Ok(Rc::new(alloc, counts)?)
            }
        }
    }

    /// The same with its distinct counts kept.
    pub fn counted(&self, alloc: Global) -> Result<Held, OutOfMemory>
        ensures { IfOk result (λ held. held ≡ self.now) }
    {
        let distincts = self.distincts(alloc)?;
        Ok(Held {
            version: self.version.clone()?,
            indexes: self.indexes.clone()?,
            distincts: Some(distincts),
        })
    }

    /// Whether its distinct counts are kept.
    pub fn is_counted(&self) -> bool {
        self.distincts.is_some()
    }

    /// Whether this column has an index.
    pub fn has_index(&self, column: u8) -> bool
        requires { column < length self.now.version.content.schema }
        ensures { result ≡ slice_index_or (flags_of self.now.indexes) column false }
    {
        self.indexes.as_slice()[usize::from(column)].is_some()
    }

    /// The version.
    pub fn version(&self) -> &TableVersion
        ensures { result.now ≡ self.now.version }
    {
        &self.version
    }

    /// The table.
    pub fn table(&self) -> &Rc<Table>
        ensures { result.now.value ≡ self.now.version.content }
    {
        self.version.table()
    }

    /// There is an entry for each column, and each index was built of this version.
    pub fn sound(&self)
        ensures { IsIndexed self.now }
    {
        let _version = &self.version;
    }
}

/// The tables of these, shared.
pub fn tables_of(alloc: Global, held: &[Held]) -> Result<Vec<Rc<Table>>, OutOfMemory>
    ensures { IfOk result (λ tables. tables_in tables.items ≡ contents_of held.now) }
{
    let mut tables = Vec::with_capacity(alloc, held.len())?;
    for one in held {
        tables.push(one.table().clone()?)?;
    }
    Ok(tables)
}

/// The entries of all columns of these, one table's behind the other's.
pub fn indexes_of(alloc: Global, held: &[Held]) -> Result<Vec<Option<Rc<Index>>>, OutOfMemory>
    ensures { IfOk result (λ indexes. indexes_in indexes.items ≡ entries_of held.now) }
{
    let mut indexes = Vec::new(alloc);
    for one in held {
        push_entries(&mut indexes, one.indexes.as_slice())?;
    }
    Ok(indexes)
}

/// The distinct counts of these, those that are kept and those that are made here.
pub fn distincts_of(alloc: Global, held: &[Held]) -> Result<Vec<Rc<Distincts>>, OutOfMemory>
    ensures { IfOk result (λ distincts. AreDistinctsOf (contents_of held.now) (map rc_value distincts.items)) }
{
    let mut distincts = Vec::with_capacity(alloc, held.len())?;
    for one in held {
        distincts.push(one.distincts(alloc)?)?;
    }
    Ok(distincts)
}
