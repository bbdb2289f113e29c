//! Loading a table: its first version, or a new one in the place of the one before.
ghost use Rattle.std.specs.Prelude.{◌≡◌, ◌<◌, ◌^◌, IfOk, List, false, None};
ghost use Rattle.std.specs.Option.{option_map};
ghost use Rattle.csv_tables.specs.Tables.{IsTable};
ghost use Rattle.catalog_model.specs.Catalogs.{Version, find_table, put_version, next_version};
ghost use Rattle.catalog_model.specs.Faults.{fault_text as shown_fault};
ghost use Rattle.catalog_model.specs.Held.{bytes_held, cells_held, held_by, present_versions};
ghost use Rattle.catalog_model.specs.Loading as loading;
ghost use Rattle.session_store.specs.Outcomes.{Loads, Keeps};
ghost use Rattle.session_store.specs.Kept.{put_held};

use crate::faults::StoreFault;
use crate::held::Held;
use crate::store::Store;
use crate::version::{Sums, TableVersion, push_versions, sums_of};
use catalog_model::{HELD_BYTE_LIMIT, HELD_CELL_LIMIT, TABLE_LIMIT};
use csv_tables::{Table, TableFault, read_table};
use outside_model::FILE_LIMIT;
use row_values::{Column, Kind, OutOfMemory, Refusal, Words, canonical_name};
use std::alloc::Global;

/// Whether the two are one kind.
pub fn is_same_kind(a: Kind, b: Kind) -> bool
    ensures { result ≡ loading.is_same_kind a b }
{
    match (a, b) {
        (Kind::Int, Kind::Int) => true,
        (Kind::Text, Kind::Text) => true,
        _ => false,
    }
}

/// Whether the two lists have the same names and kinds in order.
#[tactic(auto, using(crate::proofs::Versions::uneven))]
fn are_same_columns(olds: &[Column], news: &[Column]) -> bool
    ensures { result ≡ loading.are_same_columns olds.now news.now }
{
    match (olds, news) {
        ([], []) => true,
        ([], [_, ..]) => false,
        ([_, ..], []) => false,
        ([old, olds @ ..], [new, news @ ..]) => {
            old.name == new.name && is_same_kind(old.kind, new.kind) && are_same_columns(olds, news)
        }
    }
}

/// What is shown of a fault that makes a file no table.
fn fault_text(alloc: Global, fault: TableFault) -> Result<Words, OutOfMemory>
    ensures { IfOk result (λ text. text ≡ shown_fault fault) }
{
    let text = match fault {
        TableFault::Columns => String::from_str(alloc, "columns")?,
        TableFault::BadHeader(column) => format!(in alloc; "bad header {column}")?,
        TableFault::Rows => String::from_str(alloc, "rows")?,
        TableFault::Cells => String::from_str(alloc, "cells")?,
        TableFault::NotCsv(row) => format!(in alloc; "not csv {row}")?,
        TableFault::BadCell(row, column) => format!(in alloc; "bad cell {row} {column}")?,
        TableFault::Memory => String::new(alloc),
    };
    Ok(Words::from_string(text))
}

/// Which limit is passed by so many tables and by versions that hold this together, the first of them.
fn passed_limit(tables: usize, sums: Sums) -> Option<&'static str>
    ensures { (versions : List Version) → sums.cells ≡ cells_held versions → sums.bytes ≡ bytes_held versions
        → option_map (λ limit. limit.now) result ≡ loading.passed_limit tables versions }
{
    if tables > TABLE_LIMIT {
        return Some("tables");
    }
    if sums.cells > HELD_CELL_LIMIT as u128 {
        return Some("cells");
    }
    if sums.bytes > HELD_BYTE_LIMIT as u128 {
        return Some("bytes");
    }
    None
}

impl Store {
    /// Whether a table of this name is loaded with other columns than this one's.
    fn has_other_columns(&self, name: &Words, table: &Table) -> bool
        ensures { result ≡ loading.has_other_columns (find_table self.now.catalog.tables name.now) table.now }
    {
        match self.tables.get(name) {
            None => false,
            Some(held) => !are_same_columns(
                held.table().schema().columns(),
                table.schema().columns(),
            ),
        }
    }

    /// The present version of each table.
    fn present(&self) -> Result<Vec<TableVersion>, OutOfMemory>
        ensures { IfOk result (λ versions. versions.items ≡ present_versions self.now.catalog.tables) }
    {
        let mut versions = Vec::with_capacity(self.alloc, self.tables.len())?;
        for (_name, held) in self.tables.iter() {
            versions.push(held.version().clone()?)?;
        }
        Ok(versions)
    }

    /// The present version of each table once this one is put under this name.
    fn present_with(
        &self,
        name: &Words,
        new: &TableVersion,
    ) -> Result<Vec<TableVersion>, OutOfMemory>
        ensures { IfOk result (λ versions. versions.items
            ≡ present_versions (put_version self.now.catalog.tables name.now new.now)) }
    {
        let mut versions = self.present()?;
        let Some(number) = self.tables.get_index_of(name) else {
            versions.push(new.clone()?)?;
            return Ok(versions);
        };
        versions[number] = new.clone()?;
        Ok(versions)
    }

    /// Which limit is passed once this version is put under this name, the first of them.
    fn limit_with(
        &self,
        name: &Words,
        new: &TableVersion,
    ) -> Result<Option<&'static str>, OutOfMemory>
        ensures { IfOk result (λ limit. option_map (λ text. text.now) limit ≡ loading.limit_passed_by
            (held_by self.now.cursors) (put_version self.now.catalog.tables name.now new.now)) }
    {
        let present = self.present_with(name, new)?;
        let mut versions = self.held_versions()?;
        push_versions(&mut versions, present.as_slice())?;
        Ok(passed_limit(present.len(), sums_of(versions.as_slice())))
    }

    /// What is held under this name with this as the table's next version.
    fn next_held(&self, name: &Words, new: TableVersion) -> Result<Held, OutOfMemory>
        requires { loading.has_other_columns (find_table self.now.catalog.tables name.now) new.content ≡ false }
        ensures version { IfOk result (λ held. held.version ≡ new) }
        ensures put { IfOk result (λ held. put_held self.now.catalog.tables name.now held
            ≡ put_version self.now.catalog.tables name.now new) }
    {
        match self.tables.get(name) {
            None => Held::first(self.alloc, new),
            Some(before) => before.next(self.alloc, new),
        }
    }

    /// Puts the version under its name, in the place of the version before or behind the others.
    fn put(&mut self, name: &Words, new: TableVersion) -> Result<(), StoreFault>
        requires sound { IsTable new.content }
        requires columns { loading.has_other_columns (find_table self.old.catalog.tables name.now) new.content
            ≡ false }
        requires number { new.number ≡ self.old.catalog.versions }
        requires limits { loading.limit_passed_by (held_by self.old.cursors)
            (put_version self.old.catalog.tables name.now new) ≡ None }
        requires versions { self.old.catalog.versions < 2 ^ 62 }
        ensures value { Keeps self.old.catalog name.now new result self.new.catalog }
        ensures cursors { self.new.cursors ≡ self.old.cursors }
    {
        let held = self.next_held(name, new)?;
        let measures = self.measures_with(name, &held)?;
        self.tables.insert(name.copy(self.alloc)?, held)?;
        self.measures = measures;
        self.versions += 1;
        Ok(())
    }

    /// Keeps a table under this name, unless its columns differ from those of the version before or a limit is passed.
    fn keep(&mut self, name: &Words, table: Table, bytes: usize) -> Result<(u32, u32), StoreFault>
        requires { self.old.catalog.versions < 2 ^ 62 }
        ensures value { Loads (loading.keeping_of (held_by self.old.cursors) self.old.catalog.tables name.now
            (next_version self.old.catalog table bytes)) self.old.catalog name.now result self.new.catalog }
        ensures cursors { self.new.cursors ≡ self.old.cursors }
    {
        if self.has_other_columns(name, &table) {
            let shown = canonical_name(self.alloc, name.as_str())?;
            return Err(StoreFault::Refused(Refusal::schema_differs(shown)));
        }
        let rows = table.len() as u32;
        let columns = table.schema().columns().len() as u32;
        let new = TableVersion::of(self.alloc, table, bytes, self.versions)?;
        if let Some(limit) = self.limit_with(name, &new)? {
            return Err(StoreFault::Refused(Refusal::store_limit(self.alloc, limit)?));
        }
        self.put(name, new)?;
        Ok((rows, columns))
    }

    /// Loads the table that the file spells under this name, and tells its rows and columns. It is refused where the
    /// file is too long or no table, the columns differ from those of the version before, or a limit is passed.
    #[tactic(auto, unfolding(catalog_model::specs::Loading::loading_of))]
    pub fn load(&mut self, table: &Words, bytes: &[u8]) -> Result<(u32, u32), StoreFault>
        requires { self.old.catalog.versions < 2 ^ 62 }
        ensures value { Loads (loading.loading_of (held_by self.old.cursors) self.old.catalog table.now bytes.now)
            self.old.catalog table.now result self.new.catalog }
        ensures cursors { self.new.cursors ≡ self.old.cursors }
    {
        if bytes.len() > FILE_LIMIT {
            return Err(StoreFault::Refused(Refusal::file_too_long(self.alloc)));
        }
        match read_table(self.alloc, bytes) {
            Err(TableFault::Memory) => Err(StoreFault::Memory),
            Err(fault) => {
                let shown = fault_text(self.alloc, fault)?;
                Err(StoreFault::Refused(Refusal::not_a_table(shown)))
            }
            Ok(content) => self.keep(table, content, bytes.len()),
        }
    }
}
