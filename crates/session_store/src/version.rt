//! A version of a table, and what versions hold together.
//!
//! The table is shared, so a copy takes no memory. `sums_of` counts each number once, whoever holds its version.
ghost use Rattle.std.specs.Prelude.{◌≡◌, ◌≤◌, ◌*◌, ◌^◌, ◌++◌, IfOk, OnOk, length};
ghost use Rattle.catalog_model.specs.Held.{bytes_held, cells_held, cells_of, has_number as has_this_number};

use csv_tables::Table;
use row_values::OutOfMemory;
use std::alloc::Global;
use std::marker::Model;
use std::rc::Rc;

/// A version of a table: the table, the length of its file, and its number.
#[derive(Debug, Drop)]
pub struct TableVersion {
    table: Rc<Table>,
    bytes: usize,
    number: u64,
}

impl Model for TableVersion {
    ghost use Rattle.catalog_model.specs.Catalogs.{Version};
    ghost use Rattle.session_store.specs.Kept.{table_version};

    ghost Value = { Version };

    ghost view = { λ v. table_version v.table.value v.bytes v.number };
}

impl Clone for TableVersion {
    ghost use Rattle.std.specs.Prelude.{◌≡◌};

    ghost is_clone = { λ original copied. copied ≡ original };

    fn clone(&self) -> Result<TableVersion, OutOfMemory> {
        Ok(TableVersion {
            table: self.table.clone()?,
            bytes: self.bytes,
            number: self.number,
        })
    }
}

impl TableVersion {
    /// The version of this number, which holds this table.
    pub fn of(
        alloc: Global,
        table: Table,
        bytes: usize,
        number: u64,
    ) -> Result<TableVersion, OutOfMemory>
        ensures { IfOk result (λ version. version ≡ record { content = table; bytes = bytes; number = number }) }
    {
        Ok(TableVersion {
            table: Rc::new(alloc, table)?,
            bytes,
            number,
        })
    }

    /// The table.
    pub fn table(&self) -> &Rc<Table>
        ensures { result.now.value ≡ self.now.content }
    {
        &self.table
    }

    /// How many cells its table has.
    fn cells(&self) -> usize
        ensures { result ≡ cells_of self.now.content }
    {
        let rows = self.table.len();
        rows * self.table.schema().columns().len()
    }

    /// How long its file was.
    fn bytes(&self) -> usize
        ensures { result ≡ self.now.bytes }
    {
        self.bytes
    }

    /// Its number among the versions of all tables.
    fn number(&self) -> u64
        ensures { result ≡ self.now.number }
    {
        self.number
    }
}

/// Whether one of these versions has this number.
fn has_number(number: u64, versions: &[TableVersion]) -> bool
    ensures { result ≡ has_this_number number versions.now }
{
    for version in versions {
        if version.number() == number {
            return true;
        }
    }
    false
}

/// The cells and the file bytes that versions hold together.
#[derive(Clone, Copy, Debug)]
pub struct Sums {
    pub cells: u128,
    pub bytes: u128,
}

/// What these versions hold together, a version counting once.
pub fn sums_of(versions: &[TableVersion]) -> Sums
    ensures cells { result.cells ≡ cells_held versions.now }
    ensures bytes { result.bytes ≡ bytes_held versions.now }
    ensures few_cells { result.cells ≤ length versions.now * 2 ^ 64 }
    ensures few_bytes { result.bytes ≤ length versions.now * 2 ^ 64 }
{
    match versions {
        [] => Sums { cells: 0, bytes: 0 },
        [first, rest @ ..] => {
            let sums = sums_of(rest);
            if has_number(first.number(), rest) {
                return sums;
            }
            Sums {
                cells: sums.cells + first.cells() as u128,
                bytes: sums.bytes + first.bytes() as u128,
            }
        }
    }
}

/// Puts these versions behind those that are there; their tables are shared.
pub fn push_versions(
    versions: &mut Vec<TableVersion>,
    more: &[TableVersion],
) -> Result<(), OutOfMemory>
    ensures { OnOk result (versions.new.items ≡ versions.old.items ++ more.now) }
{
    for version in more {
        versions.push(version.clone()?)?;
    }
    Ok(())
}
