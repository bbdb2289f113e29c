//! Columns and schemas: what the cells of a table are called and which kind they have.
//!
//! Every `Schema` has at most 64 columns, none without a name and no name twice; `Schema::of` is
//! the one way in.
ghost use Rattle.std.specs.Prelude.{◌≡◌, ◌≤◌, ◌↔◌, IfOk, IfSome, IsSome, IsTrue};
ghost use Rattle.row_values.specs.Columns.{IsSchema, is_name_in, are_names};

use crate::OutOfMemory;
use crate::text::Words;
use crate::values::Kind;
use std::alloc::Global;
use std::marker::Model;

/// The most columns of a table: a row stays small, and a set of columns fits 64 bits.
pub const COLUMN_LIMIT: usize = 64;

/// A column of a table: its name and the kind of its cells.
#[derive(Debug, Drop)]
pub struct Column {
    pub name: Words,
    pub kind: Kind,
}

/// The columns of a table in order; contracts see the list.
#[derive(Debug, Drop)]
pub struct Schema {
    columns: Vec<Column>,
}

impl Model for Schema {
    ghost use Rattle.std.specs.Prelude.{List};
    ghost use Rattle.row_values.specs.declared.columns.Column.{Column};

    ghost Value = { List Column };

    ghost use Rattle.row_values.specs.Columns.{IsSchema};

    ghost view = { λ s. s.columns.items };

    ghost invariant = { λ s. IsSchema s.columns.items };
}

/// Whether one of these columns has the name.
fn has_name(columns: &[Column], name: &Words) -> bool
    ensures { result ≡ is_name_in name.now columns.now }
{
    for column in columns {
        if column.name == *name {
            return true;
        }
    }
    false
}

/// Whether no name is empty or stands twice.
fn names_differ(columns: &[Column]) -> bool
    ensures { result ≡ are_names columns.now }
{
    for (i, column) in columns.iter().enumerate() {
        if column.name.as_str().is_empty() {
            return false;
        }
        if has_name(&columns[i + 1..], &column.name) {
            return false;
        }
    }
    true
}

impl Schema {
    /// These columns as a schema; none exactly where there are more than 64, or a name is empty or
    /// stands
    /// twice. It takes no memory.
    pub fn of(columns: Vec<Column>) -> Option<Schema>
        ensures value { IfSome result (λ schema. schema ≡ columns.items) }
        ensures found { IsSome result ↔ IsSchema columns.items }
    {
        if columns.len() > COLUMN_LIMIT {
            return None;
        }
        if !names_differ(columns.as_slice()) {
            return None;
        }
        Some(Schema { columns })
    }

    /// The columns in order.
    pub fn columns(&self) -> &[Column]
        ensures value { result.now ≡ self.now }
        ensures sound { IsSchema self.now }
    {
        self.columns.as_slice()
    }

    /// The same schema a second time.
    pub fn copy(&self, alloc: Global) -> Result<Schema, OutOfMemory>
        ensures { IfOk result (λ schema. schema ≡ self.now) }
    {
        let mut columns = Vec::new(alloc);
        for column in &self.columns {
            columns.push(Column {
                name: column.name.copy(alloc)?,
                kind: column.kind,
            })?;
        }
        Ok(Schema { columns })
    }
}
