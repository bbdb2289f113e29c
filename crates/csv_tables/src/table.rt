//! Tables: columns and rows, never changed once made, and shared by `Rc`.
//!
//! The cells stand in one list, row after row, and those of a column of whole numbers once more as
//! packed numbers.
//! Every table has at most 2^20 rows and 2^22 cells, and each row has a value per column, of that
//! column's kind:
//! `IsTable`, which `schema`, `len` and `numbers` give to callers.
ghost use Rattle.std.specs.Prelude.{◌≡◌, ◌<◌, ◌↔◌, IfOk, IfSome, IsSome, Some, length, slice_get};
ghost use Rattle.row_values.specs.declared.values.Kind.TheVariants.{Int};
ghost use Rattle.csv_tables.specs.Tables.{AreNumbers, IsKept, IsTable, cell_at, column_kinds, table_of_cells};

use crate::packed::pack;
use row_values::{Kind, OutOfMemory, Schema, Value};
use std::alloc::Global;
use std::marker::Model;

/// The most rows of a table: a row's number fits 32 bits, and a product of two tables' rows 64.
pub const ROW_LIMIT: usize = 1048576;
/// The most cells of a table: rows times columns. It bounds what a table holds in memory.
pub const CELL_LIMIT: usize = 4194304;

/// Columns and rows of values; contracts see the list of the columns and the list of the rows.
#[derive(Debug, Drop)]
pub struct Table {
    schema: Schema,
    row_count: usize,
    cells: Vec<Value>,
    /// The numbers of each column of whole numbers; of a column of texts none.
    packed: Vec<Vec<i64>>,
}

impl Model for Table {
    ghost use Rattle.std.specs.Prelude.{map};
    ghost use Rattle.csv_tables.specs.Tables.{TableValue, IsHeld, table_of_cells};

    ghost Value = { TableValue };

    ghost view = { λ t. table_of_cells t.schema t.row_count t.cells.items };

    ghost invariant = { λ t. IsHeld t.schema t.row_count t.cells.items (map (λ numbers. numbers.items) t.packed.items) };
}

impl Table {
    /// The table of these columns and of so many rows, whose cells are given row after row. It
    /// packs the numbers.
    pub(crate) fn of(
        alloc: Global,
        schema: Schema,
        row_count: usize,
        cells: Vec<Value>,
    ) -> Result<Table, OutOfMemory>
        requires { IsKept schema row_count cells.items }
        ensures { IfOk result (λ table. table ≡ table_of_cells schema row_count cells.items) }
    {
        let packed = pack(alloc, &schema, row_count, cells.as_slice())?;
        Ok(Table {
            schema,
            row_count,
            cells,
            packed,
        })
    }

    /// The columns in order.
    pub fn schema(&self) -> &Schema
        ensures value { result.now ≡ self.now.schema }
        ensures sound { IsTable self.now }
    {
        &self.schema
    }

    /// How many rows there are.
    pub fn len(&self) -> usize
        ensures value { result ≡ length self.now.rows }
        ensures sound { IsTable self.now }
    {
        self.row_count
    }

    /// The cell in this row and column, both counted from 0.
    pub fn cell(&self, row: usize, column: usize) -> &Value
        requires row { row < length self.now.rows }
        requires column { column < length self.now.schema }
        ensures { cell_at self.now row column ≡ Some result.now }
    {
        let width = self.schema.columns().len();
        &self.cells.as_slice()[row * width + column]
    }

    /// The numbers of this column, counted from 0, in row order; some exactly where it is a column
    /// of whole numbers.
    pub fn numbers(&self, column: usize) -> Option<&[i64]>
        requires { column < length self.now.schema }
        ensures found { IsSome result ↔ slice_get (column_kinds self.now.schema) column ≡ Some Int }
        ensures value { IfSome result (λ numbers. AreNumbers self.now column numbers.now) }
        ensures sound { IsTable self.now }
    {
        match self.schema.columns()[column].kind {
            Kind::Int => Some(self.packed.as_slice()[column].as_slice()),
            Kind::Text => None,
        }
    }
}
