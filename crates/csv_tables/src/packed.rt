//! Packing: the numbers of each column of whole numbers as one list of 8 bytes each.
//!
//! A count, a scan or a sort over such a column reads that list alone. The one way in is `pack`.
ghost use Rattle.std.specs.Prelude.{◌≡◌, IfOk, Some, map, slice_get};
ghost use Rattle.row_values.specs.declared.values.Kind.TheVariants.{Int};
ghost use Rattle.csv_tables.specs.Tables.{AreNumbers, ArePacked, IsKept, column_kinds, table_of_cells};

use row_values::{Kind, OutOfMemory, Schema, Value};
use std::alloc::Global;

/// The numbers of a column of whole numbers, of so many rows whose cells stand row after row.
fn pack_column(
    alloc: Global,
    schema: &Schema,
    row_count: usize,
    cells: &[Value],
    column: usize,
) -> Result<Vec<i64>, OutOfMemory>
    requires kept { IsKept schema.now row_count cells.now }
    requires kind { slice_get (column_kinds schema.now) column ≡ Some Int }
    ensures { IfOk result (λ numbers. AreNumbers (table_of_cells schema.now row_count cells.now) column numbers.items) }
{
    let width = schema.columns().len();
    let mut numbers = Vec::with_capacity(alloc, row_count)?;
    for row in 0..row_count {
        match &cells[row * width + column] {
            Value::Int(number) => numbers.push(*number)?,
            Value::Text(_) => unreachable!(),
        }
    }
    Ok(numbers)
}

/// For each column its numbers, where it is a column of whole numbers, and else none.
pub(crate) fn pack(
    alloc: Global,
    schema: &Schema,
    row_count: usize,
    cells: &[Value],
) -> Result<Vec<Vec<i64>>, OutOfMemory>
    requires { IsKept schema.now row_count cells.now }
    ensures { IfOk result (λ packed. ArePacked (table_of_cells schema.now row_count cells.now)
        (map (λ numbers. numbers.items) packed.items)) }
{
    let mut packed = Vec::new(alloc);
    for (column, this) in schema.columns().iter().enumerate() {
        match this.kind {
            Kind::Int => packed.push(pack_column(alloc, schema, row_count, cells, column)?)?,
            Kind::Text => packed.push(Vec::new(alloc))?,
        }
    }
    Ok(packed)
}
