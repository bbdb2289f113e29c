//! A cell of a table, where there is one.
ghost use Rattle.std.specs.Prelude.{◌≡◌, [], slice_get, slice_index_or};
ghost use Rattle.std.specs.Option.{option_map};

use csv_tables::Table;
use row_values::Value;

/// The cell in this row and column, both counted from 0; none where the table has no such row or
/// column.
#[inline]
#[tactic(auto, using(crate::proofs::NoCell::no_row, crate::proofs::NoCell::no_column))]
pub fn cell_in(table: &Table, row: usize, column: usize) -> Option<&Value>
    ensures { option_map (λ cell. cell.now) result ≡ slice_get (slice_index_or table.now.rows row []) column }
{
    if row >= table.len() {
        return None;
    }
    if column >= table.schema().columns().len() {
        return None;
    }
    Some(table.cell(row, column))
}
