//! Laws on tables. Their promise is the clause; there is nothing to run.
ghost use Rattle.std.specs.Prelude.{◌≡◌, List, Ok, ℕ};
ghost use Rattle.csv_tables.specs.Spelled.{table_of};
ghost use Rattle.csv_tables.specs.Tables.{IsTable, TableValue};

/// What the bytes of a file spell is a table: its columns are a schema, it is within the limits, and
/// each row has a value per column, of that column's kind.
pub fn spelled_is_a_table()
    ensures { (bytes : List ℕ) (table : TableValue) → table_of bytes ≡ Ok table → IsTable table }
{}
