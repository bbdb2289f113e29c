//! Tests that tables are those of a statement's places.
ghost use Rattle.std.specs.Prelude.{◌≡◌, IsTrue, map};
ghost use Rattle.csv_tables.specs.StatementTables.{AreTablesOf, tables_in};

use csv_tables::Table;
use row_values::{Column, Place, Query};
use std::rc::Rc;

/// Whether the two have the same name and kind.
fn is_same(column: &Column, other: &Column) -> bool
    ensures { IsTrue result → column.now ≡ other.now }
{
    column.name == other.name && column.kind == other.kind
}

/// Whether the two lists have the same names and kinds in order.
fn are_same(columns: &[Column], others: &[Column]) -> bool
    ensures { IsTrue result → columns.now ≡ others.now }
{
    match (columns, others) {
        ([], []) => true,
        ([column, columns @ ..], [other, others @ ..]) => {
            is_same(column, other) && are_same(columns, others)
        }
        _ => false,
    }
}

/// Whether the tables are one for each place, with its columns.
fn have_columns(tables: &[Rc<Table>], places: &[Place]) -> bool
    ensures { IsTrue result → map (λ table. table.schema) (tables_in tables.now)
        ≡ map (λ place. place.schema) places.now }
{
    match (tables, places) {
        ([], []) => true,
        ([table, tables @ ..], [place, places @ ..]) => {
            are_same(table.schema().columns(), place.schema.columns())
                && have_columns(tables, places)
        }
        _ => false,
    }
}

/// Whether the tables are those of the statement's places.
pub(crate) fn are_tables_of(q: &Query, tables: &[Rc<Table>]) -> bool
    ensures { IsTrue result → AreTablesOf q.now (tables_in tables.now) }
{
    have_columns(tables, q.places())
}
