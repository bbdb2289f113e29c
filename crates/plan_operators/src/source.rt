//! What operators read, and what they give: a statement with its tables, and sides of joins.
ghost use Rattle.std.specs.Prelude.{◌≡◌, slice_get};
ghost use Rattle.std.specs.Option.{option_map};
ghost use Rattle.csv_tables.specs.StatementTables.{tables_in};

use crate::combos::Combo;
use csv_tables::Table;
use row_values::{Query, Value};
use std::rc::Rc;
use table_index::Index;

/// A statement with arguments over the tables of its places, and the indexes of these: one entry
/// for each place and column, place by place.
#[derive(Clone, Copy)]
pub struct Source<'a> {
    pub q: &'a Query,
    pub tables: &'a [Rc<Table>],
    pub indexes: &'a [Option<Rc<Index>>],
    pub args: &'a [Value],
}

/// The combinations that a part of a plan gives, over this set of places.
#[derive(Debug, Drop)]
pub(crate) struct Side {
    pub(crate) places: u8,
    pub(crate) combos: Vec<Combo>,
}

/// The table of a place, if there is one.
pub(crate) fn table_of(tables: &[Rc<Table>], place: u8) -> Option<&Table>
    ensures { option_map (λ table. table.now) result ≡ slice_get (tables_in tables.now) place }
{
    match tables.get(usize::from(place)) {
        Some(table) => Some(table),
        None => None,
    }
}
