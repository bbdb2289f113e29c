//! The selectivity vector of a statement.
//!
//! Its numbers are counts of rows of at least 1, held in place: a statement has at most eight
//! parameterised predicates. The way in is `vector`.
ghost use Rattle.std.specs.Prelude.{◌≡◌, length};
ghost use Rattle.csv_tables.specs.StatementTables.{rows_in, tables_in};
ghost use Rattle.statement_meaning.specs.Vectors.{vector_of};
ghost use Rattle.table_index.specs.StatementIndexes.{indexes_in};
ghost use Rattle.selectivity_counts.specs.Built.{AreBuilt};

use crate::counts::count_on_place;
use csv_tables::Table;
use plan_trees::Vector;
use row_values::{Query, SELECTIVITY_LIMIT, Value, is_parameterised};
use std::rc::Rc;
use table_index::Index;

/// The selectivity vector of a statement over its tables, for these arguments; rows are counted by
/// the indexes that there are. It takes no memory.
pub fn vector(
    q: &Query,
    tables: &[Rc<Table>],
    indexes: &[Option<Rc<Index>>],
    args: &[Value],
) -> Vector
    requires one_each { length tables.now ≡ length q.now.places }
    requires built { AreBuilt q.now (tables_in tables.now) (indexes_in indexes.now) }
    ensures { result ≡ vector_of q.now (rows_in (tables_in tables.now)) args.now }
{
    let mut numbers = [0; SELECTIVITY_LIMIT];
    let mut known = 0;
    for pred in q.preds() {
        if is_parameterised(pred) {
            numbers[known] = count_on_place(q, tables, indexes, pred, args).max(1);
            known += 1;
        }
    }
    match Vector::of(&numbers[..known]) {
        Some(vector) => vector,
        None => unreachable!(),
    }
}
