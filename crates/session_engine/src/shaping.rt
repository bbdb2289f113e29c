//! A statement's rows by a plan: its combinations are pulled one at a time into a shaper.
//!
//! No list of all combinations is made. The way in is `rows_by`.
ghost use Rattle.std.specs.Prelude.{◌≡◌, ◌≤◌, ◌^◌, length};
ghost use Rattle.csv_tables.specs.StatementTables.{AreTablesOf, rows_in, tables_in};
ghost use Rattle.table_index.specs.StatementIndexes.{AreIndexesOf, indexes_in, masks_of};
ghost use Rattle.plan_trees.specs.PlanSpace.{IsValidTop};
ghost use Rattle.plan_trees.specs.Trees.{top_tree};
ghost use Rattle.statement_meaning.specs.Combinations.{kept_combinations};
ghost use Rattle.result_shape.specs.Rows.{IsShaped};
ghost use Rattle.session_engine.specs.Executed.{HasRowsOf};

use csv_tables::Table;
use plan_operators::Source;
use plan_trees::Top;
use pull_operators::Pull;
use result_shape::{Pushed, Rows, RowsFault, Shaper};
use row_values::Query;
use std::alloc::Global;
use std::rc::Rc;

/// The rows of the shape of all that is still to come.
fn shaped(
    alloc: Global,
    q: &Query,
    tables: &[Rc<Table>],
    mut pull: Pull<'_>,
) -> Result<Rows, RowsFault>
    requires { length pull ≤ 2 ^ 63 }
    ensures { IsShaped q.now (tables_in tables.now) pull.entry result }
{
    let mut shaper = Shaper::begin(alloc, q, tables)?;
    while let Some(combo) = pull.next()? {
        match shaper.push(q, &combo)? {
            Pushed::More => {}
            Pushed::TooManyRows => return Err(RowsFault::TooManyRows),
        }
    }
    shaper.end(q)
}

/// The rows that the statement means, found by a valid plan; or there are too many.
pub fn rows_by(alloc: Global, source: &Source<'_>, plan: &Top) -> Result<Rows, RowsFault>
    requires tables { AreTablesOf source.now.q.now (tables_in source.now.tables.now) }
    requires indexes { AreIndexesOf source.now.q.now (tables_in source.now.tables.now)
        (indexes_in source.now.indexes.now) }
    requires valid { IsValidTop source.now.q.now (masks_of source.now.q.now.places source.now.indexes.now)
        (top_tree plan.now) }
    requires few { length (kept_combinations source.now.q.now (rows_in (tables_in source.now.tables.now))
        source.now.args.now) ≤ 2 ^ 63 }
    ensures { HasRowsOf source.now.q.now (rows_in (tables_in source.now.tables.now)) source.now.args.now result }
{
    let pull = Pull::begin(
        alloc,
        source.q,
        source.tables,
        source.indexes,
        source.args,
        plan,
    )?;
    shaped(alloc, source.q, source.tables, pull)
}
