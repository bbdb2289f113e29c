//! What the rows of an execution are made into while its statement's cache is still as it was.
ghost use Rattle.std.specs.Prelude.{ℕ, ◌≡◌, List, IfOk};
ghost use Rattle.row_values.specs.Statements.{Statement};
ghost use Rattle.session_engine.specs.Cursors.{lines_of};

use crate::waiting::row_lines;
use result_shape::Rows;
use row_values::{OutOfMemory, Query};
use script_report::Lines;
use std::alloc::Global;

/// The answer that an execution is made for: the lines of a reply, or the rows that wait in a cursor. Contracts see the
/// lines that it shows.
pub trait Answer: Drop + Sized {
    ghost use Rattle.std.specs.Prelude.{ℕ, ◌≡◌, List, IfOk};
    ghost use Rattle.row_values.specs.Statements.{Statement};
    ghost use Rattle.session_engine.specs.Cursors.{lines_of};

    ghost lines: { Statement → Self → List (List ℕ) };

    /// The answer of these rows of the statement.
    fn of(alloc: Global, q: &Query, rows: Rows) -> Result<Self, OutOfMemory>
        ensures { IfOk result (λ answer. lines q.now answer ≡ lines_of q.now rows) };
}

impl Answer for Lines {
    ghost lines = { λ q lines. lines };

    fn of(alloc: Global, q: &Query, rows: Rows) -> Result<Lines, OutOfMemory> {
        row_lines(alloc, q, &rows)
    }
}

impl Answer for Rows {
    ghost lines = { λ q rows. lines_of q rows };

    fn of(_: Global, _: &Query, rows: Rows) -> Result<Rows, OutOfMemory> {
        Ok(rows)
    }
}
