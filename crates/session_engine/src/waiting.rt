//! Result rows that wait in an open cursor until they are fetched.
//!
//! The rows keep the tables that they name, so nothing that is loaded later changes them. Lines are made of them as
//! they are fetched: an open cursor holds row numbers, not texts.
ghost use Rattle.std.specs.Prelude.{ℕ, ◌≡◌, ◌≤◌, ◌-◌, IfOk, drop, length, take};
ghost use Rattle.row_values.specs.Statements.{Statement};
ghost use Rattle.result_shape.specs.Rows.{rows_seen};
ghost use Rattle.session_engine.specs.Cursors.{IsEnd, lines_of};

use result_shape::{Rows, row_text};
use row_values::{OutOfMemory, Query};
use script_report::Lines;
use std::alloc::Global;
use std::cmp;

/// The result rows of an open cursor, the number of their statement, and how many of them were fetched.
#[derive(Debug, Drop)]
pub struct Waiting {
    pub statement: u32,
    pub rows: Rows,
    pub fetched: usize,
}

/// The lines of the rows from one position up to another.
fn lines_between(
    alloc: Global,
    q: &Query,
    rows: &Rows,
    first: usize,
    end: usize,
) -> Result<Lines, OutOfMemory>
    requires { end ≤ length (rows_seen q.now rows.now) }
    ensures { IfOk result (λ lines. lines ≡ take (end - first) (drop first (lines_of q.now rows.now))) }
{
    let mut lines = Lines::new(alloc);
    for i in first..end {
        lines.push(row_text(alloc, q, rows, i)?)?;
    }
    Ok(lines)
}

/// The lines of all rows.
pub fn row_lines(alloc: Global, q: &Query, rows: &Rows) -> Result<Lines, OutOfMemory>
    ensures { IfOk result (λ lines. lines ≡ lines_of q.now rows.now) }
{
    lines_between(alloc, q, rows, 0, rows.len())
}

impl Waiting {
    /// The rows of the statement of this number, of which none was fetched.
    pub fn new(statement: u32, rows: Rows) -> Waiting
        ensures { result ≡ record { statement = statement; rows = rows; fetched = 0 } }
    {
        Waiting {
            statement,
            rows,
            fetched: 0,
        }
    }

    /// How many rows wait.
    pub fn len(&self) -> usize
        ensures { (q : Statement) → result ≡ length (drop self.now.fetched (lines_of q self.now.rows)) }
    {
        self.rows.len().saturating_sub(self.fetched)
    }

    /// The position behind the first so many rows that wait, or behind all.
    fn end(&self, count: usize) -> usize
        ensures within { (q : Statement) → result ≤ length (rows_seen q self.now.rows) }
        ensures value { (q : Statement) → IsEnd self.now.fetched count (length (rows_seen q self.now.rows)) result }
    {
        cmp::min(self.fetched.saturating_add(count), self.rows.len())
    }

    /// The lines of the first so many rows that wait, or of all of them.
    pub fn first(&self, alloc: Global, q: &Query, count: usize) -> Result<Lines, OutOfMemory>
        ensures { IfOk result (λ lines. lines ≡ take count (drop self.now.fetched (lines_of q.now self.now.rows))) }
    {
        lines_between(alloc, q, &self.rows, self.fetched, self.end(count))
    }

    /// The first so many rows that wait, or all of them, wait no longer.
    pub fn skip(&mut self, count: usize)
        ensures rest { (q : Statement) → drop self.new.fetched (lines_of q self.new.rows)
            ≡ drop count (drop self.old.fetched (lines_of q self.old.rows)) }
        ensures statement { self.new.statement ≡ self.old.statement }
        ensures rows { self.new.rows ≡ self.old.rows }
    {
        self.fetched = self.end(count);
    }
}
