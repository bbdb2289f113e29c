//! Replies and their spelling in the report.
//!
//! A reply is one or more lines ended by LF; the first begins with the script line's number. Names are spelled
//! canonically, numbers in decimal.
ghost use Rattle.std.specs.Prelude.{◌≡◌, ◌∷◌, [], ◌++◌, IfOk, OnOk, OnErr, string_bytes, length, unwrap_or};
ghost use Rattle.row_values.specs.Names.{canonical_name};
ghost use Rattle.row_values.specs.Refusals.{refusal_words as known_words};
ghost use Rattle.script_report.specs.Replies as report;

use crate::executions::push_execution;
use crate::shown::{ShownAnchor, ShownAnchors, ShownPlan, ShownPlans, push_anchors, push_plans};
use bound_certificate::Cert;
use plan_trees::Vector;
use row_values::{OutOfMemory, Refusal, Words, push_name, refusal_words};
use std::alloc::Global;
use std::marker::Model;

/// The row lines of a result, each without its end; contracts see a list of texts.
#[derive(Debug, Drop)]
pub struct Lines {
    lines: Vec<Words>,
}

impl Model for Lines {
    ghost use Rattle.std.specs.Prelude.{ℕ, List};

    ghost Value = { List (List ℕ) };

    ghost view = { λ l. l.lines.items };
}

impl Lines {
    /// No line. It takes no memory.
    pub fn new(alloc: Global) -> Lines
        ensures { result ≡ [] }
    {
        Lines {
            lines: Vec::new(alloc),
        }
    }

    /// The lines in order.
    pub fn as_slice(&self) -> &[Words]
        ensures { result.now ≡ self.now }
    {
        self.lines.as_slice()
    }

    /// Adds a line at the end. After want of memory the lines are as before.
    pub fn push(&mut self, item: Words) -> Result<(), OutOfMemory>
        ensures ok { OnOk result (self.new ≡ self.old ++ item ∷ []) }
        ensures err { OnErr result (self.new ≡ self.old) }
    {
        self.lines.push(item)?;
        Ok(())
    }
}

/// How an execution got its plan: by a check that an anchor passed, or from the optimiser. `tried` counts the anchors
/// that the cost check tested.
#[derive(Clone, Copy, Debug)]
pub enum By {
    Selectivity { anchor: u64, plan: u64 },
    Cost { anchor: u64, plan: u64, tried: u32 },
    Optimum { tried: u32 },
}

/// What the cache kept of an execution: nothing new where a plan was reused; else an anchor with a new plan or with
/// one that was there, each by the plan's number, or nothing.
#[derive(Clone, Copy, Debug)]
pub enum KeptNote {
    Reused,
    New(u64),
    Old(u64),
    Nothing,
}

/// One execution of a statement: its number over the whole script, the plan that ran and what it costs, the
/// selectivity vector, how it got the plan, the plan that was evicted for it with the number of its anchors, what was
/// kept, and the certificate of its cost.
#[derive(Debug, Drop)]
pub struct Execution {
    pub name: Words,
    pub number: u64,
    pub spelled: Words,
    pub cost: u128,
    pub at: Vector,
    pub by: By,
    pub evicted: Option<(u64, u32)>,
    pub kept: KeptNote,
    pub cert: Cert,
}

/// The answer to a script line.
#[derive(Debug, Drop)]
pub enum Reply {
    Loaded {
        table: Words,
        rows: u32,
        columns: u32,
    },
    Indexed {
        table: Words,
        column: Words,
    },
    Prepared {
        name: Words,
        tables: u32,
        predicates: u32,
        parameters: u32,
    },
    Ran {
        execution: Execution,
        rows: Lines,
    },
    Opened {
        cursor: Words,
        execution: Execution,
    },
    Fetched {
        cursor: Words,
        rows: Lines,
        left: u32,
    },
    Closed {
        cursor: Words,
    },
    Evicted {
        name: Words,
        plan: u64,
        anchors: u32,
    },
    Shown {
        name: Words,
        plans: ShownPlans,
        anchors: ShownAnchors,
    },
    Refused(Refusal),
    /// Memory was short; no line of the report says so.
    Spent,
}

/// Adds the row lines.
fn push_lines(text: &mut String, rows: &[Words]) -> Result<(), OutOfMemory>
    ensures { OnOk result (string_bytes text.new ≡ string_bytes text.old ++ report.lines_text rows.now) }
{
    for row in rows {
        text.push_str(row.as_str())?;
        text.push('\n')?;
    }
    Ok(())
}

/// An execution with its rows.
fn ran_text(
    alloc: Global,
    line: u64,
    execution: &Execution,
    rows: &[Words],
) -> Result<String, OutOfMemory>
    ensures { IfOk result (λ text. string_bytes text ≡ report.ran_text line execution.now rows.now) }
{
    let count = rows.len();
    let mut text = format!(in alloc; "{line} ran ")?;
    push_execution(alloc, &mut text, execution)?;
    push_lines(&mut text, rows)?;
    write!(text, "end {count}\n")?;
    Ok(text)
}

/// An execution behind a cursor.
fn opened_text(
    alloc: Global,
    line: u64,
    cursor: &str,
    execution: &Execution,
) -> Result<String, OutOfMemory>
    ensures { IfOk result (λ text. string_bytes text ≡ report.opened_text line cursor.now execution.now) }
{
    let mut text = format!(in alloc; "{line} opened ")?;
    push_name(&mut text, cursor)?;
    text.push(' ')?;
    push_execution(alloc, &mut text, execution)?;
    text.push_str("end\n")?;
    Ok(text)
}

/// Rows of a cursor.
fn fetched_text(
    alloc: Global,
    line: u64,
    cursor: &str,
    rows: &[Words],
    left: u32,
) -> Result<String, OutOfMemory>
    ensures { IfOk result (λ text. string_bytes text ≡ report.fetched_text line cursor.now rows.now left) }
{
    let count = rows.len();
    let mut text = format!(in alloc; "{line} fetched ")?;
    push_name(&mut text, cursor)?;
    text.push('\n')?;
    push_lines(&mut text, rows)?;
    write!(text, "end {count} left {left}\n")?;
    Ok(text)
}

/// The line of a cursor's end.
fn closed_text(alloc: Global, line: u64, cursor: &str) -> Result<String, OutOfMemory>
    ensures { IfOk result (λ text. string_bytes text ≡ report.closed_text line cursor.now) }
{
    let mut text = format!(in alloc; "{line} closed ")?;
    push_name(&mut text, cursor)?;
    text.push('\n')?;
    Ok(text)
}

/// The line of an eviction.
fn evicted_text(
    alloc: Global,
    line: u64,
    name: &str,
    plan: u64,
    anchors: u32,
) -> Result<String, OutOfMemory>
    ensures { IfOk result (λ text. string_bytes text ≡ report.evicted_text line name.now plan anchors) }
{
    let mut text = format!(in alloc; "{line} evicted ")?;
    push_name(&mut text, name)?;
    write!(text, " plan {plan} anchors {anchors}\n")?;
    Ok(text)
}

/// A statement's plan cache.
fn shown_text(
    alloc: Global,
    line: u64,
    name: &str,
    plans: &[ShownPlan],
    anchors: &[ShownAnchor],
) -> Result<String, OutOfMemory>
    ensures { IfOk result (λ text. string_bytes text ≡ report.shown_text line name.now plans.now anchors.now) }
{
    let plan_count = plans.len();
    let anchor_count = anchors.len();
    let mut text = format!(in alloc; "{line} shown ")?;
    push_name(&mut text, name)?;
    write!(text, " plans {plan_count} anchors {anchor_count}\n")?;
    push_plans(&mut text, plans)?;
    push_anchors(&mut text, anchors)?;
    text.push_str("end\n")?;
    Ok(text)
}

/// The line of a load.
fn loaded_text(
    alloc: Global,
    line: u64,
    table: &str,
    rows: u32,
    columns: u32,
) -> Result<String, OutOfMemory>
    ensures { IfOk result (λ text. string_bytes text ≡ report.loaded_text line table.now rows columns) }
{
    let mut text = format!(in alloc; "{line} loaded ")?;
    push_name(&mut text, table)?;
    write!(text, " rows {rows} columns {columns}\n")?;
    Ok(text)
}

/// The line of an indexing.
fn indexed_text(alloc: Global, line: u64, table: &str, column: &str) -> Result<String, OutOfMemory>
    ensures { IfOk result (λ text. string_bytes text ≡ report.indexed_text line table.now column.now) }
{
    let mut text = format!(in alloc; "{line} indexed ")?;
    push_name(&mut text, table)?;
    text.push(' ')?;
    push_name(&mut text, column)?;
    text.push('\n')?;
    Ok(text)
}

/// The line of a preparation.
fn prepared_text(
    alloc: Global,
    line: u64,
    name: &str,
    tables: u32,
    predicates: u32,
    parameters: u32,
) -> Result<String, OutOfMemory>
    ensures { IfOk result (λ text.
        string_bytes text ≡ report.prepared_text line name.now tables predicates parameters) }
{
    let mut text = format!(in alloc; "{line} prepared ")?;
    push_name(&mut text, name)?;
    write!(
        text,
        " tables {tables} predicates {predicates} parameters {parameters}\n"
    )?;
    Ok(text)
}

/// The words of a refusal; no word for a number that is none.
fn words_of(code: u8) -> &'static str
    ensures { result.now ≡ unwrap_or (known_words code) [] }
{
    match refusal_words(code) {
        Some(words) => words,
        None => "",
    }
}

/// The line of a refusal.
fn refused_text(alloc: Global, line: u64, refusal: &Refusal) -> Result<String, OutOfMemory>
    ensures { IfOk result (λ text. string_bytes text ≡ report.refused_text line refusal.now) }
{
    let code = refusal.code;
    let words = words_of(code);
    let shown = refusal.shown.as_str();
    if shown.is_empty() {
        let text = format!(in alloc; "{line} refused {code} {words}\n")?;
        return Ok(text);
    }
    let text = format!(in alloc; "{line} refused {code} {words} {shown}\n")?;
    Ok(text)
}

/// The text of a reply to the line of this number, its line ends included.
pub fn reply_text(alloc: Global, line: u64, r: &Reply) -> Result<Words, OutOfMemory>
    ensures { IfOk result (λ text. text ≡ report.reply_text line r.now) }
{
    let text = match r {
        Reply::Loaded {
            table,
            rows,
            columns,
        } => loaded_text(alloc, line, table.as_str(), *rows, *columns)?,
        Reply::Indexed { table, column } => {
            indexed_text(alloc, line, table.as_str(), column.as_str())?
        }
        Reply::Prepared {
            name,
            tables,
            predicates,
            parameters,
        } => prepared_text(
            alloc,
            line,
            name.as_str(),
            *tables,
            *predicates,
            *parameters,
        )?,
        Reply::Ran { execution, rows } => ran_text(alloc, line, execution, rows.as_slice())?,
        Reply::Opened { cursor, execution } => {
            opened_text(alloc, line, cursor.as_str(), execution)?
        }
        Reply::Fetched { cursor, rows, left } => {
            fetched_text(alloc, line, cursor.as_str(), rows.as_slice(), *left)?
        }
        Reply::Closed { cursor } => closed_text(alloc, line, cursor.as_str())?,
        Reply::Evicted {
            name,
            plan,
            anchors,
        } => evicted_text(alloc, line, name.as_str(), *plan, *anchors)?,
        Reply::Shown {
            name,
            plans,
            anchors,
        } => shown_text(
            alloc,
            line,
            name.as_str(),
            plans.as_slice(),
            anchors.as_slice(),
        )?,
        Reply::Refused(refusal) => refused_text(alloc, line, refusal)?,
        Reply::Spent => String::new(alloc),
    };
    Ok(Words::from_string(text))
}
