//! What a script line says.
//!
//! The blanks (spaces and tabs) at both ends of a line don't count. An empty line and one that begins with `#` say
//! nothing. Else the first part is a command word, and the parts behind it must be those of this command, with a blank
//! at least between two of them. `read_line` is the one way in.
ghost use Rattle.std.specs.Prelude.{◌≡◌, ◌≤◌, IfOk, IfSome};
ghost use Rattle.script_report.specs.Commands as reading;

use crate::parts::{after_part, first_part, name_part, skip_blanks, value_part};
use row_values::{Args, OutOfMemory, Words, whole_number};
use sql_parser::{ParseFault, Select, parse};
use std::alloc::Global;

/// The most rows of one `fetch`.
pub const FETCH_LIMIT: u32 = 1000000;

/// The greatest number of a plan: such numbers have 63 bits.
pub const PLAN_NUMBER_LIMIT: u64 = 9223372036854775807;

/// What a line asks for.
#[derive(Debug, Drop)]
pub enum Command {
    /// Make a table of a CSV file.
    Load {
        table: Words,
        file: Words,
    },
    /// Index a column of a table.
    Index {
        table: Words,
        column: Words,
    },
    /// Keep a statement under a name.
    Prepare {
        name: Words,
        select: Select,
    },
    /// Execute a statement with these arguments.
    Run {
        name: Words,
        args: Args,
    },
    /// Execute a statement and keep its rows.
    Cursor {
        cursor: Words,
        name: Words,
        args: Args,
    },
    /// Give the next rows of a cursor, this many at most.
    Fetch {
        cursor: Words,
        rows: u32,
    },
    /// Give up a cursor.
    Close {
        cursor: Words,
    },
    /// Give up a kept plan of a statement.
    Evict {
        name: Words,
        plan: u64,
    },
    /// Tell the kept plans and anchors of a statement.
    Show {
        name: Words,
    },
}

/// Why a line is no command: it has none of the nine forms, or memory was short.
#[derive(Clone, Copy, Debug, PartialEq, Eq)]
pub enum LineFault {
    Syntax,
    Memory,
}

/// The text without the blanks at its end.
fn skip_end_blanks(text: &str) -> &str
    ensures { result.now ≡ reading.skip_end_blanks text.now }
{
    let bytes = text.as_bytes();
    let mut end = bytes.len();
    while end > 0 && (bytes[end - 1] == b' ' || bytes[end - 1] == b'\t') {
        end -= 1;
    }
    &text[..end]
}

/// The numbers and texts that the parts are; none where a part is neither.
fn args_in(alloc: Global, parts: &str) -> Result<Option<Args>, OutOfMemory>
    ensures { IfOk result (λ args. args ≡ reading.args_in parts.now) }
{
    let mut values = Vec::new(alloc);
    let mut rest = parts;
    while !rest.is_empty() {
        let Some((value, next)) = value_part(alloc, rest)? else {
            return Ok(None);
        };
        values.push(value)?;
        rest = next;
    }
    Ok(Some(Args::of(values)))
}

/// A whole number from 1 to a most as a count.
fn counted(most: u64, number: i64) -> Option<u64>
    ensures { result ≡ reading.counted most (Some number) }
{
    if number < 1 {
        return None;
    }
    let count = number as u64;
    if count <= most { Some(count) } else { None }
}

/// The count from 1 to a most that the text spells without a zero in front.
fn count_in(most: u64, text: &str) -> Option<u64>
    ensures value { result ≡ reading.count_in most text.now }
    ensures bound { IfSome result (λ count. count ≤ most) }
{
    if text.starts_with('0') {
        return None;
    }
    match whole_number(text.as_bytes()) {
        Some(number) => counted(most, number),
        None => None,
    }
}

/// A table's name, and the name of its file, which is the rest of the line.
fn load_in(alloc: Global, parts: &str) -> Result<Option<Command>, OutOfMemory>
    ensures { IfOk result (λ command. command ≡ reading.load_in parts.now) }
{
    let Some((table, file)) = name_part(alloc, parts)? else {
        return Ok(None);
    };
    if file.is_empty() {
        return Ok(None);
    }
    Ok(Some(Command::Load {
        table,
        file: Words::of(alloc, file)?,
    }))
}

/// The names of a table and of its column.
fn index_in(alloc: Global, parts: &str) -> Result<Option<Command>, OutOfMemory>
    ensures { IfOk result (λ command. command ≡ reading.index_in parts.now) }
{
    let Some((table, rest)) = name_part(alloc, parts)? else {
        return Ok(None);
    };
    let Some((column, end)) = name_part(alloc, rest)? else {
        return Ok(None);
    };
    if !end.is_empty() {
        return Ok(None);
    }
    Ok(Some(Command::Index { table, column }))
}

/// A name, and a statement to the end of the line.
fn prepare_in(alloc: Global, parts: &str) -> Result<Option<Command>, OutOfMemory>
    ensures { IfOk result (λ command. command ≡ reading.prepare_in parts.now) }
{
    let Some((name, statement)) = name_part(alloc, parts)? else {
        return Ok(None);
    };
    match parse(alloc, statement) {
        Err(ParseFault::Memory) => Err(OutOfMemory),
        Err(ParseFault::Syntax) => Ok(None),
        Ok(select) => Ok(Some(Command::Prepare { name, select })),
    }
}

/// The name of a statement, and its arguments.
fn run_in(alloc: Global, parts: &str) -> Result<Option<Command>, OutOfMemory>
    ensures { IfOk result (λ command. command ≡ reading.run_in parts.now) }
{
    let Some((name, rest)) = name_part(alloc, parts)? else {
        return Ok(None);
    };
    match args_in(alloc, rest)? {
        Some(args) => Ok(Some(Command::Run { name, args })),
        None => Ok(None),
    }
}

/// The names of a cursor and of a statement, and its arguments.
fn cursor_in(alloc: Global, parts: &str) -> Result<Option<Command>, OutOfMemory>
    ensures { IfOk result (λ command. command ≡ reading.cursor_in parts.now) }
{
    let Some((cursor, rest)) = name_part(alloc, parts)? else {
        return Ok(None);
    };
    let Some((name, rest)) = name_part(alloc, rest)? else {
        return Ok(None);
    };
    match args_in(alloc, rest)? {
        Some(args) => Ok(Some(Command::Cursor { cursor, name, args })),
        None => Ok(None),
    }
}

/// The name of a cursor, and how many rows.
fn fetch_in(alloc: Global, parts: &str) -> Result<Option<Command>, OutOfMemory>
    ensures { IfOk result (λ command. command ≡ reading.fetch_in parts.now) }
{
    let Some((cursor, rest)) = name_part(alloc, parts)? else {
        return Ok(None);
    };
    match count_in(u64::from(FETCH_LIMIT), rest) {
        Some(count) => Ok(Some(Command::Fetch {
            cursor,
            rows: count as u32,
        })),
        None => Ok(None),
    }
}

/// The name of a cursor.
fn close_in(alloc: Global, parts: &str) -> Result<Option<Command>, OutOfMemory>
    ensures { IfOk result (λ command. command ≡ reading.close_in parts.now) }
{
    let Some((cursor, end)) = name_part(alloc, parts)? else {
        return Ok(None);
    };
    if !end.is_empty() {
        return Ok(None);
    }
    Ok(Some(Command::Close { cursor }))
}

/// The name of a statement, and the number of a plan.
fn evict_in(alloc: Global, parts: &str) -> Result<Option<Command>, OutOfMemory>
    ensures { IfOk result (λ command. command ≡ reading.evict_in parts.now) }
{
    let Some((name, rest)) = name_part(alloc, parts)? else {
        return Ok(None);
    };
    match count_in(PLAN_NUMBER_LIMIT, rest) {
        Some(plan) => Ok(Some(Command::Evict { name, plan })),
        None => Ok(None),
    }
}

/// The name of a statement.
fn show_in(alloc: Global, parts: &str) -> Result<Option<Command>, OutOfMemory>
    ensures { IfOk result (λ command. command ≡ reading.show_in parts.now) }
{
    let Some((name, end)) = name_part(alloc, parts)? else {
        return Ok(None);
    };
    if !end.is_empty() {
        return Ok(None);
    }
    Ok(Some(Command::Show { name }))
}

/// The command that begins with this word; none where the word is no command word, or the parts aren't its own.
fn command_in(alloc: Global, word: &str, parts: &str) -> Result<Option<Command>, OutOfMemory>
    ensures { IfOk result (λ command. reading.command_in word.now parts.now ≡ command) }
{
    match word {
        "load" => load_in(alloc, parts),
        "index" => index_in(alloc, parts),
        "prepare" => prepare_in(alloc, parts),
        "run" => run_in(alloc, parts),
        "cursor" => cursor_in(alloc, parts),
        "fetch" => fetch_in(alloc, parts),
        "close" => close_in(alloc, parts),
        "evict" => evict_in(alloc, parts),
        "show" => show_in(alloc, parts),
        _ => Ok(None),
    }
}

/// What a line says whose blanks at both ends are off.
fn said_by(alloc: Global, text: &str) -> Result<Option<Command>, LineFault>
    ensures ok { IfOk result (λ command. reading.line_in text.now ≡ reading.read command) }
    ensures syntax { result ≡ Err LineFault.Syntax → reading.line_in text.now ≡ reading.Bad }
{
    let bytes = text.as_bytes();
    if bytes.is_empty() {
        return Ok(None);
    }
    if bytes[0] == b'#' {
        return Ok(None);
    }
    match command_in(alloc, first_part(text), after_part(text)) {
        Err(_) => Err(LineFault::Memory),
        Ok(None) => Err(LineFault::Syntax),
        Ok(Some(command)) => Ok(Some(command)),
    }
}

/// What a line says: nothing where it is empty or a comment, else its command; `Syntax` exactly where it is none of
/// these. The line is read in time that grows in proportion to its length.
#[tactic(auto, unfolding(crate::specs::Commands::reading_of))]
pub fn read_line(alloc: Global, line: &str) -> Result<Option<Command>, LineFault>
    ensures ok { IfOk result (λ command. reading.reading_of line.now ≡ reading.read command) }
    ensures syntax { result ≡ Err LineFault.Syntax → reading.reading_of line.now ≡ reading.Bad }
{
    said_by(alloc, skip_end_blanks(skip_blanks(line)))
}
