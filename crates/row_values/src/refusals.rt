//! Refusals: a script line that is turned down says why, by a number, words, and what it shows.
//!
//! A refusal's number stands here and nowhere else, and so do its words: each refusal has a maker.
//! To add a refusal,
//! add its constant, its case of `refusal_words` in both places, and its maker in both.
ghost use Rattle.std.specs.Prelude.{◌≡◌, [], IfOk};
ghost use Rattle.std.specs.Option.{option_map};
ghost use Rattle.row_values.specs.Refusals as refused;

use crate::OutOfMemory;
use crate::text::Words;
use std::alloc::Global;

/// The line is none of the script language's.
pub const SYNTAX: u8 = 1;
/// A table that isn't loaded; its name is shown.
pub const UNKNOWN_TABLE: u8 = 2;
/// A column that no place has; the reference is shown.
pub const UNKNOWN_COLUMN: u8 = 3;
/// A column that two or more places have; the reference is shown.
pub const AMBIGUOUS: u8 = 4;
/// A statement that isn't prepared; its name is shown.
pub const UNKNOWN_STATEMENT: u8 = 5;
/// A name that is in use; it is shown.
pub const NAME_TAKEN: u8 = 6;
/// Kinds that don't go together; the column reference is shown.
pub const MISFIT: u8 = 7;
/// More parts than a statement may have; which is shown.
pub const TOO_MANY: u8 = 8;
/// Another number of arguments than of parameters; the number wanted is shown.
pub const ARGUMENT_COUNT: u8 = 9;
/// An argument of the wrong kind; its position from 1 is shown.
pub const ARGUMENT_KIND: u8 = 10;
/// Tables too large for the cost model; the alias is shown.
pub const WIDE: u8 = 11;
/// A result of more than 1,000,000 rows.
pub const TOO_MANY_ROWS: u8 = 12;
/// A CSV file that isn't there.
pub const MISSING_FILE: u8 = 13;
/// A CSV file above 64 MiB.
pub const FILE_TOO_LONG: u8 = 14;
/// A CSV file that is no table; what is wrong is shown.
pub const NOT_A_TABLE: u8 = 15;
/// A new version of a table with other columns; the table is shown.
pub const SCHEMA_DIFFERS: u8 = 16;
/// A cursor that isn't open; its name is shown.
pub const UNKNOWN_CURSOR: u8 = 17;
/// A plan that isn't kept; its number is shown.
pub const UNKNOWN_PLAN: u8 = 18;
/// An item or key that the grouping doesn't allow; it is shown.
pub const NOT_GROUPED: u8 = 19;
/// More than the store keeps; which limit is shown.
pub const STORE_LIMIT: u8 = 20;

/// Why a script line was turned down: one of the numbers above, and what it shows (a text without a
/// byte where it shows nothing).
#[derive(Debug, Drop, PartialEq, Eq)]
pub struct Refusal {
    pub code: u8,
    pub shown: Words,
}

/// The words of a refusal in the report; none exactly for a number that is no refusal.
pub fn refusal_words(code: u8) -> Option<&'static str>
    ensures { option_map (λ text. text.now) result ≡ refused.refusal_words code }
{
    match code {
        SYNTAX => Some("syntax"),
        UNKNOWN_TABLE => Some("unknown table"),
        UNKNOWN_COLUMN => Some("unknown column"),
        AMBIGUOUS => Some("ambiguous"),
        UNKNOWN_STATEMENT => Some("unknown statement"),
        NAME_TAKEN => Some("name taken"),
        MISFIT => Some("misfit"),
        TOO_MANY => Some("too many"),
        ARGUMENT_COUNT => Some("argument count"),
        ARGUMENT_KIND => Some("argument kind"),
        WIDE => Some("wide"),
        TOO_MANY_ROWS => Some("too many rows"),
        MISSING_FILE => Some("missing file"),
        FILE_TOO_LONG => Some("file too long"),
        NOT_A_TABLE => Some("not a table"),
        SCHEMA_DIFFERS => Some("schema differs"),
        UNKNOWN_CURSOR => Some("unknown cursor"),
        UNKNOWN_PLAN => Some("unknown plan"),
        NOT_GROUPED => Some("not grouped"),
        STORE_LIMIT => Some("store limit"),
        _ => None,
    }
}

impl Refusal {
    /// A refusal that shows nothing. It takes no memory.
    pub fn bare(alloc: Global, code: u8) -> Refusal
        ensures code { result.code ≡ code }
        ensures shown { result.shown ≡ [] }
    {
        Refusal {
            code,
            shown: Words::empty(alloc),
        }
    }

    /// The refusal of this number that shows this.
    fn showing(code: u8, shown: Words) -> Refusal
        ensures { result ≡ refused.refusal code shown }
    {
        Refusal { code, shown }
    }

    /// The line is none of the script language's. It takes no memory.
    pub fn syntax(alloc: Global) -> Refusal
        ensures { result ≡ refused.syntax }
    {
        Refusal::bare(alloc, SYNTAX)
    }

    /// The table of this name isn't loaded. It takes no memory.
    pub fn unknown_table(name: Words) -> Refusal
        ensures { result ≡ refused.unknown_table name }
    {
        Refusal::showing(UNKNOWN_TABLE, name)
    }

    /// No place has the column of this reference. It takes no memory.
    pub fn unknown_column(reference: Words) -> Refusal
        ensures { result ≡ refused.unknown_column reference }
    {
        Refusal::showing(UNKNOWN_COLUMN, reference)
    }

    /// Two or more places have the column of this reference. It takes no memory.
    pub fn ambiguous(reference: Words) -> Refusal
        ensures { result ≡ refused.ambiguous reference }
    {
        Refusal::showing(AMBIGUOUS, reference)
    }

    /// The statement of this name isn't prepared. It takes no memory.
    pub fn unknown_statement(name: Words) -> Refusal
        ensures { result ≡ refused.unknown_statement name }
    {
        Refusal::showing(UNKNOWN_STATEMENT, name)
    }

    /// This name is in use. It takes no memory.
    pub fn name_taken(name: Words) -> Refusal
        ensures { result ≡ refused.name_taken name }
    {
        Refusal::showing(NAME_TAKEN, name)
    }

    /// The column of this reference doesn't go with what it meets. It takes no memory.
    pub fn misfit(reference: Words) -> Refusal
        ensures { result ≡ refused.misfit reference }
    {
        Refusal::showing(MISFIT, reference)
    }

    /// The statement has more of these parts than it may have. It takes no memory.
    pub fn too_many(parts: Words) -> Refusal
        ensures { result ≡ refused.too_many parts }
    {
        Refusal::showing(TOO_MANY, parts)
    }

    /// Another number of arguments than this one, which is wanted.
    pub fn argument_count(alloc: Global, wanted: usize) -> Result<Refusal, OutOfMemory>
        ensures { IfOk result (λ refusal. refusal ≡ refused.argument_count wanted) }
    {
        let shown = format!(in alloc; "{wanted}")?;
        Ok(Refusal::showing(ARGUMENT_COUNT, Words::from_string(shown)))
    }

    /// The argument at this position, from 1, is of the wrong kind.
    pub fn argument_kind(alloc: Global, position: usize) -> Result<Refusal, OutOfMemory>
        ensures { IfOk result (λ refusal. refusal ≡ refused.argument_kind position) }
    {
        let shown = format!(in alloc; "{position}")?;
        Ok(Refusal::showing(ARGUMENT_KIND, Words::from_string(shown)))
    }

    /// The place of this alias makes the tables too large for the cost model. It takes no memory.
    pub fn wide(alias: Words) -> Refusal
        ensures { result ≡ refused.wide alias }
    {
        Refusal::showing(WIDE, alias)
    }

    /// The result has more than 1,000,000 rows. It takes no memory.
    pub fn too_many_rows(alloc: Global) -> Refusal
        ensures { result ≡ refused.too_many_rows }
    {
        Refusal::bare(alloc, TOO_MANY_ROWS)
    }

    /// The CSV file isn't there. It takes no memory.
    pub fn missing_file(alloc: Global) -> Refusal
        ensures { result ≡ refused.missing_file }
    {
        Refusal::bare(alloc, MISSING_FILE)
    }

    /// The CSV file is above 64 MiB. It takes no memory.
    pub fn file_too_long(alloc: Global) -> Refusal
        ensures { result ≡ refused.file_too_long }
    {
        Refusal::bare(alloc, FILE_TOO_LONG)
    }

    /// The CSV file is no table: this is wrong with it. It takes no memory.
    pub fn not_a_table(fault: Words) -> Refusal
        ensures { result ≡ refused.not_a_table fault }
    {
        Refusal::showing(NOT_A_TABLE, fault)
    }

    /// The new version of this table has other columns. It takes no memory.
    pub fn schema_differs(table: Words) -> Refusal
        ensures { result ≡ refused.schema_differs table }
    {
        Refusal::showing(SCHEMA_DIFFERS, table)
    }

    /// The cursor of this name isn't open. It takes no memory.
    pub fn unknown_cursor(name: Words) -> Refusal
        ensures { result ≡ refused.unknown_cursor name }
    {
        Refusal::showing(UNKNOWN_CURSOR, name)
    }

    /// The plan of this number isn't kept.
    pub fn unknown_plan(alloc: Global, number: u64) -> Result<Refusal, OutOfMemory>
        ensures { IfOk result (λ refusal. refusal ≡ refused.unknown_plan number) }
    {
        let shown = format!(in alloc; "{number}")?;
        Ok(Refusal::showing(UNKNOWN_PLAN, Words::from_string(shown)))
    }

    /// The grouping doesn't allow this item or key. It takes no memory.
    pub fn not_grouped(part: Words) -> Refusal
        ensures { result ≡ refused.not_grouped part }
    {
        Refusal::showing(NOT_GROUPED, part)
    }

    /// The store keeps no more: it is at this limit.
    pub fn store_limit(alloc: Global, limit: &str) -> Result<Refusal, OutOfMemory>
        ensures { IfOk result (λ refusal. refusal ≡ refused.store_limit limit.now) }
    {
        Ok(Refusal::showing(STORE_LIMIT, Words::of(alloc, limit)?))
    }
}
