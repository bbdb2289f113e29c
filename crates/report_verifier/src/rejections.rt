//! What the walk over a report ends with, and how that is written.
ghost use Rattle.std.specs.Prelude.{◌≡◌, ◌++◌, IfOk, OnOk, string_bytes};
ghost use Rattle.report_verifier.specs.Verifications as written;

use row_values::{OutOfMemory, Words};
use std::alloc::Global;

/// Why a report is turned down at a line.
#[derive(Clone, Copy, Debug, PartialEq, Eq)]
pub enum Why {
    /// The next item isn't for the line, or its certificate is none; or an item is left at the end.
    Block,
    /// The plan is none of the statement, or isn't valid.
    BadPlan,
    /// The cost is no cost, or not the plan's.
    BadCost,
    /// The least set of places with a lower bound that isn't one; 0 where the bounds aren't one for each set.
    BadTable(u8),
    /// The cost isn't the number that the lower bounds give.
    NotLeast,
    /// No optimum of this execution was accepted that still counts.
    UnknownAnchor(u64),
    /// The plan that is used again may cost too much.
    OverBound,
}

/// The line at which a report is turned down, and why; line 0 stands for the report's end.
#[derive(Clone, Copy, Debug, PartialEq, Eq)]
pub struct Rejection {
    pub line: u64,
    pub why: Why,
}

/// Why the walk doesn't go on.
#[derive(Clone, Copy, Debug, PartialEq, Eq)]
pub enum Stop {
    Rejected(Rejection),
    Memory,
}

/// What the walk ends with.
#[derive(Clone, Copy, Debug, PartialEq, Eq)]
pub enum Verification {
    /// Each execution was accepted, or said to have too many rows.
    Verified { executions: u64, too_large: u64 },
    Rejected(Rejection),
}

/// Adds why a report is turned down.
fn push_why(out: &mut String, why: Why) -> Result<(), OutOfMemory>
    ensures { OnOk result (string_bytes out.new ≡ string_bytes out.old ++ written.why_text why) }
{
    match why {
        Why::Block => out.push_str("block")?,
        Why::BadPlan => out.push_str("bad plan")?,
        Why::BadCost => out.push_str("bad cost")?,
        Why::BadTable(set) => write!(out, "bad table {set}")?,
        Why::NotLeast => out.push_str("not least")?,
        Why::UnknownAnchor(execution) => write!(out, "unknown anchor {execution}")?,
        Why::OverBound => out.push_str("over bound")?,
    }
    Ok(())
}

/// The line of an accepted report.
fn verified_text(alloc: Global, executions: u64, too_large: u64) -> Result<String, OutOfMemory>
    ensures { IfOk result (λ text. string_bytes text ≡ written.verified_text executions too_large) }
{
    let text = format!(in alloc; "verified {executions} executions {too_large} too large\n")?;
    Ok(text)
}

/// The line of a report that is turned down.
fn rejected_text(alloc: Global, rejection: Rejection) -> Result<String, OutOfMemory>
    ensures { IfOk result (λ text. string_bytes text ≡ written.rejected_text rejection) }
{
    let line = rejection.line;
    let mut text = format!(in alloc; "rejected {line} ")?;
    push_why(&mut text, rejection.why)?;
    text.push('\n')?;
    Ok(text)
}

/// The one line that is written of a report, its end included.
pub fn verification_text(alloc: Global, verification: Verification) -> Result<Words, OutOfMemory>
    ensures { IfOk result (λ text. text ≡ written.verification_text verification) }
{
    let text = match verification {
        Verification::Verified {
            executions,
            too_large,
        } => verified_text(alloc, executions, too_large)?,
        Verification::Rejected(rejection) => rejected_text(alloc, rejection)?,
    };
    Ok(Words::from_string(text))
}
