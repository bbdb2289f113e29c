//! The script language and the report: what a line says, and how a reply is spelled.
//!
//! `read_line` turns a line into a command, `reply_text` a reply into its lines of the report. Both are exact: their
//! words are `reading_of` and `reply_text` of `specs/`. They know neither tables nor statements that are kept.
//! To add a command, add its variant, its case of `command_in` in both places, and its reply.
#![tactic(auto)]

mod commands;
mod executions;
pub mod laws;
mod parts;
mod replies;
mod shown;
#[cfg(test)]
mod tests;

pub use commands::{Command, FETCH_LIMIT, LineFault, read_line};
pub use replies::{By, Execution, KeptNote, Lines, Reply, reply_text};
pub use shown::{ShownAnchor, ShownAnchors, ShownPlan, ShownPlans};
