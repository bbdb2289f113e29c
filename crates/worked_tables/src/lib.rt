//! Statements over small tables, for tests and measurements of the crates that count rows and run plans.
//!
//! `WorkedTables` reads CSV texts, and its `of` makes a `WorkedStatement` of SQL text with indexes and arguments. That
//! tables, indexes and plans are a statement's own is tested here when they come, so that a test proves nothing itself:
//! what doesn't fit is a `WorkedFault`. `tried` keeps the combinations that a statement asks for by trying all, without an
//! index and without a hash, to compare with.
#![tactic(auto)]

mod faults;
mod fitting;
mod named;
mod plain;
mod statement;
mod tables;
mod texts;

pub use faults::WorkedFault;
pub use statement::{Counts, WorkedStatement};
pub use tables::WorkedTables;
pub use texts::numbers;

#[cfg(test)]
mod tests;
