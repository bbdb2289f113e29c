//! What a checker reads in a report: the executions that it claims, each with its plan, cost and certificate.
//!
//! `read_report` turns a text, whoever wrote it, into its items. It is exact: the items are `items_of` of `specs/`. It
//! takes the texts as they stand, and knows neither plans nor certificates.
#![tactic(auto)]

/// The most bytes of a report that is read: 256 MiB.
pub const REPORT_LIMIT: usize = 268435456;

mod blocks;
mod heads;
mod items;
pub mod laws;
mod lines;
#[cfg(test)]
mod tests;

pub use items::{ReportItem, read_report};
