//! Exact counts of rows: those that meet a predicate, the vector of a statement, its statistics.
//!
//! Indexes are used where there are any. `count` and `vector` take no memory: `count` counts the
//! rows of a table, `vector` gives the vector, whose numbers are at least 1 and stand in text
//! order. `stats` counts all that plans are costed by; what it sorts columns for can be kept beside
//! a table as `Distincts`, and `stats_with` takes that.
#![tactic(auto)]

mod counts;
mod distincts;
mod faults;
mod fixed;
mod lists;
mod masks;
mod statistics;
mod vectors;
mod widths;

pub use counts::count;
pub use distincts::Distincts;
pub use faults::CountFault;
pub use statistics::{stats, stats_with};
pub use vectors::vector;

#[cfg(test)]
mod tests;
