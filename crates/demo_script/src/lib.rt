//! The demo: three tables and a script with drawn arguments, the same at each run, and what is told
//! of its replies.
//!
//! It makes texts and counts replies, and knows no engine. `Demo` is the script with its files,
//! `Summary` the counts. All numbers are drawn from one generator, in one order: the tables `a`,
//! `b` and `c`, row by row and cell by cell, then the runs.
#![tactic(auto)]

mod draws;
mod script;
mod summary;
mod tables;
#[cfg(test)]
mod tests;

pub use draws::Draws;
pub use script::Demo;
pub use summary::Summary;
pub use tables::{table_a, table_b, table_c};
