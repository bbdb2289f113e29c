//! Tables from CSV: typed rows from any bytes, or the first of the named faults.
//!
//! A `Table` is columns and rows with a value per column. `read_table` is the one way to make one.
#![tactic(auto)]

mod cells;
mod faults;
mod header;
pub mod laws;
mod packed;
mod read;
mod records;
mod shape;
mod survey;
mod table;

pub use faults::TableFault;
pub use read::read_table;
pub use table::{CELL_LIMIT, ROW_LIMIT, Table};

#[cfg(test)]
mod tests;
