//! Indexes: the rows of a table in the order of one column, and what lies between two bounds.
//!
//! An `Index` is built of a table over a column, and read beside that table. Building takes memory,
//! reading takes none. `indexes_over` builds those of a statement's tables, and `distinct_values`
//! counts the distinct values of a column that has no index.
#![tactic(auto)]

mod bounds;
mod cells;
mod distinct;
mod index;
mod sorting;
mod statement_indexes;

pub use bounds::Bound;
pub use distinct::distinct_values;
pub use index::Index;
pub use statement_indexes::{entries_of, index_of, indexes_over};

#[cfg(test)]
mod tests;
