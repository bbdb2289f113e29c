//! Worked statements with their statistics, for tests and measurements of the crates that cost and
//! choose plans.
//!
//! A `Worked` is a statement with statistics that were tested to be sound for it, and its `takes`
//! tests a vector: so a test proves what its calls ask for by that one line. The examples are those
//! that the documents work by hand, and `with_numbers` makes others of plain lists.
#![tactic(auto)]

mod examples;
mod numbers;
mod soundness;
mod statements;

pub use examples::{
    bushy_beats_left_deep, duplicate_join_keys, interesting_order, orders_above,
    reuse_by_selectivity, smallest_pair_first_is_not_least,
};
pub use numbers::{Numbers, USUAL, Worked, with_numbers};
pub use statements::{Table, at, statement};
