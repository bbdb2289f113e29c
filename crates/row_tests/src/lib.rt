//! Tests of rows: predicates with their operands looked up once, and the cells that they read.
//!
//! A row is tested without memory. A column of whole numbers is read from its packed list, and each
//! of its numbers is compared with the ends of a range; any other column is tested cell by cell. A cell, an
//! argument or a column that isn't there meets nothing.
//!
//! `ready_preds` gives the tests of a place and `passes` tests a row by them; `packed_test` gives
//! what a loop over one packed column needs.
#![tactic(auto)]

mod cells;
mod number_tests;
mod predicate_tests;
mod value_tests;

pub use cells::cell_in;
pub use number_tests::{NumberRange, NumberTest};
pub use predicate_tests::{Ready, packed_test, passes, ready_pred, ready_preds, row_meets};
pub use value_tests::{meets_test, number_test, value_of};
