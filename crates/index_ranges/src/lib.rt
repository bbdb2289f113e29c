//! Which positions of an index meet a test: ranges, one behind the other.
//!
//! An index has its rows in the order of their cells, so that those which meet a test stand side by
//! side, and those of an IN do so for each of its values. `ranges_of` gives their ranges and
//! `count_in` how many they are; neither takes memory.
#![tactic(auto)]

mod ends;
mod ranges;
mod test_ranges;
mod values;

pub use ends::within;
pub use ranges::Ranges;
pub use test_ranges::{count_in, ranges_of};

#[cfg(test)]
mod tests;
