//! The meaning of a statement over tables and arguments, as definitions and their laws.
//!
//! A table is the list of its rows, a combination has one row number per place. `kept_combinations`
//! keeps those that
//! meet every predicate and edge, `shape_of` puts any list of them in order and shows the items,
//! and `meaning_of`
//! is the second of the first. It knows no plan and no operator: those above are proved to give
//! just this.
//!
//! What an operator gives on the way is a list of combinations over some of the places
//! (`PartialCombinations`), which
//! has each once that fits (`Once`). The laws are the functions of `laws`, and more of them are the
//! lemmas of `proofs`.
#![tactic(auto)]

pub mod laws;
