//! Operators by pull: a plan gives its kept combinations one at a time, and no list of all of them
//! is made.
//!
//! A plan that is pulled is a chain: a foot, and above it one join for each step. The
//! outer side of a join is pulled; its inner side is read once, when the chain is opened, and so is
//! the input of a sort. From then on nothing takes memory. The way in is `Pull`. To add a plan form,
//! add its operator's file, a case of `Join` or `Foot`, and an arm of `open`.
#![tactic(auto)]

mod chain;
mod foot;
mod hash_join;
mod index_join;
mod join;
mod nested_loop_join;
mod pull;
mod row_cursor;
mod scan;
mod sort;

pub use pull::Pull;
