//! The statistics of a statement over its tables, defined as plain counts, and their laws.
//!
//! Nothing runs here: `stats_of` and `first_wide` in `specs/` are what counting code is held to. The
//! laws are the clauses of `laws`.
#![tactic(auto)]

pub mod laws;
