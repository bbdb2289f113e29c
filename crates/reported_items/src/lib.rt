//! What a checker reads in the report of a run: definitions and laws, and no code that runs.
//!
//! The items of a report are those of its replies, one after the other: no reply's lines are taken
//! for another one's.
#![tactic(auto)]

pub mod laws;
