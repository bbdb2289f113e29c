//! Verifying a report, whoever wrote it: are its plans valid, and do they cost what it says, within the bound?
//!
//! A `Verifier` walks over the lines of a script as a run does, with loads, indexes, statements and the names of
//! cursors, and matches each line that would be executed with the next item of the report. It executes nothing, and
//! stands on neither the engine nor an optimiser nor a plan cache: a claim is judged by `certificate_check` alone.
//! `Verifier::check` is one step of the walk, which `Step` of `specs/` says by cases, and `finish` its end.
#![tactic(auto)]

mod claims;
mod costs;
mod findings;
mod forgetting;
pub mod laws;
mod rejections;
#[cfg(test)]
mod tests;
mod verifier;

pub use rejections::{Rejection, Stop, Verification, Why, verification_text};
pub use verifier::Verifier;
