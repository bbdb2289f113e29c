//! The top call: the words, the weights, the job that the words ask for, and the status that the program ends with.
//!
//! `scr` is what `main` calls. Its contract is `TopPromise` of `specs/Jobs`: what was written is the report of a run of
//! the script (`Headline`), what a report's verification ends with (`VerifyPromise`), or the demo's summary, and each
//! status has its cause. It knows a shelf and a sink, and no file system.
#![tactic(auto)]

mod demo;
mod job;
pub mod laws;
mod outcome;
mod run;
mod serving;
mod texts;
mod verify;
mod weights;

pub use job::scr;
pub use outcome::Status;

#[cfg(test)]
mod tests;
#[cfg(test)]
mod verify_tests;
