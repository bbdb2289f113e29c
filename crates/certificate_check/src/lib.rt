//! The checker that trusts nobody: is what a report tells of an execution's cost true?
//!
//! It is given a plan, its cost and a certificate, computes anew what they claim from the statement and its
//! statistics, and answers the first fault. It stands on neither the optimiser nor the plan cache: of the cache it
//! knows the optima that it accepted itself, and no more. `Ledger::accept` is the one way in.
#![tactic(auto)]

mod bounds;
mod claims;
mod entries;
mod hash_joins;
mod last_places;
pub mod laws;
mod ledger;
mod reuses;
mod tables;
mod verdicts;

pub use ledger::Ledger;
pub use verdicts::Verdict;

#[cfg(test)]
mod tests;
