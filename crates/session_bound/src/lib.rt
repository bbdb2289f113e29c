//! The bound of a run: each execution's plan costs at most lambda times the least, and its
//! certificate is accepted.
//!
//! It holds definitions and one law. `ledger_after` says which optima a certificate may name,
//! `AreBounded` that every execution along a chain of steps is within the bound beside that ledger.
//! It looks into no code: the law follows from what one step is, and stands on the checker's
//! definitions and the model of sessions alone.
#![tactic(auto)]

pub mod laws;
