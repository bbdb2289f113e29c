//! Plan caches over a worked statement, for tests and measurements of the crates that look into caches.
//!
//! A `WorkedCache` keeps plans and anchors that were tested to be of its statement, and asks about instances that were
//! tested likewise. So a test proves what its calls ask for by that one line.
#![tactic(auto)]

mod caches;

pub use caches::WorkedCache;

#[cfg(test)]
mod tests;
