//! Plan caches: what one holds, how it chooses and what it keeps, and the laws that hold of it.
//!
//! A cache stands in specs/Caches, the choice for an instance in specs/Choices, what is kept of an
//! optimised plan
//! in specs/Keeping, and what makes a cache faithful in specs/Faithful. It knows no way to search
//! for a plan.
#![tactic(auto)]

pub mod laws;
mod limits;

pub use limits::{ANCHOR_LIMIT, RECOST_LIMIT};
