//! The plan of least cost, by dynamic programming over sets of places.
//!
//! The sets are searched in rising order. Of each the cheapest plan is kept, and the cheapest in the wanted order:
//! by an access, by a step over a smaller set, by a hash join of two parts, or by a sort. That none costs less
//! follows from the lower-bound law: what is kept is feasible, and each cost is reached.
#![tactic(auto)]

mod found;
mod hash_joins;
mod last_places;
mod optimizer;
mod potentials;
mod search;
mod sorts;
mod tops;

pub use optimizer::{Optimizer, optimise};

#[cfg(test)]
mod drawn_statements;
#[cfg(test)]
mod plain_search;
#[cfg(test)]
mod tests;
