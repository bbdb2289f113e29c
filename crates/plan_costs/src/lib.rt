//! What plans cost, computed: exact, on the scale of the cost model, and never past 128 bits.
//!
//! Each call that computes a cost meets an equation of the cost model and takes no memory; `expr_of` and `poly_of` give a
//! plan's whole cost as a function of the selectivities, and `cost_of` at one vector. Beside them stand the forms in which an optimiser answers: the
//! best plan, and the potentials of all sets of places; that there is such an answer is the law in `laws`.
#![tactic(auto)]

mod accesses;
mod cardinalities;
mod cheapest_accesses;
mod cheapest_steps;
mod formulas;
pub mod laws;
mod planner;
mod polynomials;
mod potentials;
mod sorts;
mod steps;
mod whole_costs;

pub use accesses::access_unit;
pub use cardinalities::{all_cards, card};
pub use cheapest_accesses::{PricedAccess, least_accesses};
pub use cheapest_steps::least_step;
pub use formulas::expr_of;
pub use planner::{Best, Planner};
pub use polynomials::poly_of;
pub use potentials::{Cell, Potentials};
pub use sorts::{sort_cost, sort_cost_with};
pub use steps::{join_cost, join_cost_with, step_cost, step_cost_with};
pub use whole_costs::cost_of;

#[cfg(test)]
mod tests;
