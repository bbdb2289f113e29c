//! Plans that are kept with what they cost, so that they can be costed again at other selectivities.
//!
//! A kept plan's cost is a polynomial in the selectivities, made once. To cost it again is to evaluate that: it
//! reads neither statement nor statistics, and takes no memory.
#![tactic(auto)]

mod kept_costs;

pub use kept_costs::Costed;

#[cfg(test)]
mod tests;
