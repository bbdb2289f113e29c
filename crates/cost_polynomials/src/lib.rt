//! Polynomials of degree at most one in each selectivity, with whole coefficients: what a plan
//! costs,
//! as a function of the selectivity vector.
//!
//! Nothing here wraps: a sum or a product with a coefficient of 2^128 or more is refused as
//! `Large`,
//! and a value of 2^128 or more has no answer. The module `laws` promises how far a value can move
//! when the vector does.
#![tactic(auto)]

mod distances;
mod gathering;
pub mod laws;
mod polynomial;

pub use distances::{GrowthProducts, grown};
pub use gathering::PolyFault;
pub use polynomial::Poly;
