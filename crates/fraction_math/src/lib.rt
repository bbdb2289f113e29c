//! Exact arithmetic for the bound on cost: fractions, and comparisons of products.
//!
//! Every product here is the true one. Where it is 2^128 or more, `product` has no answer and
//! `le_scaled` says no: it never wraps. No call takes memory.
#![tactic(auto)]

mod exact_products;
mod ratio;

pub use exact_products::{le_scaled, product};
pub use ratio::Ratio;
