//! Which cost expressions grow no faster than their selectivities: those whose expanded form has
//! each
//! selectivity at most once in a term.
//!
//! `shape` answers the expanded form as a polynomial, or says why there is none. It looks at the
//! expression alone, and knows nothing of plans.
#![tactic(auto)]

mod expression;
mod expression_shape;

pub use expression::Expr;
pub use expression_shape::{ShapeFault, shape};
