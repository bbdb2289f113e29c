//! The cost check: may a kept plan answer an instance, by what it costs there?
//!
//! The candidates are the anchors nearest to the instance, as many as may be costed. A candidate passes where its
//! plan's cost at the instance is within the ratio `lambda` of the anchor's least cost, let shrink as far as the
//! selectivities did (`is_cheap_enough`). The way in is `by_cost`: one walk over the anchors keeps the nearest in
//! place, then these are costed in order. It changes nothing and takes no memory.
#![tactic(auto)]

mod check;
mod nearest;

pub use cache_model::RECOST_LIMIT;
pub use check::{CostAnswer, by_cost};
