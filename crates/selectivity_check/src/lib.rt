//! The selectivity check: may a kept plan answer an instance without being costed there?
//!
//! An anchor passes where its plan's own cost, let grow as far as the selectivities went, is within the ratio
//! `lambda` of the least cost, let shrink likewise (`passes_selectivity_check`). One whose first selectivity is
//! further from the instance's than the ratio can't pass, so a window of the anchors is looked at alone. The way in
//! is `by_selectivity`. It changes nothing and takes no memory.
#![tactic(auto)]

mod check;
mod window;

pub use check::by_selectivity;
