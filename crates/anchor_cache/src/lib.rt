//! The plan cache of one statement: kept plans, and the instances that were optimised, each with its plan.
//!
//! A cache holds plans and anchors in the order of adding. Beside them it keeps the anchors in the order of their
//! first selectivities, and for each plan how often its anchors were used, so that a check looks at few anchors and
//! an eviction adds up nothing. What is true of every cache is the record `IsCache`.
#![tactic(auto)]

mod anchors;
mod cache;
mod kept_plans;
mod window;

pub use anchors::Anchor;
pub use cache::Cache;
pub use kept_plans::{Kept, PlanUses};
pub use window::WindowEntry;
