//! Plans: access paths, join trees and tops, when they are valid, and how they are spelled.
//!
//! A plan is a tree that shares its parts; contracts speak of the tree that it stands for, without
//! its pointers
//! (`tree` of specs/Trees). It knows no cost and no way to run a plan.
#![tactic(auto)]

pub mod laws;
mod listing;
mod place_sets;
mod plans;
mod printing;
mod reading;
mod scale;
mod selectivities;
mod statistics;
mod validity;

pub use listing::{accesses, hash_join_edge, steps};
pub use place_sets::{all_places, are_apart, has_place, one_place, with_place, with_places};
pub use plans::{Access, Plan, StepKind, Top, place_read, same, step_place};
pub use printing::print_plan;
pub use reading::{NESTING_LIMIT, PlanFault, read_plan};
pub use scale::COST_SCALE;
pub use selectivities::Vector;
pub use statistics::{Indexed, Stats, Weights};
pub use validity::{
    edge_column, groups_rows, has_wanted, is_sorted, is_sorted_access, is_valid_access,
    is_valid_hash_join, is_valid_step, plan_under, valid, wants_some_order,
};

#[cfg(test)]
mod tests;
