//! What plans cost: the cost model as equations, and the laws that hold of it.
//!
//! Cardinalities and costs are whole numbers on one scale, of which `COST_SCALE` is a single row;
//! they stand in
//! specs/Cardinalities and specs/Costs. It knows no way to compute a cost and none to search for a
//! plan.
#![tactic(auto)]

pub mod laws;
