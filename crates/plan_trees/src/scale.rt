//! The unit in which whoever costs a plan counts.

/// One row on the scale of cardinalities and costs: 2^40, so that estimates far below one row still
/// count.
pub const COST_SCALE: u128 = 1099511627776;
