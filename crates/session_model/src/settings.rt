//! The settings of a run: the same for all of its lines.

use fraction_math::Ratio;
use plan_trees::Weights;

/// What a run keeps to: the bound on the cost of what is used again, the threshold of what is kept, how many plans a
/// statement keeps, how many candidates are costed again, and what each kind of work weighs.
#[derive(Clone, Copy, Debug)]
pub struct Settings {
    /// At least 1: a plan that is used again costs at most so many times the least.
    pub lambda: Ratio,
    /// From 1 to lambda: an optimum within it of a kept plan isn't kept.
    pub keep: Ratio,
    /// The most plans of a statement, from 1 to 256.
    pub budget: u16,
    /// The most candidates that are costed again for an instance, at most 64.
    pub recosts: u8,
    pub weights: Weights,
}
