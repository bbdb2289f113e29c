//! The file of the weights: what each kind of work weighs in the cost model, as a JSON object.
//!
//! `read_weights` is the one way in. `default_weights` is what counts where no file is named.
#![tactic(auto)]

mod reading;

/// The most bytes of a file of weights, 64 KiB.
pub const WEIGHTS_LIMIT: usize = 1 << 16;

pub use reading::{WeightsFault, default_weights, read_weights};

#[cfg(test)]
mod tests;
