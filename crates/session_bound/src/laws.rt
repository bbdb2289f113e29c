//! The law of the bound, the contract of a function that does nothing.
ghost use Rattle.session_bound.specs.Laws.{BoundLaw};

/// Along every chain of steps from a first state each execution is within the bound, and its
/// certificate is accepted beside the ledger of the steps before it.
pub fn every_execution_is_within_the_bound()
    ensures { BoundLaw }
{}
