//! What a run wrote is accepted by the walk over reports: definitions and a law, and no code that runs.
//!
//! The law joins what is proved of runs, that each execution is within the bound beside the run's ledger, with the walk
//! that `report_verifier` makes over the report of a run. It stands on neither the engine nor an optimiser.
#![tactic(auto)]

pub mod laws;
