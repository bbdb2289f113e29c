//! Names to places: a statement over known tables becomes a bound statement, or is refused.
//!
//! `bind` is the one way in. Its answer is `binding_of`: the first of eight refusals, each showing
//! its first case
//! in text order, or else the statement in which each reference is a place and a column.
//! It knows schemas by the trait `Schemas`, and no rows.
#![tactic(auto)]

mod binder;
mod catalog;
mod checks;
mod faults;
pub mod laws;
mod limits;
mod parts;
mod places;
mod raw_operands;
mod references;
mod spelling;

pub use binder::bind;
pub use catalog::Schemas;
pub use faults::BindFault;

#[cfg(test)]
mod tests;
