//! The statement language: a text is read as a `Select`, and a `Select` has one canonical spelling.
//!
//! It knows names, numbers and texts, and no table: what the names stand for is found out above.
#![tactic(auto)]

mod faults;
pub mod laws;
mod parsing;
mod printing;
mod reading;
mod statement;
#[cfg(test)]
mod tests;
mod tokens;

pub use faults::ParseFault;
pub use parsing::parse;
pub use printing::print;
pub use statement::{
    RawCond, RawItem, RawKey, RawOperand, RawOperands, RawPlace, RawRef, RawTest, Select,
};
pub use tokens::{Symbol, Token, take_token};
