//! Certificates in JSON: what a report says of an execution's cost, for a reader who trusts nobody.
//!
//! A certificate is written on one line, and read from any text of the same JSON value. What was written is read
//! back as what it was.
#![tactic(auto)]

mod certificates;
mod numbers;
mod reading;
mod writing;

pub use certificates::{CELL_LIMIT, Cert, CertFault, EXECUTION_LIMIT};
pub use numbers::number_spelled;
pub use reading::from_text;
pub use writing::to_text;

#[cfg(test)]
mod tests;
