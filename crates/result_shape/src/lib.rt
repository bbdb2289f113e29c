//! The last step of a statement: combinations of row numbers become result rows and their lines.
//!
//! `finish` shapes a list of combinations, a `Shaper` takes them one at a time; `row_text` spells a
//! row.
#![tactic(auto)]

mod groups;
mod heads;
mod hints;
mod numbered;
mod row_texts;
mod rows;
mod runs;
mod shaper;
mod tallies;

pub use row_texts::row_text;
pub use rows::{ROW_LIMIT, Rows, RowsFault};
pub use shaper::{Pushed, Shaper, finish};

#[cfg(test)]
mod tests;
