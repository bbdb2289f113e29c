//! The words of the command line: what they ask the program to do.
//!
//! `read_words` is the one way in. It refuses words that mean nothing, and says no more of them.
//! Which words are accepted is decided here; of the accepted words one normal form is made, and
//! `clap` reads the values from that.
#![tactic(auto)]

mod given;
mod items;
mod jobs;
mod normal_form;
mod numbers;
mod reading;

pub use jobs::{Job, Mode, Options};
pub use reading::read_words;

#[cfg(test)]
mod tests;
