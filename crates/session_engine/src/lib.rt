//! The engine: one command of a script at a time.
//!
//! Each command is one step of the session's model, from the state that the engine stands for to the one that it stands
//! for afterwards. Every growth comes before the first change, so a command that is refused changes nothing; after want
//! of memory each later one is answered `Spent`. The one way in is `Engine::step`.
#![tactic(auto)]

mod answers;
mod choosing;
mod clearing;
mod engine;
mod execution;
mod keeping;
mod running;
mod session;
mod shaping;
mod showing;
mod waiting;

pub use engine::Engine;
pub use session_model::Settings;
