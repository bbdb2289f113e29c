//! What a session is: the state that lines change, one step, a run of a script, and its report.
//!
//! It holds definitions and limits alone. `State` is what is kept, `Step` what one line may answer and leave, `IsChain`
//! one step after the other, `report_text` what is written. The engine is proved to take steps, the program to write
//! runs. A run knows nothing of the cases of a step: to add a command, add its case to `CommandStep`, and the cases of
//! the laws.
#![tactic(auto)]

/// The most plans that a statement's cache keeps, whatever the settings.
pub const BUDGET_LIMIT: u16 = 256;
/// The most rows of a result.
pub const RESULT_LIMIT: usize = 1000000;

pub mod laws;
mod settings;

pub use settings::Settings;
