//! What a command line asks for, as the program goes on with it.
use fraction_math::Ratio;
use row_values::Words;

/// What the program is to do.
#[derive(Debug, Drop)]
pub enum Mode {
    /// Run the script of this name.
    Run(Words),
    /// Verify a report of a script: the script's name, then the report's.
    Verify(Words, Words),
    /// Run the example of this number.
    Demo(u16),
}

/// How it is to be done.
#[derive(Debug, Drop)]
pub struct Options {
    /// The bound on cost.
    pub lambda: Ratio,
    /// The bound under which a plan is kept.
    pub keep: Ratio,
    /// How many plans a cache holds.
    pub budget: u16,
    /// How many plans are costed anew before one is searched for.
    pub recosts: u8,
    /// The file of the weights, where one is named.
    pub weights: Option<Words>,
}

/// All that a command line asks for.
#[derive(Debug, Drop)]
pub struct Job {
    /// What to do.
    pub mode: Mode,
    /// How to do it.
    pub options: Options,
}
