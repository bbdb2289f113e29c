//! What the outside is to every layer: files by name, what is told of them, and counts that rise.
//!
//! It holds definitions and limits alone; the calls that reach outside stand in `outside_io`.
#![tactic(auto)]

/// The most bytes of a script, 16 MiB: a script is held whole while it runs.
pub const SCRIPT_LIMIT: usize = 1 << 24;

/// The most bytes of a CSV file, 64 MiB: a file is held whole while its table is made.
pub const FILE_LIMIT: usize = 1 << 26;
