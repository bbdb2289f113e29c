//! What a session's catalog is: tables with their versions and indexes, prepared statements, and what is kept or refused.
//!
//! It holds definitions, limits and laws alone, and knows no script line and no reply. `Catalog` is what is kept;
//! `loading_of`, `indexing_of`, `preparing_of` and `instance_of` say what a load, an indexing, a preparation and an
//! execution's statement are, or their first refusal. The store is proved to keep a catalog, and a step of the session
//! to change one.
#![tactic(auto)]

/// The most tables that are kept.
pub const TABLE_LIMIT: usize = 64;
/// The most statements that are kept.
pub const STATEMENT_LIMIT: usize = 256;
/// The most cursors that are open at once.
pub const CURSOR_LIMIT: usize = 16;
/// The most cells that are kept, 2^23, all versions together: some 256 MiB of values.
pub const HELD_CELL_LIMIT: usize = 8388608;
/// The most bytes of the files of the versions that are kept, 2^28: a bound on the texts in their cells.
pub const HELD_BYTE_LIMIT: usize = 268435456;

pub mod laws;
