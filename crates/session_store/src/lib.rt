//! The catalog of a session: tables with their versions and indexes, and prepared statements, by name and in the order
//! in which they came; and the open cursors, as far as they hold versions.
//!
//! Each name stands once. A version counts against the limits as long as it is present or a cursor holds it. A call
//! that is refused or lacks memory leaves everything as it was: it makes its growths first. An instance counts nothing
//! but its vector, since the statistics of each statement are kept. The ways in are `Store::load`, `Store::add_index`,
//! `Store::prepare`, `Store::instance`, `Store::hold_cursor` and `Store::close_cursor`; each of their refusals is exact
//! and in its order. It knows no script line and no reply.
#![tactic(auto)]

mod cursors;
mod faults;
mod held;
mod indexing;
mod instances;
mod loading;
mod measures;
mod preparing;
mod store;
#[cfg(test)]
mod tests;
mod version;

pub use faults::StoreFault;
pub use instances::Instance;
pub use store::Store;
