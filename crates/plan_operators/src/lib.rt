//! Operators that give the kept combinations of a statement, each once.
//!
//! Each operator is a file with the same two promises: each combination over its places stands once
//! and no other (`each_once`), and they come in the wanted order where the plan is sorted
//! (`in_order`).
#![tactic(auto)]

mod access;
mod columns;
mod combos;
mod edges;
mod hash_join;
mod index_join;
mod index_scan;
mod joining;
mod keys;
mod nested_loop_join;
mod plan;
mod seq_scan;
mod sort;
mod source;

pub use access::access_rows;
pub use columns::{Cell, ColumnCells, PlaceColumn, are_equal, column_of, order_of};
pub use combos::{Combo, Combos};
pub use edges::{ReadyEdge, edge_of, edges_between, end_of, meets_all};
pub use hash_join::{BuildSide, build_side, lies_below, lies_up_to, positions_with_key};
pub use index_join::rows_equal;
pub use index_scan::{index_there, table_there, test_of};
pub use keys::{ReadyKey, ascending_keys, keys_order_of, ready_key, ready_keys, wanted_keys};
pub use plan::run_plan;
pub use source::Source;
