//! The statistics of a statement over its tables.
//!
//! What costs a sort of each column, the distinct counts, can be made once for a table and kept:
//! `stats_with` takes it, and `stats` makes it. That a statement is wide is known before either.
ghost use Rattle.std.specs.Prelude.{ℕ, ◌≡◌, IfErr, IfOk, None, Some, map};
ghost use Rattle.std.specs.Rc.{rc_value};
ghost use Rattle.csv_tables.specs.StatementTables.{AreTablesOf, rows_in, tables_in};
ghost use Rattle.plan_trees.specs.Statistics.{AreWeights, IsSoundStats};
ghost use Rattle.statement_statistics.specs.Statistics.{first_wide, stats_of};
ghost use Rattle.table_index.specs.StatementIndexes.{indexes_in, masks_of};
ghost use Rattle.selectivity_counts.specs.Built.{AreBuilt};
ghost use Rattle.selectivity_counts.specs.Kept.{AreDistinctsOf};
ghost use Rattle.selectivity_counts.specs.declared.faults.CountFault.TheVariants.{Wide};

use crate::distincts::{Distincts, distincts_of};
use crate::faults::CountFault;
use crate::lists::{edge_counts, fan_counts, fixed_counts, matching_counts, row_counts};
use crate::masks::indexed;
use crate::widths::wide_place;
use csv_tables::Table;
use plan_trees::{Stats, Weights};
use row_values::{OutOfMemory, Query};
use std::alloc::Global;
use std::rc::Rc;
use table_index::Index;

/// The statistics of a statement that isn't wide.
fn counted(
    alloc: Global,
    q: &Query,
    tables: &[Rc<Table>],
    distincts: &[Rc<Distincts>],
    indexes: &[Option<Rc<Index>>],
    weights: Weights,
) -> Result<Stats, OutOfMemory>
    requires narrow { first_wide q.now (rows_in (tables_in tables.now)) ≡ None }
    requires tables { AreTablesOf q.now (tables_in tables.now) }
    requires distincts { AreDistinctsOf (tables_in tables.now) (map rc_value distincts.now) }
    requires built { AreBuilt q.now (tables_in tables.now) (indexes_in indexes.now) }
    requires weights { AreWeights weights }
    ensures value { IfOk result (λ stats. stats
        ≡ stats_of q.now (rows_in (tables_in tables.now)) (masks_of q.now.places indexes.now) weights) }
    ensures sound { IfOk result (λ stats. IsSoundStats q.now stats) }
{
    q.sound();
    let rows = row_counts(alloc, q, tables)?;
    let fixed = fixed_counts(alloc, q, tables)?;
    let matching = matching_counts(alloc, q, tables, indexes)?;
    let edges = edge_counts(alloc, q, distincts)?;
    let fans = fan_counts(alloc, rows.as_slice(), distincts)?;
    let stats = Stats::of(
        alloc,
        q,
        rows.as_slice(),
        fixed.as_slice(),
        matching.as_slice(),
        edges.as_slice(),
        fans.as_slice(),
        indexed(q, indexes),
        weights,
    )?;
    Ok(stats)
}

/// The statistics of a statement over its tables, whose distinct counts are given; where the
/// statement is wide, the first place at which the product of rows passes 2^63.
pub fn stats_with(
    alloc: Global,
    q: &Query,
    tables: &[Rc<Table>],
    distincts: &[Rc<Distincts>],
    indexes: &[Option<Rc<Index>>],
    weights: Weights,
) -> Result<Stats, CountFault>
    requires tables { AreTablesOf q.now (tables_in tables.now) }
    requires distincts { AreDistinctsOf (tables_in tables.now) (map rc_value distincts.now) }
    requires built { AreBuilt q.now (tables_in tables.now) (indexes_in indexes.now) }
    requires weights { AreWeights weights }
    ensures value { IfOk result (λ stats. stats
        ≡ stats_of q.now (rows_in (tables_in tables.now)) (masks_of q.now.places indexes.now) weights) }
    ensures sound { IfOk result (λ stats. IsSoundStats q.now stats) }
    ensures narrow { IfOk result (λ stats. first_wide q.now (rows_in (tables_in tables.now)) ≡ None) }
    ensures wide { IfErr result (λ fault. (place : ℕ) → fault ≡ Wide place
        → first_wide q.now (rows_in (tables_in tables.now)) ≡ Some place) }
{
    if let Some(place) = wide_place(q, tables) {
        return Err(CountFault::Wide(place));
    }
    let stats = counted(alloc, q, tables, distincts, indexes, weights)?;
    Ok(stats)
}

/// The statistics of a statement over its tables, as `stats_with`, whose distinct counts are made
/// here.
pub fn stats(
    alloc: Global,
    q: &Query,
    tables: &[Rc<Table>],
    indexes: &[Option<Rc<Index>>],
    weights: Weights,
) -> Result<Stats, CountFault>
    requires tables { AreTablesOf q.now (tables_in tables.now) }
    requires built { AreBuilt q.now (tables_in tables.now) (indexes_in indexes.now) }
    requires weights { AreWeights weights }
    ensures value { IfOk result (λ stats. stats
        ≡ stats_of q.now (rows_in (tables_in tables.now)) (masks_of q.now.places indexes.now) weights) }
    ensures sound { IfOk result (λ stats. IsSoundStats q.now stats) }
    ensures narrow { IfOk result (λ stats. first_wide q.now (rows_in (tables_in tables.now)) ≡ None) }
    ensures wide { IfErr result (λ fault. (place : ℕ) → fault ≡ Wide place
        → first_wide q.now (rows_in (tables_in tables.now)) ≡ Some place) }
{
    // No column of a wide statement is sorted.
    if let Some(place) = wide_place(q, tables) {
        return Err(CountFault::Wide(place));
    }
    let distincts = distincts_of(alloc, tables)?;
    stats_with(alloc, q, tables, distincts.as_slice(), indexes, weights)
}
