//! The lists of counts that statistics are made of.
ghost use Rattle.std.specs.Prelude.{◌≡◌, ◌≤◌, ◌++◌, All, IfOk, OnOk, length, map, max};
ghost use Rattle.std.specs.Int.{div_ceil};
ghost use Rattle.std.specs.Rc.{rc_value};
ghost use Rattle.csv_tables.specs.StatementTables.{rows_in, tables_in};
ghost use Rattle.csv_tables.specs.declared.table.TheConstants.{ROW_LIMIT};
ghost use Rattle.statement_statistics.specs.Statistics.{edge_counts as edges_of, fixed_counts as fixed_of};
ghost use Rattle.statement_statistics.specs.Statistics.{matching_counts as matching_of, row_counts as rows_of};
ghost use Rattle.table_index.specs.StatementIndexes.{indexes_in};
ghost use Rattle.selectivity_counts.specs.Built.{AreBuilt};
ghost use Rattle.selectivity_counts.specs.Kept.{distinct_at as distinct_there, fans_from, kept_edge};

use crate::counts::count_on_place;
use crate::distincts::Distincts;
use crate::fixed::fixed_count;
use csv_tables::Table;
use row_values::{ColRef, Edge, OutOfMemory, Query, is_parameterised};
use std::alloc::Global;
use std::rc::Rc;
use table_index::Index;

/// The rows of each place, at least 1.
pub(crate) fn row_counts(
    alloc: Global,
    q: &Query,
    tables: &[Rc<Table>],
) -> Result<Vec<u64>, OutOfMemory>
    requires { length tables.now ≡ length q.now.places }
    ensures value { IfOk result (λ counts. counts.items ≡ rows_of q.now (rows_in (tables_in tables.now))) }
    ensures few { IfOk result (λ _. All (λ table. length table.value.rows ≤ ROW_LIMIT) tables.now) }
{
    let mut counts = Vec::new(alloc);
    for table in tables {
        counts.push(table.len().max(1) as u64)?;
    }
    Ok(counts)
}

/// The rows of each place that meet its fixed predicates, at least 1.
pub(crate) fn fixed_counts(
    alloc: Global,
    q: &Query,
    tables: &[Rc<Table>],
) -> Result<Vec<u64>, OutOfMemory>
    requires { length tables.now ≡ length q.now.places }
    ensures { IfOk result (λ counts. counts.items ≡ fixed_of q.now (rows_in (tables_in tables.now))) }
{
    let mut counts = Vec::new(alloc);
    for (place, table) in tables.iter().enumerate() {
        counts.push(fixed_count(alloc, q.preds(), table, place as u8)?)?;
    }
    Ok(counts)
}

/// For each predicate the rows that meet it, at least 1; 1 for a parameterised one.
pub(crate) fn matching_counts(
    alloc: Global,
    q: &Query,
    tables: &[Rc<Table>],
    indexes: &[Option<Rc<Index>>],
) -> Result<Vec<u64>, OutOfMemory>
    requires one_each { length tables.now ≡ length q.now.places }
    requires built { AreBuilt q.now (tables_in tables.now) (indexes_in indexes.now) }
    ensures { IfOk result (λ counts. counts.items ≡ matching_of q.now (rows_in (tables_in tables.now))) }
{
    let mut counts = Vec::new(alloc);
    for pred in q.preds() {
        if is_parameterised(pred) {
            counts.push(1)?;
        } else {
            counts.push(count_on_place(q, tables, indexes, pred, &[]).max(1))?;
        }
    }
    Ok(counts)
}

/// The distinct values of a column of a place; 0 where there is no such column.
fn distinct_at(distincts: &[Rc<Distincts>], at: ColRef) -> u64
    ensures { result ≡ distinct_there (map rc_value distincts.now) at }
{
    match distincts.get(usize::from(at.place)) {
        Some(counts) => counts
            .as_slice()
            .get(usize::from(at.column))
            .copied()
            .unwrap_or(0),
        None => 0,
    }
}

/// The larger of the distinct counts of the edge's two columns, at least 1.
fn edge_count(distincts: &[Rc<Distincts>], edge: &Edge) -> u64
    ensures { result ≡ kept_edge (map rc_value distincts.now) edge.now }
{
    let left = distinct_at(distincts, edge.left);
    let right = distinct_at(distincts, edge.right);
    left.max(right).max(1)
}

/// For each edge the larger of the distinct counts of its two columns, at least 1.
pub(crate) fn edge_counts(
    alloc: Global,
    q: &Query,
    distincts: &[Rc<Distincts>],
) -> Result<Vec<u64>, OutOfMemory>
    ensures { IfOk result (λ counts. counts.items ≡ map (kept_edge (map rc_value distincts.now)) q.now.edges) }
{
    let mut counts = Vec::new(alloc);
    for edge in q.edges() {
        counts.push(edge_count(distincts, edge))?;
    }
    Ok(counts)
}

/// Puts the rows for each distinct value of each column behind the numbers, rounded up.
fn push_fans(fans: &mut Vec<u64>, row_count: u64, distincts: &[u64]) -> Result<(), OutOfMemory>
    ensures { OnOk result (fans.new.items
        ≡ fans.old.items ++ map (λ count. div_ceil row_count (max 1 count)) distincts.now) }
{
    for count in distincts {
        fans.push(row_count.div_ceil((*count).max(1)))?;
    }
    Ok(())
}

/// The rows for each distinct value of each column, place by place.
pub(crate) fn fan_counts(
    alloc: Global,
    rows: &[u64],
    distincts: &[Rc<Distincts>],
) -> Result<Vec<u64>, OutOfMemory>
    requires { length rows.now ≡ length distincts.now }
    ensures { IfOk result (λ fans. fans.items ≡ fans_from rows.now 0 (map rc_value distincts.now)) }
{
    let mut fans = Vec::new(alloc);
    for (place, counts) in distincts.iter().enumerate() {
        push_fans(&mut fans, rows[place], counts.as_slice())?;
    }
    Ok(fans)
}
