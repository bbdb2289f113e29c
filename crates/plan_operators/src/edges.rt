//! The edges between two sets of places, ready for many combinations.
//!
//! Every join tests them as soon as both ends are in. `edges_between` makes them ready, `meets_all`
//! tests a combination.
ghost use Rattle.std.specs.Prelude.{◌≡◌, ℕ, List, IfOk, IsSome, Some, filter, slice_get};
ghost use Rattle.std.specs.Ordering.{is_eq};
ghost use Rattle.plan_trees.specs.PlaceSets.{has};
ghost use Rattle.row_values.specs.Orders.{compares};
ghost use Rattle.csv_tables.specs.StatementTables.{rows_in, tables_in};
ghost use Rattle.statement_meaning.specs.Combinations.{edge_holds, edges_hold};
ghost use Rattle.statement_meaning.specs.Meaning.{cell_of};
ghost use Rattle.statement_meaning.specs.PartialCombinations.{end_in, is_between};
ghost use Rattle.plan_operators.specs.Edges.{all_meet, is_met};
ghost use Rattle.plan_operators.specs.Sources.{rows_read, world_read};

use crate::columns::{PlaceColumn, are_equal, column_of};
use crate::combos::Combo;
use crate::source::Source;
use csv_tables::Table;
use plan_trees::has_place;
use row_values::{ColRef, Edge, OutOfMemory, Query};
use std::alloc::Global;
use std::rc::Rc;

/// The two columns of an edge.
#[derive(Clone, Copy)]
pub struct ReadyEdge<'a> {
    pub left: PlaceColumn<'a>,
    pub right: PlaceColumn<'a>,
}

/// Whether the edge joins a place of one set to a place of the other.
fn is_between_sets(outer: u8, inner: u8, edge: Edge) -> bool
    ensures { result ≡ is_between (has outer) (has inner) edge }
{
    (has_place(outer, edge.left.place) && has_place(inner, edge.right.place))
        || (has_place(outer, edge.right.place) && has_place(inner, edge.left.place))
}

/// The column of the edge that is of a place of this set, where just one is.
pub fn end_of(set: u8, edge: Edge) -> ColRef
    ensures { result ≡ end_in (has set) edge }
{
    if has_place(set, edge.left.place) {
        edge.left
    } else {
        edge.right
    }
}

/// The edge of this number.
pub fn edge_of(q: &Query, edge: u8) -> Edge
    requires { IsSome (slice_get q.now.edges edge) }
    ensures { slice_get q.now.edges edge ≡ Some result }
{
    q.edges()[usize::from(edge)]
}

/// The edge with its columns at hand.
fn ready_edge<'a>(tables: &'a [Rc<Table>], edge: Edge) -> ReadyEdge<'a>
    ensures { (c : List ℕ) → is_met result c
        ≡ compares is_eq (cell_of (rows_in (tables_in tables.now)) c edge.left)
        (cell_of (rows_in (tables_in tables.now)) c edge.right) }
{
    ReadyEdge {
        left: column_of(tables, edge.left),
        right: column_of(tables, edge.right),
    }
}

/// The edges between two sets of places, ready for combinations over both.
pub fn edges_between<'a>(
    alloc: Global,
    source: &Source<'a>,
    outer: u8,
    inner: u8,
) -> Result<Vec<ReadyEdge<'a>>, OutOfMemory>
    ensures { IfOk result (λ ready. (c : List ℕ) → all_meet ready.items c
        ≡ edges_hold (world_read source.now)
        (filter (is_between (has outer) (has inner)) source.now.q.now.edges) c) }
{
    let mut ready = Vec::new(alloc);
    for edge in source.q.edges() {
        if is_between_sets(outer, inner, *edge) {
            ready.push(ready_edge(source.tables, *edge))?;
        }
    }
    Ok(ready)
}

/// Whether a combination meets all of these edges.
#[inline]
pub fn meets_all(edges: &[ReadyEdge<'_>], combo: &Combo) -> bool
    ensures { result ≡ all_meet edges.now combo.now }
{
    for edge in edges {
        if !are_equal(edge.left.cell(combo), edge.right.cell(combo)) {
            return false;
        }
    }
    true
}
