//! The index join: each combination of the outer side looks its key up in an index of the place
//! that enters.
//!
//! Of the rows that the index finds those are kept that meet the predicates on the place; every
//! edge between is tested.
ghost use Rattle.std.specs.Prelude.{◌≡◌, ◌<◌, ◌≤◌, ◌++◌, ◌∷◌, [], IfNone, IfOk, IfSome, IsSomeAnd, IsTrue, false, length, slice_get};
ghost use Rattle.std.specs.Option.{option_to_list};
ghost use Rattle.plan_trees.specs.Indexes.{has_index};
ghost use Rattle.plan_trees.specs.PlaceSets.{has, one};
ghost use Rattle.plan_trees.specs.PlanSpace.{column_in, joins_to};
ghost use Rattle.table_index.specs.Indexes.{IsBuilt};
ghost use Rattle.plan_operators.specs.Sources.{IsSource, masks_read};
ghost use Rattle.pull_operators.specs.Pieces.{JoinsTo, index_piece, rows_found};
ghost use Rattle.pull_operators.specs.StillToCome.{index_from, index_to_come};

use csv_tables::Table;
use plan_operators::{
    Combo, ReadyEdge, Source, edge_of, edges_between, end_of, index_there, meets_all, rows_equal,
    table_there,
};
use plan_trees::{edge_column, one_place};
use row_tests::{Ready, cell_in, passes, ready_preds};
use row_values::{ColRef, OutOfMemory, Value};
use std::alloc::Global;
use table_index::Index;

/// An index of the place that enters, with the tests of its rows and where keys are read; the outer
/// side's present combination, and what is left of the rows that its key finds.
#[derive(Drop)]
pub(crate) struct IndexJoin<'a> {
    edges: Vec<ReadyEdge<'a>>,
    place: u8,
    table: &'a Table,
    index: &'a Index,
    args: &'a [Value],
    ready: Vec<Ready<'a>>,
    key_table: &'a Table,
    key: ColRef,
    combo: Combo,
    left: &'a [u32],
}

impl<'a> IndexJoin<'a> {
    /// The join of an outer side over these places; it has no combination yet.
    pub(crate) fn open(
        alloc: Global,
        source: &Source<'a>,
        places: u8,
        place: u8,
        edge: u8,
    ) -> Result<IndexJoin<'a>, OutOfMemory>
        requires sound { IsSource source.now }
        requires there { place < length source.now.q.now.places }
        requires absent { has places place ≡ false }
        requires valid { IsSomeAnd (slice_get source.now.q.now.edges edge) (λ e. IsTrue (joins_to places place e)
            × IsTrue (has_index (masks_read source.now) place (column_in place e))) }
        ensures built { IfOk result (λ join. IsBuilt join.table.now join.index.now.column join.index.now) }
        ensures none { IfOk result (λ join. index_to_come join ≡ []) }
        ensures joins { IfOk result (λ join. JoinsTo source.now places (one place) (index_piece join)) }
    {
        let joining = edge_of(source.q, edge);
        let key = end_of(places, joining);
        let table = table_there(source, place);
        let ready = ready_preds(alloc, source.q.preds(), table, source.args, place)?;
        let edges = edges_between(alloc, source, places, one_place(place))?;
        Ok(IndexJoin {
            edges,
            place,
            table,
            index: index_there(source, place, edge_column(place, joining)),
            args: source.args,
            ready,
            key_table: table_there(source, key.place),
            key,
            combo: Combo::zeros(source.q.places().len()),
            left: &[],
        })
    }

    /// The rows that the key of a combination finds, in the order of the index.
    fn rows_with_key(&self, combo: &Combo) -> &'a [u32]
        requires { IsBuilt self.now.table.now self.now.index.now.column self.now.index.now }
        ensures { result.now ≡ rows_found self.now combo.now }
    {
        let row = combo.row(self.key.place);
        match cell_in(self.key_table, row as usize, usize::from(self.key.column)) {
            Some(value) => rows_equal(self.index, self.table, value),
            None => &[],
        }
    }

    /// Goes on with this combination of the outer side.
    #[inline]
    pub(crate) fn begin(&mut self, combo: Combo)
        requires { IsBuilt self.old.table.now self.old.index.now.column self.old.index.now }
        ensures built { IsBuilt self.new.table.now self.new.index.now.column self.new.index.now }
        ensures piece { index_piece self.new ≡ index_piece self.old }
        ensures to_come { index_to_come self.new ≡ index_piece self.old combo }
    {
        self.left = self.rows_with_key(&combo);
        self.combo = combo;
    }

    /// What the present combination makes next, and the position behind its row.
    #[inline]
    fn first_made(&self) -> Option<(usize, Combo)>
        ensures found { IfSome result (λ found. index_to_come self.now ≡ found.1 ∷ index_from self.now found.0) }
        ensures inside { IfSome result (λ found. found.0 ≤ length self.now.left.now) }
        ensures none { IfNone result (index_to_come self.now ≡ []) }
    {
        for position in 0..self.left.len() {
            let row = self.left[position];
            if passes(self.table, row as usize, self.args, &self.ready) {
                let mut made = self.combo;
                made.put(self.place, row);
                if meets_all(&self.edges, &made) {
                    return Some((position + 1, made));
                }
            }
        }
        None
    }

    /// What the present combination makes next.
    #[inline]
    pub(crate) fn next(&mut self) -> Option<Combo>
        requires { IsBuilt self.old.table.now self.old.index.now.column self.old.index.now }
        ensures built { IsBuilt self.new.table.now self.new.index.now.column self.new.index.now }
        ensures piece { index_piece self.new ≡ index_piece self.old }
        ensures given { index_to_come self.old ≡ option_to_list result ++ index_to_come self.new }
        ensures none { IfNone result (index_to_come self.new ≡ []) }
    {
        match self.first_made() {
            Some((next, made)) => {
                self.left = &self.left[next..];
                Some(made)
            }
            None => {
                self.left = &[];
                None
            }
        }
    }
}
