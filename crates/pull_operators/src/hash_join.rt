//! The hash join: the inner side is built once, and each combination of the outer side looks its
//! key up there.
//!
//! The build side is that of the join that runs at once, and looked up in the same way.
ghost use Rattle.std.specs.Prelude.{◌≡◌, ◌++◌, ◌∷◌, [], All, IfNone, IfOk, IfSome, length};
ghost use Rattle.std.specs.Option.{option_to_list};
ghost use Rattle.plan_trees.specs.PlaceSets.{has};
ghost use Rattle.plan_trees.specs.PlanSpace.{IsValidHashJoin};
ghost use Rattle.statement_meaning.specs.PartialCombinations.{Once};
ghost use Rattle.plan_operators.specs.Sources.{IsSource, world_read};
ghost use Rattle.pull_operators.specs.Pieces.{JoinsTo, hash_piece};
ghost use Rattle.pull_operators.specs.StillToCome.{IsReadyHash, hash_from, hash_to_come, is_as_long_as};

use plan_operators::{
    BuildSide, Combo, PlaceColumn, ReadyEdge, Source, build_side, column_of, edge_of,
    edges_between, end_of, meets_all, positions_with_key,
};
use row_values::OutOfMemory;
use std::alloc::Global;

/// The build side, the outer side's present combination, and the positions of those that have its
/// key, from the next one up to their end.
#[derive(Drop)]
pub(crate) struct HashJoin<'a> {
    edges: Vec<ReadyEdge<'a>>,
    places: u8,
    column: PlaceColumn<'a>,
    side: BuildSide<'a>,
    combo: Combo,
    next: usize,
    end: usize,
}

impl<'a> HashJoin<'a> {
    /// The join of an outer side over these places with an inner side over those; it has no
    /// combination of the outer side yet.
    pub(crate) fn open(
        alloc: Global,
        source: &Source<'a>,
        places: u8,
        inner_places: u8,
        inner: Vec<Combo>,
        edge: u8,
    ) -> Result<HashJoin<'a>, OutOfMemory>
        requires sound { IsSource source.now }
        requires valid { IsValidHashJoin source.now.q.now places inner_places edge }
        requires inner_once { Once (world_read source.now) (has inner_places) inner.items }
        ensures ready { IfOk result IsReadyHash }
        ensures long { IfOk result (λ join. All (is_as_long_as source.now.q.now.places) join.side.combos.items) }
        ensures none { IfOk result (λ join. hash_to_come join ≡ []) }
        ensures joins { IfOk result (λ join. JoinsTo source.now places inner_places (hash_piece join)) }
    {
        let key = edge_of(source.q, edge);
        let edges = edges_between(alloc, source, places, inner_places)?;
        let inner_column = column_of(source.tables, end_of(inner_places, key));
        let column = column_of(source.tables, end_of(places, key));
        let side = build_side(alloc, inner_column, inner)?;
        Ok(HashJoin {
            edges,
            places,
            column,
            side,
            combo: Combo::zeros(source.q.places().len()),
            next: 0,
            end: 0,
        })
    }

    /// Goes on with this combination of the outer side.
    #[inline]
    pub(crate) fn begin(&mut self, combo: Combo)
        requires ready { IsReadyHash self.old }
        requires long { All (λ d. length combo ≡ length d) self.old.side.combos.items }
        ensures ready { IsReadyHash self.new }
        ensures side { self.new.side ≡ self.old.side }
        ensures piece { hash_piece self.new ≡ hash_piece self.old }
        ensures to_come { hash_to_come self.new ≡ hash_piece self.old combo }
    {
        let (next, end) = positions_with_key(&self.side, self.column.cell(&combo));
        self.combo = combo;
        self.next = next;
        self.end = end;
    }

    /// What the present combination makes next, and the position behind its partner.
    #[inline]
    fn first_made(&self) -> Option<(usize, Combo)>
        requires { IsReadyHash self.now }
        ensures found { IfSome result (λ found. hash_to_come self.now ≡ found.1 ∷ hash_from self.now found.0) }
        ensures none { IfNone result (hash_to_come self.now ≡ []) }
    {
        for position in self.next..self.end {
            let made = Combo::merge(self.places, self.combo, self.side.combos[position]);
            if meets_all(&self.edges, &made) {
                return Some((position + 1, made));
            }
        }
        None
    }

    /// What the present combination makes next.
    #[inline]
    pub(crate) fn next(&mut self) -> Option<Combo>
        requires { IsReadyHash self.old }
        ensures ready { IsReadyHash self.new }
        ensures side { self.new.side ≡ self.old.side }
        ensures piece { hash_piece self.new ≡ hash_piece self.old }
        ensures given { hash_to_come self.old ≡ option_to_list result ++ hash_to_come self.new }
        ensures none { IfNone result (hash_to_come self.new ≡ []) }
    {
        match self.first_made() {
            Some((next, made)) => {
                self.next = next;
                Some(made)
            }
            None => {
                self.next = self.end;
                None
            }
        }
    }
}
