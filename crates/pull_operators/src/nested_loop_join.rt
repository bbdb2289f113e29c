//! The nested loop: each combination of the outer side with each row of an access path.
//!
//! The rows are read once, with all predicates of their place; every edge between is tested.
ghost use Rattle.std.specs.Prelude.{◌≡◌, ◌<◌, ◌++◌, ◌∷◌, [], IfNone, IfOk, IfSome, false};
ghost use Rattle.std.specs.Option.{option_to_list};
ghost use Rattle.plan_trees.specs.PlaceSets.{has, one};
ghost use Rattle.plan_trees.specs.PlanSpace.{IsValidAccess};
ghost use Rattle.plan_trees.specs.Trees.{place_of};
ghost use Rattle.plan_operators.specs.Sources.{IsSource, masks_read};
ghost use Rattle.pull_operators.specs.Pieces.{JoinsTo, loop_piece};
ghost use Rattle.pull_operators.specs.StillToCome.{loop_from, loop_to_come};

use plan_operators::{Combo, ReadyEdge, Source, access_rows, edges_between, meets_all};
use plan_trees::{Access, one_place, place_read};
use row_values::OutOfMemory;
use std::alloc::Global;

/// The rows of the place that enters, the outer side's present combination, and the position of the
/// row that it meets next.
#[derive(Drop)]
pub(crate) struct LoopJoin<'a> {
    edges: Vec<ReadyEdge<'a>>,
    place: u8,
    rows: Vec<u32>,
    combo: Combo,
    next: usize,
}

impl<'a> LoopJoin<'a> {
    /// The join of an outer side over these places; it has no combination yet.
    pub(crate) fn open(
        alloc: Global,
        source: &Source<'a>,
        places: u8,
        access: Access,
    ) -> Result<LoopJoin<'a>, OutOfMemory>
        requires sound { IsSource source.now }
        requires valid { IsValidAccess source.now.q.now (masks_read source.now) access }
        requires absent { has places (place_of access) ≡ false }
        ensures none { IfOk result (λ join. loop_to_come join ≡ []) }
        ensures joins { IfOk result (λ join. JoinsTo source.now places (one (place_of access)) (loop_piece join)) }
    {
        let place = place_read(access);
        let rows = access_rows(alloc, source, access)?;
        let edges = edges_between(alloc, source, places, one_place(place))?;
        Ok(LoopJoin {
            edges,
            place,
            next: rows.len(),
            rows,
            combo: Combo::zeros(source.q.places().len()),
        })
    }

    /// Goes on with this combination of the outer side.
    #[inline]
    pub(crate) fn begin(&mut self, combo: Combo)
        ensures piece { loop_piece self.new ≡ loop_piece self.old }
        ensures to_come { loop_to_come self.new ≡ loop_piece self.old combo }
    {
        self.combo = combo;
        self.next = 0;
    }

    /// What the present combination makes next, and the position behind its row.
    #[inline]
    fn first_made(&self) -> Option<(usize, Combo)>
        ensures found { IfSome result (λ found. loop_to_come self.now ≡ found.1 ∷ loop_from self.now found.0) }
        ensures none { IfNone result (loop_to_come self.now ≡ []) }
    {
        for position in self.next..self.rows.len() {
            let mut made = self.combo;
            made.put(self.place, self.rows[position]);
            if meets_all(&self.edges, &made) {
                return Some((position + 1, made));
            }
        }
        None
    }

    /// What the present combination makes next.
    #[inline]
    pub(crate) fn next(&mut self) -> Option<Combo>
        ensures piece { loop_piece self.new ≡ loop_piece self.old }
        ensures given { loop_to_come self.old ≡ option_to_list result ++ loop_to_come self.new }
        ensures none { IfNone result (loop_to_come self.new ≡ []) }
    {
        match self.first_made() {
            Some((next, made)) => {
                self.next = next;
                Some(made)
            }
            None => {
                self.next = self.rows.len();
                None
            }
        }
    }
}
