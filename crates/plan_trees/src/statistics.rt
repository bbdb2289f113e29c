//! What a statement's tables are like: indexes, counts and the weights of the cost model.
//!
//! Each type keeps what it is given. That the numbers fit a statement is the record `IsSoundStats`,
//! which callers
//! require and nobody tests.
ghost use Rattle.std.specs.Prelude.{◌≡◌, ◌<◌, ◌≤◌, ◌↔◌, [], IfOk, IfSome, IsSome, length, map, slice_index};
ghost use Rattle.std.specs.Prelude.{slice_index_or};
ghost use Rattle.plan_trees.specs.Indexes.{has_index};
ghost use Rattle.plan_trees.specs.Statistics.{IsSoundStats, by_place, column_count, fan_at, statistics_of};

use crate::place_sets::has_bit;
use row_values::{OutOfMemory, PLACE_LIMIT, Place, Query};
use std::alloc::Global;
use std::marker::Model;
use std::rc::Rc;

/// Which columns of which places have an index: at most five masks held in place, one for each
/// place, whose bit
/// c stands for column c. Contracts see the list of masks.
#[derive(Debug, Drop)]
pub struct Indexed {
    masks: [u64; PLACE_LIMIT],
    count: usize,
}

impl Model for Indexed {
    ghost use Rattle.std.specs.Prelude.{ℕ, List, take, length};

    ghost Value = { List ℕ };

    ghost use Rattle.plan_trees.specs.Padded.{IsIndexed, padded, indexed_back, indexed_inside};

    ghost view = { λ ix. take ix.count ix.masks };

    ghost invariant = { IsIndexed };

    ghost inverse = { λ xs. indexed_inside (padded 5 xs) (length xs) };

    ghost inverse_ok = { indexed_back };
}

impl Clone for Indexed {
    ghost use Rattle.std.specs.Prelude.{◌≡◌};

    ghost is_clone = { λ original copied. copied ≡ original };

    fn clone(&self) -> Result<Indexed, OutOfMemory> {
        Ok(*self)
    }
}

impl Copy for Indexed {}

impl Indexed {
    /// These masks; none exactly where there are more than five. It takes no memory.
    pub fn of(masks: &[u64]) -> Option<Indexed>
        ensures value { IfSome result (λ ix. ix ≡ masks.now) }
        ensures found { IsSome result ↔ (length masks.now ≤ PLACE_LIMIT) }
    {
        if masks.len() > PLACE_LIMIT {
            return None;
        }
        let mut kept = [0; PLACE_LIMIT];
        for (i, mask) in masks.iter().enumerate() {
            kept[i] = *mask;
        }
        Some(Indexed {
            masks: kept,
            count: masks.len(),
        })
    }

    /// Whether the column of the place has an index; false for a place without a mask and for a
    /// column past 63.
    pub fn has(&self, place: u8, column: u8) -> bool
        ensures { result ≡ has_index self.now place column }
    {
        match self.masks[..self.count].get(usize::from(place)) {
            Some(mask) => has_bit(*mask, column),
            None => false,
        }
    }
}

/// What each kind of work weighs in the cost model; each weight is from 1 to 1000.
#[derive(Clone, Copy, Debug, PartialEq, Eq)]
pub struct Weights {
    pub row: u16,
    pub fetch: u16,
    pub probe: u16,
    pub hash: u16,
    pub sort: u16,
    pub out: u16,
}

/// The lists of counts that a `Stats` shares with its copies.
#[derive(Debug, Drop)]
struct Counts {
    rows: Vec<u64>,
    fixed: Vec<u64>,
    matching: Vec<u64>,
    distinct: Vec<u64>,
    fans: Vec<Vec<u64>>,
}

/// The counts that plans of one statement are costed by; contracts see the record of its lists.
///
/// The lists are shared inside, so a copy takes no memory.
#[derive(Debug, Drop)]
pub struct Stats {
    counts: Rc<Counts>,
    indexed: Indexed,
    weights: Weights,
}

impl Model for Stats {
    ghost use Rattle.std.specs.Prelude.{map};
    ghost use Rattle.plan_trees.specs.Statistics.{Statistics};

    ghost Value = { Statistics };

    ghost view = { λ s. record {
      rows = s.counts.value.rows.items;
      fixed = s.counts.value.fixed.items;
      matching = s.counts.value.matching.items;
      distinct = s.counts.value.distinct.items;
      fans = map (λ fans. fans.items) s.counts.value.fans.items;
      indexed = s.indexed;
      weights = s.weights;
    } };
}

impl Clone for Stats {
    ghost use Rattle.std.specs.Prelude.{◌≡◌};

    ghost is_clone = { λ original copied. copied ≡ original };

    fn clone(&self) -> Result<Stats, OutOfMemory> {
        Ok(Stats {
            counts: self.counts.clone()?,
            indexed: self.indexed,
            weights: self.weights,
        })
    }
}

/// A list of its own.
fn kept(alloc: Global, numbers: &[u64]) -> Result<Vec<u64>, OutOfMemory>
    ensures { IfOk result (λ list. list.items ≡ numbers.now) }
{
    numbers.to_vec(alloc)
}

/// The numbers of the columns, a list for each place.
fn kept_by_place(
    alloc: Global,
    places: &[Place],
    numbers: &[u64],
) -> Result<Vec<Vec<u64>>, OutOfMemory>
    requires { length numbers.now ≡ column_count places.now }
    ensures { IfOk result (λ lists. map (λ list. list.items) lists.items
        ≡ by_place places.now numbers.now) }
{
    let mut lists = Vec::new(alloc);
    let mut rest = numbers;
    for place in places {
        let width = place.schema.columns().len();
        lists.push(kept(alloc, &rest[..width])?)?;
        rest = &rest[width..];
    }
    Ok(lists)
}

impl Stats {
    /// These numbers: one for each place, for each place, for each predicate, for each edge, and
    /// for each place
    /// and column, place by place. They must be sound for the statement.
    pub fn of(
        alloc: Global,
        q: &Query,
        rows: &[u64],
        fixed: &[u64],
        matching: &[u64],
        edges: &[u64],
        fans: &[u64],
        indexed: Indexed,
        weights: Weights,
    ) -> Result<Stats, OutOfMemory>
        requires fans { length fans.now ≡ column_count q.now.places }
        requires sound { IsSoundStats q.now
            (statistics_of q.now.places rows.now fixed.now matching.now edges.now fans.now
            indexed weights) }
        ensures { IfOk result (λ stats. stats
            ≡ statistics_of q.now.places rows.now fixed.now matching.now edges.now fans.now
            indexed weights) }
    {
        let counts = Counts {
            rows: kept(alloc, rows)?,
            fixed: kept(alloc, fixed)?,
            matching: kept(alloc, matching)?,
            distinct: kept(alloc, edges)?,
            fans: kept_by_place(alloc, q.places(), fans)?,
        };
        Ok(Stats {
            counts: Rc::new(alloc, counts)?,
            indexed,
            weights,
        })
    }

    /// The rows of the place's table, at least 1.
    pub fn rows(&self, place: u8) -> u64
        requires { place < length self.now.rows }
        ensures { result ≡ slice_index self.now.rows place }
    {
        self.counts.rows[usize::from(place)]
    }

    /// The rows that meet all fixed predicates on the place, at least 1.
    pub fn fixed(&self, place: u8) -> u64
        requires { place < length self.now.fixed }
        ensures { result ≡ slice_index self.now.fixed place }
    {
        self.counts.fixed[usize::from(place)]
    }

    /// The rows that meet the fixed predicate alone, at least 1; 1 for a parameterised one.
    pub fn matching(&self, pred: u8) -> u64
        requires { pred < length self.now.matching }
        ensures { result ≡ slice_index self.now.matching pred }
    {
        self.counts.matching[usize::from(pred)]
    }

    /// The larger of the distinct counts of the edge's two columns, at least 1.
    pub fn edge_distinct(&self, edge: u8) -> u64
        requires { edge < length self.now.distinct }
        ensures { result ≡ slice_index self.now.distinct edge }
    {
        self.counts.distinct[usize::from(edge)]
    }

    /// The rows for each distinct value of the column, rounded up.
    pub fn fan(&self, place: u8, column: u8) -> u64
        requires place { place < length self.now.fans }
        requires column { column < length (slice_index_or self.now.fans place []) }
        ensures { result ≡ fan_at self.now place column }
    {
        let fans = &self.counts.fans[usize::from(place)];
        fans[usize::from(column)]
    }

    /// Which columns have an index.
    pub fn indexed(&self) -> &Indexed
        ensures { result.now ≡ self.now.indexed }
    {
        &self.indexed
    }

    /// The weights of the cost model.
    pub fn weights(&self) -> Weights
        ensures { result ≡ self.now.weights }
    {
        self.weights
    }
}
