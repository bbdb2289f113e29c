//! Statements with statistics that are sound for them.
ghost use Rattle.std.specs.Prelude.{IsTrue};
ghost use Rattle.plan_trees.specs.Statistics.{IsSoundStats, IsSoundVector};

use crate::soundness::{are_sound, does_vector_fit};
use plan_trees::{Indexed, Stats, Weights};
use row_values::{OutOfMemory, Query};
use std::alloc::Global;

/// The weights that the program has by default.
pub const USUAL: Weights = Weights {
    row: 1,
    fetch: 2,
    probe: 1,
    hash: 2,
    sort: 1,
    out: 1,
};

/// The numbers of a statement's statistics: of each place the rows and those that its fixed
/// predicates leave, what matches each predicate, the distinct count of each edge, for each column
/// of each place the rows per value, and of each place the columns with an index as a mask.
#[derive(Clone, Copy, Debug)]
pub struct Numbers<'a> {
    pub rows: &'a [u64],
    pub fixed: &'a [u64],
    pub matching: &'a [u64],
    pub distinct: &'a [u64],
    pub fans: &'a [u64],
    pub masks: &'a [u64],
    pub weights: Weights,
}

/// A statement with statistics that are sound for it.
#[derive(Debug, Drop)]
pub struct Worked {
    pub query: Query,
    pub stats: Stats,
    ghost sound: { IsSoundStats query stats },
}

impl Worked {
    /// Whether the vector is sound for the statement.
    pub fn takes(&self, s: &[u64]) -> bool
        ensures { IsTrue result → IsSoundVector self.now.query self.now.stats s.now }
    {
        does_vector_fit(&self.query, &self.stats, s)
    }
}

/// The statement with these numbers; none where they aren't sound for it.
pub fn with_numbers(
    alloc: Global,
    query: Query,
    numbers: Numbers<'_>,
) -> Result<Option<Worked>, OutOfMemory> {
    let Numbers {
        rows,
        fixed,
        matching,
        distinct,
        fans,
        masks,
        weights,
    } = numbers;
    let Some(indexed) = Indexed::of(masks) else {
        return Ok(None);
    };
    if !are_sound(&query, rows, fixed, matching, distinct, fans, weights) {
        return Ok(None);
    }
    let stats = Stats::of(
        alloc, &query, rows, fixed, matching, distinct, fans, indexed, weights,
    )?;
    Ok(Some(Worked { query, stats }))
}
