//! The sort: it holds all combinations of its input, and gives them in the wanted order.
//!
//! Ties may come in any order, since nothing above reads more of it.
ghost use Rattle.std.specs.Prelude.{◌≡◌, ◌++◌, [], IfNone, IfOk, IsPermutation, drop};
ghost use Rattle.std.specs.Option.{option_to_list};
ghost use Rattle.row_values.specs.Sorting.{Rises};
ghost use Rattle.plan_trees.specs.PlanSpace.{wanted_order};
ghost use Rattle.statement_meaning.specs.Meaning.{is_before};
ghost use Rattle.plan_operators.specs.Sources.{rows_read};
ghost use Rattle.pull_operators.specs.StillToCome.{sorted_to_come};

use plan_operators::{Combo, Source, keys_order_of, wanted_keys};
use row_values::OutOfMemory;
use std::alloc::Global;

/// Combinations in the wanted order, and the position of the one that comes next.
#[derive(Drop)]
pub(crate) struct Sorted {
    combos: Vec<Combo>,
    next: usize,
}

impl Sorted {
    /// These combinations in the wanted order.
    pub(crate) fn open(
        alloc: Global,
        source: &Source<'_>,
        combos: Vec<Combo>,
    ) -> Result<Sorted, OutOfMemory>
        ensures permutation { IfOk result (λ sorted. IsPermutation combos.items (sorted_to_come sorted)) }
        ensures in_order { IfOk result (λ sorted.
            Rises (is_before (rows_read source.now) (wanted_order source.now.q.now)) (sorted_to_come sorted)) }
    {
        let keys = wanted_keys(alloc, source)?;
        let mut combos = combos;
        combos.sort_unstable_by(|a, b| keys_order_of(keys.as_slice(), a, b));
        Ok(Sorted { combos, next: 0 })
    }

    /// The next combination.
    pub(crate) fn next(&mut self) -> Option<Combo>
        ensures given { sorted_to_come self.old ≡ option_to_list result ++ sorted_to_come self.new }
        ensures none { IfNone result (sorted_to_come self.new ≡ []) }
    {
        if self.next >= self.combos.len() {
            return None;
        }
        let combo = self.combos[self.next];
        self.next += 1;
        Some(combo)
    }
}
