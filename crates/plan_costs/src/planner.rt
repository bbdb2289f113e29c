//! An optimiser as the layers above see it: what it answers, and how often it was asked.
ghost use Rattle.std.specs.Prelude.{ℕ, ◌≡◌, ◌+◌, ◌<◌, ◌^◌, IfOk};
ghost use Rattle.plan_trees.specs.Statistics.{IsSoundStats, IsSoundVector};
ghost use Rattle.plan_costs.specs.BestPlans.{IsBest};

use crate::potentials::Potentials;
use plan_trees::{Stats, Top};
use row_values::{OutOfMemory, Query};
use std::alloc::Global;
use std::rc::Rc;

/// A plan of least cost, its cost, and for each set of places the least costs of its plans.
#[derive(Debug, Drop)]
pub struct Best {
    pub plan: Rc<Top>,
    pub cost: u128,
    pub potentials: Potentials,
}

/// What finds the best plan of an instance. Contracts see how many times it was asked.
pub trait Planner {
    ghost asked: { Self → ℕ };

    /// The best plan of the statement at the vector. It is asked once more in any case, also where memory ends.
    fn optimise(
        &mut self,
        alloc: Global,
        q: &Query,
        stats: &Stats,
        s: &[u64],
    ) -> Result<Best, OutOfMemory>
        requires sound { IsSoundStats q.now stats.now }
        requires vector { IsSoundVector q.now stats.now s.now }
        requires room { asked self.old < 2 ^ 63 }
        ensures asked { asked self.new ≡ asked self.old + 1 }
        ensures best { IfOk result (λ best. IsBest q.now stats.now s.now best) };

    /// How many times it was asked. It takes no memory.
    fn calls(&self) -> u64
        ensures value { result ≡ asked self.now };
}
