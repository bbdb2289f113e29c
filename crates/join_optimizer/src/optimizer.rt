//! The best plan of an instance, and an optimiser that counts how often it was asked.
ghost use Rattle.std.specs.Prelude.{◌≡◌, ◌+◌, ◌<◌, IfOk};
ghost use Rattle.plan_trees.specs.Statistics.{IsSoundStats, IsSoundVector};
ghost use Rattle.plan_costs.specs.BestPlans.{IsBest};

use crate::last_places::cell_at;
use crate::potentials::potentials_of;
use crate::search::cheapest_plans;
use crate::tops::best_top;
use plan_costs::{Best, Planner, Potentials, all_cards, least_accesses};
use plan_trees::{Stats, all_places};
use row_values::{OutOfMemory, Query};
use std::alloc::Global;
use std::marker::Model;
use std::rc::Rc;

/// The best plan of the statement at the vector.
fn best_plan(alloc: Global, q: &Query, stats: &Stats, s: &[u64]) -> Result<Best, OutOfMemory>
    requires sound { IsSoundStats q.now stats.now }
    requires vector { IsSoundVector q.now stats.now s.now }
    ensures { IfOk result (λ best. IsBest q.now stats.now s.now best) }
{
    // That every statement is sound, its readers pass on: so it is read here first.
    let all = all_places(q.places().len());
    let cards = all_cards(alloc, q, stats, s)?;
    let loops = least_accesses(alloc, q, stats, s)?;
    let cells = cheapest_plans(alloc, q, stats, s, &cards, &loops)?;
    let finished = best_top(q, stats, s, cell_at(&cells, all))?;
    let list = potentials_of(alloc, &cells[1..])?;
    Ok(Best {
        plan: Rc::new(alloc, finished.top)?,
        cost: finished.cost,
        potentials: Potentials::of(list, finished.cost),
    })
}

/// The best plan of the statement at the vector. The number of calls grows by one in any case.
pub fn optimise(
    alloc: Global,
    q: &Query,
    stats: &Stats,
    s: &[u64],
    calls: &mut u64,
) -> Result<Best, OutOfMemory>
    requires sound { IsSoundStats q.now stats.now }
    requires vector { IsSoundVector q.now stats.now s.now }
    requires room { calls.old < u64.MAX }
    ensures asked { calls.new ≡ calls.old + 1 }
    ensures best { IfOk result (λ best. IsBest q.now stats.now s.now best) }
{
    *calls += 1;
    best_plan(alloc, q, stats, s)
}

/// What counts the calls of `optimise`. Contracts see the number.
#[derive(Debug, Drop)]
pub struct Optimizer {
    calls: u64,
}

impl Model for Optimizer {
    ghost use Rattle.std.specs.Prelude.{ℕ};

    ghost Value = { ℕ };

    ghost view = { λ o. o.calls };
}

impl Optimizer {
    /// It was never asked.
    pub fn new() -> Optimizer
        ensures { result ≡ 0 }
    {
        Optimizer { calls: 0 }
    }
}

impl Planner for Optimizer {
    ghost asked = { λ o. o };

    fn optimise(
        &mut self,
        alloc: Global,
        q: &Query,
        stats: &Stats,
        s: &[u64],
    ) -> Result<Best, OutOfMemory> {
        optimise(alloc, q, stats, s, &mut self.calls)
    }

    fn calls(&self) -> u64 {
        self.calls
    }
}
