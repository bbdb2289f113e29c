//! A plan and the polynomial of its cost.
ghost use Rattle.std.specs.Prelude.{◌≡◌, ◌≤◌, ◌<◌, ◌^◌, ℕ, List, All, IfOk};
ghost use Rattle.plan_trees.specs.PlanSpace.{IsValidTop};
ghost use Rattle.plan_trees.specs.Statistics.{IsSoundStats, IsSoundVector};
ghost use Rattle.plan_trees.specs.Trees.{top_tree};
ghost use Rattle.cost_polynomials.specs.Polynomial.{IsVectorFor, value_of};
ghost use Rattle.cost_model.specs.Costs.{top_cost};
ghost use Rattle.cost_model.specs.Laws.{IsCost, IsVectorOf};

use cost_polynomials::Poly;
use plan_costs::poly_of;
use plan_trees::{Stats, Top};
use row_values::{OutOfMemory, Query};
use std::alloc::Global;
use std::rc::Rc;

/// A plan, and what it costs as a polynomial in the selectivities.
#[derive(Debug, Drop)]
pub struct Costed {
    pub plan: Rc<Top>,
    pub poly: Poly,
}

impl Costed {
    /// The plan with the polynomial of its cost under these statistics.
    pub fn of(alloc: Global, q: &Query, stats: &Stats, plan: Rc<Top>) -> Result<Costed, OutOfMemory>
        requires sound { IsSoundStats q.now stats.now }
        requires valid { IsValidTop q.now stats.now.indexed (top_tree plan.value) }
        ensures plan { IfOk result (λ costed. costed.plan ≡ plan) }
        ensures value { IfOk result (λ costed. (s : List ℕ) → IsVectorOf q.now s
            → value_of costed.poly s ≡ top_cost q.now stats.now s (top_tree plan.value)) }
        ensures vectors { IfOk result (λ costed. (s : List ℕ) → IsVectorOf q.now s
            → All (λ count. 1 ≤ count) s → IsVectorFor costed.poly s) }
        ensures fits { IfOk result (λ costed. (s : List ℕ) → IsSoundVector q.now stats.now s
            → IsVectorFor costed.poly s × IsCost (value_of costed.poly s)) }
    {
        q.sound();
        let poly = poly_of(alloc, q, stats, &plan)?;
        Ok(Costed { plan, poly })
    }

    /// What the plan costs at the vector. It takes no memory.
    pub fn cost_at(&self, s: &[u64]) -> u128
        requires vector { IsVectorFor self.now.poly s.now }
        requires fits { value_of self.now.poly s.now < 2 ^ 128 }
        ensures value { result ≡ value_of self.now.poly s.now }
    {
        match self.poly.eval(s) {
            Some(cost) => cost,
            None => unreachable!(),
        }
    }
}
