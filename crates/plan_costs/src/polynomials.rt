//! What plans cost as polynomials in the selectivities.
//!
//! A valid plan has one: no product of its formula shares a selectivity, and a coefficient that doesn't fit would
//! make its cost too large already where all selectivities are 1.
ghost use Rattle.std.specs.Prelude.{◌≡◌, ◌≤◌, ℕ, List, All, IfOk};
ghost use Rattle.plan_trees.specs.PlanSpace.{IsValidTop};
ghost use Rattle.plan_trees.specs.Statistics.{IsSoundStats};
ghost use Rattle.plan_trees.specs.Trees.{top_tree};
ghost use Rattle.cost_polynomials.specs.Polynomial.{IsVectorFor, value_of};
ghost use Rattle.cost_model.specs.Costs.{top_cost};
ghost use Rattle.cost_model.specs.Laws.{IsVectorOf};

use crate::formulas::expr_of;
use cost_polynomials::Poly;
use growth_checker::{ShapeFault, shape};
use plan_trees::{Stats, Top};
use row_values::{OutOfMemory, Query};
use std::alloc::Global;

/// What a plan costs, as a polynomial in the selectivities.
pub fn poly_of(alloc: Global, q: &Query, stats: &Stats, p: &Top) -> Result<Poly, OutOfMemory>
    requires sound { IsSoundStats q.now stats.now }
    requires valid { IsValidTop q.now stats.now.indexed (top_tree p.now) }
    ensures value { IfOk result (λ poly. (s : List ℕ) → IsVectorOf q.now s
        → value_of poly s ≡ top_cost q.now stats.now s (top_tree p.now)) }
    ensures vectors { IfOk result (λ poly. (s : List ℕ) → IsVectorOf q.now s → All (λ count. 1 ≤ count) s
        → IsVectorFor poly s) }
{
    q.sound();
    let cost = expr_of(alloc, q, stats, p)?;
    match shape(alloc, &cost) {
        Ok(poly) => Ok(poly),
        Err(ShapeFault::Memory) => Err(OutOfMemory),
        Err(ShapeFault::Shared(_)) => unreachable!(),
        Err(ShapeFault::Large) => unreachable!(),
    }
}
