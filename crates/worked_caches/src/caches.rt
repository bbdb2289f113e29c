//! A cache whose plans and anchors are of one statement.
ghost use Rattle.std.specs.Prelude.{ℕ, ◌↔◌, IfOk, IsTrue, List};
ghost use Rattle.row_values.specs.Statements.{IsSoundQuery};
ghost use Rattle.plan_trees.specs.PlanSpace.{IsValidTop};
ghost use Rattle.plan_trees.specs.Statistics.{IsSoundStats, IsSoundVector};
ghost use Rattle.plan_trees.specs.Trees.{top_tree};
ghost use Rattle.cost_polynomials.specs.Polynomial.{IsVectorFor, value_of};
ghost use Rattle.cost_model.specs.Laws.{IsCost};
ghost use Rattle.worked_caches.specs.OfStatement.{IsOfStatement};

use anchor_cache::{Anchor, Cache};
use cache_model::ANCHOR_LIMIT;
use cost_check::{CostAnswer, RECOST_LIMIT, by_cost};
use fraction_math::Ratio;
use plan_eviction::{evict, victim};
use plan_recost::Costed;
use plan_trees::{Top, Vector, valid};
use redundancy_check::covering;
use row_values::OutOfMemory;
use selectivity_check::by_selectivity;
use std::alloc::Global;
use std::rc::Rc;
use worked_statements::Worked;

/// The plan cache of a worked statement, and how many of its instances were optimised.
#[derive(Debug, Drop)]
pub struct WorkedCache {
    worked: Worked,
    cache: Cache,
    executions: u64,
    ghost of_statement: { IsOfStatement worked.query worked.stats cache.plans cache.anchors executions },
}

/// Whether the plan is one of the statement's.
fn is_valid(worked: &Worked, plan: &Top) -> bool
    ensures { IsTrue result ↔ IsValidTop worked.now.query worked.now.stats.indexed (top_tree plan.now) }
{
    valid(&worked.query, worked.stats.indexed(), plan)
}

/// The plan with its cost.
fn costed(alloc: Global, worked: &Worked, plan: Rc<Top>) -> Result<Costed, OutOfMemory>
    requires { IsValidTop worked.now.query worked.now.stats.indexed (top_tree plan.value) }
    ensures { IfOk result (λ costed. (vector : List ℕ) → IsSoundVector worked.now.query worked.now.stats vector
        → IsVectorFor costed.poly vector × IsCost (value_of costed.poly vector)) }
{
    Costed::of(alloc, &worked.query, &worked.stats, plan)
}

/// Whether a check may be asked about the vector: it is sound for the statement, which is sound.
fn is_instance(worked: &Worked, q: &[u64]) -> bool
    ensures query { IsSoundQuery worked.now.query }
    ensures stats { IsSoundStats worked.now.query worked.now.stats }
    ensures vector { IsTrue result → IsSoundVector worked.now.query worked.now.stats q.now }
{
    // That every statement is sound, its readers pass on: so it is read here once.
    let _ = worked.query.places();
    worked.takes(q)
}

impl WorkedCache {
    /// Nothing is kept yet.
    pub fn new(alloc: Global, worked: Worked) -> WorkedCache {
        WorkedCache {
            worked,
            cache: Cache::new(alloc),
            executions: 0,
        }
    }

    /// What is kept.
    pub fn cache(&self) -> &Cache {
        &self.cache
    }

    /// The plan is kept, and the answer is its number; none where it isn't valid.
    pub fn keep_plan(&mut self, alloc: Global, plan: Rc<Top>) -> Result<Option<u64>, OutOfMemory> {
        if !is_valid(&self.worked, &plan) || self.cache.next_plan() > u64::from(u32::MAX) {
            return Ok(None);
        }
        let costed = costed(alloc, &self.worked, plan)?;
        self.cache.reserve_one()?;
        Ok(Some(self.cache.add_plan(costed)))
    }

    /// An instance was optimised at this vector, and gets the plan of this number; false where it can't be an anchor.
    pub fn keep_anchor(
        &mut self,
        at: &[u64],
        plan: u64,
        plan_cost: u128,
        least: u128,
    ) -> Result<bool, OutOfMemory> {
        if !is_instance(&self.worked, at) || least == 0 || plan_cost < least {
            return Ok(false);
        }
        let Some(vector) = Vector::of(at) else {
            return Ok(false);
        };
        if self.cache.plan_uses(plan).is_none() || self.cache.anchors().len() >= ANCHOR_LIMIT {
            return Ok(false);
        }
        if self.executions > u64::from(u32::MAX) {
            return Ok(false);
        }
        self.cache.reserve_one()?;
        self.executions += 1;
        self.cache.add_anchor(Anchor {
            execution: self.executions,
            at: vector,
            plan,
            plan_cost,
            least,
            uses: 1,
        });
        Ok(true)
    }

    /// The answer of the selectivity check; none where the vector isn't sound.
    pub fn by_selectivity(&self, q: &[u64], lambda: Ratio) -> Option<Option<usize>> {
        if !is_instance(&self.worked, q) {
            return None;
        }
        Some(by_selectivity(&self.cache, q, lambda))
    }

    /// The answer of the cost check; none where the vector isn't sound or too many are to be costed.
    pub fn by_cost(&self, q: &[u64], lambda: Ratio, recosts: u32) -> Option<CostAnswer> {
        if !is_instance(&self.worked, q) || recosts as usize > RECOST_LIMIT {
            return None;
        }
        Some(by_cost(&self.cache, q, lambda, recosts))
    }

    /// The answer of the redundancy check; none where the vector isn't sound or the least cost is 0.
    pub fn covering(&self, q: &[u64], least: u128, keep: Ratio) -> Option<Option<u64>> {
        if !is_instance(&self.worked, q) || least == 0 {
            return None;
        }
        Some(covering(&self.cache, q, least, keep))
    }

    /// The number of the plan that goes first.
    pub fn victim(&self) -> Option<u64> {
        victim(&self.cache)
    }

    /// The anchor at this place serves one instance more; false where there is none.
    pub fn use_again(&mut self, place: usize) -> bool {
        let Some(anchor) = self.cache.anchors().get(place) else {
            return false;
        };
        if anchor.uses > u64::from(u32::MAX) {
            return false;
        }
        self.cache.used(place);
        true
    }

    /// All plans and anchors go.
    pub fn clear(&mut self) {
        self.cache.clear();
    }

    /// The plan goes with its anchors; the answer is how many those were.
    pub fn evict(&mut self, plan: u64) -> Option<u32> {
        evict(&mut self.cache, plan)
    }
}
