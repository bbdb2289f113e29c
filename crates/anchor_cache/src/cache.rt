//! The cache itself: looking up, adding, using again, dropping.
//!
//! No call takes memory but `reserve_one`, which makes room in every list for one plan and one anchor more.
ghost use Rattle.std.specs.Prelude.{◌≡◌, ◌<◌, ◌≤◌, ◌+◌, ◌-◌, ◌*◌, ◌^◌, ◌==◌, ◌++◌, ◌∷◌, [], All, IfOk, IfSome, IsTrue, Some, None, filter, find, length, map, not, slice_get, if◌then◌else◌};
ghost use Rattle.cache_model.specs.Caches.{anchors_of, cleared, empty_cache, reused, used_at, uses_of, with_anchor, with_plan, without};
ghost use Rattle.plan_trees.specs.Trees.{same_top, top_tree};
ghost use Rattle.std.specs.Option.{option_map};
ghost use Rattle.anchor_cache.specs.Anchors.{held};
ghost use Rattle.anchor_cache.specs.Contents.{IsCache, has_number, has_plan, state_of};
ghost use Rattle.anchor_cache.specs.Sums.{sums_of};
ghost use Rattle.anchor_cache.specs.Window.{IsOrdered};

use crate::anchors::Anchor;
use crate::kept_plans::{Kept, PlanUses, add_uses, find_uses, number_of_same};
use crate::window::{WindowEntry, insert, put_in_order};
use cache_model::ANCHOR_LIMIT;
use plan_recost::Costed;
use plan_trees::Top;
use row_values::OutOfMemory;
use std::alloc::Global;
use std::marker::Model;

/// The plans and anchors of one statement, in the order of adding, as two lists; beside each list stands a second one,
/// of the plans' uses and of the anchors by first selectivity. Contracts see the two lists, the number of the next
/// plan, and for how many plans and anchors more there is room.
#[derive(Debug, Drop)]
pub struct Cache {
    plans: Vec<Kept>,
    sums: Vec<PlanUses>,
    anchors: Vec<Anchor>,
    ordered: Vec<WindowEntry>,
    next_plan: u64,
}

impl Model for Cache {
    ghost use Rattle.std.specs.Prelude.{◌-◌, map, min, vec_capacity, vec_len};
    ghost use Rattle.anchor_cache.specs.Anchors.{held};
    ghost use Rattle.anchor_cache.specs.Contents.{Contents, IsInStep};

    ghost Value = { Contents };

    ghost use Rattle.anchor_cache.specs.contracts.kept_plans.Kept as kept;
    ghost use Rattle.std.specs.Coded.{codes};

    ghost coded = { Prim.hlevel (codes, kept.the_row.coded) };

    ghost view = { λ c. record {
      plans = c.plans.items;
      anchors = map held c.anchors.items;
      next_plan = c.next_plan;
      spare_plans = min (vec_capacity c.plans - vec_len c.plans)
          (vec_capacity c.sums - vec_len c.sums);
      spare_anchors = min (vec_capacity c.anchors - vec_len c.anchors)
          (vec_capacity c.ordered - vec_len c.ordered);
    } };

    ghost invariant = { λ c. IsInStep c.plans.items (map held c.anchors.items) c.next_plan
        c.sums.items c.ordered.items };
}

impl Cache {
    /// Nothing is kept yet, and the first plan will have the number 1. It takes no memory.
    pub fn new(alloc: Global) -> Cache
        ensures state { state_of result ≡ empty_cache }
    {
        Cache {
            plans: Vec::new(alloc),
            sums: Vec::new(alloc),
            anchors: Vec::new(alloc),
            ordered: Vec::new(alloc),
            next_plan: 1,
        }
    }

    /// The plans, with the polynomials of their costs.
    pub fn plans(&self) -> &[Kept]
        ensures value { result.now ≡ self.now.plans }
        ensures sound { IsCache self.now.plans self.now.anchors self.now.next_plan }
    {
        self.plans.as_slice()
    }

    /// The anchors.
    pub fn anchors(&self) -> &[Anchor]
        ensures value { map held result.now ≡ self.now.anchors }
        ensures sound { IsCache self.now.plans self.now.anchors self.now.next_plan }
    {
        self.anchors.as_slice()
    }

    /// The anchors by first selectivity, the least first.
    pub fn by_first_selectivity(&self) -> &[WindowEntry]
        ensures ordered { IsOrdered self.now.anchors result.now }
        ensures sound { IsCache self.now.plans self.now.anchors self.now.next_plan }
    {
        self.ordered.as_slice()
    }

    /// How often the anchors of each plan were used, plan by plan.
    pub fn uses(&self) -> &[PlanUses]
        ensures { result.now ≡ sums_of self.now.plans self.now.anchors }
    {
        self.sums.as_slice()
    }

    /// How often the anchors of the plan of this number were used; none where it isn't there.
    pub fn plan_uses(&self, plan: u64) -> Option<u128>
        ensures { result ≡ (if has_plan self.now.plans plan then Some (uses_of self.now.anchors plan) else None) }
    {
        find_uses(self.sums.as_slice(), plan).map(|sum| sum.uses)
    }

    /// The number of the plan that is the same as this one; none where no plan is.
    pub fn find_same(&self, p: &Top) -> Option<u64>
        ensures { result ≡ option_map (λ plan. plan.number)
            (find (λ plan. same_top plan.top (top_tree p.now)) (state_of self.now).plans) }
    {
        number_of_same(self.plans.as_slice(), p)
    }

    /// The number that the next plan will have.
    pub fn next_plan(&self) -> u64
        ensures { result ≡ self.now.next_plan }
    {
        self.next_plan
    }

    /// Room for one plan and one anchor more.
    pub fn reserve_one(&mut self) -> Result<(), OutOfMemory>
        ensures room { IfOk result (λ _. (1 ≤ self.new.spare_plans) × (1 ≤ self.new.spare_anchors)) }
        ensures plans { self.new.plans ≡ self.old.plans }
        ensures anchors { self.new.anchors ≡ self.old.anchors }
        ensures next_plan { self.new.next_plan ≡ self.old.next_plan }
    {
        self.plans.reserve(1)?;
        self.sums.reserve(1)?;
        self.anchors.reserve(1)?;
        self.ordered.reserve(1)?;
        Ok(())
    }

    /// The plan goes behind the others, under the next number.
    pub fn add_plan(&mut self, costed: Costed) -> u64
        requires room { 1 ≤ self.old.spare_plans }
        requires number { self.old.next_plan < 2 ^ 63 }
        ensures number { result ≡ self.old.next_plan }
        ensures value { self.new ≡ record self.old {
          plans = self.old.plans ++ record { number = self.old.next_plan; costed = costed } ∷ [];
          next_plan = self.old.next_plan + 1;
          spare_plans = self.old.spare_plans - 1;
        } }
        ensures state { state_of self.new ≡ with_plan (state_of self.old) (top_tree costed.plan.value) }
    {
        let number = self.next_plan;
        self.plans.push_reserved(Kept { number, costed });
        self.sums.push_reserved(PlanUses {
            plan: number,
            uses: 0,
        });
        self.next_plan += 1;
        number
    }

    /// The anchor goes behind the others.
    pub fn add_anchor(&mut self, a: Anchor)
        requires room { 1 ≤ self.old.spare_anchors }
        requires few { length self.old.anchors < ANCHOR_LIMIT }
        requires planned { IsTrue (has_plan self.old.plans a.plan) }
        requires numbers { All (λ n. 1 ≤ n) a.at }
        requires least { 1 ≤ a.least }
        requires plan_cost { a.least ≤ a.plan_cost }
        requires later { All (λ anchor. anchor.execution < a.execution) self.old.anchors }
        ensures value { self.new ≡ record self.old {
          anchors = self.old.anchors ++ held a ∷ [];
          spare_anchors = self.old.spare_anchors - 1;
        } }
        ensures state { state_of self.new ≡ with_anchor (state_of self.old) (held a) }
    {
        let new = &a;
        add_uses(&mut self.sums, new.plan, new.uses);
        insert(&mut self.ordered, new);
        self.anchors.push_reserved(a);
    }

    /// The anchor at this position has served one execution more.
    pub fn used(&mut self, place: usize)
        requires there { place < length self.old.anchors }
        requires fits { IfSome (slice_get self.old.anchors place) (λ anchor. anchor.uses + 1 < 2 ^ 64) }
        ensures value { self.new ≡ record self.old { anchors = used_at self.old.anchors place } }
        ensures state { state_of self.new ≡ reused (state_of self.old) place }
    {
        let anchor = &mut self.anchors[place];
        anchor.uses += 1;
        let plan = anchor.plan;
        add_uses(&mut self.sums, plan, 1);
    }

    /// The plan goes with its anchors, and the answer is how many those were.
    pub fn drop_plan(&mut self, plan: u64) -> u32
        requires { IsTrue (has_plan self.old.plans plan) }
        ensures count { result ≡ length (anchors_of self.old.anchors plan) }
        ensures plans { self.new.plans ≡ filter (λ kept. not (has_number plan kept)) self.old.plans }
        ensures state { state_of self.new ≡ without (state_of self.old) plan }
        ensures spare_plans { self.old.spare_plans ≤ self.new.spare_plans }
        ensures spare_anchors { self.old.spare_anchors ≤ self.new.spare_anchors }
    {
        let before = self.anchors.len();
        self.plans.retain(|kept| kept.number != plan);
        self.sums.retain(|sum| sum.plan != plan);
        self.anchors.retain(|anchor| anchor.plan != plan);
        put_in_order(&mut self.ordered, self.anchors.as_slice());
        (before - self.anchors.len()) as u32
    }

    /// All plans and anchors go; plan numbers go on.
    pub fn clear(&mut self)
        ensures state { state_of self.new ≡ cleared (state_of self.old) }
        ensures spare_plans { self.old.spare_plans ≤ self.new.spare_plans }
        ensures spare_anchors { self.old.spare_anchors ≤ self.new.spare_anchors }
    {
        self.plans.clear();
        self.sums.clear();
        self.anchors.clear();
        self.ordered.clear();
    }
}
