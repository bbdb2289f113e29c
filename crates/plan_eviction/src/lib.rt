//! Room in a full plan cache: which plan goes, and with what.
//!
//! The plan goes whose anchors were used least, together; of two as little used the one of less number. The cache
//! keeps those sums, so nothing is added up here. The ways in are `victim` and `evict`; neither takes memory.
#![tactic(auto)]

ghost use Rattle.std.specs.Prelude.{◌≡◌, ◌≤◌, None, IfNone, OnSome, Some, filter, length, not, if◌then◌else◌};
ghost use Rattle.std.specs.Option.{option_map};
ghost use Rattle.cache_model.specs.Caches.{anchors_of, without};
ghost use Rattle.cache_model.specs.Keeping.{first_least, victim as least_used};
ghost use Rattle.anchor_cache.specs.Contents.{has_number, has_plan, state_of};

use anchor_cache::{Cache, PlanUses};

/// The first of the sums that is the least.
fn least(sums: &[PlanUses]) -> Option<PlanUses>
    ensures { result ≡ first_least (λ sum. sum.uses) sums.now }
{
    let (first, others) = sums.split_first()?;
    let mut least = *first;
    for sum in others {
        if sum.uses < least.uses {
            least = *sum;
        }
    }
    Some(least)
}

/// The number of the plan whose anchors were used least, and of two such plans the less number. It is `None` exactly
/// where no plan is there.
pub fn victim(cache: &Cache) -> Option<u64>
    ensures { result ≡ option_map (λ plan. plan.number) (least_used (state_of cache.now)) }
{
    least(cache.uses()).map(|sum| sum.plan)
}

/// The plan goes with its anchors, and the answer is how many those were. It is `None` exactly where the plan isn't
/// there.
pub fn evict(cache: &mut Cache, plan: u64) -> Option<u32>
    ensures count { result
        ≡ (if has_plan cache.old.plans plan then Some (length (anchors_of cache.old.anchors plan)) else None) }
    ensures plans { OnSome result
        (cache.new.plans ≡ filter (λ kept. not (has_number plan kept)) cache.old.plans) }
    ensures state { OnSome result (state_of cache.new ≡ without (state_of cache.old) plan) }
    ensures unchanged { IfNone result (cache.new ≡ cache.old) }
    ensures spare_plans { cache.old.spare_plans ≤ cache.new.spare_plans }
    ensures spare_anchors { cache.old.spare_anchors ≤ cache.new.spare_anchors }
{
    cache.plan_uses(plan)?;
    Some(cache.drop_plan(plan))
}
