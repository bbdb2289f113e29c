//! Kept plans, and how often the anchors of each were used.
ghost use Rattle.std.specs.Prelude.{◌≡◌, ◌<◌, ◌+◌, ◌^◌, ◌==◌, All, find, map, vec_capacity, vec_len};
ghost use Rattle.std.specs.Option.{option_map};
ghost use Rattle.plan_trees.specs.Trees.{same_top, top_tree};
ghost use Rattle.anchor_cache.specs.Contents.{cached};
ghost use Rattle.anchor_cache.specs.Sums.{used_more};

use plan_recost::Costed;
use plan_trees::{Top, same};

/// A plan, under the number that it has in its cache.
#[derive(Debug, Drop)]
pub struct Kept {
    pub number: u64,
    pub costed: Costed,
}

/// How often the anchors of a plan were used, together.
#[derive(Clone, Copy, Debug, PartialEq, Eq)]
pub struct PlanUses {
    pub plan: u64,
    pub uses: u128,
}

/// The number of the plan that is the same as this one.
pub(crate) fn number_of_same(plans: &[Kept], p: &Top) -> Option<u64>
    ensures { result ≡ option_map (λ plan. plan.number)
        (find (λ plan. same_top plan.top (top_tree p.now)) (map cached plans.now)) }
{
    for kept in plans {
        if same(&kept.costed.plan, p) {
            return Some(kept.number);
        }
    }
    None
}

/// The uses of the plan of this number.
pub(crate) fn find_uses(sums: &[PlanUses], plan: u64) -> Option<PlanUses>
    ensures { result ≡ find (λ sum. sum.plan == plan) sums.now }
{
    sums.iter().copied().find(|sum| sum.plan == plan)
}

/// The plan's anchors were used so often more.
fn with_more(sum: PlanUses, plan: u64, uses: u64) -> PlanUses
    requires { sum.uses + uses < 2 ^ 128 }
    ensures { result ≡ used_more plan uses sum }
{
    if plan == sum.plan {
        PlanUses {
            plan,
            uses: sum.uses + u128::from(uses),
        }
    } else {
        sum
    }
}

/// The plan's anchors were used so often more, and those of other plans as often as before.
pub(crate) fn add_uses(sums: &mut Vec<PlanUses>, plan: u64, uses: u64)
    requires { All (λ sum. sum.uses + uses < 2 ^ 128) sums.old.items }
    ensures items { sums.new.items ≡ map (used_more plan uses) sums.old.items }
    ensures len { vec_len sums.new ≡ vec_len sums.old }
    ensures capacity { vec_capacity sums.new ≡ vec_capacity sums.old }
{
    for sum in sums.iter_mut() {
        *sum = with_more(*sum, plan, uses);
    }
}
