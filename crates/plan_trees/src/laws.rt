//! Laws of plans. Their promise is the clause; there is nothing to run.
ghost use Rattle.std.specs.Prelude.{◌≡◌, ℕ, List};
ghost use Rattle.plan_trees.specs.Laws.{NestingLaw, SameTopLaw, SameTreeLaw, SortedPlanLaw, UnionLaw};
ghost use Rattle.plan_trees.specs.Spelling.{IsPlanText};
ghost use Rattle.plan_trees.specs.Trees.{TopTree};

use row_values::Query;

/// One text is the spelling of one plan at most.
#[tactic(auto, using(crate::proofs::Readable::one_plan))]
pub fn one_plan_each(q: &Query)
    ensures { (text : List ℕ) (a b : TopTree) → IsPlanText q.now text a → IsPlanText q.now text b → a ≡ b }
{
    let _ = q.places();
}

/// The test of trees holds exactly of equal ones.
pub fn same_tree_tells()
    ensures { SameTreeLaw }
{}

/// The test of tops holds exactly of equal ones.
pub fn same_top_tells()
    ensures { SameTopLaw }
{}

/// The sum of two sets that are apart has the places of both.
#[tactic(auto, using(crate::proofs::Bits::has_union))]
pub fn sum_of_sets_has_both()
    ensures { UnionLaw }
{}

/// A valid plan in the wanted order has all wanted places.
#[tactic(auto, using(crate::proofs::WantedKeys::sorted_has_keys))]
pub fn sorted_plan_has_wanted_places()
    ensures { SortedPlanLaw }
{}

/// A valid plan is nested at most ten deep, so its spelling is read again.
#[tactic(auto, using(crate::proofs::ValidPlans::few_nested))]
pub fn valid_plan_nests_at_most_ten()
    ensures { NestingLaw }
{}
