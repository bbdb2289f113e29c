//! Running a plan: the recursion over its tree, and `run_plan` over a top.
//!
//! Each form is handed to its operator. To add a plan form, add its operator's file and an arm of
//! `run`.
ghost use Rattle.std.specs.Prelude.{◌≡◌, ◌<◌, IfOk};
ghost use Rattle.row_values.specs.Sorting.{Rises, in_order};
ghost use Rattle.csv_tables.specs.StatementTables.{AreTablesOf, rows_in, tables_in};
ghost use Rattle.table_index.specs.StatementIndexes.{AreIndexesOf, indexes_in, masks_of};
ghost use Rattle.plan_trees.specs.PlanSpace.{IsSortedPlan, IsValidPlan, IsValidTop, wanted_order};
ghost use Rattle.plan_trees.specs.Trees.{plan_below, places_of, top_tree, tree};
ghost use Rattle.statement_meaning.specs.Combinations.{kept_combinations};
ghost use Rattle.statement_meaning.specs.Meaning.{is_before, is_lower};
ghost use Rattle.plan_operators.specs.Sources.{HasEachOnce, IsInOrder, IsSource, masks_read};

use crate::access::base;
use crate::combos::Combos;
use crate::hash_join::hash_join;
use crate::index_join::index_join;
use crate::nested_loop_join::nested_loop_join;
use crate::sort::sort;
use crate::source::{Side, Source};
use csv_tables::Table;
use plan_trees::{Plan, Top, plan_under};
use row_values::{OutOfMemory, Query, Value};
use std::alloc::Global;
use std::rc::Rc;
use table_index::Index;

/// The combinations that a plan gives.
fn run(alloc: Global, source: &Source<'_>, p: &Plan) -> Result<Side, OutOfMemory>
    requires sound { IsSource source.now }
    requires valid { IsValidPlan source.now.q.now (masks_read source.now) (tree p.now) }
    ensures places { IfOk result (λ side. side.places ≡ places_of (tree p.now)) }
    ensures small { IfOk result (λ side. side.places < 32) }
    ensures each_once { IfOk result (HasEachOnce source.now) }
    ensures in_order { IsSortedPlan source.now.q.now (tree p.now) → IfOk result (IsInOrder source.now) }
{
    match p {
        Plan::Base(access) => base(alloc, source, *access),
        Plan::Loop(outer, access) => {
            let outer = run(alloc, source, outer)?;
            nested_loop_join(alloc, source, &outer, *access)
        }
        Plan::Probe(outer, place, edge) => {
            let outer = run(alloc, source, outer)?;
            index_join(alloc, source, &outer, *place, *edge)
        }
        Plan::Hash(outer, inner, edge) => {
            let outer = run(alloc, source, outer)?;
            let inner = run(alloc, source, inner)?;
            hash_join(alloc, source, &outer, inner, *edge)
        }
        Plan::Sort(outer) => {
            let side = run(alloc, source, outer)?;
            sort(alloc, source, side)
        }
    }
}

/// The kept combinations of a statement with these arguments, each once and no other, as its plan
/// finds them: in the wanted order where the plan is sorted.
pub fn run_plan(
    alloc: Global,
    q: &Query,
    tables: &[Rc<Table>],
    indexes: &[Option<Rc<Index>>],
    args: &[Value],
    p: &Top,
) -> Result<Combos, OutOfMemory>
    requires tables { AreTablesOf q.now (tables_in tables.now) }
    requires indexes { AreIndexesOf q.now (tables_in tables.now) (indexes_in indexes.now) }
    requires valid { IsValidTop q.now (masks_of q.now.places indexes.now) (top_tree p.now) }
    ensures each_once { IfOk result (λ combos. in_order is_lower combos
        ≡ kept_combinations q.now (rows_in (tables_in tables.now)) args.now) }
    ensures in_order { IsSortedPlan q.now (plan_below (top_tree p.now))
        → IfOk result (λ combos. Rises (is_before (rows_in (tables_in tables.now)) (wanted_order q.now)) combos) }
{
    q.sound();
    let source = Source {
        q,
        tables,
        indexes,
        args,
    };
    let side = run(alloc, &source, plan_under(p))?;
    Ok(Combos::of(side.combos))
}
