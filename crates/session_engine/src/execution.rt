//! Executing an instance: a kept plan that a check lets through, else one of least cost, gives the rows that the
//! statement means.
//!
//! Rows are shaped before anything is made of them, so too many are known before anything is written. All memory is
//! taken before the cache changes, that of the answer too: what fails leaves its plans and anchors as they were. The way
//! in is `execute`.
ghost use Rattle.std.specs.Prelude.{ℕ, ◌≡◌, ◌+◌, ◌<◌, ◌^◌, All, IfOk, IfSome, OnErr, find};
ghost use Rattle.std.specs.Option.{option_map};
ghost use Rattle.csv_tables.specs.StatementTables.{rows_in, tables_in};
ghost use Rattle.plan_trees.specs.PlanSpace.{IsValidTop};
ghost use Rattle.plan_trees.specs.Trees.{top_tree};
ghost use Rattle.cache_model.specs.Choices.{ByOptimum};
ghost use Rattle.cache_model.specs.Laws.{IsWithinBound};
ghost use Rattle.anchor_cache.specs.Anchors.{held};
ghost use Rattle.anchor_cache.specs.Contents.{has_number, state_of};
ghost use Rattle.session_model.specs.Session.{AreSettings};
ghost use Rattle.session_engine.specs.Engines.{IsAskedBy, IsAskedFor, MayAsk};
ghost use Rattle.session_engine.specs.Executed.{AreFewRows, Executed, ExecutedBy, IsReady, certificate_of, reused_by};
ghost use Rattle.session_engine.specs.Executed.{shown_by, way_of};
ghost use Rattle.session_engine.specs.Serving.{IsCosted, IsServing};

use crate::answers::Answer;
use crate::choosing::{Choice, choose};
use crate::keeping::{Optimum, keep};
use crate::shaping::rows_by;
use anchor_cache::{Anchor, Cache, Kept};
use bound_certificate::Cert;
use plan_costs::{Best, Planner};
use plan_operators::Source;
use plan_recost::Costed;
use plan_trees::{Top, print_plan};
use result_shape::{Rows, RowsFault};
use row_values::{OutOfMemory, Words};
use script_report::{By, Execution, KeptNote};
use session_model::Settings;
use session_store::Instance;
use std::alloc::Global;

/// The check that lets a kept plan serve; by the cost check as the last of so many candidates.
#[derive(Clone, Copy, Debug)]
enum Check {
    Selectivity,
    Cost(u32),
}

/// What is told of a reuse of this anchor's plan.
fn way(check: Check, anchor: &Anchor) -> By
    ensures { result ≡ way_of check (held anchor.now) }
{
    let plan = anchor.plan;
    let anchor = anchor.execution;
    match check {
        Check::Selectivity => By::Selectivity { anchor, plan },
        Check::Cost(tried) => By::Cost {
            anchor,
            plan,
            tried,
        },
    }
}

/// The certificate of a reuse: it names the execution that was optimised.
fn certificate(check: Check, execution: u64) -> Cert
    ensures { result ≡ certificate_of check execution }
{
    match check {
        Check::Selectivity => Cert::Selectivity(execution),
        Check::Cost(_) => Cert::Cost(execution),
    }
}

/// The kept plan of this number.
fn plan_numbered(plans: &[Kept], number: u64) -> Option<&Kept>
    ensures { option_map (λ kept. kept.now) result ≡ find (has_number number) plans.now }
{
    plans.iter().find(|kept| kept.number == number)
}

/// The rows that the statement means, by this plan; none where there are too many.
fn few_rows(
    alloc: Global,
    source: &Source<'_>,
    instance: &Instance,
    plan: &Top,
) -> Result<Option<Rows>, OutOfMemory>
    requires ready { IsReady source.now instance.now }
    requires valid { IsValidTop source.now.q.now instance.now.stats.indexed (top_tree plan.now) }
    ensures { IfOk result (AreFewRows source.now.q.now (rows_in (tables_in source.now.tables.now))
        source.now.args.now) }
{
    match rows_by(alloc, source, plan) {
        Ok(rows) => Ok(Some(rows)),
        Err(RowsFault::TooManyRows) => Ok(None),
        Err(RowsFault::Memory) => Err(OutOfMemory),
    }
}

/// The plan of the anchor at this place is used again.
fn reuse<A: Answer>(
    alloc: Global,
    settings: Settings,
    executions: u64,
    name: &Words,
    source: &Source<'_>,
    instance: &Instance,
    cache: &mut Cache,
    place: usize,
    check: Check,
) -> Result<Option<(Execution, A)>, OutOfMemory>
    requires ready { IsReady source.now instance.now }
    requires few { executions < 2 ^ 62 }
    requires serving { IsServing source.now.q.now instance.now.stats executions settings.budget cache.old }
    requires bound { IsWithinBound (state_of cache.old) source.now.q.now instance.now.stats instance.now.at
        settings.lambda place }
    ensures executed { IfOk result (λ ran. ExecutedBy (reused_by check place) settings (executions + 1) name.now
        source.now.q.now (rows_in (tables_in source.now.tables.now)) source.now.args.now instance.now.stats
        instance.now.at (state_of cache.old) (state_of cache.new) (shown_by (A.lines source.now.q.now) ran)) }
    ensures failed { OnErr result (state_of cache.new ≡ state_of cache.old) }
    ensures costed { All (IsCosted source.now.q.now instance.now.stats) cache.new.plans }
    ensures told { IfOk result (λ ran. IfSome ran (λ r. (asked : ℕ) → IsAskedBy asked r.0.by asked)) }
{
    let anchor = cache.anchors()[place];
    let Some(kept) = plan_numbered(cache.plans(), anchor.plan) else {
        unreachable!()
    };
    let plan = &kept.costed.plan;
    let Some(rows) = few_rows(alloc, source, instance, plan)? else {
        return Ok(None);
    };
    let execution = Execution {
        name: name.copy(alloc)?,
        number: executions + 1,
        spelled: print_plan(alloc, source.q, plan)?,
        cost: kept.costed.cost_at(instance.at.as_slice()),
        at: instance.at,
        by: way(check, &anchor),
        evicted: None,
        kept: KeptNote::Reused,
        cert: certificate(check, anchor.execution),
    };
    let answer = A::of(alloc, source.q, rows)?;
    cache.used(place);
    Ok(Some((execution, answer)))
}

/// The instance is optimised, and kept as far as the rule says.
fn optimise<P: Planner, A: Answer>(
    alloc: Global,
    planner: &mut P,
    settings: Settings,
    executions: u64,
    name: &Words,
    source: &Source<'_>,
    instance: &Instance,
    cache: &mut Cache,
    tried: u32,
) -> Result<Option<(Execution, A)>, OutOfMemory>
    requires ready { IsReady source.now instance.now }
    requires room { P.asked planner.old < 2 ^ 63 }
    requires settings { AreSettings settings }
    requires few { executions < 2 ^ 62 }
    requires serving { IsServing source.now.q.now instance.now.stats executions settings.budget cache.old }
    ensures asked { P.asked planner.new ≡ P.asked planner.old + 1 }
    ensures executed { IfOk result (λ ran. ExecutedBy (ByOptimum tried) settings (executions + 1) name.now
        source.now.q.now (rows_in (tables_in source.now.tables.now)) source.now.args.now instance.now.stats
        instance.now.at (state_of cache.old) (state_of cache.new) (shown_by (A.lines source.now.q.now) ran)) }
    ensures failed { OnErr result (state_of cache.new ≡ state_of cache.old) }
    ensures costed { All (IsCosted source.now.q.now instance.now.stats) cache.new.plans }
    ensures told { IfOk result (λ ran. IfSome ran (λ r. (asked : ℕ) → IsAskedBy asked r.0.by (asked + 1))) }
{
    let Best {
        plan,
        cost,
        potentials,
    } = planner.optimise(alloc, source.q, &instance.stats, instance.at.as_slice())?;
    let Some(rows) = few_rows(alloc, source, instance, &plan)? else {
        return Ok(None);
    };
    let name = name.copy(alloc)?;
    let spelled = print_plan(alloc, source.q, &plan)?;
    let answer = A::of(alloc, source.q, rows)?;
    let costed = Costed::of(alloc, source.q, &instance.stats, plan)?;
    cache.reserve_one()?;
    let number = executions + 1;
    let optimum = Optimum {
        execution: number,
        at: instance.at,
        costed,
        least: cost,
    };
    let keeping = keep(cache, optimum, settings.keep, settings.budget);
    let execution = Execution {
        name,
        number,
        spelled,
        cost,
        at: instance.at,
        by: By::Optimum { tried },
        evicted: keeping.evicted,
        kept: keeping.kept,
        cert: Cert::Optimum(potentials),
    };
    Ok(Some((execution, answer)))
}

/// What an execution is and the answer of its rows; nothing where it has too many. A kept plan serves exactly where a check
/// lets it through; else the planner is asked, once. So many executions were before it.
pub fn execute<P: Planner, A: Answer>(
    alloc: Global,
    planner: &mut P,
    settings: Settings,
    executions: u64,
    name: &Words,
    source: &Source<'_>,
    instance: &Instance,
    cache: &mut Cache,
) -> Result<Option<(Execution, A)>, OutOfMemory>
    requires ready { IsReady source.now instance.now }
    requires room { P.asked planner.old < 2 ^ 63 }
    requires settings { AreSettings settings }
    requires few { executions < 2 ^ 62 }
    requires serving { IsServing source.now.q.now instance.now.stats executions settings.budget cache.old }
    ensures asked { IfOk result (λ ran. IsAskedFor (P.asked planner.old) ran (P.asked planner.new)) }
    ensures may_ask { MayAsk (P.asked planner.old) (P.asked planner.new) }
    ensures executed { IfOk result (λ ran. Executed settings (executions + 1) name.now source.now.q.now
        (rows_in (tables_in source.now.tables.now)) source.now.args.now instance.now.stats instance.now.at
        (state_of cache.old) (state_of cache.new) (shown_by (A.lines source.now.q.now) ran)) }
    ensures failed { OnErr result (state_of cache.new ≡ state_of cache.old) }
    ensures costed { All (IsCosted source.now.q.now instance.now.stats) cache.new.plans }
{
    // That every statement is sound, its readers pass on.
    source.q.sound();
    let at = instance.at.as_slice();
    match choose(cache, at, settings.lambda, settings.recosts) {
        Choice::BySelectivity { place } => reuse(
            alloc,
            settings,
            executions,
            name,
            source,
            instance,
            cache,
            place,
            Check::Selectivity,
        ),
        Choice::ByCost { place, tried } => reuse(
            alloc,
            settings,
            executions,
            name,
            source,
            instance,
            cache,
            place,
            Check::Cost(tried),
        ),
        Choice::ByOptimum { tried } => optimise(
            alloc, planner, settings, executions, name, source, instance, cache, tried,
        ),
    }
}
