//! Executing a statement by its name: for `run`, and for a cursor that is opened.
ghost use Rattle.std.specs.Prelude.{ℕ, ◌≡◌, ◌<◌, ◌^◌, List, IfOk, OnErr, length};
ghost use Rattle.session_model.specs.State.{CursorState};
ghost use Rattle.session_engine.specs.Engines.{IsAskedIn, MayAsk};
ghost use Rattle.session_engine.specs.Running.{IsUnchanged, RunsKept};
ghost use Rattle.session_engine.specs.Serving.{IsSessionKept};

use crate::answers::Answer;
use crate::execution::execute;
use anchor_cache::Cache;
use plan_costs::Planner;
use plan_operators::Source;
use row_values::{OutOfMemory, Refusal, TOO_MANY_ROWS, Value, Words};
use script_report::Execution;
use session_model::Settings;
use session_store::{Store, StoreFault};
use std::alloc::Global;

/// The execution of the statement of this name with these arguments, and its answer; or why it is refused. So many
/// executions were before it. What fails or is refused leaves each cache as it was.
pub fn run<P: Planner, A: Answer>(
    alloc: Global,
    planner: &mut P,
    settings: Settings,
    executions: u64,
    store: &Store,
    caches: &mut [Cache],
    name: &Words,
    args: &[Value],
) -> Result<Result<(Execution, A), Refusal>, OutOfMemory>
    requires room { executions < 2 ^ 62 }
    requires asks { P.asked planner.old < 2 ^ 63 }

    // The open cursors don't matter to it.
    requires kept { (cursors : List CursorState) × IsSessionKept store.now.catalog caches.old cursors executions
        settings }
    ensures ok { IfOk result (λ outcome. (cursors : List CursorState)
        → IsSessionKept store.now.catalog caches.old cursors executions settings
        → RunsKept A.lines store.now.catalog caches.old caches.new executions settings name.now args.now outcome
        cursors) }
    ensures err { OnErr result ((cursors : List CursorState)
        → IsSessionKept store.now.catalog caches.old cursors executions settings
        → IsUnchanged store.now.catalog caches.old caches.new executions settings cursors) }
    ensures one_each { length caches.new ≡ length caches.old }
    ensures asked { IfOk result (λ outcome. IsAskedIn (P.asked planner.old) outcome (P.asked planner.new)) }
    ensures may_ask { MayAsk (P.asked planner.old) (P.asked planner.new) }
{
    let instance = match store.instance(name, args) {
        Ok(instance) => instance,
        Err(StoreFault::Refused(why)) => return Ok(Err(why)),
        Err(StoreFault::Memory) => return Err(OutOfMemory),
    };
    let tables = store.tables_of(instance.statement)?;
    let indexes = store.indexes_of(instance.statement)?;
    let source = Source {
        q: store.query(instance.statement),
        tables: &tables,
        indexes: &indexes,
        args,
    };
    let ran = execute(
        alloc,
        planner,
        settings,
        executions,
        name,
        &source,
        &instance,
        &mut caches[instance.statement as usize],
    )?;
    match ran {
        None => Ok(Err(Refusal::bare(alloc, TOO_MANY_ROWS))),
        Some(answered) => Ok(Ok(answered)),
    }
}
