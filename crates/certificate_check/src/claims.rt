//! The verdict on a claim, by the entries of a ledger.
ghost use Rattle.std.specs.Prelude.{◌≡◌, ◌≢◌, ◌≤◌, All};
ghost use Rattle.row_values.specs.Statements.{IsSoundQuery};
ghost use Rattle.plan_trees.specs.PlanSpace.{IsValidTop};
ghost use Rattle.plan_trees.specs.Statistics.{IsSoundStats, IsSoundVector};
ghost use Rattle.plan_trees.specs.Trees.{top_tree};
ghost use Rattle.certificate_check.specs.Ledgers.{IsComparable, IsTrueLedger, entry_of};
ghost use Rattle.certificate_check.specs.Verdicts.{HasTable, IsOptimumVerdict, IsReuseVerdict, IsVerdict};
ghost use Rattle.certificate_check.specs.Verdicts.{PassesByCost, PassesBySelectivity, claim_of};
ghost use Rattle.certificate_check.specs.declared.verdicts.Verdict.TheVariants.{Memory};

use crate::entries::{Entry, find_entry};
use crate::reuses::{passes_by_cost, passes_by_selectivity};
use crate::tables::{bad_set, fits_table, has_each_cell};
use crate::verdicts::Verdict;
use bound_certificate::Cert;
use fraction_math::Ratio;
use plan_costs::{Potentials, cost_of};
use plan_trees::{Stats, Top, valid};
use row_values::Query;
use std::alloc::Global;

/// The verdict on an optimum whose table is feasible.
fn number_verdict(q: &Query, stats: &Stats, s: &[u64], cost: u128, bounds: &Potentials) -> Verdict
    requires query { IsSoundQuery q.now }
    requires sound { IsSoundStats q.now stats.now }
    requires vector { IsSoundVector q.now stats.now s.now }
    requires table { HasTable q.now stats.now s.now bounds.now }
    ensures { IsOptimumVerdict q.now stats.now s.now cost bounds.now result }
{
    if cost != bounds.least() {
        return Verdict::NotLeast;
    }
    if !fits_table(q, stats, s, bounds.cells(), cost) {
        return Verdict::NotLeast;
    }
    Verdict::Accepted
}

/// The verdict on an optimum of this cost.
fn optimum_verdict(
    alloc: Global,
    q: &Query,
    stats: &Stats,
    s: &[u64],
    cost: u128,
    bounds: &Potentials,
) -> Verdict
    requires query { IsSoundQuery q.now }
    requires sound { IsSoundStats q.now stats.now }
    requires vector { IsSoundVector q.now stats.now s.now }
    ensures { result ≢ Memory → IsOptimumVerdict q.now stats.now s.now cost bounds.now result }
{
    let cells = bounds.cells();
    if !has_each_cell(q, cells) {
        return Verdict::BadTable(0);
    }
    match bad_set(alloc, q, stats, s, cells) {
        Err(_) => Verdict::Memory,
        Ok(Some(set)) => Verdict::BadTable(set),
        Ok(None) => number_verdict(q, stats, s, cost, bounds),
    }
}

/// The verdict on a reuse by selectivity.
fn selectivity_verdict(
    entries: &[Entry],
    statement: u32,
    q: &Query,
    stats: &Stats,
    s: &[u64],
    lambda: Ratio,
    plan: &Top,
    execution: u64,
) -> Verdict
    requires query { IsSoundQuery q.now }
    requires sound { IsSoundStats q.now stats.now }
    requires vector { IsSoundVector q.now stats.now s.now }
    requires valid { IsValidTop q.now stats.now.indexed (top_tree plan.now) }
    requires entries { IsTrueLedger q.now stats.now statement entries.now }
    ensures { IsReuseVerdict (PassesBySelectivity q.now stats.now s.now lambda (top_tree plan.now)) execution
        (entry_of entries.now statement execution) result }
{
    let Some(anchor) = find_entry(entries, statement, execution) else {
        return Verdict::UnknownAnchor(execution);
    };
    let cost_there = cost_of(q, stats, plan, anchor.at.as_slice());
    if passes_by_selectivity(anchor, s, lambda, cost_there) {
        Verdict::Accepted
    } else {
        Verdict::OverBound
    }
}

/// The verdict on a reuse by cost.
fn cost_verdict(
    entries: &[Entry],
    statement: u32,
    s: &[u64],
    lambda: Ratio,
    cost: u128,
    execution: u64,
) -> Verdict
    requires cost { 1 ≤ cost }
    requires numbers { All (λ n. 1 ≤ n) s.now }
    requires entries { All (λ entry. entry.statement ≡ statement → IsComparable s.now entry) entries.now }
    ensures { IsReuseVerdict (PassesByCost s.now lambda cost) execution
        (entry_of entries.now statement execution) result }
{
    let Some(anchor) = find_entry(entries, statement, execution) else {
        return Verdict::UnknownAnchor(execution);
    };
    if passes_by_cost(anchor, s, lambda, cost) {
        Verdict::Accepted
    } else {
        Verdict::OverBound
    }
}

/// The verdict on what is claimed of an execution.
pub(crate) fn verdict_on(
    alloc: Global,
    entries: &[Entry],
    statement: u32,
    q: &Query,
    stats: &Stats,
    s: &[u64],
    lambda: Ratio,
    plan: &Top,
    cost: u128,
    cert: &Cert,
) -> Verdict
    requires sound { IsSoundStats q.now stats.now }
    requires vector { IsSoundVector q.now stats.now s.now }
    requires entries { IsTrueLedger q.now stats.now statement entries.now }
    ensures { result ≢ Memory → IsVerdict entries.now statement
        (claim_of q.now stats.now s.now lambda (top_tree plan.now) cost cert.now) result }
{
    q.sound();
    if !valid(q, stats.indexed(), plan) {
        return Verdict::BadPlan;
    }
    if cost_of(q, stats, plan, s) != cost {
        return Verdict::BadCost;
    }
    match cert {
        Cert::Optimum(bounds) => optimum_verdict(alloc, q, stats, s, cost, bounds),
        Cert::Selectivity(execution) => {
            selectivity_verdict(entries, statement, q, stats, s, lambda, plan, *execution)
        }
        Cert::Cost(execution) => cost_verdict(entries, statement, s, lambda, cost, *execution),
    }
}
