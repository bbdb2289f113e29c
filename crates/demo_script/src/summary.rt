//! What is told of a run of the demo: counts over its replies, and their text.
//!
//! Rows are counted in 128 bits, where no sum can wrap: a reply has fewer than 2^64 of them, and
//! fewer than 2^64 executions are counted.
ghost use Rattle.std.specs.Prelude.{◌≡◌, ◌+◌, ◌≤◌, ◌<◌, ◌^◌, ◌∷◌, [], ◌++◌, IfOk, List, OnOk, string_bytes};
ghost use Rattle.demo_script.specs.Summary as told;
ghost use Rattle.script_report.specs.declared.replies.Reply as replies;

use row_values::OutOfMemory;
use script_report::{By, Reply};
use std::alloc::Global;
use std::marker::Model;

/// How many executions there were, in all and by how each got its plan, and how many rows they had.
#[derive(Debug, Drop)]
pub struct Summary {
    executions: u64,
    optimised: u64,
    by_selectivity: u64,
    by_cost: u64,
    rows: u128,
}

impl Model for Summary {
    ghost use Rattle.std.specs.Prelude.{◌≡◌, ◌+◌, ◌*◌, ◌≤◌, ◌^◌};
    ghost use Rattle.demo_script.specs.Summary.{Counts};

    ghost Value = { Counts };

    ghost view = { λ summary. record {
      executions = summary.executions;
      optimised = summary.optimised;
      by_selectivity = summary.by_selectivity;
      by_cost = summary.by_cost;
      rows = summary.rows;
    } };

    ghost invariant = { λ summary. record {
      each_in_one_way : summary.optimised + summary.by_selectivity + summary.by_cost ≡ summary.executions;
      rows_fit : summary.rows ≤ summary.executions * 2 ^ 64;
    } };
}

impl Summary {
    /// The counts over no reply.
    pub fn new() -> Summary
        ensures { result ≡ told.counts_of [] }
    {
        Summary {
            executions: 0,
            optimised: 0,
            by_selectivity: 0,
            by_cost: 0,
            rows: 0,
        }
    }

    /// Counts an execution with its rows.
    fn count_execution(&mut self, by: By, rows: usize)
        requires { self.old.executions < 2 ^ 63 }
        ensures { self.new ≡ told.with_execution self.old (Some (by, rows)) }
    {
        self.executions += 1;
        self.rows += rows as u128;
        match by {
            By::Selectivity { anchor: _, plan: _ } => self.by_selectivity += 1,
            By::Cost {
                anchor: _,
                plan: _,
                tried: _,
            } => self.by_cost += 1,
            By::Optimum { tried: _ } => self.optimised += 1,
        }
    }

    /// Counts a reply: what stood for the replies before it stands for them and this one.
    pub fn count(&mut self, reply: &Reply)
        requires { self.old.executions < 2 ^ 63 }
        ensures value { (before : List replies.Reply) → self.old ≡ told.counts_of before
            → self.new ≡ told.counts_of (before ++ reply.now ∷ []) }
        ensures bound { self.new.executions ≤ self.old.executions + 1 }
    {
        match executed(reply) {
            Some((by, rows)) => self.count_execution(by, rows),
            None => {}
        }
    }

    /// The seven lines, where `shown` is the reply that tells what the cache holds at the end.
    pub fn text(&self, alloc: Global, shown: &Reply) -> Result<String, OutOfMemory>
        ensures { IfOk result (λ text. string_bytes text ≡ told.summary_text self.now shown.now) }
    {
        let mut text = self.execution_lines(alloc)?;
        push_cache_lines(&mut text, shown)?;
        push_count(&mut text, "rows", self.rows)?;
        Ok(text)
    }

    /// The lines of the executions.
    fn execution_lines(&self, alloc: Global) -> Result<String, OutOfMemory>
        ensures { IfOk result (λ text. string_bytes text ≡ told.execution_lines self.now) }
    {
        let mut text = String::new(alloc);
        push_count(&mut text, "executions", self.executions as u128)?;
        push_count(&mut text, "optimised", self.optimised as u128)?;
        push_count(&mut text, "by selectivity", self.by_selectivity as u128)?;
        push_count(&mut text, "by cost", self.by_cost as u128)?;
        Ok(text)
    }
}

/// How an execution got its plan, and how many rows came with it.
fn executed(reply: &Reply) -> Option<(By, usize)>
    ensures { result ≡ told.executed reply.now }
{
    match reply {
        Reply::Ran { execution, rows } => Some((execution.by, rows.as_slice().len())),
        Reply::Opened {
            cursor: _,
            execution,
        } => Some((execution.by, 0)),
        _ => None,
    }
}

/// How many plans a reply shows.
fn plan_count(shown: &Reply) -> usize
    ensures { result ≡ told.plans_in shown.now }
{
    match shown {
        Reply::Shown {
            name: _,
            plans,
            anchors: _,
        } => plans.as_slice().len(),
        _ => 0,
    }
}

/// How many anchors a reply shows.
fn anchor_count(shown: &Reply) -> usize
    ensures { result ≡ told.anchors_in shown.now }
{
    match shown {
        Reply::Shown {
            name: _,
            plans: _,
            anchors,
        } => anchors.as_slice().len(),
        _ => 0,
    }
}

/// Adds the lines of what a reply shows of the cache.
fn push_cache_lines(text: &mut String, shown: &Reply) -> Result<(), OutOfMemory>
    ensures { OnOk result (string_bytes text.new ≡ string_bytes text.old ++ told.cache_lines shown.now) }
{
    push_count(text, "plans", plan_count(shown) as u128)?;
    push_count(text, "anchors", anchor_count(shown) as u128)?;
    Ok(())
}

/// Adds the line of a count.
#[tactic(auto, unfolding(crate::specs::Summary::count_line))]
fn push_count(text: &mut String, label: &str, count: u128) -> Result<(), OutOfMemory>
    ensures { OnOk result (string_bytes text.new ≡ string_bytes text.old ++ told.count_line label.now count) }
{
    write!(text, "{label} {count}\n")?;
    Ok(())
}
