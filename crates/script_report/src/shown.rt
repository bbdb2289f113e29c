//! What the report shows of a statement's plan cache: its plans and its anchors, a line each.
ghost use Rattle.std.specs.Prelude.{◌≡◌, ◌∷◌, [], ◌++◌, OnOk, OnErr, string_bytes};
ghost use Rattle.script_report.specs.Shown as report;

use crate::executions::push_at;
use plan_trees::Vector;
use row_values::{OutOfMemory, Words};
use std::alloc::Global;
use std::marker::Model;

/// A plan of the cache: its number, how often its anchors were used, and its spelling.
#[derive(Debug, Drop)]
pub struct ShownPlan {
    pub number: u64,
    pub uses: u128,
    pub text: Words,
}

/// An anchor: the execution that made it, its plan's number, how often it was used, what the plan costs there, the
/// least cost there, and its selectivity vector.
#[derive(Debug, Drop)]
pub struct ShownAnchor {
    pub execution: u64,
    pub plan: u64,
    pub uses: u64,
    pub cost: u128,
    pub least: u128,
    pub at: Vector,
}

/// The plans in the order in which they are shown; contracts see a list.
#[derive(Debug, Drop)]
pub struct ShownPlans {
    plans: Vec<ShownPlan>,
}

impl Model for ShownPlans {
    ghost use Rattle.std.specs.Prelude.{List};
    ghost use Rattle.script_report.specs.declared.shown.ShownPlan.{ShownPlan};

    ghost Value = { List ShownPlan };

    ghost view = { λ p. p.plans.items };
}

impl ShownPlans {
    /// No plan. It takes no memory.
    pub fn new(alloc: Global) -> ShownPlans
        ensures { result ≡ [] }
    {
        ShownPlans {
            plans: Vec::new(alloc),
        }
    }

    /// The plans in order.
    pub fn as_slice(&self) -> &[ShownPlan]
        ensures { result.now ≡ self.now }
    {
        self.plans.as_slice()
    }

    /// Adds a plan at the end. After want of memory the plans are as before.
    pub fn push(&mut self, item: ShownPlan) -> Result<(), OutOfMemory>
        ensures ok { OnOk result (self.new ≡ self.old ++ item ∷ []) }
        ensures err { OnErr result (self.new ≡ self.old) }
    {
        self.plans.push(item)?;
        Ok(())
    }
}

/// The anchors in the order in which they are shown; contracts see a list.
#[derive(Debug, Drop)]
pub struct ShownAnchors {
    anchors: Vec<ShownAnchor>,
}

impl Model for ShownAnchors {
    ghost use Rattle.std.specs.Prelude.{List};
    ghost use Rattle.script_report.specs.declared.shown.ShownAnchor.{ShownAnchor};

    ghost Value = { List ShownAnchor };

    ghost view = { λ a. a.anchors.items };
}

impl ShownAnchors {
    /// No anchor. It takes no memory.
    pub fn new(alloc: Global) -> ShownAnchors
        ensures { result ≡ [] }
    {
        ShownAnchors {
            anchors: Vec::new(alloc),
        }
    }

    /// The anchors in order.
    pub fn as_slice(&self) -> &[ShownAnchor]
        ensures { result.now ≡ self.now }
    {
        self.anchors.as_slice()
    }

    /// Adds an anchor at the end. After want of memory the anchors are as before.
    pub fn push(&mut self, item: ShownAnchor) -> Result<(), OutOfMemory>
        ensures ok { OnOk result (self.new ≡ self.old ++ item ∷ []) }
        ensures err { OnErr result (self.new ≡ self.old) }
    {
        self.anchors.push(item)?;
        Ok(())
    }
}

/// Adds a plan's line.
fn push_plan(text: &mut String, plan: &ShownPlan) -> Result<(), OutOfMemory>
    ensures { OnOk result (string_bytes text.new ≡ string_bytes text.old ++ report.shown_plan_line plan.now) }
{
    let number = plan.number;
    let uses = plan.uses;
    let spelled = plan.text.as_str();
    write!(text, "plan {number} uses {uses} {spelled}\n")?;
    Ok(())
}

/// Adds an anchor's line.
fn push_anchor(text: &mut String, anchor: &ShownAnchor) -> Result<(), OutOfMemory>
    ensures { OnOk result (string_bytes text.new ≡ string_bytes text.old ++ report.shown_anchor_line anchor.now) }
{
    let execution = anchor.execution;
    let plan = anchor.plan;
    let uses = anchor.uses;
    let cost = anchor.cost;
    let least = anchor.least;
    write!(
        text,
        "anchor {execution} plan {plan} uses {uses} cost {cost} least {least} "
    )?;
    push_at(text, anchor.at.as_slice())?;
    Ok(())
}

/// Adds the plans, a line each.
pub fn push_plans(text: &mut String, plans: &[ShownPlan]) -> Result<(), OutOfMemory>
    ensures { OnOk result (string_bytes text.new ≡ string_bytes text.old ++ report.plans_text plans.now) }
{
    for plan in plans {
        push_plan(text, plan)?;
    }
    Ok(())
}

/// Adds the anchors, a line each.
pub fn push_anchors(text: &mut String, anchors: &[ShownAnchor]) -> Result<(), OutOfMemory>
    ensures { OnOk result (string_bytes text.new ≡ string_bytes text.old ++ report.anchors_text anchors.now) }
{
    for anchor in anchors {
        push_anchor(text, anchor)?;
    }
    Ok(())
}
