//! The spelling of a plan, as reports show it.
//!
//! `print_plan` is the one way in; `top_text` of specs/Spelling says what it writes.
ghost use Rattle.std.specs.Prelude.{◌≡◌, ◌++◌, ℕ, List, IfOk, OnOk, codes, string_bytes};
ghost use Rattle.plan_trees.specs.PlanSpace.{IsValidTop};
ghost use Rattle.plan_trees.specs.Spelling.{IsPlanText, access_text, alias_of, column_text, columns_of, name_of};
ghost use Rattle.plan_trees.specs.Spelling.{number_text, place_text, plan_text, step_text, top_text};
ghost use Rattle.plan_trees.specs.Trees.{top_tree, tree};

use crate::plans::{Access, Plan, StepKind, Top};
use row_values::{OutOfMemory, Place, Query, Words, push_name};
use std::alloc::Global;

/// The alias of a place, or nothing for a place that isn't there.
fn alias(places: &[Place], place: u8) -> &str
    ensures { result.now ≡ alias_of places.now place }
{
    match places.get(usize::from(place)) {
        Some(there) => there.alias.as_str(),
        None => "",
    }
}

/// The name of a column of a place, or nothing for a column that isn't there.
fn column_name(places: &[Place], place: u8, column: u8) -> &str
    ensures { result.now ≡ name_of (columns_of places.now place) column }
{
    match places.get(usize::from(place)) {
        Some(there) => match there.schema.columns().get(usize::from(column)) {
            Some(named) => named.name.as_str(),
            None => "",
        },
        None => "",
    }
}

/// Adds the spelling of a place.
fn push_place(out: &mut String, places: &[Place], place: u8) -> Result<(), OutOfMemory>
    ensures { OnOk result (string_bytes out.new ≡ string_bytes out.old ++ place_text places.now place) }
{
    push_name(out, alias(places, place))
}

/// Adds the spelling of a column.
fn push_column(out: &mut String, places: &[Place], place: u8, column: u8) -> Result<(), OutOfMemory>
    ensures { OnOk result (string_bytes out.new
        ≡ string_bytes out.old ++ column_text places.now place column) }
{
    push_name(out, column_name(places, place, column))
}

/// Adds the number of a predicate or an edge, counted from 1.
fn push_number(out: &mut String, number: u8) -> Result<(), OutOfMemory>
    ensures { OnOk result (string_bytes out.new ≡ string_bytes out.old ++ number_text number) }
{
    let shown = u16::from(number) + 1;
    write!(out, "{shown}")
}

/// Adds the spelling of an access.
fn push_access(out: &mut String, places: &[Place], access: Access) -> Result<(), OutOfMemory>
    ensures { OnOk result (string_bytes out.new ≡ string_bytes out.old ++ access_text places.now access) }
{
    match access {
        Access::Seq(place) => {
            out.push_str("seq(")?;
            push_place(out, places, place)?;
        }
        Access::Range(place, column, pred) => {
            out.push_str("range(")?;
            push_place(out, places, place)?;
            out.push_str(".")?;
            push_column(out, places, place, column)?;
            out.push_str(",")?;
            push_number(out, pred)?;
        }
        Access::Full(place, column) => {
            out.push_str("full(")?;
            push_place(out, places, place)?;
            out.push_str(".")?;
            push_column(out, places, place, column)?;
        }
    }
    out.push_str(")")
}

/// Adds what stands behind the outer plan of a step.
fn push_step(out: &mut String, places: &[Place], step: StepKind) -> Result<(), OutOfMemory>
    ensures { OnOk result (string_bytes out.new ≡ string_bytes out.old ++ step_text places.now step) }
{
    out.push_str(",")?;
    match step {
        StepKind::Loop(access) => push_access(out, places, access)?,
        StepKind::Probe(place, edge) => {
            push_place(out, places, place)?;
            out.push_str(",")?;
            push_number(out, edge)?;
        }
    }
    out.push_str(")")
}

/// Adds the spelling of a plan.
fn push_plan(out: &mut String, places: &[Place], p: &Plan) -> Result<(), OutOfMemory>
    ensures { OnOk result (string_bytes out.new
        ≡ string_bytes out.old ++ plan_text places.now (tree p.now)) }
{
    match p {
        Plan::Base(access) => push_access(out, places, *access),
        Plan::Loop(outer, access) => {
            out.push_str("loop(")?;
            push_plan(out, places, outer)?;
            push_step(out, places, StepKind::Loop(*access))
        }
        Plan::Probe(outer, place, edge) => {
            out.push_str("probe(")?;
            push_plan(out, places, outer)?;
            push_step(out, places, StepKind::Probe(*place, *edge))
        }
        Plan::Hash(outer, inner, edge) => {
            out.push_str("hash(")?;
            push_plan(out, places, outer)?;
            out.push_str(",")?;
            push_plan(out, places, inner)?;
            out.push_str(",")?;
            push_number(out, *edge)?;
            out.push_str(")")
        }
        Plan::Sort(outer) => {
            out.push_str("sort(")?;
            push_plan(out, places, outer)?;
            out.push_str(")")
        }
    }
}

/// Adds a plan under the name of its top.
fn push_under(out: &mut String, places: &[Place], name: &str, p: &Plan) -> Result<(), OutOfMemory>
    ensures { OnOk result (string_bytes out.new
        ≡ string_bytes out.old ++ (name.now ++ plan_text places.now (tree p.now) ++ codes ")")) }
{
    out.push_str(name)?;
    push_plan(out, places, p)?;
    out.push_str(")")
}

/// Adds the spelling of a top.
fn push_top(out: &mut String, places: &[Place], p: &Top) -> Result<(), OutOfMemory>
    ensures { OnOk result (string_bytes out.new
        ≡ string_bytes out.old ++ top_text places.now (top_tree p.now)) }
{
    match p {
        Top::Rows(plan) => push_under(out, places, "rows(", plan),
        Top::SortedGroups(plan) => push_under(out, places, "sorted_groups(", plan),
        Top::HashGroups(plan) => push_under(out, places, "hash_groups(", plan),
    }
}

/// The spelling of a plan. A valid plan's spelling is one that `read_plan` reads as that plan.
pub fn print_plan(alloc: Global, q: &Query, p: &Top) -> Result<Words, OutOfMemory>
    ensures value { IfOk result (λ words. words ≡ top_text q.now.places (top_tree p.now)) }
    ensures read { (indexed : List ℕ) → IsValidTop q.now indexed (top_tree p.now)
        → IfOk result (λ words. IsPlanText q.now words (top_tree p.now)) }
{
    let places = q.places();
    let mut out = String::new(alloc);
    push_top(&mut out, places, p)?;
    Ok(Words::from_string(out))
}
