//! The lines of an execution in the report.
//!
//! Each function adds its lines, ends included, behind the text that is there.
ghost use Rattle.std.specs.Prelude.{◌≡◌, ◌++◌, OnOk, string_bytes};
ghost use Rattle.script_report.specs.Executions as report;

use crate::replies::{By, Execution, KeptNote};
use bound_certificate::{Cert, to_text};
use row_values::{OutOfMemory, push_name};
use std::alloc::Global;

/// Adds the numbers, each behind a space.
fn push_numbers(text: &mut String, numbers: &[u64]) -> Result<(), OutOfMemory>
    ensures { OnOk result (string_bytes text.new ≡ string_bytes text.old ++ report.numbers_text numbers.now) }
{
    for number in numbers {
        write!(text, " {number}")?;
    }
    Ok(())
}

/// Adds the line of a selectivity vector.
pub fn push_at(text: &mut String, at: &[u64]) -> Result<(), OutOfMemory>
    ensures { OnOk result (string_bytes text.new ≡ string_bytes text.old ++ report.at_line at.now) }
{
    text.push_str("at")?;
    push_numbers(text, at)?;
    text.push('\n')?;
    Ok(())
}

/// Adds the lines of the plan and of what it costs.
fn push_plan(text: &mut String, execution: &Execution) -> Result<(), OutOfMemory>
    ensures { OnOk result (string_bytes text.new ≡ string_bytes text.old ++ report.plan_lines execution.now) }
{
    let spelled = execution.spelled.as_str();
    let cost = execution.cost;
    write!(text, "plan {spelled}\ncost {cost}\n")?;
    Ok(())
}

/// Adds the line of how the execution got its plan.
fn push_by(text: &mut String, by: By) -> Result<(), OutOfMemory>
    ensures { OnOk result (string_bytes text.new ≡ string_bytes text.old ++ report.by_line by) }
{
    match by {
        By::Selectivity { anchor, plan } => {
            write!(text, "by selectivity {anchor} plan {plan}\n")?
        }
        By::Cost {
            anchor,
            plan,
            tried,
        } => write!(text, "by cost {anchor} plan {plan} tried {tried}\n")?,
        By::Optimum { tried } => write!(text, "by optimum tried {tried}\n")?,
    }
    Ok(())
}

/// Adds the line of the plan that was evicted, where one was.
fn push_evicted(text: &mut String, evicted: Option<(u64, u32)>) -> Result<(), OutOfMemory>
    ensures { OnOk result (string_bytes text.new ≡ string_bytes text.old ++ report.evicted_line evicted) }
{
    if let Some((plan, anchors)) = evicted {
        write!(text, "evicted plan {plan} anchors {anchors}\n")?;
    }
    Ok(())
}

/// Adds the line of what was kept; none where a plan was reused.
fn push_kept(text: &mut String, kept: KeptNote) -> Result<(), OutOfMemory>
    ensures { OnOk result (string_bytes text.new ≡ string_bytes text.old ++ report.kept_line kept) }
{
    match kept {
        KeptNote::Reused => (),
        KeptNote::New(plan) => write!(text, "kept plan {plan} new\n")?,
        KeptNote::Old(plan) => write!(text, "kept plan {plan}\n")?,
        KeptNote::Nothing => text.push_str("kept nothing\n")?,
    }
    Ok(())
}

/// Adds the line of a certificate.
fn push_certificate(alloc: Global, text: &mut String, cert: &Cert) -> Result<(), OutOfMemory>
    ensures { OnOk result (string_bytes text.new ≡ string_bytes text.old ++ report.certificate_line cert.now) }
{
    let spelled = to_text(alloc, cert)?;
    let spelled = spelled.as_str();
    write!(text, "cert {spelled}\n")?;
    Ok(())
}

/// Adds the lines of an execution, from its plan to its certificate.
fn push_execution_lines(
    alloc: Global,
    text: &mut String,
    execution: &Execution,
) -> Result<(), OutOfMemory>
    ensures { OnOk result (string_bytes text.new ≡ string_bytes text.old ++ report.execution_lines execution.now) }
{
    push_plan(text, execution)?;
    push_at(text, execution.at.as_slice())?;
    push_by(text, execution.by)?;
    push_evicted(text, execution.evicted)?;
    push_kept(text, execution.kept)?;
    push_certificate(alloc, text, &execution.cert)?;
    Ok(())
}

/// Adds a statement's name and the number of an execution, the rest of a line.
fn push_heading(text: &mut String, name: &str, number: u64) -> Result<(), OutOfMemory>
    ensures { OnOk result (string_bytes text.new ≡ string_bytes text.old ++ report.heading name.now number) }
{
    push_name(text, name)?;
    write!(text, " execution {number}\n")?;
    Ok(())
}

/// Adds an execution: its name and number, the rest of a line, and its lines.
#[tactic(auto, unfolding(crate::specs::Executions::execution_text))]
pub fn push_execution(
    alloc: Global,
    text: &mut String,
    execution: &Execution,
) -> Result<(), OutOfMemory>
    ensures { OnOk result (string_bytes text.new ≡ string_bytes text.old ++ report.execution_text execution.now) }
{
    push_heading(text, execution.name.as_str(), execution.number)?;
    push_execution_lines(alloc, text, execution)?;
    Ok(())
}
