//! Findings: the next item of a report against the line that it must be for.
ghost use Rattle.std.specs.Prelude.{ℕ, ◌≡◌, ◌≢◌, ◌≤◌, IfOk, Ok, option_map};
ghost use Rattle.row_values.specs.Statements.{Statement};
ghost use Rattle.plan_trees.specs.Statistics.{IsSoundStats, IsSoundVector, Statistics};
ghost use Rattle.certificate_check.specs.Ledgers.{IsTrueLedger};
ghost use Rattle.certificate_check.specs.Verdicts.{claim_of};
ghost use Rattle.report_verifier.specs.Claims.{IsBlockJudged};
ghost use Rattle.report_verifier.specs.Findings.{Finds, is_for as is_for_execution};
ghost use Rattle.report_verifier.specs.Judging.{seen};

use crate::claims::judge_block;
use crate::rejections::Why;
use certificate_check::Ledger;
use fraction_math::Ratio;
use report_items::ReportItem;
use row_values::{OutOfMemory, Query, Words};
use session_store::Instance;
use std::alloc::Global;

/// What the next item makes of a line.
#[derive(Clone, Copy, Debug, PartialEq, Eq)]
pub enum Outcome {
    /// It says that the line had too many rows.
    TooLarge,
    /// It tells the line's execution, and that is accepted.
    Accepted,
    TurnedDown(Why),
}

/// Whether a block is for this line, statement and execution.
fn is_for(line: u64, name: &Words, execution: u64, told: u64, named: &Words, number: u64) -> bool
    ensures { result ≡ is_for_execution line name.now execution told named.now number }
{
    told == line && (*named == *name && number == execution)
}

/// What the item makes of the line of this number, which would be the execution of this number of an instance of the
/// statement of this name. An accepted optimum is entered.
pub fn find(
    alloc: Global,
    ledger: &mut Ledger,
    line: u64,
    name: &Words,
    execution: u64,
    q: &Query,
    instance: &Instance,
    lambda: Ratio,
    item: Option<&ReportItem>,
) -> Result<Outcome, OutOfMemory>
    requires lambda { lambda.den ≤ lambda.num }
    requires sound { IsSoundStats q.now instance.now.stats }
    requires vector { IsSoundVector q.now instance.now.stats instance.now.at }
    requires entries { IsTrueLedger q.now instance.now.stats instance.now.statement ledger.old }
    ensures found { IfOk result (λ outcome. Finds (IsBlockJudged ledger.old instance.now.statement execution q.now
        (claim_of q.now instance.now.stats instance.now.at lambda)) line name.now execution
        (option_map (λ i. i.now) item.entry) (seen outcome ledger.new)) }
    ensures unchanged { result ≡ Ok Outcome.TooLarge → ledger.new ≡ ledger.old }
    ensures entries { IsTrueLedger q.now instance.now.stats instance.now.statement ledger.new }
    ensures others { (query : Statement) (numbers : Statistics) (other : ℕ) → other ≢ instance.now.statement
        → IsTrueLedger query numbers other ledger.old → IsTrueLedger query numbers other ledger.new }
{
    match item {
        None => Ok(Outcome::TurnedDown(Why::Block)),
        Some(ReportItem::Broken) => Ok(Outcome::TurnedDown(Why::Block)),
        Some(ReportItem::TooLarge { line: told }) => {
            if *told == line {
                Ok(Outcome::TooLarge)
            } else {
                Ok(Outcome::TurnedDown(Why::Block))
            }
        }
        Some(
            ReportItem::Block {
                line: told,
                name: named,
                number,
                plan,
                cost,
                cert,
            },
        ) => {
            if !is_for(line, name, execution, *told, named, *number) {
                return Ok(Outcome::TurnedDown(Why::Block));
            }
            let why = judge_block(
                alloc,
                ledger,
                execution,
                q,
                instance,
                lambda,
                plan.as_str(),
                cost.as_str(),
                cert.as_str(),
            )?;
            match why {
                None => Ok(Outcome::Accepted),
                Some(why) => Ok(Outcome::TurnedDown(why)),
            }
        }
    }
}
