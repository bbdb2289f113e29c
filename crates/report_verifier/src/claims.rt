//! Claims: what a block says of an execution, judged beside a ledger.
ghost use Rattle.std.specs.Prelude.{ℕ, List, ◌≡◌, ◌≢◌, ◌≤◌, ◌<◌, IfOk, length};
ghost use Rattle.row_values.specs.Statements.{Statement};
ghost use Rattle.plan_trees.specs.Statistics.{IsSoundStats, IsSoundVector, Statistics};
ghost use Rattle.plan_trees.specs.Trees.{top_tree};
ghost use Rattle.certificate_check.specs.Ledgers.{IsTrueLedger};
ghost use Rattle.certificate_check.specs.Verdicts.{claim_of};
ghost use Rattle.certificate_check.specs.declared.entries.Entry.{Entry};
ghost use Rattle.certificate_check.specs.declared.verdicts.Verdict.TheVariants.{Memory as ShortOfMemory};
ghost use Rattle.report_verifier.specs.Claims.{Follows, IsBlockJudged, IsJudged};
ghost use Rattle.report_verifier.specs.Judging.{told};

use crate::costs::cost_in;
use crate::rejections::Why;
use bound_certificate::{Cert, CertFault, from_text};
use certificate_check::{Ledger, Verdict};
use fraction_math::Ratio;
use plan_trees::{PlanFault, Top, read_plan};
use row_values::{OutOfMemory, Query};
use session_store::Instance;
use std::alloc::Global;

/// Why a claim with this verdict is turned down, if it is.
fn reason(verdict: Verdict) -> Result<Option<Why>, OutOfMemory>
    ensures { IfOk result (λ why. (ledger : List Entry) → Follows ledger verdict (told why ledger)) }
{
    match verdict {
        Verdict::Accepted => Ok(None),
        Verdict::BadPlan => Ok(Some(Why::BadPlan)),
        Verdict::BadCost => Ok(Some(Why::BadCost)),
        Verdict::BadTable(set) => Ok(Some(Why::BadTable(set))),
        Verdict::NotLeast => Ok(Some(Why::NotLeast)),
        Verdict::UnknownAnchor(execution) => Ok(Some(Why::UnknownAnchor(execution))),
        Verdict::OverBound => Ok(Some(Why::OverBound)),
        Verdict::Memory => Err(OutOfMemory),
    }
}

/// Why the claim of an execution is turned down, if it is. An accepted optimum is entered.
fn judge(
    ledger: &mut Ledger,
    execution: u64,
    q: &Query,
    instance: &Instance,
    lambda: Ratio,
    plan: &Top,
    cost: u128,
    cert: &Cert,
) -> Result<Option<Why>, OutOfMemory>
    requires lambda { lambda.den ≤ lambda.num }
    requires sound { IsSoundStats q.now instance.now.stats }
    requires vector { IsSoundVector q.now instance.now.stats instance.now.at }
    requires entries { IsTrueLedger q.now instance.now.stats instance.now.statement ledger.old }
    ensures judged { IfOk result (λ why. IsJudged ledger.old instance.now.statement execution
        (claim_of q.now instance.now.stats instance.now.at lambda (top_tree plan.now) cost cert.now)
        (told why ledger.new)) }
    ensures entries { IsTrueLedger q.now instance.now.stats instance.now.statement ledger.new }
    ensures others { (query : Statement) (numbers : Statistics) (other : ℕ) → other ≢ instance.now.statement
        → IsTrueLedger query numbers other ledger.old → IsTrueLedger query numbers other ledger.new }
{
    let verdict = ledger.accept(
        instance.statement,
        execution,
        q,
        &instance.stats,
        instance.at.as_slice(),
        lambda,
        plan,
        cost,
        cert,
    );
    reason(verdict)
}

/// Why a block with these texts is turned down, if it is. An accepted optimum is entered.
pub fn judge_block(
    alloc: Global,
    ledger: &mut Ledger,
    execution: u64,
    q: &Query,
    instance: &Instance,
    lambda: Ratio,
    plan: &str,
    cost: &str,
    cert: &str,
) -> Result<Option<Why>, OutOfMemory>
    requires lambda { lambda.den ≤ lambda.num }
    requires sound { IsSoundStats q.now instance.now.stats }
    requires vector { IsSoundVector q.now instance.now.stats instance.now.at }
    requires entries { IsTrueLedger q.now instance.now.stats instance.now.statement ledger.old }
    ensures judged { IfOk result (λ why. IsBlockJudged ledger.old instance.now.statement execution q.now
        (claim_of q.now instance.now.stats instance.now.at lambda) plan.now cost.now cert.now
        (told why ledger.new)) }
    ensures entries { IsTrueLedger q.now instance.now.stats instance.now.statement ledger.new }
    ensures others { (query : Statement) (numbers : Statistics) (other : ℕ) → other ≢ instance.now.statement
        → IsTrueLedger query numbers other ledger.old → IsTrueLedger query numbers other ledger.new }
{
    let plan = match read_plan(alloc, q, plan) {
        Ok(plan) => plan,
        Err(PlanFault::NotAPlan) => return Ok(Some(Why::BadPlan)),
        Err(PlanFault::Memory) => return Err(OutOfMemory),
    };
    let Some(cost) = cost_in(alloc, cost)? else {
        return Ok(Some(Why::BadCost));
    };
    let cert = match from_text(alloc, cert) {
        Ok(cert) => cert,
        Err(CertFault::NotACert) => return Ok(Some(Why::Block)),
        Err(CertFault::Memory) => return Err(OutOfMemory),
    };
    judge(ledger, execution, q, instance, lambda, &plan, cost, &cert)
}
