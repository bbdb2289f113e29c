//! The ledger: what was accepted as an optimum, statement by statement.
//!
//! A reuse is judged by the optimum that it names, as it stands here: nothing of it is taken from the certificate.
ghost use Rattle.std.specs.Prelude.{ℕ, ◌≡◌, ◌≢◌, ◌≤◌, ◌++◌, ◌∷◌, ◌↔◌, [], IsTrue, OnErr, OnOk, length};
ghost use Rattle.row_values.specs.Statements.{Statement};
ghost use Rattle.plan_trees.specs.Statistics.{IsSoundStats, IsSoundVector, Statistics};
ghost use Rattle.plan_trees.specs.Trees.{top_tree};
ghost use Rattle.certificate_check.specs.Headline.{IsWithinBound};
ghost use Rattle.certificate_check.specs.Ledgers.{IsTrueLedger, ledger_after, without};
ghost use Rattle.certificate_check.specs.Verdicts.{IsVerdict, claim_of};
ghost use Rattle.certificate_check.specs.declared.verdicts.Verdict.TheVariants.{Accepted, Memory};

use crate::claims::verdict_on;
use crate::entries::Entry;
use crate::verdicts::Verdict;
use bound_certificate::Cert;
use fraction_math::Ratio;
use plan_trees::{Stats, Top, Vector};
use row_values::{OutOfMemory, Query, SELECTIVITY_LIMIT};
use std::alloc::Global;
use std::marker::Model;

/// The executions that were accepted as optima; contracts see the list of entries, the oldest first.
#[derive(Drop)]
pub struct Ledger {
    alloc: Global,
    entries: Vec<Entry>,
}

impl Model for Ledger {
    ghost use Rattle.std.specs.Prelude.{List};
    ghost use Rattle.certificate_check.specs.declared.entries.Entry.{Entry as AnEntry};

    ghost Value = { List AnEntry };

    ghost view = { λ ledger. ledger.entries.items };
}

/// Whether the claim is accepted.
fn is_accepted(verdict: Verdict) -> bool
    ensures { IsTrue result ↔ (verdict ≡ Accepted) }
{
    match verdict {
        Verdict::Accepted => true,
        _ => false,
    }
}

impl Ledger {
    /// Nothing was accepted yet. It takes no memory.
    pub fn new(alloc: Global) -> Ledger
        ensures { result ≡ [] }
    {
        Ledger {
            alloc,
            entries: Vec::new(alloc),
        }
    }

    /// The optima of the statement go: its tables have changed. It takes no memory.
    pub fn forget(&mut self, statement: u32)
        ensures value { self.new ≡ without self.old statement }

        // What stays is true of the statement, whatever its tables are now, and as true of others as it was.
        ensures forgotten { (query : Statement) (numbers : Statistics)
            → IsTrueLedger query numbers statement self.new }
        ensures others { (query : Statement) (numbers : Statistics) (other : ℕ)
            → IsTrueLedger query numbers other self.old → IsTrueLedger query numbers other self.new }
    {
        self.entries.retain(|entry| entry.statement != statement);
    }

    /// Enters an accepted optimum. After want of memory the ledger is as it was.
    fn enter(
        &mut self,
        statement: u32,
        execution: u64,
        s: &[u64],
        cost: u128,
    ) -> Result<(), OutOfMemory>
        requires few { length s.now ≤ SELECTIVITY_LIMIT }
        ensures entered { OnOk result (self.new
            ≡ self.old ++ record { statement = statement; execution = execution; at = s.now; least = cost } ∷ []) }
        ensures unchanged { OnErr result (self.new ≡ self.old) }
    {
        let Some(at) = Vector::of(s) else {
            unreachable!()
        };
        self.entries.push(Entry {
            statement,
            execution,
            at,
            least: cost,
        })?;
        Ok(())
    }

    /// The verdict on what is claimed of an execution: that the statement has this plan of this cost at the vector,
    /// which the certificate shows to be within the ratio of the least. An accepted optimum is entered; in every other
    /// case the ledger stays as it was.
    pub fn accept(
        &mut self,
        statement: u32,
        execution: u64,
        q: &Query,
        stats: &Stats,
        s: &[u64],
        lambda: Ratio,
        plan: &Top,
        cost: u128,
        cert: &Cert,
    ) -> Verdict
        requires lambda { lambda.den ≤ lambda.num }
        requires sound { IsSoundStats q.now stats.now }
        requires vector { IsSoundVector q.now stats.now s.now }
        requires entries { IsTrueLedger q.now stats.now statement self.old }
        ensures verdict { result ≢ Memory → IsVerdict self.old statement
            (claim_of q.now stats.now s.now lambda (top_tree plan.now) cost cert.now) result }
        ensures bound { result ≡ Accepted
            → IsWithinBound (claim_of q.now stats.now s.now lambda (top_tree plan.now) cost cert.now) }
        ensures ledger { self.new ≡ ledger_after self.old
            (record { statement = statement; execution = execution; at = s.now; least = cost }) cert.now result }
        ensures entries { IsTrueLedger q.now stats.now statement self.new }
        ensures others { (query : Statement) (numbers : Statistics) (other : ℕ) → other ≢ statement
            → IsTrueLedger query numbers other self.old → IsTrueLedger query numbers other self.new }
    {
        q.sound();
        let alloc = self.alloc;
        let verdict = verdict_on(
            alloc,
            self.entries.as_slice(),
            statement,
            q,
            stats,
            s,
            lambda,
            plan,
            cost,
            cert,
        );
        if !is_accepted(verdict) {
            return verdict;
        }
        match cert {
            Cert::Optimum(_) => match self.enter(statement, execution, s, cost) {
                Ok(()) => verdict,
                Err(_) => Verdict::Memory,
            },
            Cert::Selectivity(_) => verdict,
            Cert::Cost(_) => verdict,
        }
    }
}
