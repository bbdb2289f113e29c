//! What the checker of certificates takes, for optima and for reuses.
ghost use Rattle.std.specs.Prelude.{◌≤◌};

use bound_certificate::Cert;
use certificate_check::{Ledger, Verdict};
use fraction_math::Ratio;
use join_optimizer::optimise;
use row_values::OutOfMemory;
use std::alloc::Global;
use worked_statements::Worked;

/// The number under which the ledger has the worked statement.
const STATEMENT: u32 = 1;

/// How often the optimum at the vector is accepted in so many rounds, each beside an empty ledger;
/// never where the vector isn't sound.
pub fn optima(alloc: Global, w: &Worked, q: &[u64], rounds: u64) -> Result<u64, OutOfMemory> {
    let Some(lambda) = Ratio::new(2, 1) else {
        return Ok(0);
    };
    if !w.takes(q) {
        return Ok(0);
    }
    let mut calls = 0;
    let best = optimise(alloc, &w.query, &w.stats, q, &mut calls)?;
    let cert = Cert::Optimum(best.potentials);
    let mut accepted: u64 = 0;
    for round in 0..rounds {
        let mut ledger = Ledger::new(alloc);
        let verdict = ledger.accept(
            STATEMENT, round, &w.query, &w.stats, q, lambda, &best.plan, best.cost, &cert,
        );
        if verdict == Verdict::Accepted {
            accepted = accepted.wrapping_add(1);
        }
    }
    Ok(accepted)
}

/// How often a reuse of the optimum at the vector is accepted there in so many rounds, by what its
/// certificate names: the optimum is execution 1.
pub fn reuses(
    alloc: Global,
    w: &Worked,
    q: &[u64],
    reuse: &Cert,
    rounds: u64,
) -> Result<u64, OutOfMemory> {
    let Some(lambda) = Ratio::new(2, 1) else {
        return Ok(0);
    };
    if !w.takes(q) {
        return Ok(0);
    }
    let mut calls = 0;
    let best = optimise(alloc, &w.query, &w.stats, q, &mut calls)?;
    let cert = Cert::Optimum(best.potentials);
    let mut ledger = Ledger::new(alloc);
    ledger.accept(
        STATEMENT, 1, &w.query, &w.stats, q, lambda, &best.plan, best.cost, &cert,
    );
    let mut accepted: u64 = 0;
    for round in 0..rounds {
        let verdict = ledger.accept(
            STATEMENT, round, &w.query, &w.stats, q, lambda, &best.plan, best.cost, reuse,
        );
        if verdict == Verdict::Accepted {
            accepted = accepted.wrapping_add(1);
        }
    }
    Ok(accepted)
}
