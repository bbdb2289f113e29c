//! Laws of verdicts. Their promise is the clause; there is nothing to run.
ghost use Rattle.certificate_check.specs.Headline.{BoundLaw, LedgerLaw, OneVerdictLaw, OptimumLaw};

/// What is accepted beside a true ledger is a valid plan, with its cost, within the ratio of the least.
pub fn accepted_is_within_bound()
    ensures { BoundLaw }
{}

/// A true ledger stays true, whatever the verdict: an optimum that is entered has the least cost.
pub fn ledgers_stay_true()
    ensures { LedgerLaw }
{}

/// A plan of least cost with the tight table is accepted as an optimum: so is what an optimiser gives.
pub fn tight_optimum_is_accepted()
    ensures { OptimumLaw }
{}

/// A claim has one verdict.
pub fn a_claim_has_one_verdict()
    ensures { OneVerdictLaw }
{}
