//! Laws of the verification of a report. Their promise is the clause; there is nothing to run.
ghost use Rattle.report_verifier.specs.Laws.{OneVerificationLaw, SoundnessLaw, WholeFileLaw};

/// Where a report is verified, each line that would be executed is matched by an item, in order, and
/// each execution that the report tells is by a valid plan, at its cost, within lambda times the
/// least.
pub fn verified_reports_are_within_the_bound()
    ensures { SoundnessLaw }
{}

/// A report has one verification.
pub fn a_report_has_one_verification()
    ensures { OneVerificationLaw }
{}

/// A file that was cut behind its limit makes the step of the whole one.
pub fn whole_files()
    ensures { WholeFileLaw }
{}
