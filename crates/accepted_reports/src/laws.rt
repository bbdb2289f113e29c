//! The law of the reports of runs, the contract of a function that does nothing.
ghost use Rattle.accepted_reports.specs.Accepted.{AcceptedLaw};

/// The report of a run is verified, over the same script and files with the same lambda and weights.
pub fn what_a_run_wrote_is_accepted()
    ensures { AcceptedLaw }
{
    reported_items::laws::the_items_of_a_run();
}
