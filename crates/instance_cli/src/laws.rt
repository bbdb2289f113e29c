//! The laws of the job's promise, each the contract of a function that does nothing.
ghost use Rattle.instance_cli.specs.Laws.{AcceptedLaw, CompletenessLaw};

/// Where the files are told, the weights, the script and the report are there, within their limits and of their form,
/// and neither shelf nor sink fails, a job is done whole, or memory is short.
pub fn what_is_there_is_done()
    ensures { CompletenessLaw }
{}

/// What a run wrote is accepted, over the same files with the same lambda and weights.
pub fn what_a_run_wrote_is_accepted()
    ensures { AcceptedLaw }
{
    accepted_reports::laws::what_a_run_wrote_is_accepted();
}
