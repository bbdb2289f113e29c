//! Laws on the definitions, each the contract of a function that does nothing.
ghost use Rattle.session_model.specs.Laws.{FirstStateLaw, KeptLaw, ProgressLaw, RunLaw, WholeFileLaw};

/// The first state is that of a session.
pub fn first_state()
    ensures { FirstStateLaw }
{}

/// What every session has is kept by every step.
pub fn kept_by_every_step()
    ensures { KeptLaw }
{}

/// So each state that a run reaches has it.
pub fn kept_along_a_run()
    ensures { RunLaw }
{}

/// Progress: from each state of a session each line that isn't silent has a step, whatever its file holds. So a run
/// over the first lines of a script goes on to its end.
pub fn progress()
    ensures { ProgressLaw }
{}

/// A step over a file that was cut behind its limit is a step over the whole file.
pub fn whole_files()
    ensures { WholeFileLaw }
{}
