//! Laws of the heads of a report. Their promise is the clause; there is nothing to run.
ghost use Rattle.report_items.specs.Written.{OpenedLaw, RanLaw, TooLargeLaw};

/// The head that is written of a run is read as what it says.
pub fn heads_of_runs_are_read()
    ensures { RanLaw }
{}

/// The head that is written of a cursor's opening is read as what it says.
pub fn heads_of_openings_are_read()
    ensures { OpenedLaw }
{}

/// The line that is written of too many rows is read as what it says.
pub fn lines_of_too_many_rows_are_read()
    ensures { TooLargeLaw }
{}
