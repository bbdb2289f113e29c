//! Laws of the items of a report. Their promise is the clause; there is nothing to run.
ghost use Rattle.reported_items.specs.Reported.{ItemsLaw, OpenedLaw, OthersLaw, RanLaw, TooLargeLaw};
ghost use Rattle.reported_items.specs.RunItems.{RunItemsLaw};

/// The items of a report are those of its replies, one after the other.
pub fn items_of_a_report()
    ensures { ItemsLaw }
{}

/// A run is read as its execution's block, and as nothing more.
pub fn runs_are_read()
    ensures { RanLaw }
{}

/// The opening of a cursor is read as its execution's block, and as nothing more.
pub fn openings_are_read()
    ensures { OpenedLaw }
{}

/// A line that has too many rows is read as that.
pub fn too_many_rows_are_read()
    ensures { TooLargeLaw }
{}

/// What is told of a load, an index, a statement, a cursor's end or an eviction is no item.
pub fn other_replies_begin_no_item()
    ensures { OthersLaw }
{}

/// The report of a run tells its executions and the lines that had too many rows, in order, and nothing else.
pub fn the_items_of_a_run()
    ensures { RunItemsLaw }
{}
