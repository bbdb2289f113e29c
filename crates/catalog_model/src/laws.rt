//! Laws on the definitions, each the contract of a function that does nothing.
ghost use Rattle.catalog_model.specs.Laws.{CutFileLaw, IndexingLaw, LoadingLaw, MeasuredLaw, PreparingLaw};

/// A catalog stays sound as a table is loaded.
pub fn loading_keeps_soundness()
    ensures { LoadingLaw }
{}

/// A catalog stays sound as a column is indexed.
pub fn indexing_keeps_soundness()
    ensures { IndexingLaw }
{}

/// A catalog stays sound as a statement is prepared.
pub fn preparing_keeps_soundness()
    ensures { PreparingLaw }
{}

/// The statement of an instance is sound, and so are its statistics and its vector.
pub fn instances_are_measured()
    ensures { MeasuredLaw }
{}

/// A load of a file that was cut behind its limit is the load of the whole file.
pub fn cut_files_are_refused_alike()
    ensures { CutFileLaw }
{}
