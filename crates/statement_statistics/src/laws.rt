//! Laws of statistics. Their promise is the clause; there is nothing to run.
ghost use Rattle.statement_statistics.specs.Laws.{IndexedLaw, SameStatsLaw, SameVectorLaw, SameWidthLaw};
ghost use Rattle.statement_statistics.specs.Laws.{SoundStatsLaw, SoundVectorLaw, WideLaw};

/// Over tables within their limits the statistics of a sound statement that isn't wide are sound.
pub fn statistics_are_sound()
    ensures { SoundStatsLaw }
{}

/// The vector over the same tables is sound for them.
pub fn vector_is_sound()
    ensures { SoundVectorLaw }
{}

/// A statement is wide exactly where the product over all its places passes 2^63.
#[tactic(auto, using(crate::proofs::Widths::none_wide))]
pub fn wide_by_the_whole_product()
    ensures { WideLaw }
{}

/// Nothing but the rows of the statement's own places counts.
#[tactic(auto, using(crate::proofs::SameRows::same_width, crate::proofs::SameRows::same_vector))]
pub fn other_tables_do_not_count()
    ensures stats { SameStatsLaw }
    ensures wide { SameWidthLaw }
    ensures vector { SameVectorLaw }
{}

/// An index changes the masks alone.
pub fn an_index_changes_the_masks_alone()
    ensures { IndexedLaw }
{}
