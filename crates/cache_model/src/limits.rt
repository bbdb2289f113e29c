//! How much one cache may hold.

/// The most anchors of a cache: each choice looks at all of them.
pub const ANCHOR_LIMIT: usize = 4096;
/// The most candidates of one choice that are costed again: so many places are kept for them.
pub const RECOST_LIMIT: usize = 64;
