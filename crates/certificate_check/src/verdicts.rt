//! What the checker answers.

/// The first fault of a claim, in this order, or that it is accepted. A fault of the table names the least set of
/// places with an inequality that fails, or 0 where the table hasn't one cell for each set.
#[derive(Clone, Copy, Debug, PartialEq, Eq)]
pub enum Verdict {
    BadPlan,
    BadCost,
    BadTable(u8),
    NotLeast,
    UnknownAnchor(u64),
    OverBound,
    Accepted,
    Memory,
}
