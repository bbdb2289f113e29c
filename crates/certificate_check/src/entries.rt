//! The entries of a ledger.
ghost use Rattle.std.specs.Prelude.{◌≡◌};
ghost use Rattle.std.specs.Option.{option_map};
ghost use Rattle.certificate_check.specs.Ledgers.{entry_of};

use plan_trees::Vector;

/// An execution that was accepted as an optimum: which one of which statement, its vector, and the least cost there.
#[derive(Clone, Copy, Debug)]
pub(crate) struct Entry {
    pub statement: u32,
    pub execution: u64,
    pub at: Vector,
    pub least: u128,
}

/// The entry of this execution of the statement.
pub(crate) fn find_entry(entries: &[Entry], statement: u32, execution: u64) -> Option<&Entry>
    ensures { option_map (λ entry. entry.now) result ≡ entry_of entries.now statement execution }
{
    entries.iter().find(|entry| entry.statement == statement && entry.execution == execution)
}
