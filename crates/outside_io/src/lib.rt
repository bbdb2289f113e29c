//! The outside: a shelf that gives files by name, and a sink that takes bytes.
//!
//! A shelf means its files, where it tells them, and two counts: of faults, and of misses. A sink
//! means what it has
//! taken, where it tells it, and a count of faults. No count falls, and a count that stands at 2^64
//! - 1 stays there.
//! A call answers that it failed, or that a file is missing, only where a count of these rose in
//! that very call: so
//! no body gives up by itself. The traits are the one way out; `memory` has bodies whose answers
//! are known in
//! advance, `host` those of the system, which tell no content.
#![tactic(auto)]

ghost use Rattle.std.specs.Prelude.{ℕ, ◌≡◌, ◌<◌, List};
ghost use Rattle.std.specs.declared.option.Option.{Option};
ghost use Rattle.outside_model.specs.Files.{Files};
ghost use Rattle.outside_io.specs.Calls.{Fetches, Puts};

use std::alloc::Global;

mod host;
mod memory;

pub use host::{FileShelf, OutSink};
pub use memory::{MemShelf, MemSink, SureShelf, SureSink};

/// How a fetch ended.
#[derive(Clone, Copy, Debug, PartialEq, Eq)]
pub enum Fetched {
    /// The file's first bytes are there.
    Got,
    /// There is no such file.
    Missing,
    /// The outside failed.
    Failed,
    /// Memory is short.
    Memory,
}

/// How a put ended.
#[derive(Clone, Copy, Debug, PartialEq, Eq)]
pub enum Put {
    /// All bytes were taken.
    Whole,
    /// The outside failed; the first bytes may have been taken.
    Failed,
    /// Memory is short; nothing was taken.
    Memory,
}

/// Where files stand.
pub trait Shelf {
    ghost files: { Self → Option Files };

    ghost faults: { Self → ℕ };

    ghost misses: { Self → ℕ };

    /// Puts into `into` the first `limit + 1` bytes of the file of this name, or all where there
    /// are fewer. After
    /// any answer but `Got` it is empty.
    fn fetch(&mut self, alloc: Global, name: &str, limit: usize, into: &mut Vec<u8>) -> Fetched
        requires { limit < usize.MAX }
        ensures fetches { Fetches (files self.old) name.now limit
            (faults self.old) (faults self.new) (misses self.old) (misses self.new) result into.new.items }
        ensures files { files self.new ≡ files self.old };
}

/// What takes bytes.
pub trait Sink {
    ghost taken: { Self → Option (List ℕ) };

    ghost faults: { Self → ℕ };

    /// Appends these bytes to what was taken. After `Failed` the first few of them may be there.
    fn put(&mut self, bytes: &[u8]) -> Put
        ensures { Puts (taken self.old) (taken self.new)
            (faults self.old) (faults self.new) result bytes.now };
}
