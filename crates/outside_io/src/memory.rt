//! Shelves and sinks in memory: their files, and the calls that fail, are set in advance.
//!
//! A name has one file at the most: `give` is the one place that adds one. Growth comes first, so a
//! call that lacks
//! memory leaves its object as it was. `SureShelf` and `SureSink` are the same without a call that
//! fails.

ghost use Rattle.std.specs.Prelude.{◌≡◌, ◌≢◌, ◌+◌, ◌<◌, ◌≤◌, ◌↔◌, []};
ghost use Rattle.std.specs.Prelude.{◌∷◌, ◌++◌, length, Some, OnOk, OnErr, IsTrue, take};
ghost use Rattle.std.specs.List.{position};
ghost use Rattle.std.specs.Option.{option_map};
ghost use Rattle.outside_model.specs.Files.{up_to};
ghost use Rattle.outside_io.specs.Calls.{Gives, Fetches, Puts, misses_after};
ghost use Rattle.outside_io.specs.Memory.{has_name, bytes_at, KeepsOthers};
ghost use Rattle.outside_io.specs.Memory.{takes_at, fails_at, after_fetch, PutsInMemory};

use crate::{Fetched, Put, Shelf, Sink};
use row_values::OutOfMemory;
use std::alloc::Global;
use std::marker::Model;

#[cfg(test)]
mod tests;

/// A file and its name.
#[derive(Debug, Drop)]
struct File {
    name: String,
    bytes: Vec<u8>,
}

impl Model for File {
    ghost use Rattle.std.specs.Prelude.{string_bytes};
    ghost use Rattle.outside_io.specs.Memory.{Named};

    ghost Value = { Named };

    ghost view = { λ f. record { name = string_bytes f.name; bytes = f.bytes.items } };
}

/// The bytes of the file of this name, where it is there.
fn bytes_of<'a>(files: &'a [File], name: &str) -> Option<&'a [u8]>
    ensures { option_map (λ bytes. bytes.now) result ≡ bytes_at files.now name.now }
{
    for file in files {
        if file.name.as_str() == name {
            return Some(file.bytes.as_slice());
        }
    }
    None
}

/// The position of the file of this name.
fn position_of(files: &[File], name: &str) -> Option<usize>
    ensures { result ≡ position (has_name name.now) files.now }
{
    files.iter().position(|file| file.name.as_str() == name)
}

/// Gives the name these bytes, in place of those before; after want of memory the files are as
/// before.
fn give(files: &mut Vec<File>, alloc: Global, name: &str, bytes: &[u8]) -> Result<(), OutOfMemory>
    ensures given { OnOk result (bytes_at files.new.items name.now ≡ Some bytes.now) }
    ensures others { KeepsOthers files.old.items files.new.items name.now }
    ensures unchanged { OnErr result (files.new.items ≡ files.old.items) }
{
    let file = File {
        name: String::from_str(alloc, name)?,
        bytes: Vec::from_slice(alloc, bytes)?,
    };
    match position_of(files.as_slice(), name) {
        Some(place) => files[place] = file,
        None => files.push(file)?,
    }
    Ok(())
}

/// The first bytes of a piece, or all where there are fewer.
fn first(bytes: &[u8], count: usize) -> &[u8]
    ensures { result.now ≡ take count bytes.now }
{
    if count < bytes.len() {
        &bytes[..count]
    } else {
        bytes
    }
}

/// Appends the first `limit + 1` of these bytes, or all where there are fewer; where memory is
/// short, none.
#[tactic(auto, unfolding(outside_model::specs::Files::up_to))]
fn copy_up_to(bytes: &[u8], limit: usize, into: &mut Vec<u8>) -> Result<(), OutOfMemory>
    requires { limit < usize.MAX }
    ensures ok { OnOk result (into.new.items ≡ into.old.items ++ up_to limit bytes.now) }
    ensures err { OnErr result (into.new.items ≡ into.old.items) }
    ensures long { length into.new.items ≤ length into.old.items + (limit + 1) }
{
    into.extend_from_slice(first(bytes, limit + 1))
}

/// Fetches a name from these files, which never fail.
fn fetch_from(files: &[File], name: &str, limit: usize, into: &mut Vec<u8>) -> Fetched
    requires { limit < usize.MAX }
    ensures gives { Gives (bytes_at files.now) name.now limit result into.new.items }
    ensures long { length into.new.items ≤ limit + 1 }
    ensures empty { result ≢ Fetched.Got → into.new.items ≡ [] }
    ensures never_fails { result ≢ Fetched.Failed }
{
    into.clear();
    let Some(bytes) = bytes_of(files, name) else {
        return Fetched::Missing;
    };
    match copy_up_to(bytes, limit, into) {
        Ok(()) => Fetched::Got,
        Err(_) => Fetched::Memory,
    }
}

/// Files in memory, and the fetches that are to fail, counted from 1.
#[derive(Debug, Drop)]
pub struct MemShelf {
    alloc: Global,
    files: Vec<File>,
    failing: Vec<u64>,
    calls: u64,
    faults: u64,
    misses: u64,
}

impl Model for MemShelf {
    ghost use Rattle.outside_io.specs.Memory.{ShelfInMemory};

    ghost Value = { ShelfInMemory };

    ghost view = { λ s. record {
      files = s.files.items;
      failing = s.failing.items;
      calls = s.calls;
      faults = s.faults;
      misses = s.misses;
    } };
}

impl MemShelf {
    /// A shelf without a file, none of whose fetches is to fail. It takes no memory.
    pub fn new(alloc: Global) -> MemShelf
        ensures { result ≡ record { files = []; failing = []; calls = 0; faults = 0; misses = 0 } }
    {
        MemShelf {
            alloc,
            files: Vec::new(alloc),
            failing: Vec::new(alloc),
            calls: 0,
            faults: 0,
            misses: 0,
        }
    }

    /// Gives the name these bytes, in place of those before; after want of memory the shelf is as
    /// before.
    pub fn put_file(&mut self, name: &str, bytes: &[u8]) -> Result<(), OutOfMemory>
        ensures given { OnOk result (bytes_at self.new.files name.now ≡ Some bytes.now) }
        ensures others { KeepsOthers self.old.files self.new.files name.now }
        ensures rest { self.new ≡ record self.old { files = self.new.files } }
        ensures unchanged { OnErr result (self.new ≡ self.old) }
    {
        give(&mut self.files, self.alloc, name, bytes)
    }

    /// Lets that fetch fail; after want of memory the shelf is as before.
    pub fn fail_at(&mut self, call: u64) -> Result<(), OutOfMemory>
        ensures ok { OnOk result (self.new ≡ record self.old { failing = self.old.failing ++ call ∷ [] }) }
        ensures unchanged { OnErr result (self.new ≡ self.old) }
    {
        self.failing.push(call)?;
        Ok(())
    }

    /// How many fetches were made.
    pub fn calls(&self) -> u64
        ensures { result ≡ self.now.calls }
    {
        self.calls
    }
}

impl Shelf for MemShelf {
    ghost use Rattle.std.specs.Prelude.{Some};
    ghost use Rattle.outside_io.specs.Memory.{bytes_at};

    ghost files = { λ s. Some (bytes_at s.files) };

    ghost faults = { λ s. s.faults };

    ghost misses = { λ s. s.misses };

    fn fetch(&mut self, alloc: Global, name: &str, limit: usize, into: &mut Vec<u8>) -> Fetched
        requires { limit < usize.MAX }
        ensures fetches { Fetches (Some (bytes_at self.old.files)) name.now limit
            self.old.faults self.new.faults self.old.misses self.new.misses result into.new.items }
        ensures files { self.new.files ≡ self.old.files }
        ensures fails { IsTrue (fails_at self.old.failing self.new.calls) ↔ (result ≡ Fetched.Failed) }
        ensures counted { self.new ≡ after_fetch self.old result }
    {
        self.calls = self.calls.saturating_add(1);
        if self.failing.as_slice().contains(&self.calls) {
            into.clear();
            self.faults = self.faults.saturating_add(1);
            return Fetched::Failed;
        }
        let fetched = fetch_from(self.files.as_slice(), name, limit, into);
        if fetched == Fetched::Missing {
            self.misses = self.misses.saturating_add(1);
        }
        fetched
    }
}

/// Files in memory, and no fetch that is to fail.
#[derive(Debug, Drop)]
pub struct SureShelf {
    alloc: Global,
    files: Vec<File>,
    misses: u64,
}

impl Model for SureShelf {
    ghost use Rattle.outside_io.specs.Memory.{SureFiles};

    ghost Value = { SureFiles };

    ghost view = { λ s. record { files = s.files.items; misses = s.misses } };
}

impl SureShelf {
    /// A shelf without a file. It takes no memory.
    pub fn new(alloc: Global) -> SureShelf
        ensures { result ≡ record { files = []; misses = 0 } }
    {
        SureShelf {
            alloc,
            files: Vec::new(alloc),
            misses: 0,
        }
    }

    /// Gives the name these bytes, in place of those before; after want of memory the shelf is as
    /// before.
    pub fn put_file(&mut self, name: &str, bytes: &[u8]) -> Result<(), OutOfMemory>
        ensures given { OnOk result (bytes_at self.new.files name.now ≡ Some bytes.now) }
        ensures others { KeepsOthers self.old.files self.new.files name.now }
        ensures rest { self.new ≡ record self.old { files = self.new.files } }
        ensures unchanged { OnErr result (self.new ≡ self.old) }
    {
        give(&mut self.files, self.alloc, name, bytes)
    }
}

impl Shelf for SureShelf {
    ghost use Rattle.std.specs.Prelude.{Some};
    ghost use Rattle.outside_io.specs.Memory.{bytes_at};

    ghost files = { λ s. Some (bytes_at s.files) };

    ghost faults = { λ s. 0 };

    ghost misses = { λ s. s.misses };

    fn fetch(&mut self, alloc: Global, name: &str, limit: usize, into: &mut Vec<u8>) -> Fetched
        requires { limit < usize.MAX }
        ensures fetches { Fetches (Some (bytes_at self.old.files)) name.now limit
            0 0 self.old.misses self.new.misses result into.new.items }
        ensures files { self.new.files ≡ self.old.files }
        ensures counted { self.new.misses ≡ misses_after self.old.misses result }
    {
        let fetched = fetch_from(self.files.as_slice(), name, limit, into);
        if fetched == Fetched::Missing {
            self.misses = self.misses.saturating_add(1);
        }
        fetched
    }
}

/// A put that is to fail, and how many bytes it takes before.
#[derive(Debug, Drop)]
struct FailingPut {
    call: u64,
    takes: usize,
}

/// How many bytes this put takes before it fails, where it is to fail.
fn takes_of(failing: &[FailingPut], call: u64) -> Option<usize>
    ensures { result ≡ takes_at failing.now call }
{
    for put in failing {
        if put.call == call {
            return Some(put.takes);
        }
    }
    None
}

/// Bytes in memory, and the puts that are to fail, counted from 1.
#[derive(Debug, Drop)]
pub struct MemSink {
    taken: Vec<u8>,
    failing: Vec<FailingPut>,
    calls: u64,
    faults: u64,
}

impl Model for MemSink {
    ghost use Rattle.outside_io.specs.Memory.{SinkInMemory};

    ghost Value = { SinkInMemory };

    ghost view = { λ s. record {
      taken = s.taken.items;
      failing = s.failing.items;
      calls = s.calls;
      faults = s.faults;
    } };
}

impl MemSink {
    /// A sink that has taken nothing, none of whose puts is to fail. It takes no memory.
    pub fn new(alloc: Global) -> MemSink
        ensures { result ≡ record { taken = []; failing = []; calls = 0; faults = 0 } }
    {
        MemSink {
            taken: Vec::new(alloc),
            failing: Vec::new(alloc),
            calls: 0,
            faults: 0,
        }
    }

    /// Lets that put fail after the first `takes` bytes of its piece, or after all where there are
    /// fewer. What is
    /// said last of a put counts. After want of memory the sink is as before.
    pub fn fail_at(&mut self, call: u64, takes: usize) -> Result<(), OutOfMemory>
        ensures ok { OnOk result (self.new ≡ record self.old {
          failing = record { call = call; takes = takes } ∷ self.old.failing;
        }) }
        ensures unchanged { OnErr result (self.new ≡ self.old) }
    {
        // In front of the earlier ones, since the first of a put is looked at.
        self.failing.insert(0, FailingPut { call, takes })?;
        Ok(())
    }

    /// What was taken, from the first put on.
    pub fn taken(&self) -> &[u8]
        ensures { result.now ≡ self.now.taken }
    {
        self.taken.as_slice()
    }
}

impl Sink for MemSink {
    ghost use Rattle.std.specs.Prelude.{Some};

    ghost taken = { λ s. Some s.taken };

    ghost faults = { λ s. s.faults };

    fn put(&mut self, bytes: &[u8]) -> Put
        ensures puts { Puts (Some self.old.taken) (Some self.new.taken)
            self.old.faults self.new.faults result bytes.now }
        ensures in_memory { PutsInMemory self.old self.new result bytes.now }
    {
        self.calls = self.calls.saturating_add(1);
        match takes_of(self.failing.as_slice(), self.calls) {
            None => match self.taken.extend_from_slice(bytes) {
                Ok(()) => Put::Whole,
                Err(_) => Put::Memory,
            },
            Some(count) => match self.taken.extend_from_slice(first(bytes, count)) {
                Ok(()) => {
                    self.faults = self.faults.saturating_add(1);
                    Put::Failed
                }
                Err(_) => Put::Memory,
            },
        }
    }
}

/// Bytes in memory, and no put that is to fail.
#[derive(Debug, Drop)]
pub struct SureSink {
    taken: Vec<u8>,
}

impl Model for SureSink {
    ghost use Rattle.std.specs.Prelude.{ℕ, List};

    ghost Value = { List ℕ };

    ghost view = { λ s. s.taken.items };
}

impl SureSink {
    /// A sink that has taken nothing. It takes no memory.
    pub fn new(alloc: Global) -> SureSink
        ensures { result ≡ [] }
    {
        SureSink {
            taken: Vec::new(alloc),
        }
    }

    /// What was taken, from the first put on.
    pub fn taken(&self) -> &[u8]
        ensures { result.now ≡ self.now }
    {
        self.taken.as_slice()
    }
}

impl Sink for SureSink {
    ghost use Rattle.std.specs.Prelude.{Some};

    ghost taken = { λ s. Some s };

    ghost faults = { λ s. 0 };

    fn put(&mut self, bytes: &[u8]) -> Put {
        match self.taken.extend_from_slice(bytes) {
            Ok(()) => Put::Whole,
            Err(_) => Put::Memory,
        }
    }
}
