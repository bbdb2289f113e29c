//! The shelf and the sink of the system: std's files, and a writer such as standard output.
//!
//! What the system gives and takes no clause can know. So each fault is an `Err` of std, and is
//! counted; a file that
//! isn't found is no fault but a miss. The loops are proved over every reader and writer that tells
//! its bytes.

ghost use Rattle.std.specs.Prelude.{◌≡◌, ◌≢◌, ◌+◌, ◌≤◌, ◌<◌, ◌↔◌, [], length, None, IfErr, OnErr, OnOk};
ghost use Rattle.std.specs.IoError.{error_kind};
ghost use Rattle.outside_model.specs.Files.{Told, up_to};
ghost use Rattle.outside_io.specs.Calls.{Fetches, Puts, TakesTold, faults_after, misses_after, faults_after_put};

use crate::{Fetched, Put, Shelf, Sink};
use std::alloc::Global;
use std::io::{ErrorKind, Read, Write};
use std::marker::Model;
use std::rt::Files;
use std::{fs, io};

#[cfg(test)]
mod tests;

/// The most bytes of one read.
const READ_SIZE: usize = 1 << 14;

/// The system's files, and how many fetches met a fault or found no file.
#[derive(Drop)]
pub struct FileShelf<R: Files> {
    rt: R,
    faults: u64,
    misses: u64,
}

impl<R: Files> Model for FileShelf<R> {
    ghost use Rattle.outside_io.specs.Host.{Counts};

    ghost Value = { Counts };

    ghost view = { λ s. record { faults = s.faults; misses = s.misses } };
}

impl<R: Files> FileShelf<R> {
    /// The files that this runtime reaches.
    pub fn new(rt: R) -> FileShelf<R>
        ensures { result ≡ record { faults = 0; misses = 0 } }
    {
        FileShelf {
            rt,
            faults: 0,
            misses: 0,
        }
    }
}

/// Reads until `limit + 1` bytes are there or a read gives none.
fn read_up_to<F: Read>(file: &mut F, limit: usize, into: &mut Vec<u8>) -> Fetched
    requires fits { limit < usize.MAX }
    requires empty { into.old.items ≡ [] }
    ensures got { result ≡ Fetched.Got →
        Told (F.remaining file.old) (λ bytes. into.new.items ≡ up_to limit bytes) }
    ensures long { length into.new.items ≤ limit + 1 }
    ensures there { result ≢ Fetched.Missing }
{
    let mut buffer = [0u8; READ_SIZE];
    while into.len() <= limit {
        let room = (limit - into.len() + 1).min(READ_SIZE);
        match file.read(&mut buffer[..room]) {
            Err(_) => return Fetched::Failed,
            Ok(0) => return Fetched::Got,
            Ok(count) => {
                if into.extend_from_slice(&buffer[..count]).is_err() {
                    return Fetched::Memory;
                }
            }
        }
    }
    Fetched::Got
}

/// What it means that a file can't be opened.
fn why_closed(fault: &io::Error) -> Fetched
    ensures missing { (result ≡ Fetched.Missing) ↔ (error_kind fault.now ≡ ErrorKind.NotFound) }
    ensures failed { result ≢ Fetched.Missing → result ≡ Fetched.Failed }
{
    if fault.kind() == ErrorKind::NotFound {
        Fetched::Missing
    } else {
        Fetched::Failed
    }
}

/// What is got of a file that was opened, or why there is none: the one place that decides what is missing.
fn fetch_opened<F: Read + Drop>(opened: io::Result<F>, limit: usize, into: &mut Vec<u8>) -> Fetched
    requires { limit < usize.MAX }
    ensures opened { OnOk opened (result ≢ Fetched.Missing) }
    ensures closed { IfErr opened (λ fault. (result ≡ Fetched.Missing) ↔ (error_kind fault ≡ ErrorKind.NotFound)) }
    ensures failed { OnErr opened (result ≢ Fetched.Missing → result ≡ Fetched.Failed) }
    ensures long { length into.new.items ≤ limit + 1 }
    ensures empty { result ≢ Fetched.Got → into.new.items ≡ [] }
{
    into.clear();
    let mut file = match opened {
        Ok(file) => file,
        Err(fault) => return why_closed(&fault),
    };
    let fetched = read_up_to(&mut file, limit, into);
    if fetched != Fetched::Got {
        into.clear();
    }
    fetched
}

impl<R: Files> Shelf for FileShelf<R> {
    ghost use Rattle.std.specs.Prelude.{None};

    ghost files = { λ s. None };

    ghost faults = { λ s. s.faults };

    ghost misses = { λ s. s.misses };

    fn fetch(&mut self, alloc: Global, name: &str, limit: usize, into: &mut Vec<u8>) -> Fetched
        requires { limit < usize.MAX }
        ensures fetches { Fetches None name.now limit
            self.old.faults self.new.faults self.old.misses self.new.misses result into.new.items }
        ensures faults { self.new.faults ≡ faults_after self.old.faults result }
        ensures misses { self.new.misses ≡ misses_after self.old.misses result }
    {
        let fetched = fetch_opened(fs::open(&self.rt, name), limit, into);
        match fetched {
            Fetched::Missing => self.misses = self.misses.saturating_add(1),
            Fetched::Failed => self.faults = self.faults.saturating_add(1),
            Fetched::Got | Fetched::Memory => {}
        }
        fetched
    }
}

/// A writer of the system, and how many puts met a fault.
#[derive(Drop)]
pub struct OutSink<W: Write> {
    out: W,
    faults: u64,
}

impl<W: Write> Model for OutSink<W> {
    ghost use Rattle.outside_io.specs.Host.{Written};

    ghost Value = { Written };

    ghost view = { λ s. record { taken = W.contents s.out; faults = s.faults } };
}

impl<W: Write> OutSink<W> {
    /// A sink over this writer, as that of standard output.
    pub fn new(out: W) -> OutSink<W>
        ensures { result ≡ record { taken = W.contents out; faults = 0 } }
    {
        OutSink { out, faults: 0 }
    }
}

/// Writes all bytes and flushes. A write that takes no byte is a fault: waiting for a better one
/// might not end.
fn write_whole<W: Write>(out: &mut W, bytes: &[u8]) -> Put
    ensures takes { TakesTold (W.contents out.old) (W.contents out.new) result bytes.now }
    ensures ends { result ≢ Put.Memory }
{
    let mut at = 0;
    while at < bytes.len() {
        match out.write(&bytes[at..]) {
            Ok(0) | Err(_) => return Put::Failed,
            Ok(count) => at += count,
        }
    }
    match out.flush() {
        Ok(()) => Put::Whole,
        Err(_) => Put::Failed,
    }
}

impl<W: Write> Sink for OutSink<W> {
    ghost taken = { λ s. s.taken };

    ghost faults = { λ s. s.faults };

    fn put(&mut self, bytes: &[u8]) -> Put
        ensures puts { Puts self.old.taken self.new.taken self.old.faults self.new.faults result bytes.now }
        ensures counted { self.new.faults ≡ faults_after_put self.old.faults result }
        ensures ends { result ≢ Put.Memory }
    {
        let put = write_whole(&mut self.out, bytes);
        if put == Put::Failed {
            self.faults = self.faults.saturating_add(1);
        }
        put
    }
}
