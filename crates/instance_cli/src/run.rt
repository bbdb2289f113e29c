//! Running a script: its bytes, its text, its lines. It can answer every status but 2, 9 and 10.
ghost use Rattle.std.specs.Prelude.{◌<◌, ◌^◌, length, map};
ghost use Rattle.instance_cli.specs.Bytes.{RunsBytes, RunsLines};
ghost use Rattle.session_model.specs.Session.{AreSettings};
ghost use Rattle.instance_cli.specs.Headline.{Headline};
ghost use Rattle.instance_cli.specs.Outsides.{outside_of};

use crate::outcome::Status;
use crate::serving::serve_lines;
use crate::texts::{split, unmarked};
use outside_io::{Fetched, Shelf, Sink};
use outside_model::SCRIPT_LIMIT;
use session_engine::Settings;
use std::alloc::Global;

/// Runs the lines of a script.
fn run_lines<F: Shelf, K: Sink>(
    alloc: Global,
    settings: Settings,
    lines: &[&str],
    shelf: &mut F,
    sink: &mut K,
) -> Status
    requires settings { AreSettings settings }
    requires few { length lines.now < 2 ^ 50 }
    ensures { RunsLines settings (map (λ line. line.now) lines.now)
        (outside_of (F.files shelf.old) (K.taken sink.old)
        (F.faults shelf.old) (F.misses shelf.old) (K.faults sink.old))
        (outside_of (F.files shelf.new) (K.taken sink.new)
        (F.faults shelf.new) (F.misses shelf.new) (K.faults sink.new))
        result }
{
    match serve_lines(alloc, settings, lines, shelf, sink) {
        Err(status) => status,
        Ok(true) => Status::DoneRefused,
        Ok(false) => Status::Done,
    }
}

/// Runs a script of these bytes.
fn run_bytes<F: Shelf, K: Sink>(
    alloc: Global,
    settings: Settings,
    bytes: &[u8],
    shelf: &mut F,
    sink: &mut K,
) -> Status
    requires { AreSettings settings }
    ensures { RunsBytes settings bytes.now
        (outside_of (F.files shelf.old) (K.taken sink.old)
        (F.faults shelf.old) (F.misses shelf.old) (K.faults sink.old))
        (outside_of (F.files shelf.new) (K.taken sink.new)
        (F.faults shelf.new) (F.misses shelf.new) (K.faults sink.new))
        result }
{
    if bytes.len() > SCRIPT_LIMIT {
        return Status::TooLong;
    }
    match str::from_utf8(unmarked(bytes)) {
        Err(_) => Status::NotText,
        Ok(text) => match split(alloc, text) {
            Err(_) => Status::Memory,
            Ok(lines) => run_lines(alloc, settings, lines.as_slice(), shelf, sink),
        },
    }
}

/// Runs the script of this name.
pub fn run_script<F: Shelf, K: Sink>(
    alloc: Global,
    settings: Settings,
    name: &str,
    shelf: &mut F,
    sink: &mut K,
) -> Status
    requires { AreSettings settings }
    ensures { Headline settings name.now
        (outside_of (F.files shelf.old) (K.taken sink.old)
        (F.faults shelf.old) (F.misses shelf.old) (K.faults sink.old))
        (outside_of (F.files shelf.new) (K.taken sink.new)
        (F.faults shelf.new) (F.misses shelf.new) (K.faults sink.new))
        result }
{
    let mut bytes = Vec::new(alloc);
    match shelf.fetch(alloc, name, SCRIPT_LIMIT, &mut bytes) {
        Fetched::Missing => Status::Missing,
        Fetched::Failed => Status::ReadFault,
        Fetched::Memory => Status::Memory,
        Fetched::Got => run_bytes(alloc, settings, bytes.as_slice(), shelf, sink),
    }
}
