//! Serving the lines of a script: each in its turn, its reply written as soon as the line was done.
//!
//! One line is read, its file fetched, the engine asked, and the reply put by one call. The first failure ends the
//! job. What was written is at each moment the report of a run over the lines so far.
ghost use Rattle.std.specs.Prelude.{◌≡◌, ◌≢◌, ◌≤◌, ◌<◌, ◌^◌, ◌+◌, ◌⊎◌, ◌||◌, ◌∷◌, [], ◌++◌, IfOk, IfErr, IsSome, OnOk};
ghost use Rattle.std.specs.Prelude.{map, length, ℕ, take, true, false, Some, None};
ghost use Rattle.std.specs.Option.{option_map};
ghost use Rattle.std.specs.Str.{IsUtf8};
ghost use Rattle.outside_model.specs.Causes.{Rose};
ghost use Rattle.outside_model.specs.Files.{Told, up_to};
ghost use Rattle.script_report.specs.Commands.{Says, reading_of};
ghost use Rattle.script_report.specs.Replies.{reply_text};
ghost use Rattle.session_model.specs.Run.{spoken_from, is_refusal};
ghost use Rattle.session_model.specs.State.{initial_state};
ghost use Rattle.session_model.specs.Step.{asks_for, file_of};
ghost use Rattle.session_model.specs.Session.{AreSettings};
ghost use Rattle.instance_cli.specs.Lines.{Answers, Reported, ReportedInPart};
ghost use Rattle.instance_cli.specs.Moments.{Moment};
ghost use Rattle.instance_cli.specs.Report.{IsMissed, Serves};

use crate::outcome::Status;
use join_optimizer::Optimizer;
use outside_io::{Fetched, Put, Shelf, Sink};
use outside_model::FILE_LIMIT;
use script_report::{Command, LineFault, Reply, read_line, reply_text};
use session_engine::{Engine, Settings};
use std::alloc::Global;

/// What became of the file that a line asks for.
#[derive(Clone, Copy, Debug, PartialEq, Eq)]
pub enum Found {
    File,
    Nothing,
    Failed,
    Memory,
}

/// Fetches the file that a command asks for.
pub fn fetch_for<F: Shelf>(
    alloc: Global,
    command: &Command,
    shelf: &mut F,
    into: &mut Vec<u8>,
) -> Found
    ensures files { F.files shelf.new ≡ F.files shelf.old }
    ensures file { result ≡ Found.File → Told (F.files shelf.old)
        (λ files. option_map (up_to FILE_LIMIT) (file_of files (Says command.now)) ≡ Some into.new.items) }
    ensures nothing { result ≡ Found.Nothing → Told (F.files shelf.old)
        (λ files. file_of files (Says command.now) ≡ None) }
    ensures missed { result ≡ Found.Nothing → IsMissed None (asks_for (Says command.now))
        (F.misses shelf.old) (F.misses shelf.new) }
    ensures failed { result ≡ Found.Failed → IsSome (asks_for (Says command.now)) }
    ensures faults { F.faults shelf.old ≤ F.faults shelf.new }
    ensures misses { F.misses shelf.old ≤ F.misses shelf.new }
    ensures cause { result ≡ Found.Failed → Rose (F.faults shelf.old) (F.faults shelf.new) }
{
    match command {
        Command::Load { table: _, file } => {
            match shelf.fetch(alloc, file.as_str(), FILE_LIMIT, into) {
                Fetched::Got => Found::File,
                Fetched::Missing => Found::Nothing,
                Fetched::Failed => Found::Failed,
                Fetched::Memory => Found::Memory,
            }
        }
        _ => Found::Nothing,
    }
}

/// The reply to a command, over its file.
fn command_reply<F: Shelf>(
    alloc: Global,
    engine: &mut Engine<Optimizer>,
    command: &Command,
    shelf: &mut F,
) -> Result<Reply, Status>
    requires { engine.old.steps < 2 ^ 50 }
    ensures files { F.files shelf.new ≡ F.files shelf.old }
    ensures counted { engine.new.steps ≤ engine.old.steps + 1 }
    ensures ok { IfOk result (λ reply. Serves (F.files shelf.old)
        (record { state = engine.old.state; misses = F.misses shelf.old }) (Says command.now) reply
        (record { state = engine.new.state; misses = F.misses shelf.new })) }
    ensures err { IfErr result (λ status. ((status ≡ Status.ReadFault) × IsSome (asks_for (Says command.now)))
        ⊎ (status ≡ Status.Memory)) }
    ensures faults { F.faults shelf.old ≤ F.faults shelf.new }
    ensures misses { F.misses shelf.old ≤ F.misses shelf.new }
    ensures cause { result ≡ Err Status.ReadFault → Rose (F.faults shelf.old) (F.faults shelf.new) }
{
    let mut bytes = Vec::new(alloc);
    let reply = match fetch_for(alloc, command, shelf, &mut bytes) {
        Found::File => engine.step(command, Some(bytes.as_slice())),
        Found::Nothing => engine.step(command, None),
        Found::Failed => return Err(Status::ReadFault),
        Found::Memory => return Err(Status::Memory),
    };
    match reply {
        Reply::Spent => Err(Status::Memory),
        reply => Ok(reply),
    }
}

/// The reply to a line, if it gets one.
fn reply_for<F: Shelf>(
    alloc: Global,
    engine: &mut Engine<Optimizer>,
    text: &str,
    shelf: &mut F,
) -> Result<Option<Reply>, Status>
    requires { engine.old.steps < 2 ^ 50 }
    ensures files { F.files shelf.new ≡ F.files shelf.old }
    ensures counted { engine.new.steps ≤ engine.old.steps + 1 }
    ensures ok { IfOk result (λ reply. Answers (F.files shelf.old)
        (record { state = engine.old.state; misses = F.misses shelf.old }) (reading_of text.now) reply
        (record { state = engine.new.state; misses = F.misses shelf.new })) }
    ensures err { IfErr result (λ status. ((status ≡ Status.ReadFault) × IsSome (asks_for (reading_of text.now)))
        ⊎ (status ≡ Status.Memory)) }
    ensures faults { F.faults shelf.old ≤ F.faults shelf.new }
    ensures misses { F.misses shelf.old ≤ F.misses shelf.new }
    ensures cause { result ≡ Err Status.ReadFault → Rose (F.faults shelf.old) (F.faults shelf.new) }
{
    match read_line(alloc, text) {
        Err(LineFault::Memory) => Err(Status::Memory),
        Err(LineFault::Syntax) => Ok(Some(engine.refuse_syntax())),
        Ok(None) => Ok(None),
        Ok(Some(command)) => match command_reply(alloc, engine, &command, shelf) {
            Err(status) => Err(status),
            Ok(reply) => Ok(Some(reply)),
        },
    }
}

/// Writes a reply by one put.
fn write_reply<K: Sink>(
    alloc: Global,
    number: u64,
    reply: &Reply,
    sink: &mut K,
) -> Result<(), Status>
    ensures ok { OnOk result (Told (K.taken sink.old)
        (λ bytes. K.taken sink.new ≡ Some (bytes ++ reply_text number reply.now))) }
    ensures text { OnOk result (IsUtf8 (reply_text number reply.now)) }
    ensures write { result ≡ Err Status.WriteFault → Told (K.taken sink.old)
        (λ bytes. (count : ℕ) × (K.taken sink.new ≡ Some (bytes ++ take count (reply_text number reply.now)))) }
    ensures memory { result ≡ Err Status.Memory → Told (K.taken sink.old) (λ bytes. K.taken sink.new ≡ Some bytes) }
    ensures err { IfErr result (λ status. (status ≡ Status.WriteFault) ⊎ (status ≡ Status.Memory)) }
    ensures faults { K.faults sink.old ≤ K.faults sink.new }
    ensures cause { result ≡ Err Status.WriteFault → Rose (K.faults sink.old) (K.faults sink.new) }
{
    match reply_text(alloc, number, reply) {
        Err(_) => Err(Status::Memory),
        Ok(text) => match sink.put(text.as_str().as_bytes()) {
            Put::Whole => Ok(()),
            Put::Failed => Err(Status::WriteFault),
            Put::Memory => Err(Status::Memory),
        },
    }
}

/// Whether the reply turns its line down.
fn is_refused(reply: &Reply) -> bool
    ensures { result ≡ is_refusal reply.now }
{
    match reply {
        Reply::Refused(_) => true,
        _ => false,
    }
}

/// Serves one line of this number, and tells whether it was refused.
fn serve_line<F: Shelf, K: Sink>(
    alloc: Global,
    engine: &mut Engine<Optimizer>,
    number: u64,
    text: &str,
    shelf: &mut F,
    sink: &mut K,
) -> Result<bool, Status>
    requires { engine.old.steps < 2 ^ 50 }
    ensures files { F.files shelf.new ≡ F.files shelf.old }
    ensures counted { engine.new.steps ≤ engine.old.steps + 1 }
    ensures ok { IfOk result (λ refused. Reported (F.files shelf.old) (K.taken sink.old) (K.taken sink.new)
        (record { state = engine.old.state; misses = F.misses shelf.old }) (spoken_from number (text.now ∷ []))
        (record { state = engine.new.state; misses = F.misses shelf.new }) refused) }
    ensures err { IfErr result (λ status. ReportedInPart (F.files shelf.old) (K.taken sink.old) (K.taken sink.new)
        (record { state = engine.old.state; misses = F.misses shelf.old }) (spoken_from number (text.now ∷ []))
        (F.misses shelf.new) status) }
    ensures faults { F.faults shelf.old ≤ F.faults shelf.new }
    ensures sink_faults { K.faults sink.old ≤ K.faults sink.new }
    ensures read_cause { result ≡ Err Status.ReadFault → Rose (F.faults shelf.old) (F.faults shelf.new) }
    ensures write_cause { result ≡ Err Status.WriteFault → Rose (K.faults sink.old) (K.faults sink.new) }
{
    match reply_for(alloc, engine, text, shelf) {
        Err(status) => Err(status),
        Ok(None) => Ok(false),
        Ok(Some(reply)) => match write_reply(alloc, number, &reply, sink) {
            Err(status) => Err(status),
            Ok(()) => Ok(is_refused(&reply)),
        },
    }
}

/// Whether one of the two holds.
fn either(a: bool, b: bool) -> bool
    ensures { result ≡ (a || b) }
{
    a || b
}

/// Serves the lines in order, from the first state, and tells whether one was refused.
pub fn serve_lines<F: Shelf, K: Sink>(
    alloc: Global,
    settings: Settings,
    lines: &[&str],
    shelf: &mut F,
    sink: &mut K,
) -> Result<bool, Status>
    requires settings { AreSettings settings }
    requires few { length lines.now < 2 ^ 50 }
    ensures files { F.files shelf.new ≡ F.files shelf.old }
    ensures ok { IfOk result (λ refused. (last : Moment) × (last.misses ≤ F.misses shelf.new)
        × Reported (F.files shelf.old) (K.taken sink.old) (K.taken sink.new)
        (record { state = initial_state settings; misses = F.misses shelf.old })
        (spoken_from 1 (map (λ line. line.now) lines.now)) last refused) }
    ensures err { IfErr result (λ status. ReportedInPart (F.files shelf.old) (K.taken sink.old) (K.taken sink.new)
        (record { state = initial_state settings; misses = F.misses shelf.old })
        (spoken_from 1 (map (λ line. line.now) lines.now)) (F.misses shelf.new) status) }
    ensures read_cause { result ≡ Err Status.ReadFault → Rose (F.faults shelf.old) (F.faults shelf.new) }
    ensures write_cause { result ≡ Err Status.WriteFault → Rose (K.faults sink.old) (K.faults sink.new) }
{
    let mut engine = Engine::new(alloc, settings, Optimizer::new());
    let mut refused = false;
    for (i, line) in lines.iter().enumerate() {
        match serve_line(alloc, &mut engine, i as u64 + 1, line, shelf, sink) {
            Err(status) => return Err(status),
            Ok(more) => refused = either(refused, more),
        }
    }
    Ok(refused)
}
