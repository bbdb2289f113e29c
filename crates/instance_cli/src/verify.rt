//! Verifying a report: the walk over the lines of a script with the items of the report, and the one line that is
//! written. It executes nothing. It can answer every status but 1, 2 and 10.
ghost use Rattle.std.specs.Prelude.{◌≡◌, ◌≤◌, ◌<◌, ◌+◌, ◌^◌, ◌∷◌, [], ◌⊎◌, IfErr, IfOk, OnOk, Ok, length, map};
ghost use Rattle.outside_model.specs.Causes.{Rose};
ghost use Rattle.report_items.specs.Items.{items_of};
ghost use Rattle.report_verifier.specs.Verification.{Verifies, Walks};
ghost use Rattle.script_report.specs.Commands.{Says};
ghost use Rattle.session_model.specs.Run.{spoken_from, spoken_lines};
ghost use Rattle.session_model.specs.Session.{AreSettings};
ghost use Rattle.instance_cli.specs.Halts.{Halted, HaltedAt, Tells, halt_of, status_by, verification_by};
ghost use Rattle.instance_cli.specs.Outsides.{outside_of};
ghost use Rattle.instance_cli.specs.Texts.{LacksText, OfText};
ghost use Rattle.instance_cli.specs.Verify.{TakesLine, TakesReading, VerifiesReport, VerifyPromise};
ghost use Rattle.instance_cli.specs.Verify.{walk_before};

use crate::outcome::Status;
use crate::serving::{Found, fetch_for};
use crate::texts::{fetch_within, split, text_in};
use outside_io::{Put, Shelf, Sink};
use outside_model::SCRIPT_LIMIT;
use report_items::{REPORT_LIMIT, ReportItem, read_report};
use report_verifier::{Rejection, Stop, Verification, Verifier, verification_text};
use script_report::{Command, LineFault, read_line};
use session_engine::Settings;
use std::alloc::Global;

/// Why the walk over the lines doesn't go on.
#[derive(Clone, Copy, Debug, PartialEq, Eq)]
pub enum Halt {
    /// The report is turned down at a line.
    Rejected(Rejection),
    /// The file of a line couldn't be read.
    ReadFault,
    /// Memory was short.
    Memory,
}

/// The same, of one step.
fn halted(stop: Stop) -> Halt
    ensures { result ≡ halt_of stop }
{
    match stop {
        Stop::Rejected(rejection) => Halt::Rejected(rejection),
        Stop::Memory => Halt::Memory,
    }
}

/// One step of the walk, over the file that the command asks for.
fn check_command<F: Shelf>(
    alloc: Global,
    verifier: &mut Verifier,
    number: u64,
    command: &Command,
    shelf: &mut F,
) -> Result<(), Halt>
    requires { verifier.old.catalog.versions < 2 ^ 62 }
    ensures ok { OnOk result (TakesReading (F.files shelf.old) (F.misses shelf.old) (F.misses shelf.new) verifier.old
        number (Says command.now) (Ok verifier.new)) }
    ensures versions { OnOk result (verifier.new.catalog.versions ≤ verifier.old.catalog.versions + 1) }
    ensures err { IfErr result (HaltedAt (F.files shelf.old) (F.misses shelf.old) (F.misses shelf.new)
        (F.faults shelf.old) (F.faults shelf.new) verifier.old number (Says command.now)) }
    ensures files { F.files shelf.new ≡ F.files shelf.old }
    ensures faults { F.faults shelf.old ≤ F.faults shelf.new }
    ensures misses { F.misses shelf.old ≤ F.misses shelf.new }
{
    let mut bytes = Vec::new(alloc);
    let checked = match fetch_for(alloc, command, shelf, &mut bytes) {
        Found::File => verifier.check(number, command, Some(bytes.as_slice())),
        Found::Nothing => verifier.check(number, command, None),
        Found::Failed => return Err(Halt::ReadFault),
        Found::Memory => return Err(Halt::Memory),
    };
    match checked {
        Ok(()) => Ok(()),
        Err(stop) => Err(halted(stop)),
    }
}

/// The walk over one line of this number.
fn check_line<F: Shelf>(
    alloc: Global,
    verifier: &mut Verifier,
    number: u64,
    text: &str,
    shelf: &mut F,
) -> Result<(), Halt>
    requires { verifier.old.catalog.versions < 2 ^ 62 }
    ensures ok { OnOk result (Walks (TakesLine (F.files shelf.old) (F.misses shelf.old) (F.misses shelf.new))
        verifier.old (spoken_from number (text.now ∷ [])) verifier.new) }
    ensures versions { OnOk result (verifier.new.catalog.versions ≤ verifier.old.catalog.versions + 1) }
    ensures err { IfErr result (Halted (TakesLine (F.files shelf.old) (F.misses shelf.old) (F.misses shelf.new))
        (F.faults shelf.old) (F.faults shelf.new) verifier.old (spoken_from number (text.now ∷ []))) }
    ensures files { F.files shelf.new ≡ F.files shelf.old }
    ensures faults { F.faults shelf.old ≤ F.faults shelf.new }
    ensures misses { F.misses shelf.old ≤ F.misses shelf.new }
{
    match read_line(alloc, text) {
        Err(LineFault::Memory) => Err(Halt::Memory),
        Err(LineFault::Syntax) => Ok(()),
        Ok(None) => Ok(()),
        Ok(Some(command)) => check_command(alloc, verifier, number, &command, shelf),
    }
}

/// The walk over the lines in order.
fn check_lines<F: Shelf>(
    alloc: Global,
    verifier: &mut Verifier,
    lines: &[&str],
    shelf: &mut F,
) -> Result<(), Halt>
    requires new { verifier.old.catalog.versions ≡ 0 }
    requires few { length lines.now < 2 ^ 50 }
    ensures ok { OnOk result (Walks (TakesLine (F.files shelf.old) (F.misses shelf.old) (F.misses shelf.new))
        verifier.old (spoken_from 1 (map (λ line. line.now) lines.now)) verifier.new) }
    ensures err { IfErr result (Halted (TakesLine (F.files shelf.old) (F.misses shelf.old) (F.misses shelf.new))
        (F.faults shelf.old) (F.faults shelf.new) verifier.old (spoken_from 1 (map (λ line. line.now) lines.now))) }
    ensures files { F.files shelf.new ≡ F.files shelf.old }
    ensures faults { F.faults shelf.old ≤ F.faults shelf.new }
    ensures misses { F.misses shelf.old ≤ F.misses shelf.new }
{
    for (i, line) in lines.iter().enumerate() {
        match check_line(alloc, verifier, i as u64 + 1, line, shelf) {
            Err(halt) => return Err(halt),
            Ok(()) => (),
        }
    }
    Ok(())
}

/// What a walk ends with that doesn't go on.
fn halted_by(halt: Halt) -> Result<Verification, Status>
    ensures { result ≡ verification_by halt }
{
    match halt {
        Halt::Rejected(rejection) => Ok(Verification::Rejected(rejection)),
        Halt::ReadFault => Err(Status::ReadFault),
        Halt::Memory => Err(Status::Memory),
    }
}

/// What the walk over a script of this text and these items ends with.
fn walk<F: Shelf>(
    alloc: Global,
    settings: Settings,
    script: &str,
    items: Vec<ReportItem>,
    shelf: &mut F,
) -> Result<Verification, Status>
    requires settings { AreSettings settings }
    requires short { length script.now ≤ SCRIPT_LIMIT }
    ensures ok { IfOk result (Verifies (TakesLine (F.files shelf.old) (F.misses shelf.old) (F.misses shelf.new))
        (walk_before settings items.items) (spoken_lines script.now)) }
    ensures err { IfErr result (λ status. ((status ≡ Status.ReadFault) × Rose (F.faults shelf.old) (F.faults shelf.new))
        ⊎ (status ≡ Status.Memory)) }
    ensures files { F.files shelf.new ≡ F.files shelf.old }
    ensures faults { F.faults shelf.old ≤ F.faults shelf.new }
    ensures misses { F.misses shelf.old ≤ F.misses shelf.new }
{
    let Ok(lines) = split(alloc, script) else {
        return Err(Status::Memory);
    };
    let mut verifier = Verifier::new(alloc, settings.lambda, settings.weights, items);
    match check_lines(alloc, &mut verifier, lines.as_slice(), shelf) {
        Ok(()) => Ok(verifier.finish()),
        Err(halt) => halted_by(halt),
    }
}

/// The items of the report of this name. Its bytes are given back before the walk begins.
fn fetch_items<F: Shelf>(
    alloc: Global,
    name: &str,
    shelf: &mut F,
) -> Result<Vec<ReportItem>, Status>
    ensures ok { IfOk result (λ items. OfText REPORT_LIMIT name.now (F.files shelf.old)
        (λ text. items.items ≡ items_of text)) }
    ensures err { IfErr result (LacksText REPORT_LIMIT name.now (F.files shelf.old) (F.faults shelf.old)
        (F.faults shelf.new) (F.misses shelf.old) (F.misses shelf.new)) }
    ensures files { F.files shelf.new ≡ F.files shelf.old }
    ensures faults { F.faults shelf.old ≤ F.faults shelf.new }
    ensures misses { F.misses shelf.old ≤ F.misses shelf.new }
{
    let bytes = match fetch_within(alloc, name, REPORT_LIMIT, shelf) {
        Err(status) => return Err(status),
        Ok(bytes) => bytes,
    };
    let Some(text) = text_in(bytes.as_slice()) else {
        return Err(Status::NotText);
    };
    match read_report(alloc, text) {
        Err(_) => Err(Status::Memory),
        Ok(items) => Ok(items),
    }
}

/// The status of a verification whose line was written.
fn status_of(verification: Verification) -> Status
    ensures { result ≡ status_by verification }
{
    match verification {
        Verification::Verified {
            executions: _,
            too_large: _,
        } => Status::Done,
        Verification::Rejected(_) => Status::Rejected,
    }
}

/// Writes the line that says what the walk ended with.
fn write_verification<K: Sink>(alloc: Global, verification: Verification, sink: &mut K) -> Status
    ensures { Tells verification (K.taken sink.old) (K.taken sink.new) (K.faults sink.old) (K.faults sink.new) result }
{
    let Ok(text) = verification_text(alloc, verification) else {
        return Status::Memory;
    };
    match sink.put(text.as_str().as_bytes()) {
        Put::Whole => status_of(verification),
        Put::Failed => Status::WriteFault,
        Put::Memory => Status::Memory,
    }
}

/// Verifies the report of this name as one of a run of a script of this text.
fn verify_text<F: Shelf, K: Sink>(
    alloc: Global,
    settings: Settings,
    script: &str,
    report: &str,
    shelf: &mut F,
    sink: &mut K,
) -> Status
    requires settings { AreSettings settings }
    requires short { length script.now ≤ SCRIPT_LIMIT }
    ensures { VerifiesReport settings script.now report.now
        (outside_of (F.files shelf.old) (K.taken sink.old)
        (F.faults shelf.old) (F.misses shelf.old) (K.faults sink.old))
        (outside_of (F.files shelf.new) (K.taken sink.new)
        (F.faults shelf.new) (F.misses shelf.new) (K.faults sink.new))
        result }
{
    let items = match fetch_items(alloc, report, shelf) {
        Err(status) => return status,
        Ok(items) => items,
    };
    match walk(alloc, settings, script, items, shelf) {
        Err(status) => status,
        Ok(verification) => write_verification(alloc, verification, sink),
    }
}

/// Verifies the report of this name as one of a run of the script of that name.
pub fn verify_report<F: Shelf, K: Sink>(
    alloc: Global,
    settings: Settings,
    script: &str,
    report: &str,
    shelf: &mut F,
    sink: &mut K,
) -> Status
    requires { AreSettings settings }
    ensures { VerifyPromise settings script.now report.now
        (outside_of (F.files shelf.old) (K.taken sink.old)
        (F.faults shelf.old) (F.misses shelf.old) (K.faults sink.old))
        (outside_of (F.files shelf.new) (K.taken sink.new)
        (F.faults shelf.new) (F.misses shelf.new) (K.faults sink.new))
        result }
{
    let bytes = match fetch_within(alloc, script, SCRIPT_LIMIT, shelf) {
        Err(status) => return status,
        Ok(bytes) => bytes,
    };
    let Some(text) = text_in(bytes.as_slice()) else {
        return Status::NotText;
    };
    verify_text(alloc, settings, text, report, shelf, sink)
}
