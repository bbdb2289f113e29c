//! Serving the lines of the demo: each in its turn, its reply counted as soon as the line was done.
//!
//! One line is read, its file looked up, and the engine asked. The counts are at each moment those
//! of a run over the lines so far. Want of memory ends it.
ghost use Rattle.std.specs.Prelude.{◌≡◌, ◌≤◌, ◌<◌, ◌^◌, ◌+◌, ◌∷◌, [], ◌++◌, IfOk, List, OnOk, ℕ, string_bytes};
ghost use Rattle.std.specs.Option.{option_map};
ghost use Rattle.demo_run.specs.Counting.{Answers, Counted};
ghost use Rattle.demo_run.specs.Demo.{StepOfLine, TellsDemo};
ghost use Rattle.demo_script.specs.Script.{demo_script, show_line};
ghost use Rattle.demo_script.specs.Tables.{demo_files};
ghost use Rattle.script_report.specs.Commands.{Says, reading_of};
ghost use Rattle.session_model.specs.State as session;
ghost use Rattle.session_model.specs.Step.{Step, file_of};

use demo_script::{Demo, Summary};
use plan_costs::Planner;
use row_values::{OutOfMemory, Words};
use script_report::{Command, LineFault, Reply, read_line};
use session_engine::Engine;
use std::alloc::Global;

/// The file that a command asks for.
fn file_for<'a>(demo: &'a Demo, command: &Command) -> Option<&'a [u8]>
    ensures { option_map (λ file. file.now) result ≡ file_of demo_files (Says command.now) }
{
    match command {
        Command::Load { table: _, file } => demo.file(file.as_str()),
        _ => None,
    }
}

/// The reply to a command, over its file.
fn command_reply<P: Planner>(
    engine: &mut Engine<P>,
    demo: &Demo,
    command: &Command,
) -> Result<Reply, OutOfMemory>
    requires { engine.old.steps < 2 ^ 50 }
    ensures counted { engine.new.steps ≤ engine.old.steps + 1 }
    ensures ok { IfOk result (λ reply. Step engine.old.state (Says command.now)
        (file_of demo_files (Says command.now)) reply engine.new.state) }
{
    match engine.step(command, file_for(demo, command)) {
        Reply::Spent => Err(OutOfMemory),
        reply => Ok(reply),
    }
}

/// The reply to a line, if it gets one.
fn line_reply<P: Planner>(
    alloc: Global,
    engine: &mut Engine<P>,
    demo: &Demo,
    line: &str,
) -> Result<Option<Reply>, OutOfMemory>
    requires { engine.old.steps < 2 ^ 50 }
    ensures counted { engine.new.steps ≤ engine.old.steps + 1 }
    ensures ok { IfOk result (λ reply. Answers engine.old.state (reading_of line.now) reply engine.new.state) }
{
    match read_line(alloc, line) {
        Err(LineFault::Memory) => Err(OutOfMemory),
        Err(LineFault::Syntax) => Ok(Some(engine.refuse_syntax())),
        Ok(None) => Ok(None),
        Ok(Some(command)) => match command_reply(engine, demo, &command) {
            Err(fault) => Err(fault),
            Ok(reply) => Ok(Some(reply)),
        },
    }
}

/// Serves a line and counts its reply: a run over some lines goes on by this one.
fn serve_line<P: Planner>(
    alloc: Global,
    engine: &mut Engine<P>,
    demo: &Demo,
    line: &str,
    summary: &mut Summary,
) -> Result<(), OutOfMemory>
    requires steps { engine.old.steps < 2 ^ 50 }
    requires executions { summary.old.executions < 2 ^ 63 }
    ensures counted { engine.new.steps ≤ engine.old.steps + 1 }
    ensures bound { summary.new.executions ≤ summary.old.executions + 1 }
    ensures ok { OnOk result ((first : session.State) (before : List (List ℕ))
        → Counted first before engine.old.state summary.old
        → Counted first (before ++ line.now ∷ []) engine.new.state summary.new) }
{
    match line_reply(alloc, engine, demo, line)? {
        Some(reply) => summary.count(&reply),
        None => {}
    }
    Ok(())
}

/// Serves the script from the first state.
fn serve_script<P: Planner>(
    alloc: Global,
    engine: &mut Engine<P>,
    demo: &Demo,
) -> Result<Summary, OutOfMemory>
    requires { engine.old.steps + demo.now < 2 ^ 32 }
    ensures counted { engine.new.steps ≤ engine.old.steps + demo.now + 8 }
    ensures ok { IfOk result (λ summary.
        Counted engine.old.state (demo_script demo.now) engine.new.state summary) }
{
    let mut summary = Summary::new();
    for line in demo.lines() {
        serve_line(alloc, engine, demo, line.as_str(), &mut summary)?;
    }
    Ok(summary)
}

/// The reply that shows what the cache holds.
fn show_reply<P: Planner>(
    alloc: Global,
    engine: &mut Engine<P>,
    demo: &Demo,
) -> Result<Reply, OutOfMemory>
    requires { engine.old.steps < 2 ^ 50 }
    ensures { IfOk result (λ reply. StepOfLine engine.old.state show_line reply engine.new.state) }
{
    let show = Command::Show {
        name: Words::of(alloc, "q")?,
    };
    let reply = command_reply(engine, demo, &show)?;
    Ok(reply)
}

/// Runs the demo with so many runs through a new engine, and tells its summary.
pub fn run_demo<P: Planner>(
    alloc: Global,
    engine: &mut Engine<P>,
    number: u16,
) -> Result<String, OutOfMemory>
    requires state { engine.old.state ≡ session.initial_state engine.old.state.settings }
    requires steps { engine.old.steps ≡ 0 }
    ensures { IfOk result (λ text. TellsDemo engine.old.state.settings number (string_bytes text)) }
{
    let demo = Demo::new(alloc, number)?;
    let summary = serve_script(alloc, engine, &demo)?;
    let shown = show_reply(alloc, engine, &demo)?;
    let text = summary.text(alloc, &shown)?;
    Ok(text)
}
