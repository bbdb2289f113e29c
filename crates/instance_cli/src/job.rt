//! The whole job: the words, the weights, and what the words ask for.
ghost use Rattle.std.specs.Prelude.{◌≡◌, Some, map, string_bytes};
ghost use Rattle.command_words.specs.Jobs.{AreInBounds, IsJob};
ghost use Rattle.command_words.specs.Settings.{settings_of};
ghost use Rattle.command_words.specs.Views.{meaning, mode_view, options_view};
ghost use Rattle.plan_trees.specs.Statistics.{AreWeights};
ghost use Rattle.session_model.specs.Session.{AreSettings};
ghost use Rattle.instance_cli.specs.Jobs.{ModePromise, TopPromise, settings_with};
ghost use Rattle.instance_cli.specs.Outsides.{outside_of};

use crate::demo::write_demo;
use crate::outcome::Status;
use crate::run::run_script;
use crate::verify::verify_report;
use crate::weights::weights_for;
use command_words::{Job, Mode, Options, read_words};
use outside_io::{Shelf, Sink};
use plan_trees::Weights;
use session_engine::Settings;
use std::alloc::Global;

/// The settings that options mean, with these weights.
pub(crate) fn settings(options: &Options, weights: Weights) -> Settings
    requires options { AreInBounds (options_view options.now) }
    requires weights { AreWeights weights }
    ensures value { result ≡ settings_with (options_view options.now) weights }
    ensures within { AreSettings result }
{
    Settings {
        lambda: options.lambda,
        keep: options.keep,
        budget: options.budget,
        recosts: options.recosts,
        weights,
    }
}

/// What the words ask for is done, with these settings.
fn do_mode<F: Shelf, K: Sink>(
    alloc: Global,
    mode: &Mode,
    settings: Settings,
    shelf: &mut F,
    sink: &mut K,
) -> Status
    requires { AreSettings settings }
    ensures { ModePromise (mode_view mode.now) settings
        (outside_of (F.files shelf.old) (K.taken sink.old)
        (F.faults shelf.old) (F.misses shelf.old) (K.faults sink.old))
        (outside_of (F.files shelf.new) (K.taken sink.new)
        (F.faults shelf.new) (F.misses shelf.new) (K.faults sink.new))
        result }
{
    match mode {
        Mode::Run(script) => run_script(alloc, settings, script.as_str(), shelf, sink),
        Mode::Verify(script, report) => verify_report(
            alloc,
            settings,
            script.as_str(),
            report.as_str(),
            shelf,
            sink,
        ),
        Mode::Demo(runs) => write_demo(alloc, settings, *runs, shelf, sink),
    }
}

/// The job is done, where it has its weights.
fn do_job<F: Shelf, K: Sink>(alloc: Global, job: &Job, shelf: &mut F, sink: &mut K) -> Status
    requires { IsJob (meaning job.now) }
    ensures { TopPromise (Some (meaning job.now))
        (outside_of (F.files shelf.old) (K.taken sink.old)
        (F.faults shelf.old) (F.misses shelf.old) (K.faults sink.old))
        (outside_of (F.files shelf.new) (K.taken sink.new)
        (F.faults shelf.new) (F.misses shelf.new) (K.faults sink.new))
        result }
{
    match weights_for(alloc, &job.options.weights, shelf) {
        Err(status) => status,
        Ok(weights) => do_mode(
            alloc,
            &job.mode,
            settings(&job.options, weights),
            shelf,
            sink,
        ),
    }
}

/// The program's job over these words: what was written is what they ask for, the report of a run of a script, the
/// line that says what a report's verification ends with, or the demo's summary; and the status tells why the job ended.
pub fn scr<F: Shelf, K: Sink>(
    alloc: Global,
    words: &[String],
    shelf: &mut F,
    sink: &mut K,
) -> Status
    ensures { TopPromise (settings_of (map string_bytes words.now))
        (outside_of (F.files shelf.old) (K.taken sink.old)
        (F.faults shelf.old) (F.misses shelf.old) (K.faults sink.old))
        (outside_of (F.files shelf.new) (K.taken sink.new)
        (F.faults shelf.new) (F.misses shelf.new) (K.faults sink.new))
        result }
{
    match read_words(alloc, words) {
        Err(_) => Status::Memory,
        Ok(None) => Status::Usage,
        Ok(Some(job)) => do_job(alloc, &job, shelf, sink),
    }
}
