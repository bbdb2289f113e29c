//! The demo: its script goes through a new engine, and its summary is written. It can answer 0, 5 and 6.
ghost use Rattle.instance_cli.specs.Jobs.{DemoPromise};
ghost use Rattle.instance_cli.specs.Outsides.{outside_of};
ghost use Rattle.session_model.specs.Session.{AreSettings};

use crate::outcome::Status;
use demo_run::run_demo;
use join_optimizer::Optimizer;
use outside_io::{Put, Shelf, Sink};
use session_engine::{Engine, Settings};
use std::alloc::Global;

/// Runs the demo of so many runs, and writes its summary. The shelf isn't asked.
pub fn write_demo<F: Shelf, K: Sink>(
    alloc: Global,
    settings: Settings,
    runs: u16,
    shelf: &F,
    sink: &mut K,
) -> Status
    requires { AreSettings settings }
    ensures { DemoPromise settings runs
        (outside_of (F.files shelf.now) (K.taken sink.old)
        (F.faults shelf.now) (F.misses shelf.now) (K.faults sink.old))
        (outside_of (F.files shelf.now) (K.taken sink.new)
        (F.faults shelf.now) (F.misses shelf.now) (K.faults sink.new))
        result }
{
    let mut engine = Engine::new(alloc, settings, Optimizer::new());
    let Ok(text) = run_demo(alloc, &mut engine, runs) else {
        return Status::Memory;
    };
    match sink.put(text.as_bytes()) {
        Put::Whole => Status::Done,
        Put::Failed => Status::WriteFault,
        Put::Memory => Status::Memory,
    }
}
