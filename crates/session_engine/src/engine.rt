//! The engine: a session's state, the planner that it asks, and the counts that bound it.
ghost use Rattle.std.specs.Prelude.{◌≡◌, ◌≢◌, ◌+◌, ◌<◌, ◌^◌, option_map, true, false, ℕ, List, Option};
ghost use Rattle.script_report.specs.Commands.{Bad, Says};
ghost use Rattle.session_model.specs.Session.{AreSettings};
ghost use Rattle.session_model.specs.State.{initial_state};
ghost use Rattle.session_model.specs.Step.{Step};
ghost use Rattle.session_engine.specs.Engines.{IsAsked, is_spent};

use crate::session::{Session, refused};
use plan_costs::Planner;
use row_values::SYNTAX;
use script_report::{Command, Reply};
use session_model::Settings;
use std::alloc::Global;
use std::marker::Model;

/// A session, the planner that finds its plans, how many steps it made, and whether memory was short at one of them.
#[derive(Drop)]
pub struct Engine<P: Planner> {
    alloc: Global,
    session: Session,
    planner: P,
    steps: u64,
    spent: bool,
}

impl<P: Planner> Model for Engine<P> {
    ghost use Rattle.session_engine.specs.Engines.{EngineState, IsCounted};
    ghost use Rattle.session_model.specs.Codes.{tree_code};
    ghost use Rattle.std.specs.Coded.{codes};

    ghost Value = { EngineState };

    ghost coded = { Prim.hlevel (codes, tree_code) };

    ghost view = { λ e. record {
      state = e.session;
      steps = e.steps;
      optimised = P.asked e.planner;
      spent = e.spent;
    } };

    ghost invariant = { λ e. IsCounted e.session (P.asked e.planner) e.steps };
}

impl<P: Planner> Engine<P> {
    /// The first state of a session, with a planner that was never asked. It takes no memory.
    pub fn new(alloc: Global, settings: Settings, planner: P) -> Engine<P>
        requires settings { AreSettings settings }
        requires planner { P.asked planner ≡ 0 }
        ensures { result ≡ record { state = initial_state settings; steps = 0; optimised = 0; spent = false } }
    {
        Engine {
            alloc,
            session: Session::new(alloc, settings),
            planner,
            steps: 0,
            spent: false,
        }
    }

    /// How many steps were made, refused ones too.
    pub fn steps(&self) -> u64
        ensures { result ≡ self.now.steps }
    {
        self.steps
    }

    /// How often the planner was asked for a plan.
    pub fn optimised(&self) -> u64
        ensures { result ≡ self.now.optimised }
    {
        self.planner.calls()
    }

    /// The answer to a line that is none of the language. It changes nothing and takes no memory.
    #[tactic(auto, unfolding(session_model::specs::Step::Step))]
    pub fn refuse_syntax(&self) -> Reply
        ensures { (file : Option (List ℕ)) → Step self.now.state Bad file result self.now.state }
    {
        refused(self.alloc, SYNTAX)
    }

    /// Answers a command, with the file that it asks for where that is there. `Spent` is the answer for want of memory,
    /// and to each later command.
    #[tactic(auto, unfolding(session_model::specs::Step::Step))]
    pub fn step(&mut self, c: &Command, bytes: Option<&[u8]>) -> Reply
        requires { self.old.steps < 2 ^ 50 }
        ensures step { result ≢ Reply.Spent → Step self.old.state (Says c.now)
            (option_map (λ file. file.now) bytes.entry) result self.new.state }
        ensures spent { self.new.spent ≡ is_spent result }
        ensures lasting { self.old.spent ≡ true → result ≡ Reply.Spent }
        ensures counted { self.new.steps ≡ self.old.steps + 1 }
        ensures optimised { IsAsked self.old.optimised result self.new.optimised }
    {
        self.steps += 1;
        if self.spent {
            return Reply::Spent;
        }
        match self.session.dispatch(&mut self.planner, c, bytes) {
            Err(_) => {
                self.spent = true;
                Reply::Spent
            }
            Ok(reply) => reply,
        }
    }
}
