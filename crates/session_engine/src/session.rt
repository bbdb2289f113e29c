//! A session's state, and the step of each command.
ghost use Rattle.std.specs.Prelude.{◌≡◌, ◌<◌, ◌^◌, [], IfOk, OnErr, option_map, length};
ghost use Rattle.row_values.specs.Statements.{kinds_of};
ghost use Rattle.row_values.specs.Refusals.{refusal};
ghost use Rattle.session_model.specs.State.{holds_of, initial_state};
ghost use Rattle.session_model.specs.Session.{AreSettings};
ghost use Rattle.session_model.specs.Step.{CloseStep, CommandStep, CursorStep, EvictStep, FetchStep, IndexStep};
ghost use Rattle.session_model.specs.Step.{LoadStep};
ghost use Rattle.session_model.specs.Step.{PrepareStep, RunStep, ShowStep};
ghost use Rattle.session_engine.specs.Engines.{CountsOn, HasRoom, IsAsked, MayAsk};
ghost use Rattle.session_engine.specs.Numbered.{Numbers, NumbersCursor};

use crate::clearing::clear_for;
use crate::running::run;
use crate::showing::{shown_anchors, shown_plans};
use crate::waiting::Waiting;
use anchor_cache::Cache;
use plan_costs::Planner;
use plan_eviction::evict;
use row_values::{MISSING_FILE, OutOfMemory, Query, Refusal, Value, Words, canonical_name};
use script_report::{Command, Reply};
use session_model::Settings;
use session_store::{Store, StoreFault};
use sql_parser::Select;
use std::alloc::Global;
use std::marker::Model;

/// The catalog and the open cursors, the plan cache of each statement and the rows that wait in each cursor, both in the
/// store's order, the number of executions so far, and the settings; contracts see the session's state, in which each
/// cache is true of its statement.
#[derive(Drop)]
pub struct Session {
    alloc: Global,
    store: Store,
    caches: Vec<Cache>,
    waiting: Vec<Waiting>,
    executions: u64,
    settings: Settings,
}

impl Model for Session {
    ghost use Rattle.session_model.specs.State.{State};
    ghost use Rattle.session_engine.specs.Serving.{IsKeptWhole, session_in};
    ghost use Rattle.session_model.specs.Codes.{tree_code};
    ghost use Rattle.std.specs.Coded.{codes};

    ghost Value = { State };

    ghost coded = { Prim.hlevel (codes, tree_code) };

    ghost view = { λ s. session_in s.store s.caches.items s.waiting.items s.executions s.settings };

    ghost invariant = { λ s. IsKeptWhole s.store s.caches.items s.waiting.items s.executions s.settings };
}

/// The refusal that shows nothing.
pub fn refused(alloc: Global, code: u8) -> Reply
    ensures { result ≡ Reply.Refused (refusal code []) }
{
    Reply::Refused(Refusal::bare(alloc, code))
}

/// A statement that was prepared under this name.
fn prepared(name: Words, q: &Query) -> Reply
    ensures { result ≡ Reply.Prepared name (length q.now.places) (length q.now.preds)
        (length (kinds_of q.now.places q.now.preds)) }
{
    Reply::Prepared {
        name,
        tables: q.places().len() as u32,
        predicates: q.preds().len() as u32,
        parameters: q.kinds().len() as u32,
    }
}

impl Session {
    /// The first state. It takes no memory.
    pub fn new(alloc: Global, settings: Settings) -> Session
        requires { AreSettings settings }
        ensures { result ≡ initial_state settings }
    {
        Session {
            alloc,
            store: Store::new(alloc, settings.weights),
            caches: Vec::new(alloc),
            waiting: Vec::new(alloc),
            executions: 0,
            settings,
        }
    }

    /// `load T FILE`, with the file's bytes where it is there.
    fn load(&mut self, table: &Words, file: Option<&[u8]>) -> Result<Reply, OutOfMemory>
        requires { HasRoom self.old }
        ensures ok { IfOk result (λ reply. LoadStep self.old table.now
            (option_map (λ bytes. bytes.now) file.entry) reply self.new) }
        ensures err { OnErr result (self.new ≡ self.old) }
        ensures counts { CountsOn self.old self.new }
    {
        let Some(bytes) = file else {
            return Ok(refused(self.alloc, MISSING_FILE));
        };
        let shown = table.copy(self.alloc)?;
        match self.store.load(table, bytes) {
            Ok((rows, columns)) => {
                clear_for(&self.store, table, self.caches.as_mut_slice());
                Ok(Reply::Loaded {
                    table: shown,
                    rows,
                    columns,
                })
            }
            Err(StoreFault::Refused(why)) => Ok(Reply::Refused(why)),
            Err(StoreFault::Memory) => Err(OutOfMemory),
        }
    }

    /// `index T COL`.
    fn index(&mut self, table: &Words, column: &Words) -> Result<Reply, OutOfMemory>
        ensures ok { IfOk result (λ reply. IndexStep self.old table.now column.now reply self.new) }
        ensures err { OnErr result (self.new ≡ self.old) }
        ensures counts { CountsOn self.old self.new }
    {
        let indexed = Reply::Indexed {
            table: table.copy(self.alloc)?,
            column: column.copy(self.alloc)?,
        };
        match self.store.add_index(table, column) {
            Ok(()) => {
                clear_for(&self.store, table, self.caches.as_mut_slice());
                Ok(indexed)
            }
            Err(StoreFault::Refused(why)) => Ok(Reply::Refused(why)),
            Err(StoreFault::Memory) => Err(OutOfMemory),
        }
    }

    /// `prepare NAME SELECT ..`.
    fn prepare(&mut self, name: &Words, select: &Select) -> Result<Reply, OutOfMemory>
        ensures ok { IfOk result (λ reply. PrepareStep self.old name.now select.now reply self.new) }
        ensures err { OnErr result (self.new ≡ self.old) }
        ensures counts { CountsOn self.old self.new }
    {
        // That every statement in memory is one that the grammar gives, its readers pass on.
        let _ = select.items();
        let shown = name.copy(self.alloc)?;
        self.caches.reserve(1)?;
        match self.store.prepare(name, select) {
            Ok(statement) => {
                self.caches.push_reserved(Cache::new(self.alloc));
                Ok(prepared(shown, self.store.query(statement)))
            }
            Err(StoreFault::Refused(why)) => Ok(Reply::Refused(why)),
            Err(StoreFault::Memory) => Err(OutOfMemory),
        }
    }

    /// `run NAME ARG*`.
    fn run<P: Planner>(
        &mut self,
        planner: &mut P,
        name: &Words,
        args: &[Value],
    ) -> Result<Reply, OutOfMemory>
        requires room { HasRoom self.old }
        requires asks { P.asked planner.old < 2 ^ 63 }
        ensures ok { IfOk result (λ reply. RunStep self.old name.now args.now reply self.new) }
        ensures err { OnErr result (self.new ≡ self.old) }
        ensures counts { CountsOn self.old self.new }
        ensures asked { IfOk result (λ reply. IsAsked (P.asked planner.old) reply (P.asked planner.new)) }
        ensures may_ask { MayAsk (P.asked planner.old) (P.asked planner.new) }
    {
        let outcome = run(
            self.alloc,
            planner,
            self.settings,
            self.executions,
            &self.store,
            self.caches.as_mut_slice(),
            name,
            args,
        )?;
        match outcome {
            Err(why) => Ok(Reply::Refused(why)),
            Ok((execution, rows)) => {
                self.executions += 1;
                Ok(Reply::Ran { execution, rows })
            }
        }
    }

    /// `cursor CUR NAME ARG*`.
    fn cursor<P: Planner>(
        &mut self,
        planner: &mut P,
        cursor: &Words,
        name: &Words,
        args: &[Value],
    ) -> Result<Reply, OutOfMemory>
        requires room { HasRoom self.old }
        requires asks { P.asked planner.old < 2 ^ 63 }
        ensures ok { IfOk result (λ reply. CursorStep self.old cursor.now name.now args.now reply self.new) }
        ensures err { OnErr result (self.new ≡ self.old) }
        ensures counts { CountsOn self.old self.new }
        ensures asked { IfOk result (λ reply. IsAsked (P.asked planner.old) reply (P.asked planner.new)) }
        ensures may_ask { MayAsk (P.asked planner.old) (P.asked planner.new) }
    {
        match self.store.may_hold(cursor) {
            Ok(()) => {}
            Err(StoreFault::Refused(why)) => return Ok(Reply::Refused(why)),
            Err(StoreFault::Memory) => return Err(OutOfMemory),
        }
        let statement = match self.number_of(name)? {
            Ok(statement) => statement,
            Err(why) => return Ok(Reply::Refused(why)),
        };
        let shown = cursor.copy(self.alloc)?;
        self.waiting.reserve(1)?;
        // The store's growth comes before the cache changes; it is taken back where nothing is opened.
        self.store.hold_cursor(cursor, statement)?;
        let outcome = run(
            self.alloc,
            planner,
            self.settings,
            self.executions,
            &self.store,
            self.caches.as_mut_slice(),
            name,
            args,
        );
        match outcome {
            Ok(Ok((execution, rows))) => {
                self.executions += 1;
                self.waiting.push_reserved(Waiting::new(statement, rows));
                Ok(Reply::Opened {
                    cursor: shown,
                    execution,
                })
            }
            Ok(Err(why)) => {
                self.store.close_cursor(cursor);
                Ok(Reply::Refused(why))
            }
            Err(fault) => {
                self.store.close_cursor(cursor);
                Err(fault)
            }
        }
    }

    /// The number of the open cursor of this name; or the refusal, where there is none.
    fn cursor_number(&self, cursor: &Words) -> Result<Result<u32, Refusal>, OutOfMemory>
        ensures { IfOk result (λ found. NumbersCursor (holds_of self.now.cursors) cursor.now found) }
    {
        match self.store.cursor_number(cursor) {
            Some(number) => Ok(Ok(number)),
            None => {
                let shown = canonical_name(self.alloc, cursor.as_str())?;
                Ok(Err(Refusal::unknown_cursor(shown)))
            }
        }
    }

    /// `fetch CUR N`.
    fn fetch(&mut self, cursor: &Words, rows: u32) -> Result<Reply, OutOfMemory>
        ensures ok { IfOk result (λ reply. FetchStep self.old cursor.now rows reply self.new) }
        ensures err { OnErr result (self.new ≡ self.old) }
        ensures counts { CountsOn self.old self.new }
    {
        let number = match self.cursor_number(cursor)? {
            Ok(number) => number as usize,
            Err(why) => return Ok(Reply::Refused(why)),
        };
        let shown = cursor.copy(self.alloc)?;
        let count = rows as usize;
        let waiting = &mut self.waiting[number];
        let q = self.store.query(waiting.statement);
        let lines = waiting.first(self.alloc, q, count)?;
        waiting.skip(count);
        Ok(Reply::Fetched {
            cursor: shown,
            rows: lines,
            left: waiting.len() as u32,
        })
    }

    /// `close CUR`.
    fn close(&mut self, cursor: &Words) -> Result<Reply, OutOfMemory>
        ensures ok { IfOk result (λ reply. CloseStep self.old cursor.now reply self.new) }
        ensures err { OnErr result (self.new ≡ self.old) }
        ensures counts { CountsOn self.old self.new }
    {
        let number = match self.cursor_number(cursor)? {
            Ok(number) => number as usize,
            Err(why) => return Ok(Reply::Refused(why)),
        };
        let shown = cursor.copy(self.alloc)?;
        self.store.close_cursor(cursor);
        self.waiting.remove(number);
        Ok(Reply::Closed { cursor: shown })
    }

    /// The number of the statement of this name; or the refusal, where there is none.
    fn number_of(&self, name: &Words) -> Result<Result<u32, Refusal>, OutOfMemory>
        ensures { IfOk result (λ found. Numbers self.now.catalog.statements name.now found) }
    {
        match self.store.find(name) {
            Some(number) => Ok(Ok(number)),
            None => {
                let shown = canonical_name(self.alloc, name.as_str())?;
                Ok(Err(Refusal::unknown_statement(shown)))
            }
        }
    }

    /// `evict NAME PLAN`.
    fn evict(&mut self, name: &Words, plan: u64) -> Result<Reply, OutOfMemory>
        ensures ok { IfOk result (λ reply. EvictStep self.old name.now plan reply self.new) }
        ensures err { OnErr result (self.new ≡ self.old) }
        ensures counts { CountsOn self.old self.new }
    {
        let number = match self.number_of(name)? {
            Ok(number) => number,
            Err(why) => return Ok(Reply::Refused(why)),
        };
        let name = name.copy(self.alloc)?;
        let unknown = Refusal::unknown_plan(self.alloc, plan)?;
        let Some(anchors) = evict(&mut self.caches[number as usize], plan) else {
            return Ok(Reply::Refused(unknown));
        };
        Ok(Reply::Evicted {
            name,
            plan,
            anchors,
        })
    }

    /// `show NAME`.
    fn show(&self, name: &Words) -> Result<Reply, OutOfMemory>
        ensures { IfOk result (λ reply. ShowStep self.now name.now reply self.now) }
    {
        let number = match self.number_of(name)? {
            Ok(number) => number,
            Err(why) => return Ok(Reply::Refused(why)),
        };
        let q = self.store.query(number);
        let cache = &self.caches[number as usize];
        Ok(Reply::Shown {
            name: name.copy(self.alloc)?,
            plans: shown_plans(self.alloc, q, cache)?,
            anchors: shown_anchors(self.alloc, cache)?,
        })
    }

    /// The answer to a command, by its kind.
    pub fn dispatch<P: Planner>(
        &mut self,
        planner: &mut P,
        command: &Command,
        file: Option<&[u8]>,
    ) -> Result<Reply, OutOfMemory>
        requires room { HasRoom self.old }
        requires asks { P.asked planner.old < 2 ^ 63 }
        ensures ok { IfOk result (λ reply. CommandStep self.old command.now
            (option_map (λ bytes. bytes.now) file.entry) reply self.new) }
        ensures err { OnErr result (self.new ≡ self.old) }
        ensures counts { CountsOn self.old self.new }
        ensures asked { IfOk result (λ reply. IsAsked (P.asked planner.old) reply (P.asked planner.new)) }
        ensures may_ask { MayAsk (P.asked planner.old) (P.asked planner.new) }
    {
        match command {
            Command::Load { table, file: _ } => self.load(table, file),
            Command::Index { table, column } => self.index(table, column),
            Command::Prepare { name, select } => self.prepare(name, select),
            Command::Run { name, args } => self.run(planner, name, args.as_slice()),
            Command::Cursor { cursor, name, args } => {
                self.cursor(planner, cursor, name, args.as_slice())
            }
            Command::Fetch { cursor, rows } => self.fetch(cursor, *rows),
            Command::Close { cursor } => self.close(cursor),
            Command::Evict { name, plan } => self.evict(name, *plan),
            Command::Show { name } => self.show(name),
        }
    }
}
