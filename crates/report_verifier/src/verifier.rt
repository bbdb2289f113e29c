//! The verifier: the walk's state, and its steps.
ghost use Rattle.std.specs.Prelude.{◌≡◌, ◌<◌, ◌≤◌, ◌+◌, ◌^◌, IfOk, IfSome, None, OnOk, Some};
ghost use Rattle.std.specs.Prelude.{length, option_map, slice_get};
ghost use Rattle.row_values.specs.Statements.{Statement};
ghost use Rattle.plan_trees.specs.Statistics.{AreWeights};
ghost use Rattle.catalog_model.specs.Held.{holding_refusal, without_cursor};
ghost use Rattle.catalog_model.specs.Indexing.{indexing_of};
ghost use Rattle.catalog_model.specs.Preparing.{preparing_of};
ghost use Rattle.script_report.specs.Commands.{Says};
ghost use Rattle.report_verifier.specs.Judging.{Checks, led};
ghost use Rattle.report_verifier.specs.Verification.{at_end};
ghost use Rattle.report_verifier.specs.Walk.{CommandStep, CursorStep, ExecutionStep, cursors_after, fetched};
ghost use Rattle.report_verifier.specs.Walk.{first_walk, indexed};
ghost use Rattle.report_verifier.specs.Walk.{prepared as prepared_in};

use crate::findings::{Outcome, find};
use crate::forgetting::forget_for;
use crate::rejections::{Rejection, Stop, Verification, Why};
use certificate_check::Ledger;
use fraction_math::Ratio;
use plan_trees::Weights;
use report_items::ReportItem;
use row_values::{OutOfMemory, Value, Words};
use script_report::Command;
use session_store::{Store, StoreFault};
use sql_parser::Select;
use std::alloc::Global;
use std::marker::Model;

/// The walk over a report's items; contracts see its state, in which the ledger is true of the tables and indexes as
/// they are.
#[derive(Drop)]
pub struct Verifier {
    alloc: Global,
    store: Store,
    /// How many statements there are.
    statements: u32,
    ledger: Ledger,
    executions: u64,
    too_large: u64,
    items: Vec<ReportItem>,
    /// How many items are done.
    position: usize,
    lambda: Ratio,
}

impl Model for Verifier {
    ghost use Rattle.report_verifier.specs.Kept.{IsKept, walk_of};
    ghost use Rattle.report_verifier.specs.Walk.{Walk};

    ghost Value = { Walk };

    ghost view = { λ v. walk_of v.store v.ledger v.executions v.too_large v.items.items v.position v.lambda };

    ghost invariant = { λ v.
        IsKept v.store v.statements v.ledger v.executions v.too_large v.items.items v.position v.lambda };
}

/// The item at this position, where there is one.
fn item_at(items: &[ReportItem], position: usize) -> Option<&ReportItem>
    ensures { option_map (λ item. item.now) result ≡ slice_get items.now position }
{
    items.get(position)
}

/// Opens a cursor of this name over the statement of this number, where there is one.
fn hold(store: &mut Store, cursor: Option<&Words>, statement: u32) -> Result<(), OutOfMemory>
    requires there { statement < length store.old.catalog.statements }
    requires allowed { IfSome cursor (λ c. holding_refusal store.old.cursors c.now ≡ None) }
    ensures held { OnOk result ((q : Statement)
        → option_map (λ s. s.statement) (slice_get store.old.catalog.statements statement) ≡ Some q
        → store.new.cursors ≡ cursors_after store.old.cursors store.old.catalog.tables
        (option_map (λ c. c.now) cursor.entry) q) }
    ensures catalog { store.new.catalog ≡ store.old.catalog }
{
    if let Some(cursor) = cursor {
        store.hold_cursor(cursor, statement)?;
    }
    Ok(())
}

impl Verifier {
    /// The walk's beginning, with the items of a report. It takes no memory.
    pub fn new(alloc: Global, lambda: Ratio, weights: Weights, items: Vec<ReportItem>) -> Verifier
        requires lambda { lambda.den ≤ lambda.num }
        requires weights { AreWeights weights }
        ensures { result ≡ first_walk lambda weights items.items }
    {
        Verifier {
            alloc,
            store: Store::new(alloc, weights),
            statements: 0,
            ledger: Ledger::new(alloc),
            executions: 0,
            too_large: 0,
            items,
            position: 0,
            lambda,
        }
    }

    /// `load T FILE`, with the file's bytes where it is there.
    fn load(&mut self, table: &Words, file: Option<&[u8]>) -> Result<(), OutOfMemory>
        requires { self.old.catalog.versions < 2 ^ 62 }
        ensures { OnOk result (self.new ≡ fetched self.old table.now (option_map (λ bytes. bytes.now) file.entry)) }
    {
        let Some(bytes) = file else {
            return Ok(());
        };
        match self.store.load(table, bytes) {
            Ok(_) => {
                forget_for(&self.store, self.statements, table, &mut self.ledger);
                Ok(())
            }
            Err(StoreFault::Refused(_)) => Ok(()),
            Err(StoreFault::Memory) => Err(OutOfMemory),
        }
    }

    /// `index T COL`.
    fn index(&mut self, table: &Words, column: &Words) -> Result<(), OutOfMemory>
        ensures { OnOk result (self.new
            ≡ indexed self.old table.now (indexing_of self.old.catalog table.now column.now)) }
    {
        match self.store.add_index(table, column) {
            Ok(()) => {
                forget_for(&self.store, self.statements, table, &mut self.ledger);
                Ok(())
            }
            Err(StoreFault::Refused(_)) => Ok(()),
            Err(StoreFault::Memory) => Err(OutOfMemory),
        }
    }

    /// `prepare NAME SELECT ..`.
    fn prepare(&mut self, name: &Words, select: &Select) -> Result<(), OutOfMemory>
        ensures { OnOk result (self.new
            ≡ prepared_in self.old name.now (preparing_of self.old.catalog name.now select.now)) }
    {
        match self.store.prepare(name, select) {
            Ok(_) => {
                self.statements += 1;
                Ok(())
            }
            Err(StoreFault::Refused(_)) => Ok(()),
            Err(StoreFault::Memory) => Err(OutOfMemory),
        }
    }

    /// A line that would be executed, and leave a cursor of this name open, where there is one: why the report is
    /// turned down there, if it is.
    fn execute(
        &mut self,
        line: u64,
        cursor: Option<&Words>,
        name: &Words,
        args: &[Value],
    ) -> Result<Option<Why>, OutOfMemory>
        requires { IfSome cursor (λ c. holding_refusal self.old.cursors c.now ≡ None) }
        ensures { IfOk result (λ why. ExecutionStep self.old line (option_map (λ c. c.now) cursor.entry) name.now
            args.now (led why self.new)) }
    {
        let instance = match self.store.instance(name, args) {
            Ok(instance) => instance,
            Err(StoreFault::Refused(_)) => return Ok(None),
            Err(StoreFault::Memory) => return Err(OutOfMemory),
        };
        let outcome = find(
            self.alloc,
            &mut self.ledger,
            line,
            name,
            self.executions + 1,
            self.store.query(instance.statement),
            &instance,
            self.lambda,
            item_at(self.items.as_slice(), self.position),
        )?;
        match outcome {
            Outcome::TurnedDown(why) => Ok(Some(why)),
            Outcome::TooLarge => {
                self.position += 1;
                self.too_large += 1;
                Ok(None)
            }
            Outcome::Accepted => {
                hold(&mut self.store, cursor, instance.statement)?;
                self.position += 1;
                self.executions += 1;
                Ok(None)
            }
        }
    }

    /// `cursor CUR NAME ARG*`: why the report is turned down there, if it is.
    fn open(
        &mut self,
        line: u64,
        cursor: &Words,
        name: &Words,
        args: &[Value],
    ) -> Result<Option<Why>, OutOfMemory>
        ensures { IfOk result (λ why. CursorStep self.old line cursor.now name.now args.now (led why self.new)) }
    {
        match self.store.may_hold(cursor) {
            Ok(()) => self.execute(line, Some(cursor), name, args),
            Err(StoreFault::Refused(_)) => Ok(None),
            Err(StoreFault::Memory) => Err(OutOfMemory),
        }
    }

    /// `close CUR`.
    fn close(&mut self, cursor: &Words)
        ensures { self.new ≡ record self.old { cursors = without_cursor cursor.now self.old.cursors } }
    {
        self.store.close_cursor(cursor);
    }

    /// The line of this number by its command: why the report is turned down there, if it is.
    fn dispatch(
        &mut self,
        line: u64,
        command: &Command,
        file: Option<&[u8]>,
    ) -> Result<Option<Why>, OutOfMemory>
        requires { self.old.catalog.versions < 2 ^ 62 }
        ensures { IfOk result (λ why. CommandStep self.old line command.now
            (option_map (λ bytes. bytes.now) file.entry) (led why self.new)) }
    {
        match command {
            Command::Load { table, file: _ } => self.load(table, file)?,
            Command::Index { table, column } => self.index(table, column)?,
            Command::Prepare { name, select } => self.prepare(name, select)?,
            Command::Run { name, args } => {
                return self.execute(line, None, name, args.as_slice());
            }
            Command::Cursor { cursor, name, args } => {
                return self.open(line, cursor, name, args.as_slice());
            }
            Command::Fetch { cursor: _, rows: _ } => (),
            Command::Close { cursor } => self.close(cursor),
            Command::Evict { name: _, plan: _ } => (),
            Command::Show { name: _ } => (),
        }
        Ok(None)
    }

    /// One step of the walk: the command of the line of this number, with the file that it asks for where that is
    /// there. It stops where the report is turned down, or memory is short.
    #[tactic(auto, unfolding(crate::specs::Walk::Step))]
    pub fn check(
        &mut self,
        number: u64,
        command: &Command,
        bytes: Option<&[u8]>,
    ) -> Result<(), Stop>
        requires { self.old.catalog.versions < 2 ^ 62 }
        ensures step { Checks self.old number (Says command.now) (option_map (λ file. file.now) bytes.entry) result
            self.new }
        ensures versions { OnOk result (self.new.catalog.versions ≤ self.old.catalog.versions + 1) }
    {
        match self.dispatch(number, command, bytes) {
            Ok(None) => Ok(()),
            Ok(Some(why)) => Err(Stop::Rejected(Rejection { line: number, why })),
            Err(_) => Err(Stop::Memory),
        }
    }

    /// The walk's end: no item may be left.
    pub fn finish(&self) -> Verification
        ensures { result ≡ at_end self.now }
    {
        if self.position < self.items.len() {
            return Verification::Rejected(Rejection {
                line: 0,
                why: Why::Block,
            });
        }
        Verification::Verified {
            executions: self.executions,
            too_large: self.too_large,
        }
    }
}
