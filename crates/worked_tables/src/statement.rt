//! A statement over its tables, with its indexes, arguments and statistics.
ghost use Rattle.std.specs.Prelude.{◌≡◌, IfOk, slice_get};
ghost use Rattle.std.specs.Option.{option_map};
ghost use Rattle.table_index.specs.StatementIndexes.{AreIndexesOf, indexes_in};
ghost use Rattle.csv_tables.specs.StatementTables.{AreTablesOf, tables_in};
ghost use Rattle.plan_trees.specs.PlanSpace.{IsValidTop};
ghost use Rattle.plan_trees.specs.Trees.{top_tree};
ghost use Rattle.row_values.specs.Sorting.{in_order};
ghost use Rattle.statement_meaning.specs.Combinations.{kept_combinations};
ghost use Rattle.statement_meaning.specs.Meaning.{is_lower};
ghost use Rattle.statement_meaning.specs.Vectors.{vector_of};

use crate::faults::WorkedFault;
use crate::plain::{are_in_order, count_all, try_all};
use csv_tables::Table;
use plan_operators::{Combos, ascending_keys, run_plan};
use plan_trees::{Indexed, Stats, Top, Vector, read_plan, valid};
use pull_operators::Pull;
use result_shape::{Pushed, Rows, Shaper, finish, row_text};
use row_values::{ColRef, PLACE_LIMIT, Pred, Query, Value};
use selectivity_counts::{count, stats, vector};
use std::alloc::Global;
use std::marker::Model;
use std::rc::Rc;
use table_index::{Index, index_of, indexes_over};
use worked_statements::USUAL;

/// More combinations than a worked example has.
const PULL_LIMIT: u32 = u32::MAX;

/// A statement over its tables, with indexes, arguments and statistics that are its own; contracts see what it asks.
#[derive(Debug, Drop)]
pub struct WorkedStatement {
    query: Query,
    tables: Vec<Rc<Table>>,
    indexes: Vec<Option<Rc<Index>>>,
    args: Vec<Value>,
    stats: Stats,
}

impl Model for WorkedStatement {
    ghost use Rattle.csv_tables.specs.StatementTables.{rows_in, tables_in};
    ghost use Rattle.worked_tables.specs.Fitting.{AreOfStatement, Posed};

    ghost Value = { Posed };

    ghost view = { λ s. record { statement = s.query; tables = rows_in (tables_in s.tables.items); args = s.args.items } };

    ghost invariant = { λ s. AreOfStatement s.query (tables_in s.tables.items) s.indexes.items s.stats };
}

/// How many rows meet a predicate: as all are tried, as they are counted, and as an index counts them.
#[derive(Clone, Copy, Debug, PartialEq, Eq)]
pub struct Counts {
    pub tried: u64,
    pub counted: u64,
    pub by_index: Option<u64>,
}

/// The plan that the text spells, if it is valid for the statement where these columns have an index.
fn read_valid(
    alloc: Global,
    q: &Query,
    indexed: &Indexed,
    plan: &str,
) -> Result<Rc<Top>, WorkedFault>
    ensures { IfOk result (λ top. IsValidTop q.now indexed.now (top_tree top.value)) }
{
    let top = read_plan(alloc, q, plan)?;
    if !valid(q, indexed, &top) {
        return Err(WorkedFault::NotAPlan);
    }
    Ok(top)
}

/// The table of a place, if there is one.
fn table_of(tables: &[Rc<Table>], place: u8) -> Option<&Table>
    ensures { option_map (λ table. table.now) result ≡ slice_get (tables_in tables.now) place }
{
    match tables.get(usize::from(place)) {
        Some(table) => Some(table),
        None => None,
    }
}

/// How many rows meet a predicate, by the index over its column, if there is one.
fn count_by_index(
    q: &Query,
    tables: &[Rc<Table>],
    indexes: &[Option<Rc<Index>>],
    args: &[Value],
    pred: &Pred,
) -> Option<u64>
    requires { AreIndexesOf q.now (tables_in tables.now) (indexes_in indexes.now) }
{
    let table = table_of(tables, pred.at.place)?;
    let index = index_of(q, indexes, pred.at.place, pred.at.column)?;
    Some(count(table, Some(index), pred, args))
}

impl WorkedStatement {
    /// The statement over these tables with indexes over the wanted columns.
    pub(crate) fn over(
        alloc: Global,
        query: Query,
        tables: Vec<Rc<Table>>,
        wanted: &[ColRef],
        args: Vec<Value>,
    ) -> Result<WorkedStatement, WorkedFault>
        requires { AreTablesOf query (tables_in tables.items) }
    {
        if tables.len() > PLACE_LIMIT {
            return Err(WorkedFault::NotAStatement);
        }
        let indexes = indexes_over(alloc, &tables, wanted)?;
        let stats = stats(alloc, &query, &tables, &indexes, USUAL)?;
        Ok(WorkedStatement {
            query,
            tables,
            indexes,
            args,
            stats,
        })
    }

    /// The combinations that the plan gives which the text spells.
    pub fn run(&self, alloc: Global, plan: &str) -> Result<Combos, WorkedFault>
        ensures { IfOk result (λ combos. in_order is_lower combos
            ≡ kept_combinations self.now.statement self.now.tables self.now.args) }
    {
        let plan = read_valid(alloc, &self.query, self.stats.indexed(), plan)?;
        let combos = run_plan(
            alloc,
            &self.query,
            &self.tables,
            &self.indexes,
            &self.args,
            &plan,
        )?;
        Ok(combos)
    }

    /// The plan which the text spells, to be pulled.
    pub fn pull(&self, alloc: Global, plan: &str) -> Result<Pull<'_>, WorkedFault>
        ensures { IfOk result (λ pull. in_order is_lower pull
            ≡ kept_combinations self.now.statement self.now.tables self.now.args) }
    {
        let plan = read_valid(alloc, &self.query, self.stats.indexed(), plan)?;
        let pull = Pull::begin(
            alloc,
            &self.query,
            &self.tables,
            &self.indexes,
            &self.args,
            &plan,
        )?;
        Ok(pull)
    }

    /// The first combinations, at most so many, that the plan gives when it is pulled which the text spells.
    pub fn pulled(&self, alloc: Global, plan: &str, most: usize) -> Result<Combos, WorkedFault> {
        let mut pull = self.pull(alloc, plan)?;
        let mut combos = Combos::new(alloc);
        for _ in 0..most {
            match pull.next()? {
                Some(combo) => combos.push(combo)?,
                None => return Ok(combos),
            }
        }
        Ok(combos)
    }

    /// The result rows of what the plan gives when it is pulled which the text spells: no list of it is made.
    pub fn pulled_rows(&self, alloc: Global, plan: &str) -> Result<Rows, WorkedFault> {
        let q = &self.query;
        let mut pull = self.pull(alloc, plan)?;
        let mut shaper = Shaper::begin(alloc, q, &self.tables)?;
        for _pushed in 0..PULL_LIMIT {
            let Some(combo) = pull.next()? else {
                return Ok(shaper.end(q)?);
            };
            match shaper.push(q, &combo)? {
                Pushed::More => {}
                Pushed::TooManyRows => return Err(WorkedFault::TooManyRows),
            }
        }
        Err(WorkedFault::TooManyRows)
    }

    /// The combinations that the statement keeps, in the order of FROM, found by trying all.
    pub fn tried(&self, alloc: Global) -> Result<Combos, WorkedFault> {
        Ok(try_all(alloc, &self.query, &self.tables, &self.args)?)
    }

    /// Whether these combinations stand in the order that the statement wants: that of its groups, or else of its keys.
    pub fn is_in_order(&self, alloc: Global, combos: &Combos) -> Result<bool, WorkedFault> {
        if self.query.groups().is_empty() {
            return Ok(are_in_order(&self.tables, self.query.order(), combos.as_slice()));
        }
        let keys = ascending_keys(alloc, self.query.groups())?;
        Ok(are_in_order(&self.tables, &keys, combos.as_slice()))
    }

    /// The result rows of these combinations.
    pub fn rows(&self, alloc: Global, combos: Combos) -> Result<Rows, WorkedFault> {
        Ok(finish(alloc, &self.query, &self.tables, combos)?)
    }

    /// The lines of these result rows, joined by `; `.
    pub fn lines_of(&self, alloc: Global, rows: &Rows) -> Result<String, WorkedFault> {
        let mut text = String::new(alloc);
        for i in 0..rows.len() {
            if i != 0 {
                text.push_str("; ")?;
            }
            text.push_str(row_text(alloc, &self.query, rows, i)?.as_str())?;
        }
        Ok(text)
    }

    /// The lines of the result rows that the plan gives which the text spells, joined by `; `.
    pub fn lines(&self, alloc: Global, plan: &str) -> Result<String, WorkedFault> {
        let combos = self.run(alloc, plan)?;
        let rows = self.rows(alloc, combos)?;
        self.lines_of(alloc, &rows)
    }

    /// The selectivity vector for the arguments.
    pub fn vector(&self) -> Vector
        ensures { result ≡ vector_of self.now.statement self.now.tables self.now.args }
    {
        vector(&self.query, &self.tables, &self.indexes, &self.args)
    }

    /// How many rows meet the predicate of this number, counted from 0, if there is one.
    pub fn counts(&self, pred: usize) -> Option<Counts> {
        let pred = self.query.preds().get(pred)?;
        let table = table_of(&self.tables, pred.at.place)?;
        Some(Counts {
            tried: count_all(&self.tables, &self.args, pred),
            counted: count(table, None, pred, &self.args),
            by_index: count_by_index(&self.query, &self.tables, &self.indexes, &self.args, pred),
        })
    }
}
