//! What is known of a statement over the present tables before its arguments come.
//!
//! A statement is wide where its tables are too large for the cost model; any other has statistics. A measure is made
//! as its statement is prepared, and again where a table that it reads is loaded or indexed; in between it is kept.
ghost use Rattle.std.specs.Prelude.{◌≡◌, ◌<◌, ◌++◌, [], ◌∷◌, All, IfOk, Some, length, slice_get};
ghost use Rattle.std.specs.Option.{option_map};
ghost use Rattle.row_values.specs.Statements.{Statement as Bound};
ghost use Rattle.csv_tables.specs.StatementTables.{AreTablesOf, rows_in};
ghost use Rattle.plan_trees.specs.Statistics.{AreWeights};
ghost use Rattle.statement_meaning.specs.Vectors.{vector_of};
ghost use Rattle.catalog_model.specs.Catalogs.{tables_of};
ghost use Rattle.catalog_model.specs.Sound.{IsLoaded};
ghost use Rattle.session_store.specs.Kept.{AreHeld, IsHeldAt, IsIndexed, contents_of, masks_in, put_held};
ghost use Rattle.session_store.specs.Measures.{measure_of, measure_over, measures_of};

use crate::held;
use crate::held::Held;
use crate::store::{Store, is_read};
use plan_trees::{Stats, Vector, Weights};
use row_values::{OutOfMemory, Place, Query, Value, Words};
use selectivity_counts::{CountFault, stats_with, vector};
use std::alloc::Global;

/// The statistics of a statement, or the first place at which it is wide.
#[derive(Debug, Drop)]
pub enum Measure {
    Narrow(Stats),
    Wide(u8),
}

impl Measure {
    /// The same a second time; what was counted is shared.
    fn copy(&self) -> Result<Measure, OutOfMemory>
        ensures { IfOk result (λ measure. measure ≡ self.now) }
    {
        match self {
            Measure::Narrow(stats) => Ok(Measure::Narrow(stats.clone()?)),
            Measure::Wide(place) => Ok(Measure::Wide(*place)),
        }
    }
}

/// The measure of a statement over what is held of its places' tables.
fn measure_held(
    alloc: Global,
    q: &Query,
    held: &[Held],
    weights: Weights,
) -> Result<Measure, OutOfMemory>
    requires tables { AreTablesOf q.now (contents_of held.now) }
    requires indexed { All IsIndexed held.now }
    requires weights { AreWeights weights }
    ensures { IfOk result (λ measure. measure
        ≡ measure_over q.now (rows_in (contents_of held.now)) (masks_in held.now) weights) }
{
    let tables = held::tables_of(alloc, held)?;
    let indexes = held::indexes_of(alloc, held)?;
    let distincts = held::distincts_of(alloc, held)?;
    match stats_with(
        alloc,
        q,
        tables.as_slice(),
        distincts.as_slice(),
        indexes.as_slice(),
        weights,
    ) {
        Ok(stats) => Ok(Measure::Narrow(stats)),
        Err(CountFault::Wide(place)) => Ok(Measure::Wide(place)),
        Err(CountFault::Memory) => Err(OutOfMemory),
    }
}

/// The same measures a second time.
fn copied(alloc: Global, measures: &[Measure]) -> Result<Vec<Measure>, OutOfMemory>
    ensures { IfOk result (λ copies. copies.items ≡ measures.now) }
{
    let mut copies = Vec::with_capacity(alloc, measures.len())?;
    for measure in measures {
        copies.push(measure.copy()?)?;
    }
    Ok(copies)
}

impl Store {
    /// How many statements there are.
    fn count(&self) -> u32
        ensures { result ≡ length self.now.catalog.statements }
    {
        self.statements.len() as u32
    }

    /// The measure that is kept of the statement of this number.
    pub(crate) fn kept_measure(&self, statement: u32) -> &Measure
        requires { statement < length self.now.catalog.statements }
        ensures { (q : Bound) → option_map (λ s. s.statement) (slice_get self.now.catalog.statements statement) ≡ Some q
            → result.now ≡ measure_of self.now.catalog.tables self.now.catalog.weights q }
    {
        &self.measures.as_slice()[statement as usize]
    }

    /// The measure of a statement over the present tables.
    fn measured(&self, q: &Query) -> Result<Measure, OutOfMemory>
        requires { All (IsLoaded self.now.catalog.tables) q.now.places }
        ensures { IfOk result (λ measure. measure ≡ measure_of self.now.catalog.tables self.now.catalog.weights q.now) }
    {
        let held = self.held_of(q.places())?;
        measure_held(self.alloc, q, held.as_slice(), self.weights)
    }

    /// The measures of the statements with this one behind them.
    pub(crate) fn measures_and(&self, q: &Query) -> Result<Vec<Measure>, OutOfMemory>
        requires { All (IsLoaded self.now.catalog.tables) q.now.places }
        ensures { IfOk result (λ measures. measures.items
            ≡ measures_of self.now.catalog.tables self.now.catalog.weights self.now.catalog.statements
            ++ measure_of self.now.catalog.tables self.now.catalog.weights q.now ∷ []) }
    {
        let mut measures = copied(self.alloc, self.measures.as_slice())?;
        measures.push(self.measured(q)?)?;
        Ok(measures)
    }

    /// What is held of the table of a place once this is held under this name.
    fn held_at(&self, place: &Place, name: &Words, new: &Held) -> Result<Held, OutOfMemory>
        requires { IsLoaded self.now.catalog.tables place.now }
        ensures { IfOk result (λ held. IsHeldAt (put_held self.now.catalog.tables name.now new.now) place.now held) }
    {
        if place.table == *name {
            new.sound();
            let held = new.clone()?;
            return Ok(held);
        }
        match self.tables.get(&place.table) {
            Some(held) => {
                held.sound();
                let held = held.clone()?;
                Ok(held)
            }
            None => unreachable!(),
        }
    }

    /// What is held of the tables of these places once this is held under this name.
    fn held_with(
        &self,
        places: &[Place],
        name: &Words,
        new: &Held,
    ) -> Result<Vec<Held>, OutOfMemory>
        requires { All (IsLoaded self.now.catalog.tables) places.now }
        ensures { IfOk result (λ held. AreHeld (put_held self.now.catalog.tables name.now new.now) places.now
            held.items) }
    {
        let mut held = Vec::with_capacity(self.alloc, places.len())?;
        for place in places {
            held.push(self.held_at(place, name, new)?)?;
        }
        Ok(held)
    }

    /// The measure of a statement once this is held under this name.
    fn measured_with(&self, q: &Query, name: &Words, new: &Held) -> Result<Measure, OutOfMemory>
        requires before { All (IsLoaded self.now.catalog.tables) q.now.places }
        requires after { All (IsLoaded (put_held self.now.catalog.tables name.now new.now)) q.now.places }
        ensures { IfOk result (λ measure. measure
            ≡ measure_of (put_held self.now.catalog.tables name.now new.now) self.now.catalog.weights q.now) }
    {
        let held = self.held_with(q.places(), name, new)?;
        measure_held(self.alloc, q, held.as_slice(), self.weights)
    }

    /// The measure of the statement of this number once this is held under this name: one that doesn't read the table
    /// keeps the one that it has.
    fn measure_after(
        &self,
        statement: u32,
        name: &Words,
        new: &Held,
    ) -> Result<Measure, OutOfMemory>
        requires there { statement < length self.now.catalog.statements }
        requires after { All (λ s. All (IsLoaded (put_held self.now.catalog.tables name.now new.now))
            s.statement.places) self.now.catalog.statements }
        ensures { (q : Bound) → option_map (λ s. s.statement) (slice_get self.now.catalog.statements statement) ≡ Some q
            → IfOk result (λ measure. measure
            ≡ measure_of (put_held self.now.catalog.tables name.now new.now) self.now.catalog.weights q) }
    {
        let q = self.query(statement);
        if is_read(name, q.places()) {
            let measure = self.measured_with(q, name, new)?;
            return Ok(measure);
        }
        let measure = self.kept_measure(statement).copy()?;
        Ok(measure)
    }

    /// The measures of the statements once this is held under this name.
    pub(crate) fn measures_with(
        &self,
        name: &Words,
        new: &Held,
    ) -> Result<Vec<Measure>, OutOfMemory>
        requires { All (λ s. All (IsLoaded (put_held self.now.catalog.tables name.now new.now)) s.statement.places)
            self.now.catalog.statements }
        ensures { IfOk result (λ measures. measures.items
            ≡ measures_of (put_held self.now.catalog.tables name.now new.now) self.now.catalog.weights
            self.now.catalog.statements) }
    {
        let mut measures = Vec::with_capacity(self.alloc, self.measures.len())?;
        for statement in 0..self.count() {
            measures.push(self.measure_after(statement, name, new)?)?;
        }
        Ok(measures)
    }

    /// The selectivity vector of a statement over the present tables.
    pub(crate) fn vector(&self, q: &Query, args: &[Value]) -> Result<Vector, OutOfMemory>
        requires { All (IsLoaded self.now.catalog.tables) q.now.places }
        ensures { IfOk result (λ at. at ≡ vector_of q.now (tables_of self.now.catalog.tables q.now) args.now) }
    {
        let held = self.held_of(q.places())?;
        let tables = held::tables_of(self.alloc, held.as_slice())?;
        let indexes = held::indexes_of(self.alloc, held.as_slice())?;
        Ok(vector(q, tables.as_slice(), indexes.as_slice(), args))
    }
}
