//! Statements of up to three places with statistics drawn by lot, the same at each run: what the tests try.
ghost use Rattle.std.specs.Prelude.{◌≤◌};

use plan_trees::Weights;
use row_values::{Operand, OutOfMemory, Pred, Query, Test};
use std::alloc::Global;
use worked_statements::{Numbers, Worked, at, statement, with_numbers};

/// What the numbers are drawn from: a linear congruential generator.
#[derive(Debug, Drop)]
struct Lot {
    state: u64,
}

impl Lot {
    /// A number from 1 to the limit.
    fn draw(&mut self, limit: u64) -> u64
        requires { 1 ≤ limit }
        ensures low { 1 ≤ result }
        ensures high { result ≤ limit }
    {
        self.state = self
            .state
            .wrapping_mul(6364136223846793005)
            .wrapping_add(1442695040888963407);
        (self.state >> 33) % limit + 1
    }
}

/// One of the statements that are tried: how many tables, joined in a ring or in a row, and whether the rows are
/// wanted in order, or in groups.
#[derive(Clone, Copy, Debug)]
pub(crate) struct Form {
    pub tables: u8,
    pub ring: bool,
    pub ordered: bool,
    pub grouped: bool,
}

/// The statement of this form, over the tables a, b and c of two columns.
fn query_of(alloc: Global, form: Form) -> Result<Option<Query>, OutOfMemory> {
    let columns = ["x", "y"];
    let tables = ["a", "b", "c"].map(|name| (name, columns.as_slice()));
    let equal = [
        (at(0, 0), at(1, 0)),
        (at(1, 1), at(2, 0)),
        (at(2, 1), at(0, 1)),
    ];
    let mut preds = Vec::new(alloc);
    preds.push(Pred {
        at: at(0, 0),
        test: Test::Lt(Operand::Param(0)),
    })?;
    let edges = match (form.tables, form.ring) {
        (1, _) => 0,
        (2, _) => 1,
        (_, false) => 2,
        (_, true) => 3,
    };
    let key = [at(form.tables.saturating_sub(1), 1)];
    let groups = usize::from(form.grouped);
    let order = usize::from(form.ordered);
    let count = usize::from(form.tables.min(3));
    statement(
        alloc,
        &tables[..count],
        preds,
        &equal[..edges],
        &key[..groups],
        &key[..order],
    )
}

/// Weights from 1 to 9.
fn weights(lot: &mut Lot) -> Weights {
    Weights {
        row: lot.draw(9) as u16,
        fetch: lot.draw(9) as u16,
        probe: lot.draw(9) as u16,
        hash: lot.draw(9) as u16,
        sort: lot.draw(9) as u16,
        out: lot.draw(9) as u16,
    }
}

/// The statement of this form with statistics that are drawn by this seed, and what its predicate leaves.
pub(crate) fn drawn(
    alloc: Global,
    form: Form,
    seed: u64,
) -> Result<Option<(Worked, u64)>, OutOfMemory> {
    let mut lot = Lot { state: seed };
    let Some(query) = query_of(alloc, form)? else {
        return Ok(None);
    };
    let count = usize::from(form.tables.min(3));
    let edges = query.edges().len().min(3);
    let rows = [lot.draw(1000), lot.draw(1000), lot.draw(1000)];
    let fixed = [lot.draw(rows[0]), lot.draw(rows[1]), lot.draw(rows[2])];
    let distinct = [lot.draw(1000), lot.draw(1000), lot.draw(1000)];
    let fans = [
        lot.draw(rows[0]),
        lot.draw(rows[0]),
        lot.draw(rows[1]),
        lot.draw(rows[1]),
        lot.draw(rows[2]),
        lot.draw(rows[2]),
    ];
    let masks = [lot.draw(4) - 1, lot.draw(4) - 1, lot.draw(4) - 1];
    let numbers = Numbers {
        rows: &rows[..count],
        fixed: &fixed[..count],
        matching: &[1],
        distinct: &distinct[..edges],
        fans: &fans[..2 * count],
        masks: &masks[..count],
        weights: weights(&mut lot),
    };
    let left = lot.draw(rows[0]);
    let Some(worked) = with_numbers(alloc, query, numbers)? else {
        return Ok(None);
    };
    Ok(Some((worked, left)))
}
