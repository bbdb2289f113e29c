//! The plain way to a statement's combinations: all rows of all places are tried, in the order of FROM.
//!
//! Each predicate and each edge compares cells as soon as its places are in. No index, no hash and no packed column is
//! read, so that what operators give can be compared with it.
use csv_tables::Table;
use plan_operators::{Combo, Combos};
use row_tests::cell_in;
use row_values::{ColRef, Edge, Operand, OrderKey, OutOfMemory, Pred, Query, Test, Value, compare};
use std::alloc::Global;
use std::cmp::Ordering;
use std::rc::Rc;

/// The cell of a combination in a column, if it is there.
fn cell_of<'a>(tables: &'a [Rc<Table>], combo: &Combo, at: ColRef) -> Option<&'a Value> {
    let table = tables.get(usize::from(at.place))?;
    cell_in(table, combo.row(at.place) as usize, usize::from(at.column))
}

/// How a cell stands to an operand; none where one of them isn't there, or their kinds differ.
fn stands(cell: Option<&Value>, operand: &Operand, args: &[Value]) -> Option<Ordering> {
    match operand {
        Operand::Literal(value) => compare(cell?, value),
        Operand::Param(number) => compare(cell?, args.get(usize::from(*number))?),
    }
}

/// Whether a cell meets a test.
fn meets(test: &Test, cell: Option<&Value>, args: &[Value]) -> bool {
    match test {
        Test::Lt(a) => stands(cell, a, args).is_some_and(|order| order.is_lt()),
        Test::Le(a) => stands(cell, a, args).is_some_and(|order| order.is_le()),
        Test::Gt(a) => stands(cell, a, args).is_some_and(|order| order.is_gt()),
        Test::Ge(a) => stands(cell, a, args).is_some_and(|order| order.is_ge()),
        Test::Eq(a) => stands(cell, a, args).is_some_and(|order| order.is_eq()),
        Test::Between(a, b) => {
            stands(cell, a, args).is_some_and(|order| order.is_ge())
                && stands(cell, b, args).is_some_and(|order| order.is_le())
        }
        Test::OneOf(operands) => operands.as_slice().iter().any(|a| stands(
            cell, a, args,
        ).is_some_and(|order| order.is_eq())),
    }
}

/// Whether a combination meets a predicate.
fn holds(tables: &[Rc<Table>], args: &[Value], combo: &Combo, pred: &Pred) -> bool {
    meets(&pred.test, cell_of(tables, combo, pred.at), args)
}

/// Whether a combination meets an edge.
fn joins(tables: &[Rc<Table>], combo: &Combo, edge: &Edge) -> bool {
    match (
        cell_of(tables, combo, edge.left),
        cell_of(tables, combo, edge.right),
    ) {
        (Some(left), Some(right)) => compare(left, right) == Some(Ordering::Equal),
        _ => false,
    }
}

/// Whether a combination meets the predicates on this place, and the edges from it to a place before it.
fn is_kept(q: &Query, tables: &[Rc<Table>], args: &[Value], combo: &Combo, place: u8) -> bool {
    for pred in q.preds() {
        if pred.at.place == place && !holds(tables, args, combo, pred) {
            return false;
        }
    }
    for edge in q.edges() {
        if edge.left.place.max(edge.right.place) == place && !joins(tables, combo, edge) {
            return false;
        }
    }
    true
}

/// Those of these combinations with each row of one more place that are kept.
fn with_rows_of(
    alloc: Global,
    q: &Query,
    tables: &[Rc<Table>],
    args: &[Value],
    combos: &[Combo],
    place: u8,
) -> Result<Combos, OutOfMemory> {
    let mut kept = Combos::new(alloc);
    let Some(table) = tables.get(usize::from(place)) else {
        return Ok(kept);
    };
    for combo in combos {
        for row in 0..table.len() {
            let mut longer = *combo;
            longer.put(place, row as u32);
            if is_kept(q, tables, args, &longer, place) {
                kept.push(longer)?;
            }
        }
    }
    Ok(kept)
}

/// The combinations that a statement keeps, in the order of FROM.
pub(crate) fn try_all(
    alloc: Global,
    q: &Query,
    tables: &[Rc<Table>],
    args: &[Value],
) -> Result<Combos, OutOfMemory> {
    let mut kept = Combos::new(alloc);
    kept.push(Combo::zeros(q.places().len()))?;
    for place in 0..q.places().len() as u8 {
        kept = with_rows_of(alloc, q, tables, args, kept.as_slice(), place)?;
    }
    Ok(kept)
}

/// How many rows of its place meet a predicate.
pub(crate) fn count_all(tables: &[Rc<Table>], args: &[Value], pred: &Pred) -> u64 {
    let Some(table) = tables.get(usize::from(pred.at.place)) else {
        return 0;
    };
    let mut count = 0;
    for row in 0..table.len() {
        let cell = cell_in(table, row, usize::from(pred.at.column));
        if meets(&pred.test, cell, args) {
            count += 1;
        }
    }
    count
}

/// Whether one combination may stand before another by these keys.
fn may_precede(tables: &[Rc<Table>], order: &[OrderKey], first: &Combo, second: &Combo) -> bool {
    for key in order {
        let (low, high) = if key.descending {
            (second, first)
        } else {
            (first, second)
        };
        match (cell_of(tables, low, key.at), cell_of(tables, high, key.at)) {
            (Some(a), Some(b)) => match compare(a, b) {
                Some(Ordering::Less) => return true,
                Some(Ordering::Equal) => {}
                _ => return false,
            },
            _ => return false,
        }
    }
    true
}

/// Whether the combinations stand in the order of these keys.
pub(crate) fn are_in_order(tables: &[Rc<Table>], order: &[OrderKey], combos: &[Combo]) -> bool {
    match combos {
        [first, second, ..] => {
            may_precede(tables, order, first, second) && are_in_order(tables, order, &combos[1..])
        }
        _ => true,
    }
}
