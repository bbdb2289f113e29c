//! Each verdict once, over worked statements. The numbers are worked out by hand, with the weights that the program
//! has by default: a row weighs 1, a fetched row 2, a descent's step 1, a hashed row 2, a comparison 1, a row out 1.
ghost use Rattle.certificate_check.specs.Ledgers.{IsTrueLedger};

use crate::{Ledger, Verdict};
use bound_certificate::Cert;
use fraction_math::Ratio;
use plan_costs::{Cell, Potentials};
use plan_trees::{Access, COST_SCALE, Plan, Top};
use row_values::OutOfMemory;
use std::alloc::Global;
use std::rc::Rc;
use std::test::Fail;
use worked_statements::{
    Numbers, USUAL, Worked, at, interesting_order, reuse_by_selectivity,
    smallest_pair_first_is_not_least, statement, with_numbers,
};

const STATEMENT: u32 = 3;

const RANGE: Access = Access::Range(0, 0, 0);

const HALF: u128 = COST_SCALE / 2;

/// What is told of an execution, beside its certificate.
#[derive(Clone, Copy)]
struct Told<'a> {
    execution: u64,
    at: &'a [u64],
    lambda: u64,
    plan: &'a Top,
    cost: u128,
}

/// The verdict on it beside the ledger; none where the vector isn't sound or lambda is no ratio.
fn verdict(ledger: &mut Ledger, w: &Worked, told: Told<'_>, cert: &Cert) -> Option<Verdict>
    requires { IsTrueLedger w.now.query w.now.stats STATEMENT ledger.old }
    ensures { IsTrueLedger w.now.query w.now.stats STATEMENT ledger.new }
{
    let lambda = Ratio::new(told.lambda, 1)?;
    if !w.takes(told.at) {
        return None;
    }
    Some(ledger.accept(
        STATEMENT,
        told.execution,
        &w.query,
        &w.stats,
        told.at,
        lambda,
        told.plan,
        told.cost,
        cert,
    ))
}

/// The verdict on it where nothing was accepted before.
fn first_verdict(alloc: Global, w: &Worked, told: Told<'_>, cert: &Cert) -> Option<Verdict> {
    let mut ledger = Ledger::new(alloc);
    verdict(&mut ledger, w, told, cert)
}

fn rows(alloc: Global, plan: Plan) -> Result<Top, OutOfMemory> {
    Ok(Top::Rows(Rc::new(alloc, plan)?))
}

/// An optimum with these cells, of plans in any order and in the wanted one.
fn optimum(
    alloc: Global,
    cells: &[(u128, Option<u128>)],
    least: u128,
) -> Result<Cert, OutOfMemory> {
    let mut list = Vec::new(alloc);
    for (any, sorted) in cells {
        list.push(Cell {
            any: *any,
            sorted: *sorted,
        })?;
    }
    Ok(Cert::Optimum(Potentials::of(list, least)))
}

/// The three rows of a table, without an index.
fn three_rows(alloc: Global) -> Result<Option<Worked>, OutOfMemory> {
    let tables = [("t", ["v"].as_slice())];
    let Some(query) = statement(alloc, &tables, Vec::new(alloc), &[], &[], &[])? else {
        return Ok(None);
    };
    let numbers = Numbers {
        rows: &[3],
        fixed: &[3],
        matching: &[],
        distinct: &[],
        fans: &[1],
        masks: &[0],
        weights: USUAL,
    };
    with_numbers(alloc, query, numbers)
}

#[test]
fn a_scan_of_three_rows(rt: HostRuntime) -> Result<(), Fail> {
    let alloc = rt.alloc();
    let w = three_rows(alloc)?.ok_or("not sound")?;
    let plan = rows(alloc, Plan::Base(Access::Seq(0)))?;
    let right = 3298534883328;
    let low = 3298534883327;
    let cases = [
        (
            "an unknown anchor",
            right,
            Cert::Selectivity(1),
            Verdict::UnknownAnchor(1),
        ),
        ("another", right, Cert::Cost(7), Verdict::UnknownAnchor(7)),
        (
            "a cost too low",
            low,
            optimum(alloc, &[(low, None)], low)?,
            Verdict::BadCost,
        ),
        (
            "a table too low",
            right,
            optimum(alloc, &[(low, None)], low)?,
            Verdict::NotLeast,
        ),
        (
            "a number that isn't the cost",
            right,
            optimum(alloc, &[(right, None)], low)?,
            Verdict::NotLeast,
        ),
        (
            "a number above the table",
            right,
            optimum(alloc, &[(low, None)], right)?,
            Verdict::NotLeast,
        ),
        (
            "a cell too high",
            right,
            optimum(alloc, &[(right + 1, None)], right)?,
            Verdict::BadTable(1),
        ),
        (
            "no cell",
            right,
            optimum(alloc, &[], right)?,
            Verdict::BadTable(0),
        ),
        (
            "two cells",
            right,
            optimum(alloc, &[(right, None), (right, None)], right)?,
            Verdict::BadTable(0),
        ),
        (
            "the least",
            right,
            optimum(alloc, &[(right, None)], right)?,
            Verdict::Accepted,
        ),
        (
            "a number for an order that isn't wanted",
            right,
            optimum(alloc, &[(right, Some(u128::MAX))], right)?,
            Verdict::Accepted,
        ),
    ];
    for (what, cost, cert, want) in &cases {
        let told = Told {
            execution: 1,
            at: &[],
            lambda: 1,
            plan: &plan,
            cost: *cost,
        };
        assert_eq!(rt; first_verdict(alloc, &w, told, cert), Some(*want), "{what}");
    }
    Ok(())
}

/// Places a and c by the index on c.y, then b by its index.
fn around(alloc: Global) -> Result<Top, OutOfMemory> {
    let first = Rc::new(alloc, Plan::Base(Access::Seq(0)))?;
    let two = Rc::new(alloc, Plan::Probe(first, 2, 1))?;
    rows(alloc, Plan::Probe(two, 1, 2))
}

#[test]
fn smallest_pair_first(rt: HostRuntime) -> Result<(), Fail> {
    let alloc = rt.alloc();
    let w = smallest_pair_first_is_not_least(alloc)?.ok_or("not sound")?;
    let plan = around(alloc)?;
    let cost = 387045272846336;
    // A scan each; of a and b a hash join, 8 + 1024 + 2 (8 + 1024) + 8; of a and c look-ups, 8 + 8 (11 + 4) + 16; of
    // b and c a hash join, 2048 + 4096 + 1024.
    let known = [8, 1024, 3104, 1024, 144, 7168];
    for raised in [0, 1, 2, 3, 4, 5, 6, 7] {
        let mut cells = Vec::new(alloc);
        for (before, number) in known.iter().enumerate() {
            let more = u128::from(before + 1 == raised);
            cells.push((number * COST_SCALE + more, None))?;
        }
        cells.push((cost + u128::from(raised == 7), None))?;
        let cert = optimum(alloc, cells.as_slice(), cost)?;
        let told = Told {
            execution: 1,
            at: &[],
            lambda: 2,
            plan: &plan,
            cost,
        };
        let want = if raised == 0 {
            Verdict::Accepted
        } else {
            Verdict::BadTable(raised as u8)
        };
        assert_eq!(rt;
            first_verdict(alloc, &w, told, &cert),
            Some(want),
            "{raised}"
        );
    }
    Ok(())
}

/// What is told of a range at so many rows; where s rows are met, it costs 10 + 2 s.
fn range_at<'a>(execution: u64, at: &'a [u64; 1], lambda: u64, plan: &'a Top) -> Told<'a> {
    Told {
        execution,
        at,
        lambda,
        plan,
        cost: (10 + 2 * u128::from(at[0])) * COST_SCALE,
    }
}

/// The verdict on a reuse of the range at so many rows, beside the optimum at 100, which is execution 1.
fn reuse_verdict(
    alloc: Global,
    w: &Worked,
    plan: &Top,
    rows_met: u64,
    lambda: u64,
    cert: &Cert,
) -> Result<Option<Verdict>, OutOfMemory> {
    let best = optimum(alloc, &[(210 * COST_SCALE, None)], 210 * COST_SCALE)?;
    let mut ledger = Ledger::new(alloc);
    if verdict(&mut ledger, w, range_at(1, &[100], 1, plan), &best) != Some(Verdict::Accepted) {
        return Ok(None);
    }
    Ok(verdict(&mut ledger, w, range_at(2, &[rows_met], lambda, plan), cert))
}

#[test]
fn reuses_of_a_range(rt: HostRuntime) -> Result<(), Fail> {
    let alloc = rt.alloc();
    let w = reuse_by_selectivity(alloc)?.ok_or("not sound")?;
    let plan = rows(alloc, Plan::Base(RANGE))?;
    let cases = [
        (
            "31500 against 42000",
            150,
            2,
            Cert::Selectivity(1),
            Verdict::Accepted,
        ),
        (
            "31500 against 21000",
            150,
            1,
            Cert::Selectivity(1),
            Verdict::OverBound,
        ),
        (
            "no optimum",
            150,
            2,
            Cert::Selectivity(2),
            Verdict::UnknownAnchor(2),
        ),
        ("410 against 420", 200, 2, Cert::Cost(1), Verdict::Accepted),
        (
            "42000 against 42000",
            200,
            2,
            Cert::Selectivity(1),
            Verdict::Accepted,
        ),
        ("510 against 420", 250, 2, Cert::Cost(1), Verdict::OverBound),
        (
            "52500 against 42000",
            250,
            2,
            Cert::Selectivity(1),
            Verdict::OverBound,
        ),
        ("1800 against 1680", 4, 2, Cert::Cost(1), Verdict::OverBound),
        (
            "no optimum either",
            200,
            2,
            Cert::Cost(5),
            Verdict::UnknownAnchor(5),
        ),
    ];
    for (what, rows_met, lambda, cert, want) in &cases {
        let found = reuse_verdict(alloc, &w, &plan, *rows_met, *lambda, cert)?;
        assert_eq!(rt; found, Some(*want), "{what}");
    }
    let full = rows(alloc, Plan::Base(Access::Full(0, 1)))?;
    assert_eq!(rt;
        first_verdict(alloc, &w, range_at(1, &[100], 2, &full), &Cert::Cost(1)),
        Some(Verdict::BadPlan),
        "a column without an index"
    );
    Ok(())
}

#[test]
fn optima_alone_are_entered(rt: HostRuntime) -> Result<(), Fail> {
    let alloc = rt.alloc();
    let w = reuse_by_selectivity(alloc)?.ok_or("not sound")?;
    let plan = rows(alloc, Plan::Base(RANGE))?;
    let best = optimum(alloc, &[(210 * COST_SCALE, None)], 210 * COST_SCALE)?;
    let mut ledger = Ledger::new(alloc);
    let entered = verdict(&mut ledger, &w, range_at(1, &[100], 2, &plan), &best);
    let reused = verdict(
        &mut ledger,
        &w,
        range_at(2, &[150], 2, &plan),
        &Cert::Selectivity(1),
    );
    let chained = verdict(
        &mut ledger,
        &w,
        range_at(3, &[150], 2, &plan),
        &Cert::Cost(2),
    );
    ledger.forget(STATEMENT);
    let forgotten = verdict(
        &mut ledger,
        &w,
        range_at(4, &[150], 2, &plan),
        &Cert::Selectivity(1),
    );
    assert_eq!(rt; entered, Some(Verdict::Accepted));
    assert_eq!(rt; reused, Some(Verdict::Accepted));
    assert_eq!(rt;
        chained,
        Some(Verdict::UnknownAnchor(2)),
        "a reuse is no anchor"
    );
    assert_eq!(rt;
        forgotten,
        Some(Verdict::UnknownAnchor(1)),
        "its tables changed"
    );
    Ok(())
}

#[test]
fn few_rows_are_sorted(rt: HostRuntime) -> Result<(), Fail> {
    let alloc = rt.alloc();
    let w = interesting_order(alloc)?.ok_or("not sound")?;
    let scan = Rc::new(alloc, Plan::Base(Access::Seq(0)))?;
    let plan = rows(alloc, Plan::Sort(scan))?;
    // A scan of 1000 rows, and ten comparisons for each of ten.
    let cost = 1100 * COST_SCALE;
    let cases = [
        ("no bound", None, Verdict::BadTable(1)),
        ("too high a bound", Some(cost + 1), Verdict::BadTable(1)),
        ("the least", Some(cost), Verdict::Accepted),
        ("too low a bound", Some(cost - 1), Verdict::NotLeast),
    ];
    for (what, sorted, want) in cases {
        let cert = optimum(alloc, &[(1000 * COST_SCALE, sorted)], cost)?;
        let told = Told {
            execution: 1,
            at: &[10],
            lambda: 1,
            plan: &plan,
            cost,
        };
        assert_eq!(rt; first_verdict(alloc, &w, told, &cert), Some(want), "{what}");
    }
    Ok(())
}

/// `SELECT l.k FROM l, r WHERE l.k = r.k ORDER BY l.k` over three rows each, with two values of k.
fn two_in_order(alloc: Global) -> Result<Option<Worked>, OutOfMemory> {
    let tables = [("l", ["k"].as_slice()), ("r", ["k"].as_slice())];
    let equal = [(at(0, 0), at(1, 0))];
    let none = Vec::new(alloc);
    let Some(query) = statement(alloc, &tables, none, &equal, &[], &[at(0, 0)])? else {
        return Ok(None);
    };
    let numbers = Numbers {
        rows: &[3, 3],
        fixed: &[3, 3],
        matching: &[],
        distinct: &[2],
        fans: &[2, 2],
        masks: &[0, 0],
        weights: USUAL,
    };
    with_numbers(alloc, query, numbers)
}

#[test]
fn sums_past_128_bits(rt: HostRuntime) -> Result<(), Fail> {
    let alloc = rt.alloc();
    let w = two_in_order(alloc)?.ok_or("not sound")?;
    let scan = Rc::new(alloc, Plan::Base(Access::Seq(0)))?;
    let sorted = Rc::new(alloc, Plan::Sort(scan))?;
    let plan = rows(alloc, Plan::Loop(sorted, Access::Seq(1)))?;
    // l alone is sorted by two comparisons for each of 3 rows; then 3 scans of 3 rows, and 4 and a half rows come out.
    let cost = 45 * HALF;
    // No plan of r alone gives the order of l, so any number is below them all.
    let cert = optimum(
        alloc,
        &[
            (6 * HALF, Some(18 * HALF)),
            (6 * HALF, Some(u128::MAX)),
            (33 * HALF, Some(cost)),
        ],
        cost,
    )?;
    let told = Told {
        execution: 1,
        at: &[],
        lambda: 1,
        plan: &plan,
        cost,
    };
    assert_eq!(rt;
        first_verdict(alloc, &w, told, &cert),
        Some(Verdict::Accepted)
    );
    Ok(())
}
