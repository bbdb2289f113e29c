//! Costs over the worked statements, worked out by hand, with the weights that the program has by default.
ghost use Rattle.std.specs.Prelude.{ℕ, List, All, ◌≡◌, ◌≤◌, IfOk, IfSome};
ghost use Rattle.cost_polynomials.specs.Polynomial.{IsVectorFor};
ghost use Rattle.cost_model.specs.Laws.{IsVectorOf};

use crate::{access_unit, card, join_cost, poly_of, sort_cost, step_cost};
use cost_polynomials::Poly;
use plan_trees::{
    Access, COST_SCALE, Plan, StepKind, Top, all_places, are_apart, is_valid_access, is_valid_step,
    valid,
};
use row_values::OutOfMemory;
use std::alloc::Global;
use std::rc::Rc;
use std::test::Fail;
use worked_statements::{Worked, reuse_by_selectivity, smallest_pair_first_is_not_least};

/// The unit of an access where so many rows are below the argument.
fn unit_at(w: &Worked, access: Access, rows: u64) -> Option<u128> {
    let vector = [rows];
    if !w.takes(&vector) {
        return None;
    }
    if !is_valid_access(&w.query, w.stats.indexed(), access) {
        return None;
    }
    Some(access_unit(&w.query, &w.stats, &access, &vector))
}

#[test]
fn each_access_of_a_thousand_rows(rt: HostRuntime) -> Result<(), Fail> {
    let w = reuse_by_selectivity(rt.alloc())?.ok_or("not sound")?;
    let range = Access::Range(0, 0, 0);
    let cases = [
        ("all rows", Access::Seq(0), 500, Some(1000)),
        ("a range of one row", range, 1, Some(12)),
        ("a range of half the rows", range, 500, Some(1010)),
        ("a range of all rows", range, 1000, Some(2010)),
        ("all rows in order", Access::Full(0, 0), 500, Some(2010)),
        ("a column without an index", Access::Full(0, 1), 500, None),
    ];
    for (what, access, rows, want) in cases {
        assert_eq!(rt; unit_at(&w, access, rows), want, "{what}");
    }
    Ok(())
}

/// The polynomial of the plan under a top that gives its rows as they are, if it is valid.
fn poly_if_valid(alloc: Global, w: &Worked, plan: Plan) -> Result<Option<Poly>, OutOfMemory>
    ensures { IfOk result (λ found. IfSome found (λ poly. (s : List ℕ) → IsVectorOf w.now.query s
        → All (λ count. 1 ≤ count) s → IsVectorFor poly s)) }
{
    let top = Top::Rows(Rc::new(alloc, plan)?);
    if !valid(&w.query, w.stats.indexed(), &top) {
        return Ok(None);
    }
    let poly = poly_of(alloc, &w.query, &w.stats, &top)?;
    Ok(Some(poly))
}

/// The value of the polynomial where so many rows are below the argument.
fn value_with(w: &Worked, poly: &Poly, rows: u64) -> Option<u128>
    requires { (s : List ℕ) → IsVectorOf w.now.query s → All (λ count. 1 ≤ count) s → IsVectorFor poly.now s }
{
    let vector = [rows];
    if rows == 0 {
        return None;
    }
    if !w.takes(&vector) {
        return None;
    }
    poly.eval(&vector)
}

#[test]
fn a_range_of_a_thousand_rows_as_a_polynomial(rt: HostRuntime) -> Result<(), Fail> {
    let w = reuse_by_selectivity(rt.alloc())?.ok_or("not sound")?;
    let range = Plan::Base(Access::Range(0, 0, 0));
    let poly = poly_if_valid(rt.alloc(), &w, range)?.ok_or("not valid")?;
    // A descent of 10 steps, and 2 for each row that is found.
    assert_eq!(rt;
        poly.terms(),
        [(0, 10995116277760), (1, 2199023255552)].as_slice(),
        "10 + 2 s0"
    );
    assert_eq!(rt;
        value_with(&w, &poly, 100),
        Some(210 * COST_SCALE),
        "at s0 = 100"
    );
    Ok(())
}

/// The cardinality of a set of places, if they are the statement's.
fn card_of(w: &Worked, set: u8) -> Option<u128> {
    if set > all_places(w.query.places().len()) {
        return None;
    }
    if !w.takes(&[]) {
        return None;
    }
    Some(card(&w.query, &w.stats, set, &[]))
}

/// What it costs to sort the rows of a set of places, if they are the statement's.
fn sort_of(w: &Worked, set: u8) -> Option<u128> {
    if set > all_places(w.query.places().len()) {
        return None;
    }
    if !w.takes(&[]) {
        return None;
    }
    Some(sort_cost(&w.query, &w.stats, set, &[]))
}

#[test]
fn cardinalities_of_three_tables(rt: HostRuntime) -> Result<(), Fail> {
    let w = smallest_pair_first_is_not_least(rt.alloc())?.ok_or("not sound")?;
    let cases = [
        ("a", 0b001, 8 * COST_SCALE),
        ("a and b", 0b011, 8 * COST_SCALE),
        ("a and c", 0b101, 16 * COST_SCALE),
        ("b and c", 0b110, 1024 * COST_SCALE),
        ("all three", 0b111, COST_SCALE / 64),
    ];
    for (what, set, want) in cases {
        assert_eq!(rt; card_of(&w, set), Some(want), "{what}");
    }
    Ok(())
}

#[test]
fn sorts_of_three_tables(rt: HostRuntime) -> Result<(), Fail> {
    let w = smallest_pair_first_is_not_least(rt.alloc())?.ok_or("not sound")?;
    // 8 has 4 digits, 2^13 has 14, and 2^23 has 24.
    let cases = [
        ("a", 0b001, 32 * COST_SCALE),
        ("a and b", 0b011, 112 * COST_SCALE),
        ("all three", 0b111, 3 * COST_SCALE / 8),
    ];
    for (what, set, want) in cases {
        assert_eq!(rt; sort_of(&w, set), Some(want), "{what}");
    }
    Ok(())
}

/// What a step adds over a set of the three places, if it is valid there.
fn step_over(w: &Worked, set: u8, step: StepKind) -> Option<u128> {
    if set > all_places(w.query.places().len()) {
        return None;
    }
    if !is_valid_step(&w.query, w.stats.indexed(), set, step) {
        return None;
    }
    if !w.takes(&[]) {
        return None;
    }
    Some(step_cost(&w.query, &w.stats, set, &step, &[]))
}

#[test]
fn each_step_over_three_tables(rt: HostRuntime) -> Result<(), Fail> {
    let w = smallest_pair_first_is_not_least(rt.alloc())?.ok_or("not sound")?;
    let (a, ac) = (0b001, 0b101);
    let cases = [
        // 8 runs over 1024 rows, and 8 rows come out.
        (
            "a loop",
            a,
            StepKind::Loop(Access::Seq(1)),
            Some(8200 * COST_SCALE),
        ),
        // 8 descents of 11 that find 2 rows each, and 16 rows come out.
        ("a probe", a, StepKind::Probe(2, 1), Some(136 * COST_SCALE)),
        // 16 descents of 11 that find a row each, and a 64th of a row comes out.
        (
            "a second probe",
            ac,
            StepKind::Probe(1, 2),
            Some(208 * COST_SCALE + COST_SCALE / 64),
        ),
        ("a probe without an index", a, StepKind::Probe(1, 0), None),
        ("a place that is in", ac, StepKind::Probe(2, 1), None),
    ];
    for (what, set, step, want) in cases {
        assert_eq!(rt; step_over(&w, set, step), want, "{what}");
    }
    Ok(())
}

/// What a hash join adds to its sides of the three places, if they have no place in common.
fn join_over(w: &Worked, left: u8, right: u8) -> Option<u128> {
    let all = all_places(w.query.places().len());
    if left == 0 || left > all {
        return None;
    }
    if right == 0 || right > all {
        return None;
    }
    if !are_apart(left, right) {
        return None;
    }
    if !w.takes(&[]) {
        return None;
    }
    Some(join_cost(&w.query, &w.stats, left, right, &[]))
}

#[test]
fn each_hash_join_of_three_tables(rt: HostRuntime) -> Result<(), Fail> {
    let w = smallest_pair_first_is_not_least(rt.alloc())?.ok_or("not sound")?;
    let (a, b, ab, bc) = (0b001, 0b010, 0b011, 0b110);
    let cases = [
        // 8 and 1024 rows are hashed, and 8 come out.
        ("two places", a, b, Some(2072 * COST_SCALE)),
        // 8 and 1024 rows are hashed, and a 64th of a row comes out.
        (
            "a join on the inner side",
            a,
            bc,
            Some(2064 * COST_SCALE + COST_SCALE / 64),
        ),
        ("a place on both sides", ab, bc, None),
    ];
    for (what, left, right, want) in cases {
        assert_eq!(rt; join_over(&w, left, right), want, "{what}");
    }
    Ok(())
}

#[test]
fn two_probes_over_three_tables_as_a_polynomial(rt: HostRuntime) -> Result<(), Fail> {
    let w = smallest_pair_first_is_not_least(rt.alloc())?.ok_or("not sound")?;
    let a = Rc::new(rt.alloc(), Plan::Base(Access::Seq(0)))?;
    let ac = Rc::new(rt.alloc(), Plan::Probe(a, 2, 1))?;
    let probes = Plan::Probe(ac, 1, 2);
    let poly = poly_if_valid(rt.alloc(), &w, probes)?.ok_or("not valid")?;
    // 8 rows, then 136 and 208 and a 64th for the probes.
    assert_eq!(rt;
        poly.terms(),
        [(0, 387045272846336)].as_slice(),
        "no selectivity"
    );
    Ok(())
}
