//! Best plans of the worked statements, worked out by hand, with the weights that the program has
//! by default.
use crate::drawn_statements::{Form, drawn};
use crate::plain_search::least_of_all;
use crate::{Optimizer, optimise};
use plan_costs::{Best, Planner};
use plan_trees::{COST_SCALE, print_plan};
use row_values::{OutOfMemory, Words};
use std::alloc::Global;
use std::test::Fail;
use worked_statements::{
    Worked, bushy_beats_left_deep, interesting_order, smallest_pair_first_is_not_least,
};

/// The best plan at the vector, if that is sound.
fn best_at(alloc: Global, w: &Worked, s: &[u64]) -> Result<Option<Best>, OutOfMemory> {
    if !w.takes(s) {
        return Ok(None);
    }
    let mut calls = 0;
    let best = optimise(alloc, &w.query, &w.stats, s, &mut calls)?;
    Ok(Some(best))
}

/// The spelling of the best plan, and its cost.
fn best_plan(alloc: Global, w: &Worked, s: &[u64]) -> Result<Option<(Words, u128)>, OutOfMemory> {
    let Some(best) = best_at(alloc, w, s)? else {
        return Ok(None);
    };
    let plan = print_plan(alloc, &w.query, &best.plan)?;
    Ok(Some((plan, best.cost)))
}

/// The costs of each set of places: of any plan, and of one in the wanted order.
fn numbers(alloc: Global, best: &Best) -> Result<Vec<(u128, Option<u128>)>, OutOfMemory> {
    let mut list = Vec::new(alloc);
    for cell in best.potentials.cells() {
        list.push((cell.any, cell.sorted))?;
    }
    Ok(list)
}

/// The least costs of each set of places, if the vector is sound.
fn least_costs(
    alloc: Global,
    w: &Worked,
    s: &[u64],
) -> Result<Option<Vec<(u128, Option<u128>)>>, OutOfMemory> {
    let Some(best) = best_at(alloc, w, s)? else {
        return Ok(None);
    };
    let list = numbers(alloc, &best)?;
    Ok(Some(list))
}

#[test]
fn three_tables_by_two_probes(rt: HostRuntime) -> Result<(), Fail> {
    let w = smallest_pair_first_is_not_least(rt.alloc())?.ok_or("not sound")?;
    let (plan, cost) = best_plan(rt.alloc(), &w, &[])?.ok_or("no vector")?;
    let wanted = "rows(probe(probe(seq(a),c,2),b,3))";
    assert_eq!(rt;
        plan.as_str(),
        wanted,
        "the smallest pair isn't joined first"
    );
    assert_eq!(rt; cost, 387045272846336, "352 rows and a 64th");
    Ok(())
}

#[test]
fn each_set_of_three_tables(rt: HostRuntime) -> Result<(), Fail> {
    let w = smallest_pair_first_is_not_least(rt.alloc())?.ok_or("not sound")?;
    let found = least_costs(rt.alloc(), &w, &[])?.ok_or("no vector")?;
    // a, b, ab, c, ac, bc and abc; no order is wanted, so no plan has it.
    let wanted = [
        (8 * COST_SCALE, None),
        (1024 * COST_SCALE, None),
        (3104 * COST_SCALE, None),
        (1024 * COST_SCALE, None),
        (144 * COST_SCALE, None),
        (7168 * COST_SCALE, None),
        (387045272846336, None),
    ];
    assert_eq!(rt; found.as_slice(), wanted.as_slice(), "a cell for each set");
    Ok(())
}

#[test]
fn an_order_worth_keeping(rt: HostRuntime) -> Result<(), Fail> {
    let w = interesting_order(rt.alloc())?.ok_or("not sound")?;
    let cases = [
        // All rows in order cost 2010; to read and sort half of them would cost 6000.
        (500, "rows(full(t.v))", 2010 * COST_SCALE),
        // A twentieth of the rows is sorted for 500.
        (50, "rows(sort(seq(t)))", 1500 * COST_SCALE),
    ];
    for (rows, wanted, least) in cases {
        let (plan, cost) = best_plan(rt.alloc(), &w, &[rows])?.ok_or("no vector")?;
        assert_eq!(rt; plan.as_str(), wanted, "{rows} rows");
        assert_eq!(rt; cost, least, "{rows} rows");
    }
    Ok(())
}

#[test]
fn both_costs_of_one_table(rt: HostRuntime) -> Result<(), Fail> {
    let w = interesting_order(rt.alloc())?.ok_or("not sound")?;
    let found = least_costs(rt.alloc(), &w, &[500])?.ok_or("no vector")?;
    let wanted = [(1000 * COST_SCALE, Some(2010 * COST_SCALE))];
    assert_eq!(rt;
        found.as_slice(),
        wanted.as_slice(),
        "as it comes, and in order"
    );
    Ok(())
}

#[test]
fn four_tables_from_both_ends(rt: HostRuntime) -> Result<(), Fail> {
    let w = bushy_beats_left_deep(rt.alloc())?.ok_or("not sound")?;
    let (_, cost) = best_plan(rt.alloc(), &w, &[])?.ok_or("no vector")?;
    // Each pair costs 700 and has 100 rows; to join the pairs hashes 200 rows, and 10000 come out.
    assert_eq!(rt; cost, 11800 * COST_SCALE, "a hash join of two pairs");
    Ok(())
}

/// How often an optimiser was asked that was asked once.
fn calls_of_one(alloc: Global, w: &Worked, s: &[u64]) -> Result<u64, OutOfMemory> {
    let mut planner = Optimizer::new();
    if w.takes(s) {
        let _ = planner.optimise(alloc, &w.query, &w.stats, s)?;
    }
    Ok(planner.calls())
}

#[test]
fn an_optimiser_counts(rt: HostRuntime) -> Result<(), Fail> {
    let w = interesting_order(rt.alloc())?.ok_or("not sound")?;
    assert_eq!(rt; calls_of_one(rt.alloc(), &w, &[500])?, 1, "asked once");
    Ok(())
}

/// The cost of the best plan of a drawn statement, and the least cost of all its plans.
fn both_least(
    alloc: Global,
    form: Form,
    seed: u64,
) -> Result<Option<(u128, Option<u128>)>, OutOfMemory> {
    let Some((w, rows)) = drawn(alloc, form, seed)? else {
        return Ok(None);
    };
    let s = [rows];
    if !w.takes(&s) {
        return Ok(None);
    }
    let mut calls = 0;
    let best = optimise(alloc, &w.query, &w.stats, &s, &mut calls)?;
    Ok(Some((best.cost, least_of_all(alloc, &w, &s)?)))
}

/// A statement over so many tables.
fn form(tables: u8, ring: bool, ordered: bool, grouped: bool) -> Form {
    Form {
        tables,
        ring,
        ordered,
        grouped,
    }
}

#[test]
fn no_plan_of_a_plain_search_is_cheaper(rt: HostRuntime) -> Result<(), Fail> {
    let forms = [
        ("a table in order", form(1, false, true, false)),
        ("a table in groups", form(1, false, false, true)),
        ("two tables", form(2, false, false, false)),
        ("two tables in order", form(2, false, true, false)),
        ("two tables in groups", form(2, false, false, true)),
        ("three tables in a ring", form(3, true, false, false)),
        ("three tables in order", form(3, false, true, false)),
        ("three tables in groups", form(3, true, false, true)),
    ];
    for (what, form) in forms {
        for seed in 0..5 {
            let (found, least) = both_least(rt.alloc(), form, seed)?.ok_or("not sound")?;
            assert_eq!(rt; Some(found), least, "{what}, drawn by {seed}");
        }
    }
    Ok(())
}
