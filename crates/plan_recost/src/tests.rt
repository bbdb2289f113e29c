//! A kept plan's cost at other vectors than those that it was kept for.
use crate::Costed;
use plan_trees::{Access, COST_SCALE, Plan, Top, valid};
use row_values::OutOfMemory;
use std::alloc::Global;
use std::rc::Rc;
use std::test::Fail;
use worked_statements::{Worked, orders_above};

/// What the plan costs where so many orders are above the argument, if it is valid.
fn cost_with(
    alloc: Global,
    w: &Worked,
    plan: Plan,
    found: u64,
) -> Result<Option<u128>, OutOfMemory> {
    let top = Rc::new(alloc, Top::Rows(Rc::new(alloc, plan)?))?;
    let vector = [found];
    if !w.takes(&vector) {
        return Ok(None);
    }
    if !valid(&w.query, w.stats.indexed(), &top) {
        return Ok(None);
    }
    let kept = Costed::of(alloc, &w.query, &w.stats, top)?;
    Ok(Some(kept.cost_at(&vector)))
}

/// The hash join of customers and orders.
fn hash_join(alloc: Global) -> Result<Plan, OutOfMemory> {
    let customers = Rc::new(alloc, Plan::Base(Access::Seq(0)))?;
    let orders = Rc::new(alloc, Plan::Base(Access::Seq(1)))?;
    Ok(Plan::Hash(customers, orders, 0))
}

/// The look-up of each order's customer.
fn index_join(alloc: Global) -> Result<Plan, OutOfMemory> {
    let orders = Rc::new(alloc, Plan::Base(Access::Seq(1)))?;
    Ok(Plan::Probe(orders, 0, 0))
}

#[test]
fn two_joins_of_customers_and_orders(rt: HostRuntime) -> Result<(), Fail> {
    let w = orders_above(rt.alloc())?.ok_or("not sound")?;
    let cases = [
        (50, Some(1450 * COST_SCALE), Some(1500 * COST_SCALE)),
        (5, Some(1315 * COST_SCALE), Some(1050 * COST_SCALE)),
        (0, None, None),
    ];
    for (found, hashed, looked_up) in cases {
        let cost = cost_with(rt.alloc(), &w, hash_join(rt.alloc())?, found)?;
        assert_eq!(rt; cost, hashed, "the hash join with {found} orders");
        let cost = cost_with(rt.alloc(), &w, index_join(rt.alloc())?, found)?;
        assert_eq!(rt; cost, looked_up, "the index join with {found} orders");
    }
    Ok(())
}

#[test]
fn a_plan_of_one_place_is_not_costed(rt: HostRuntime) -> Result<(), Fail> {
    let w = orders_above(rt.alloc())?.ok_or("not sound")?;
    let customers = Plan::Base(Access::Seq(0));
    let cost = cost_with(rt.alloc(), &w, customers, 50)?;
    assert_eq!(rt; cost, None, "no orders");
    Ok(())
}
