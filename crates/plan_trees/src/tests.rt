//! Plans of `SELECT a.id FROM t a, t "order id", t c WHERE a.day < ? AND "order id".day >= 5 AND
//! a.id = "order id".id AND "order id".id = c.id ORDER BY a.day`, where t has the columns id,
//! "select" and day.
use crate::{Access, Indexed, Plan, PlanFault, Top, print_plan, read_plan, same, valid};
use row_values::{
    ColRef, Column, Edge, Item, Kind, Operand, OrderKey, OutOfMemory, Place, Pred, Query, Schema,
    Test, Value, Words,
};
use std::alloc::Global;
use std::rc::Rc;
use std::test::Fail;

fn column(alloc: Global, name: &str, kind: Kind) -> Result<Column, OutOfMemory> {
    Ok(Column {
        name: Words::of(alloc, name)?,
        kind,
    })
}

fn schema(alloc: Global) -> Result<Option<Schema>, OutOfMemory> {
    let mut columns = Vec::new(alloc);
    columns.push(column(alloc, "id", Kind::Int)?)?;
    columns.push(column(alloc, "select", Kind::Text)?)?;
    columns.push(column(alloc, "day", Kind::Int)?)?;
    Ok(Schema::of(columns))
}

fn at(place: u8, column: u8) -> ColRef {
    ColRef { place, column }
}

fn statement(alloc: Global) -> Result<Option<Query>, OutOfMemory> {
    let mut places = Vec::new(alloc);
    for alias in ["a", "order id", "c"] {
        if let Some(schema) = schema(alloc)? {
            places.push(Place {
                table: Words::of(alloc, "t")?,
                alias: Words::of(alloc, alias)?,
                schema,
            })?;
        }
    }
    let mut preds = Vec::new(alloc);
    preds.push(Pred {
        at: at(0, 2),
        test: Test::Lt(Operand::Param(0)),
    })?;
    preds.push(Pred {
        at: at(1, 2),
        test: Test::Ge(Operand::Literal(Value::Int(5))),
    })?;
    let mut edges = Vec::new(alloc);
    edges.push(Edge {
        left: at(0, 0),
        right: at(1, 0),
    })?;
    edges.push(Edge {
        left: at(1, 0),
        right: at(2, 0),
    })?;
    let mut items = Vec::new(alloc);
    items.push(Item::Column(at(0, 0)))?;
    let mut order = Vec::new(alloc);
    order.push(OrderKey {
        at: at(0, 2),
        descending: false,
    })?;
    Ok(Query::make(places, preds, edges, items, Vec::new(alloc), order))
}

#[test]
fn each_form_is_read_and_spelled(rt: HostRuntime) -> Result<(), Fail> {
    let q = statement(rt.alloc())?.ok_or("not sound")?;
    let cases = [
        ("a sequential scan", "rows(seq(a))"),
        ("an index range scan", "rows(range(a.day,1))"),
        ("a full index scan", "rows(full(c.\"select\"))"),
        (
            "a nested loop",
            "rows(loop(seq(a),range(\"order id\".day,2)))",
        ),
        (
            "an index nested loop",
            "rows(probe(full(a.id),\"order id\",1))",
        ),
        ("a hash join", "rows(hash(seq(\"order id\"),seq(c),2))"),
        (
            "a hash join with a join inside",
            "rows(hash(sort(full(a.day)),hash(seq(\"order id\"),seq(c),2),1))",
        ),
        ("sorted groups", "sorted_groups(sort(seq(a)))"),
        (
            "hashed groups",
            "hash_groups(sort(sort(loop(seq(c),seq(c)))))",
        ),
    ];
    for (what, text) in cases {
        let plan = read_plan(rt.alloc(), &q, text);
        assert!(rt; plan.is_ok(), "{what}");
        if let Ok(plan) = plan {
            let spelled = print_plan(rt.alloc(), &q, &plan)?;
            assert_eq!(rt; spelled.as_str(), text, "{what}");
        }
    }
    Ok(())
}

#[test]
fn other_texts_are_no_plans(rt: HostRuntime) -> Result<(), Fail> {
    let q = statement(rt.alloc())?.ok_or("not sound")?;
    let cases = [
        ("a bracket that stays open", "rows(seq(a)"),
        ("an unknown place", "rows(seq(t))"),
        ("quotes that aren't needed", "rows(seq(\"a\"))"),
        ("quotes that are", "rows(seq(order id))"),
        ("an unknown column", "rows(full(a.none))"),
        ("number 0", "rows(range(a.day,0))"),
        ("a third predicate", "rows(range(a.day,3))"),
        ("a leading zero", "rows(range(a.day,01))"),
        ("a third edge", "rows(hash(seq(a),seq(c),3))"),
        ("no inner plan", "rows(hash(seq(a),1))"),
        ("no edge", "rows(hash(seq(a),seq(c)))"),
        ("no top", "seq(a)"),
        ("a space", "rows( seq(a))"),
        ("a byte behind", "rows(seq(a)))"),
        ("nothing", ""),
    ];
    for (what, text) in cases {
        assert_eq!(rt;
            read_plan(rt.alloc(), &q, text).err(),
            Some(PlanFault::NotAPlan),
            "{what}"
        );
    }
    Ok(())
}

/// The base under so many sorts.
fn sorts(alloc: Global, count: usize) -> Result<String, OutOfMemory> {
    let mut text = String::from_str(alloc, "rows(")?;
    for _ in 0..count {
        text.push_str("sort(")?;
    }
    text.push_str("seq(a)")?;
    for _ in 0..count {
        text.push_str(")")?;
    }
    text.push_str(")")?;
    Ok(text)
}

#[test]
fn sixteen_plans_are_nested(rt: HostRuntime) -> Result<(), Fail> {
    let q = statement(rt.alloc())?.ok_or("not sound")?;
    for (count, read) in [(15, true), (16, false), (5000, false)] {
        let text = sorts(rt.alloc(), count)?;
        assert_eq!(rt;
            read_plan(rt.alloc(), &q, text.as_str()).is_ok(),
            read,
            "{count}"
        );
    }
    Ok(())
}

#[test]
fn one_fault_makes_a_plan_invalid(rt: HostRuntime) -> Result<(), Fail> {
    let q = statement(rt.alloc())?.ok_or("not sound")?;
    let ix = Indexed::of([0b101, 0b101, 0b100].as_slice()).ok_or("masks")?;
    let cases = [
        (
            "sorted by an index",
            "rows(loop(loop(range(a.day,1),seq(\"order id\")),seq(c)))",
            true,
        ),
        (
            "not sorted",
            "rows(loop(loop(seq(a),seq(\"order id\")),seq(c)))",
            false,
        ),
        (
            "sorted at the end",
            "rows(sort(loop(loop(seq(a),seq(\"order id\")),seq(c))))",
            true,
        ),
        (
            "sorted twice",
            "rows(sort(loop(loop(full(a.day),seq(\"order id\")),seq(c))))",
            false,
        ),
        (
            "a place left out",
            "rows(loop(range(a.day,1),seq(\"order id\")))",
            false,
        ),
        (
            "a place twice",
            "rows(loop(loop(full(a.day),seq(c)),seq(c)))",
            false,
        ),
        (
            "a predicate elsewhere",
            "rows(sort(loop(loop(range(a.id,1),seq(\"order id\")),seq(c))))",
            false,
        ),
        (
            "no index",
            "rows(sort(loop(loop(full(a.\"select\"),seq(\"order id\")),seq(c))))",
            false,
        ),
        (
            "a probe",
            "rows(loop(probe(full(a.day),\"order id\",1),seq(c)))",
            true,
        ),
        (
            "a probe without an index",
            "rows(probe(probe(full(a.day),\"order id\",1),c,2))",
            false,
        ),
        (
            "a hash join",
            "rows(hash(probe(full(a.day),\"order id\",1),seq(c),2))",
            true,
        ),
        (
            "an edge elsewhere",
            "rows(hash(probe(full(a.day),\"order id\",1),seq(c),1))",
            false,
        ),
        (
            "a hash join with a join inside",
            "rows(hash(full(a.day),hash(seq(c),seq(\"order id\"),2),1))",
            true,
        ),
        (
            "a hash join on an edge inside",
            "rows(hash(full(a.day),hash(seq(c),seq(\"order id\"),2),2))",
            false,
        ),
        (
            "a hash join with a place on both sides",
            "rows(hash(probe(full(a.day),\"order id\",1),hash(seq(\"order id\"),seq(c),2),1))",
            false,
        ),
        (
            "the order of the inner side",
            "rows(hash(hash(seq(c),seq(\"order id\"),2),full(a.day),1))",
            false,
        ),
        (
            "the inner side sorted too",
            "rows(sort(hash(hash(seq(c),seq(\"order id\"),2),sort(seq(a)),1)))",
            true,
        ),
        (
            "groups without GROUP BY",
            "hash_groups(hash(probe(full(a.day),\"order id\",1),seq(c),2))",
            false,
        ),
    ];
    for (what, text, expected) in cases {
        let plan = read_plan(rt.alloc(), &q, text);
        assert!(rt; plan.is_ok(), "{what}");
        if let Ok(plan) = plan {
            assert_eq!(rt; valid(&q, &ix, &plan), expected, "{what}");
        }
    }
    Ok(())
}

#[test]
fn a_plan_read_is_the_same_as_one_built(rt: HostRuntime) -> Result<(), Fail> {
    let alloc = rt.alloc();
    let q = statement(alloc)?.ok_or("not sound")?;
    let base = Rc::new(alloc, Plan::Base(Access::Range(0, 2, 0)))?;
    let probe = Rc::new(alloc, Plan::Probe(base, 1, 0))?;
    let inner = Rc::new(alloc, Plan::Base(Access::Seq(2)))?;
    let built = Top::Rows(Rc::new(alloc, Plan::Hash(probe, inner, 1))?);
    let cases = [
        (
            "as built",
            "rows(hash(probe(range(a.day,1),\"order id\",1),seq(c),2))",
            true,
        ),
        (
            "another base",
            "rows(hash(probe(full(a.day),\"order id\",1),seq(c),2))",
            false,
        ),
        (
            "another inner side",
            "rows(hash(probe(range(a.day,1),\"order id\",1),seq(a),2))",
            false,
        ),
        (
            "another top",
            "hash_groups(hash(probe(range(a.day,1),\"order id\",1),seq(c),2))",
            false,
        ),
    ];
    for (what, text, expected) in cases {
        let plan = read_plan(alloc, &q, text);
        assert!(rt; plan.is_ok(), "{what}");
        if let Ok(plan) = plan {
            assert_eq!(rt; same(&plan, &built), expected, "{what}");
        }
    }
    Ok(())
}
