//! Statements over two places, each with one thing changed.
use super::*;
use crate::OutOfMemory;
use crate::columns::Column;
use std::alloc::Global;
use std::test::Fail;

/// What is changed in the sound statement `SELECT a.n, b.s FROM t a, t b WHERE a.n < ? AND a.n =
/// b.n`.
#[derive(Clone, Copy, Debug, PartialEq, Eq)]
enum Change {
    Nothing,
    SameAlias,
    NoPlace,
    NoItem,
    ColumnTwo,
    PlaceTwo,
    ParameterOne,
    LiteralText,
    InParameter,
    InParameterOne,
    InText,
    EdgeOfKinds,
    EdgeWithin,
    SumOfText,
    SumUngrouped,
    KeyUngrouped,
    KeyGrouped,
}

/// The columns `n` of numbers and `s` of texts.
fn columns(alloc: Global) -> Result<Vec<Column>, OutOfMemory> {
    let mut columns = Vec::new(alloc);
    columns.push(Column {
        name: Words::of(alloc, "n")?,
        kind: Kind::Int,
    })?;
    columns.push(Column {
        name: Words::of(alloc, "s")?,
        kind: Kind::Text,
    })?;
    Ok(columns)
}

fn place(alloc: Global, alias: &str) -> Result<Option<Place>, OutOfMemory> {
    let Some(schema) = Schema::of(columns(alloc)?) else {
        return Ok(None);
    };
    Ok(Some(Place {
        table: Words::of(alloc, "t")?,
        alias: Words::of(alloc, alias)?,
        schema,
    }))
}

fn at(place: u8, column: u8) -> ColRef {
    ColRef { place, column }
}

fn make(alloc: Global, change: Change) -> Result<Option<Query>, OutOfMemory> {
    let mut places = Vec::new(alloc);
    if change != Change::NoPlace {
        if let Some(first) = place(alloc, "a")? {
            places.push(first)?;
        }
        let alias = if change == Change::SameAlias {
            "a"
        } else {
            "b"
        };
        if let Some(second) = place(alloc, alias)? {
            places.push(second)?;
        }
    }
    let operand = match change {
        Change::ParameterOne | Change::InParameterOne => Operand::Param(1),
        Change::LiteralText | Change::InText => Operand::Literal(Value::Text(Words::of(
            alloc, "x",
        )?)),
        _ => Operand::Param(0),
    };
    let test = match change {
        Change::InParameter | Change::InParameterOne | Change::InText => {
            let mut parts = Vec::new(alloc);
            parts.push(Operand::Literal(Value::Int(3)))?;
            parts.push(operand)?;
            match Operands::of(parts) {
                Some(operands) => Test::OneOf(operands),
                None => return Ok(None),
            }
        }
        _ => Test::Lt(operand),
    };
    let mut preds = Vec::new(alloc);
    preds.push(Pred {
        at: match change {
            Change::ColumnTwo => at(0, 2),
            Change::PlaceTwo => at(2, 0),
            _ => at(0, 0),
        },
        test,
    })?;
    let mut edges = Vec::new(alloc);
    edges.push(Edge {
        left: at(0, 0),
        right: match change {
            Change::EdgeOfKinds => at(1, 1),
            Change::EdgeWithin => at(0, 0),
            _ => at(1, 0),
        },
    })?;
    let mut items = Vec::new(alloc);
    if change != Change::NoItem {
        items.push(Item::Column(at(0, 0)))?;
    }
    if change == Change::SumUngrouped {
        items.push(Item::Sum(at(0, 0)))?;
    }
    let mut groups = Vec::new(alloc);
    let mut order = Vec::new(alloc);
    if change == Change::SumOfText {
        items.push(Item::Sum(at(1, 1)))?;
    }
    if matches!(
        change,
        Change::SumOfText | Change::KeyUngrouped | Change::KeyGrouped
    ) {
        groups.push(at(0, 0))?;
    }
    if change == Change::KeyUngrouped {
        order.push(OrderKey {
            at: at(1, 0),
            descending: true,
        })?;
    }
    if change == Change::KeyGrouped {
        items.push(Item::CountAll)?;
        order.push(OrderKey {
            at: at(0, 0),
            descending: true,
        })?;
    }
    Ok(Query::make(places, preds, edges, items, groups, order))
}

#[test]
fn sound_statements_alone_are_made(rt: HostRuntime) -> Result<(), Fail> {
    let cases = [
        ("as it is", Change::Nothing, true),
        ("one alias for both", Change::SameAlias, false),
        ("no place", Change::NoPlace, false),
        ("no item", Change::NoItem, false),
        ("a third column", Change::ColumnTwo, false),
        ("a third place", Change::PlaceTwo, false),
        ("parameters from 1", Change::ParameterOne, false),
        ("a number against a text", Change::LiteralText, false),
        ("IN with a parameter", Change::InParameter, true),
        ("IN with parameters from 1", Change::InParameterOne, false),
        ("IN with a text for a number", Change::InText, false),
        ("an edge of two kinds", Change::EdgeOfKinds, false),
        ("an edge within a place", Change::EdgeWithin, false),
        ("SUM of texts", Change::SumOfText, false),
        ("SUM without GROUP BY", Change::SumUngrouped, false),
        ("a key outside GROUP BY", Change::KeyUngrouped, false),
        ("a key of GROUP BY", Change::KeyGrouped, true),
    ];
    for (what, change, sound) in cases {
        let made = make(rt.alloc(), change)?;
        assert_eq!(rt; made.is_some(), sound, "{what}");
    }
    Ok(())
}

#[test]
fn a_parameter_has_the_kind_of_its_column(rt: HostRuntime) -> Result<(), Fail> {
    let q = make(rt.alloc(), Change::Nothing)?.ok_or("not sound")?;
    assert_eq!(rt; q.kinds(), [Kind::Int].as_slice());
    assert_eq!(rt; q.places().len(), 2);
    assert_eq!(rt; q.edges().len(), 1);
    Ok(())
}

/// An IN of so many parameters, the first of this number.
fn one_of(alloc: Global, first: u8, count: u8) -> Result<Option<Operands>, OutOfMemory> {
    let mut parts = Vec::new(alloc);
    for i in 0..count {
        parts.push(Operand::Param(first.wrapping_add(i)))?;
    }
    Ok(Operands::of(parts))
}

#[test]
fn an_in_has_one_to_sixteen_operands(rt: HostRuntime) -> Result<(), Fail> {
    let cases = [
        ("no operand", 0, false),
        ("one operand", 1, true),
        ("sixteen operands", 16, true),
        ("seventeen operands", 17, false),
    ];
    for (what, count, made) in cases {
        assert_eq!(rt; one_of(rt.alloc(), 0, count)?.is_some(), made, "{what}");
    }
    Ok(())
}

#[test]
fn eight_full_ins_have_128_parameters(rt: HostRuntime) -> Result<(), Fail> {
    let mut places = Vec::new(rt.alloc());
    places.push(place(rt.alloc(), "t")?.ok_or("no place")?)?;
    let mut preds = Vec::new(rt.alloc());
    for i in 0u8..8 {
        let operands = one_of(rt.alloc(), i.wrapping_mul(16), 16)?.ok_or("no operands")?;
        preds.push(Pred {
            at: at(0, i % 2),
            test: Test::OneOf(operands),
        })?;
    }
    let mut items = Vec::new(rt.alloc());
    items.push(Item::Column(at(0, 0)))?;
    let edges = Vec::new(rt.alloc());
    let groups = Vec::new(rt.alloc());
    let order = Vec::new(rt.alloc());
    let q = Query::make(places, preds, edges, items, groups, order).ok_or("not sound")?;
    assert_eq!(rt; q.kinds().len(), 128);
    assert_eq!(rt; q.kinds().get(15).copied(), Some(Kind::Int));
    assert_eq!(rt; q.kinds().get(16).copied(), Some(Kind::Text));
    assert_eq!(rt; q.kinds().get(127).copied(), Some(Kind::Text));
    Ok(())
}
