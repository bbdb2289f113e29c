//! Statements over three tables: what they are bound to, and how each refusal stands against the
//! later ones.
use super::*;
use row_values::{
    ColRef, Column, Item, Kind, Operand, OutOfMemory, Query, Schema, Test, Value, Words,
};
use sql_parser::{Select, parse};
use std::alloc::Global;
use std::test::Fail;

/// Three tables in memory: `t` of two numbers and a text, `u` of a number and a text, `order` of
/// two numbers.
#[derive(Drop)]
struct Tables {
    t: Schema,
    u: Schema,
    order: Schema,
}

impl Schemas for Tables {
    ghost use Rattle.std.specs.Prelude.{◌∷◌, [], codes};

    ghost tables = { λ s. record { name = codes "t"; schema = s.t } ∷ record { name = codes "u"; schema = s.u }
        ∷ record { name = codes "order"; schema = s.order } ∷ [] };

    fn schema(&self, table: &str) -> Option<&Schema> {
        if "t" == table {
            return Some(&self.t);
        }
        if "u" == table {
            return Some(&self.u);
        }
        if "order" == table {
            return Some(&self.order);
        }
        None
    }
}

fn schema(alloc: Global, columns: &[(&str, Kind)]) -> Result<Schema, Fail> {
    let mut made = Vec::new(alloc);
    for (name, kind) in columns {
        made.push(Column {
            name: Words::of(alloc, name)?,
            kind: *kind,
        })?;
    }
    Ok(Schema::of(made).ok_or("no schema")?)
}

fn three_tables(alloc: Global) -> Result<Tables, Fail> {
    Ok(Tables {
        t: schema(
            alloc,
            &[("v", Kind::Int), ("w", Kind::Int), ("name", Kind::Text)],
        )?,
        u: schema(alloc, &[("v", Kind::Int), ("x", Kind::Text)])?,
        order: schema(alloc, &[("order id", Kind::Int), ("Day", Kind::Int)])?,
    })
}

fn push_column(out: &mut String, alloc: Global, at: ColRef) -> Result<(), OutOfMemory> {
    out.push_str(&format!(in alloc; " {}.{}", at.place, at.column)?)?;
    Ok(())
}

fn push_operand(out: &mut String, alloc: Global, operand: &Operand) -> Result<(), OutOfMemory> {
    match operand {
        Operand::Literal(Value::Int(number)) => out.push_str(&format!(in alloc; "{number}")?)?,
        Operand::Literal(Value::Text(text)) => out.push_str(text.as_str())?,
        Operand::Param(number) => out.push_str(&format!(in alloc; "?{number}")?)?,
    }
    Ok(())
}

fn push_test(out: &mut String, alloc: Global, test: &Test) -> Result<(), OutOfMemory> {
    let (sign, operand) = match test {
        Test::Lt(a) => ("<", a),
        Test::Le(a) => ("<=", a),
        Test::Gt(a) => (">", a),
        Test::Ge(a) => (">=", a),
        Test::Eq(a) => ("=", a),
        Test::Between(a, b) => {
            out.push_str(" between ")?;
            push_operand(out, alloc, a)?;
            ("..", b)
        }
        Test::OneOf(operands) => {
            out.push_str(" in")?;
            for a in operands.as_slice() {
                out.push_str(" ")?;
                push_operand(out, alloc, a)?;
            }
            return Ok(());
        }
    };
    out.push_str(sign)?;
    push_operand(out, alloc, operand)
}

fn push_item(out: &mut String, alloc: Global, item: &Item) -> Result<(), OutOfMemory> {
    match item {
        Item::Column(at) => push_column(out, alloc, *at),
        Item::CountAll => out.push_str(" count"),
        Item::Sum(at) => {
            out.push_str(" sum")?;
            push_column(out, alloc, *at)
        }
        Item::Min(at) => {
            out.push_str(" min")?;
            push_column(out, alloc, *at)
        }
        Item::Max(at) => {
            out.push_str(" max")?;
            push_column(out, alloc, *at)
        }
    }
}

/// A bound statement in short: tables and aliases, predicates, edges, items, groups, order.
fn summary(alloc: Global, q: &Query) -> Result<String, OutOfMemory> {
    let mut out = String::new(alloc);
    for place in q.places() {
        out.push_str(&format!(in alloc; "{}:{} ", place.table.as_str(), place.alias.as_str())?)?;
    }
    out.push_str("|")?;
    for pred in q.preds() {
        push_column(&mut out, alloc, pred.at)?;
        push_test(&mut out, alloc, &pred.test)?;
    }
    out.push_str(" |")?;
    for edge in q.edges() {
        push_column(&mut out, alloc, edge.left)?;
        out.push_str(" =")?;
        push_column(&mut out, alloc, edge.right)?;
    }
    out.push_str(" |")?;
    for item in q.items() {
        push_item(&mut out, alloc, item)?;
    }
    out.push_str(" |")?;
    for at in q.groups() {
        push_column(&mut out, alloc, *at)?;
    }
    out.push_str(" |")?;
    for key in q.order() {
        push_column(&mut out, alloc, key.at)?;
        if key.descending {
            out.push_str(" desc")?;
        }
    }
    Ok(out)
}

fn refusal(alloc: Global, fault: &BindFault) -> Result<String, OutOfMemory> {
    let (words, shown) = match fault {
        BindFault::UnknownTable(shown) => ("unknown table", shown),
        BindFault::AliasTwice(shown) => ("alias twice", shown),
        BindFault::UnknownColumn(shown) => ("unknown column", shown),
        BindFault::Ambiguous(shown) => ("ambiguous", shown),
        BindFault::Misfit(shown) => ("misfit", shown),
        BindFault::TooMany(shown) => ("too many", shown),
        BindFault::NotGrouped(shown) => ("not grouped", shown),
        BindFault::SumOfText(shown) => ("sum of text", shown),
        BindFault::Memory => return Err(OutOfMemory),
    };
    format!(in alloc; "{words} {}", shown.as_str())
}

/// What binding the text gives, in short.
fn bound(alloc: Global, text: &str) -> Result<String, Fail> {
    let s: Select = parse(alloc, text)?;
    let tables = three_tables(alloc)?;
    match bind(alloc, &s, &tables) {
        Ok(q) => Ok(summary(alloc, &q)?),
        Err(fault) => Ok(refusal(alloc, &fault)?),
    }
}

/// Whether the text is bound.
fn is_bound(alloc: Global, text: &str) -> Result<bool, Fail> {
    let s: Select = parse(alloc, text)?;
    let tables = three_tables(alloc)?;
    Ok(bind(alloc, &s, &tables).is_ok())
}

#[test]
fn names_become_numbers(rt: HostRuntime) -> Result<(), Fail> {
    let cases = [
        ("one column", "SELECT v FROM t", "t:t | | | 0.0 | |"),
        (
            "quoted names, case kept",
            "select o.\"Day\" from \"order\" o where \"order id\" >= 5",
            "order:o | 0.0>=5 | | 0.1 | |",
        ),
        (
            "aliases that are other tables' names",
            "SELECT u.w FROM t AS u, u AS t WHERE t.x = 'a'",
            "t:u u:t | 1.1=a | | 0.1 | |",
        ),
        (
            "one table twice",
            "SELECT b.w FROM t a, t b WHERE a.v = b.w",
            "t:a t:b | | 0.0 = 1.1 | 1.1 | |",
        ),
        (
            "a plain name that one place has",
            "SELECT w, x FROM u, t",
            "u:u t:t | | | 1.1 0.1 | |",
        ),
        (
            "parameters in text order, predicates and edges apart",
            "SELECT b.v FROM t a, t b WHERE b.v < ? AND a.v = b.v AND a.w BETWEEN 3 AND ? AND b.w BETWEEN ? AND ? AND a.v > ?",
            "t:a t:b | 1.0<?0 0.1 between 3..?1 1.1 between ?2..?3 0.0>?4 | 0.0 = 1.0 | 1.0 | |",
        ),
        (
            "an IN, its parameters numbered with the others",
            "SELECT v FROM t WHERE v IN (?, 3) AND name IN ('x', ?, ?) AND w < ?",
            "t:t | 0.0 in ?0 3 0.2 in x ?1 ?2 0.1<?3 | | 0.0 | |",
        ),
        (
            "conditions of a join stand before those of WHERE",
            "SELECT w FROM t JOIN u ON u.v <= ? AND t.v = u.v WHERE t.v = ?",
            "t:t u:u | 1.0<=?0 0.0=?1 | 0.0 = 1.0 | 0.1 | |",
        ),
        (
            "groups, and an order on one of them",
            "SELECT w, COUNT(*), SUM(v), MIN(name), MAX(t.v) FROM t GROUP BY name, w ORDER BY w DESC, name",
            "t:t | | | 0.1 count sum 0.0 min 0.2 max 0.0 | 0.2 0.1 | 0.1 desc 0.2",
        ),
        (
            "a column is grouped however it is spelled",
            "SELECT t.v FROM t GROUP BY v, v ORDER BY t.v, v",
            "t:t | | | 0.0 | 0.0 0.0 | 0.0 0.0",
        ),
        (
            "sixteen items",
            "SELECT v, v, v, v, v, v, v, v, v, v, v, v, v, v, v, w FROM t",
            "t:t | | | 0.0 0.0 0.0 0.0 0.0 0.0 0.0 0.0 0.0 0.0 0.0 0.0 0.0 0.0 0.0 0.1 | |",
        ),
        (
            "five places",
            "SELECT a.v FROM t a, t b, t c, t d, t e",
            "t:a t:b t:c t:d t:e | | | 0.0 | |",
        ),
    ];
    for (what, text, want) in cases {
        assert_eq!(rt; bound(rt.alloc(), text)?.as_str(), want, "{what}");
    }
    Ok(())
}

#[test]
fn the_first_refusal_counts(rt: HostRuntime) -> Result<(), Fail> {
    let cases = [
        (
            "the first of two unknown tables",
            "SELECT p FROM y, x, y",
            "unknown table y",
        ),
        ("case counts", "SELECT v FROM T", "unknown table T"),
        (
            "a quoted table",
            "SELECT v FROM t, \"a b\"",
            "unknown table \"a b\"",
        ),
        (
            "an unknown table behind a repeated alias",
            "SELECT v FROM t a, t a, x",
            "unknown table x",
        ),
        (
            "one table twice without aliases",
            "SELECT v FROM t, t",
            "alias twice t",
        ),
        (
            "the first alias that comes again",
            "SELECT v FROM t a, t b, u b, u a",
            "alias twice b",
        ),
        (
            "a repeated alias and an unknown column",
            "SELECT p FROM t a, u a",
            "alias twice a",
        ),
        (
            "an item, before a condition",
            "SELECT p FROM t WHERE q < 1",
            "unknown column p",
        ),
        (
            "a condition, before GROUP BY",
            "SELECT v FROM t WHERE q < 1 GROUP BY p",
            "unknown column q",
        ),
        (
            "GROUP BY, before ORDER BY",
            "SELECT v FROM t GROUP BY p ORDER BY q",
            "unknown column p",
        ),
        (
            "a key",
            "SELECT v FROM t ORDER BY v, q DESC",
            "unknown column q",
        ),
        (
            "the right side of an edge",
            "SELECT w FROM t, u WHERE t.v = u.w",
            "unknown column u.w",
        ),
        (
            "the column of an aggregate",
            "SELECT SUM(V) FROM t",
            "unknown column V",
        ),
        (
            "a table's name behind its alias",
            "SELECT t.v FROM t a",
            "unknown column t.v",
        ),
        (
            "a reserved word",
            "SELECT t.\"Select\" FROM t",
            "unknown column t.\"Select\"",
        ),
        (
            "an unknown column behind an ambiguous one",
            "SELECT v FROM t, u WHERE p < 1",
            "unknown column p",
        ),
        (
            "a column of two places",
            "SELECT t.v FROM t, u ORDER BY w, v",
            "ambiguous v",
        ),
        (
            "an ambiguous column behind a misfit",
            "SELECT w FROM t, u WHERE t.v = 'a' AND v < 1",
            "ambiguous v",
        ),
        (
            "a text against numbers",
            "SELECT v FROM t WHERE t.v = 'a'",
            "misfit t.v",
        ),
        (
            "a number against texts",
            "SELECT v FROM t WHERE v < 1 AND name < 5",
            "misfit name",
        ),
        (
            "one end of BETWEEN",
            "SELECT v FROM t WHERE name BETWEEN ? AND 5",
            "misfit name",
        ),
        (
            "a text in an IN over whole numbers",
            "SELECT v FROM t WHERE v IN ('x')",
            "misfit v",
        ),
        (
            "a number behind a parameter in an IN over texts",
            "SELECT v FROM t WHERE name IN (?, 'x', 3)",
            "misfit name",
        ),
        (
            "a misfit in an IN of seventeen operands",
            "SELECT v FROM t WHERE v IN (1,2,3,4,5,6,7,8,9,10,11,12,13,14,15,16,'x')",
            "misfit v",
        ),
        (
            "seventeen operands, before seventeen items",
            "SELECT v,v,v,v,v,v,v,v,v,v,v,v,v,v,v,v,w FROM t WHERE v IN (1,2,3,4,5,6,7,8,9,?,11,12,13,14,15,16,?)",
            "too many operands",
        ),
        (
            "an edge of two kinds",
            "SELECT w FROM t, u WHERE t.v = u.x",
            "misfit t.v",
        ),
        (
            "an edge within one place",
            "SELECT v FROM t WHERE w = v",
            "misfit w",
        ),
        (
            "a misfit among six places",
            "SELECT a.v FROM t a, t b, t c, t d, t e, t f WHERE b.v = 'a'",
            "misfit b.v",
        ),
        (
            "seventeen items",
            "SELECT v, v, v, v, v, v, v, v, v, v, v, v, v, v, v, v, w FROM t",
            "too many items",
        ),
        (
            "six places",
            "SELECT a.v FROM t a, t b, t c, t d, t e, t f",
            "too many tables",
        ),
        (
            "nine keys and an aggregate",
            "SELECT COUNT(*) FROM t ORDER BY v, v, v, v, v, v, v, v, v",
            "too many keys",
        ),
        (
            "aggregates without GROUP BY",
            "SELECT v, COUNT(*), MIN(v) FROM t",
            "not grouped COUNT(*)",
        ),
        (
            "a MIN without GROUP BY",
            "SELECT MIN(t.\"v\") FROM t",
            "not grouped MIN(t.v)",
        ),
        (
            "an item, before a key",
            "SELECT w, t.v FROM t GROUP BY w ORDER BY name",
            "not grouped t.v",
        ),
        (
            "a key",
            "SELECT w FROM t GROUP BY w ORDER BY w, t.v DESC",
            "not grouped t.v",
        ),
        (
            "a column of another place",
            "SELECT b.v FROM t a, t b GROUP BY a.v",
            "not grouped b.v",
        ),
        (
            "a sum of texts behind an item",
            "SELECT SUM(name), v FROM t GROUP BY w",
            "not grouped v",
        ),
        (
            "a sum of texts",
            "SELECT SUM(v), SUM(t.name) FROM t GROUP BY w",
            "sum of text t.name",
        ),
    ];
    for (what, text, want) in cases {
        assert_eq!(rt; bound(rt.alloc(), text)?.as_str(), want, "{what}");
    }
    Ok(())
}

/// The first piece once, and the next so many times.
fn repeated(alloc: Global, first: &str, next: &str, count: usize) -> Result<String, OutOfMemory> {
    let mut out = String::from_str(alloc, first)?;
    for _ in 0..count {
        out.push_str(next)?;
    }
    Ok(out)
}

#[test]
fn limits_are_met_and_not_passed(rt: HostRuntime) -> Result<(), Fail> {
    let cases = [
        (
            8,
            "SELECT v FROM t WHERE v < ?",
            " AND v < ?",
            "too many predicates",
        ),
        (
            8,
            "SELECT v FROM t WHERE v < ?",
            " AND v BETWEEN ? AND ?",
            "too many predicates",
        ),
        (
            32,
            "SELECT v FROM t WHERE v < 1",
            " AND v < 1",
            "too many conditions",
        ),
        (8, "SELECT v FROM t GROUP BY v", ", v", "too many keys"),
        (8, "SELECT v FROM t ORDER BY v", ", v", "too many keys"),
    ];
    for (limit, first, next, want) in cases {
        let met = repeated(rt.alloc(), first, next, limit - 1)?;
        assert_eq!(rt; is_bound(rt.alloc(), met.as_str())?, true, "{want}");
        let past = repeated(rt.alloc(), first, next, limit)?;
        assert_eq!(rt; bound(rt.alloc(), past.as_str())?.as_str(), want, "{want}");
    }
    Ok(())
}

#[test]
fn an_in_is_one_predicate_of_at_most_sixteen_operands(rt: HostRuntime) -> Result<(), Fail> {
    let cases = [
        ("sixteen parameters", 15, "", 0, ""),
        ("seventeen parameters", 16, "", 0, "too many operands"),
        ("eight predicates", 15, " AND w IN (?, 1)", 7, ""),
        (
            "nine predicates",
            15,
            " AND w IN (?, 1)",
            8,
            "too many predicates",
        ),
        (
            "seventeen operands in one of nine",
            16,
            " AND w IN (?, 1)",
            8,
            "too many predicates",
        ),
        (
            "seventeen operands in one of 33",
            16,
            " AND w IN (1, 2)",
            32,
            "too many conditions",
        ),
    ];
    for (what, more, next, count, want) in cases {
        let mut text = repeated(rt.alloc(), "SELECT v FROM t WHERE v IN (?", ", ?", more)?;
        text.push_str(")")?;
        text.push_str(repeated(rt.alloc(), "", next, count)?.as_str())?;
        if want.is_empty() {
            assert!(rt; is_bound(rt.alloc(), text.as_str())?, "{what}");
        } else {
            assert_eq!(rt; bound(rt.alloc(), text.as_str())?.as_str(), want, "{what}");
        }
    }
    Ok(())
}
