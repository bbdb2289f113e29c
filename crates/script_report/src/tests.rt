//! Lines against the commands that they give, and replies against their lines of the report.
use crate::{
    By, Command, Execution, KeptNote, LineFault, Lines, Reply, ShownAnchor, ShownAnchors,
    ShownPlan, ShownPlans, read_line, reply_text,
};
use bound_certificate::Cert;
use plan_costs::{Cell, Potentials};
use plan_trees::Vector;
use row_values::{OutOfMemory, Refusal, SYNTAX, UNKNOWN_TABLE, Value, Words};
use sql_parser::print;
use std::alloc::Global;
use std::test::Fail;

/// Adds the arguments, each behind a space, texts in brackets.
fn push_args(out: &mut String, args: &[Value]) -> Result<(), OutOfMemory> {
    for arg in args {
        match arg {
            Value::Int(number) => write!(out, " {number}")?,
            Value::Text(text) => write!(out, " [{}]", text.as_str())?,
        }
    }
    Ok(())
}

/// A command as a text, names and files in brackets.
fn spelled(alloc: Global, command: &Command) -> Result<String, OutOfMemory> {
    match command {
        Command::Load { table, file } => {
            format!(in alloc; "load [{}] [{}]", table.as_str(), file.as_str())
        }
        Command::Index { table, column } => {
            format!(in alloc; "index [{}] [{}]", table.as_str(), column.as_str())
        }
        Command::Prepare { name, select } => {
            let text = print(alloc, select)?;
            format!(in alloc; "prepare [{}] {}", name.as_str(), text.as_str())
        }
        Command::Run { name, args } => {
            let mut out = format!(in alloc; "run [{}]", name.as_str())?;
            push_args(&mut out, args.as_slice())?;
            Ok(out)
        }
        Command::Cursor { cursor, name, args } => {
            let mut out = format!(in alloc; "cursor [{}] [{}]", cursor.as_str(), name.as_str())?;
            push_args(&mut out, args.as_slice())?;
            Ok(out)
        }
        Command::Fetch { cursor, rows } => {
            format!(in alloc; "fetch [{}] {rows}", cursor.as_str())
        }
        Command::Close { cursor } => format!(in alloc; "close [{}]", cursor.as_str()),
        Command::Evict { name, plan } => format!(in alloc; "evict [{}] {plan}", name.as_str()),
        Command::Show { name } => format!(in alloc; "show [{}]", name.as_str()),
    }
}

/// What a line says, as a text.
fn said(alloc: Global, line: &str) -> Result<String, OutOfMemory> {
    match read_line(alloc, line) {
        Ok(Some(command)) => spelled(alloc, &command),
        Ok(None) => String::from_str(alloc, "nothing"),
        Err(LineFault::Syntax) => String::from_str(alloc, "syntax"),
        Err(LineFault::Memory) => Err(OutOfMemory),
    }
}

#[test]
fn lines_give_commands(rt: HostRuntime) -> Result<(), Fail> {
    let cases = [
        ("an empty line", "", "nothing"),
        ("blanks alone", " \t ", "nothing"),
        ("a comment", "# load t f", "nothing"),
        ("a comment behind blanks", "\t #", "nothing"),
        ("a table and a file", "load t t.csv", "load [t] [t.csv]"),
        (
            "blanks inside a file's name stay, and those at its end go",
            "load t my  file.csv \t",
            "load [t] [my  file.csv]",
        ),
        (
            "a reserved word as a name, in quotes",
            "load \"select\" f",
            "load [select] [f]",
        ),
        (
            "two names, one with a space and a doubled quote",
            "index t \"a \"\"b\"",
            "index [t] [a \"b]",
        ),
        (
            "blanks and tabs around and between",
            " \tprepare\t q \t SELECT v FROM t ; ",
            "prepare [q] SELECT v FROM t",
        ),
        (
            "a CR in a statement is white space",
            "prepare q SELECT v\rFROM t",
            "prepare [q] SELECT v FROM t",
        ),
        (
            "numbers and texts",
            "run q -0 'it''s' \t'a b' 007 ''",
            "run [q] 0 [it's] [a b] 7 []",
        ),
        ("no arguments", "run q", "run [q]"),
        (
            "the least and the greatest number",
            "run q -9223372036854775808 9223372036854775807",
            "run [q] -9223372036854775808 9223372036854775807",
        ),
        ("a cursor", "cursor c q 1 'x'", "cursor [c] [q] 1 [x]"),
        ("one row", "fetch c 1", "fetch [c] 1"),
        ("the most rows", "fetch c 1000000", "fetch [c] 1000000"),
        ("a cursor to close", "close c", "close [c]"),
        (
            "the greatest plan number",
            "evict q 9223372036854775807",
            "evict [q] 9223372036854775807",
        ),
        ("a statement to show", "show q", "show [q]"),
    ];
    for (what, line, want) in cases {
        let text = said(rt.alloc(), line)?;
        assert_eq!(rt; text.as_str(), want, "{what}");
    }
    Ok(())
}

#[test]
fn other_lines_are_syntax(rt: HostRuntime) -> Result<(), Fail> {
    let cases = [
        ("a word that is no command", "frob"),
        ("a command word in capitals", "RUN q"),
        ("a command word that runs into a name", "run\"q\""),
        ("a CR alone", "\r"),
        ("a table with no file", "load t "),
        ("a reserved word as a name", "load select f"),
        ("a digit first in a name", "load 1t f"),
        ("an index with no column", "index t"),
        ("an index with a name more", "index t a b"),
        ("a statement that isn't whole", "prepare q SELECT v FROM"),
        (
            "a name that runs into the statement",
            "prepare \"q\"SELECT v FROM t",
        ),
        ("a text that touches a name", "run q'x'"),
        ("two arguments that touch", "run q 5'x'"),
        ("a name as an argument", "run q v"),
        ("a text that isn't closed", "run q 'x"),
        ("a number above 64 bits", "run q 9223372036854775808"),
        ("a CR between parts", "run q\r5"),
        ("a cursor with no statement", "cursor c 1"),
        ("no rows", "fetch c 0"),
        ("a leading zero", "fetch c 01"),
        ("one row too many", "fetch c 1000001"),
        ("fewer rows than none", "fetch c -1"),
        ("a plus", "fetch c +1"),
        ("two numbers of rows", "fetch c 1 1"),
        ("two cursors", "close a b"),
        (
            "one above the greatest plan number",
            "evict q 9223372036854775808",
        ),
        ("no name", "show"),
    ];
    for (what, line) in cases {
        let text = said(rt.alloc(), line)?;
        assert_eq!(rt; text.as_str(), "syntax", "{what}");
    }
    Ok(())
}

#[test]
fn a_long_line_is_read_in_one_pass(rt: HostRuntime) -> Result<(), Fail> {
    let mut line = String::from_str(rt.alloc(), "run q")?;
    for _ in 0..100_000 {
        line.push_str(" \t 1 'it''s'")?;
    }
    let command = read_line(rt.alloc(), line.as_str())?;
    let Some(Command::Run { name: _, args }) = command else {
        return Err(Fail::from("no run"));
    };
    assert_eq!(rt; args.as_slice().len(), 200_000);
    Ok(())
}

fn words(alloc: Global, text: &str) -> Result<Words, OutOfMemory> {
    Words::of(alloc, text)
}

/// An optimum of one place, without a plan in a wanted order.
fn optimum(alloc: Global, least: u128) -> Result<Cert, OutOfMemory> {
    let mut cells = Vec::new(alloc);
    cells.push(Cell {
        any: least,
        sorted: None,
    })?;
    Ok(Cert::Optimum(Potentials::of(cells, least)))
}

fn vector(at: &[u64]) -> Result<Vector, Fail> {
    Ok(Vector::of(at).ok_or("too many numbers")?)
}

/// The second execution of a statement, at this selectivity vector.
fn execution(
    alloc: Global,
    at: &[u64],
    by: By,
    evicted: Option<(u64, u32)>,
    kept: KeptNote,
    cert: Cert,
) -> Result<Execution, Fail> {
    Ok(Execution {
        name: words(alloc, "my q")?,
        number: 2,
        spelled: words(alloc, "rows(seq(t))")?,
        cost: 340282366920938463463374607431768211455,
        at: vector(at)?,
        by,
        evicted,
        kept,
        cert,
    })
}

fn lines(alloc: Global, texts: &[&str]) -> Result<Lines, OutOfMemory> {
    let mut lines = Lines::new(alloc);
    for text in texts {
        lines.push(words(alloc, text)?)?;
    }
    Ok(lines)
}

fn refused(alloc: Global, code: u8, shown: &str) -> Result<Reply, OutOfMemory> {
    Ok(Reply::Refused(Refusal {
        code,
        shown: words(alloc, shown)?,
    }))
}

fn loaded(alloc: Global) -> Result<Reply, OutOfMemory> {
    Ok(Reply::Loaded {
        table: words(alloc, "order id")?,
        rows: 0,
        columns: 64,
    })
}

fn indexed(alloc: Global) -> Result<Reply, OutOfMemory> {
    Ok(Reply::Indexed {
        table: words(alloc, "order id")?,
        column: words(alloc, "v")?,
    })
}

fn prepared(alloc: Global) -> Result<Reply, OutOfMemory> {
    Ok(Reply::Prepared {
        name: words(alloc, "q")?,
        tables: 5,
        predicates: 3,
        parameters: 4,
    })
}

/// An execution without anchors before it, whose plan is kept.
fn ran_first(alloc: Global) -> Result<Reply, Fail> {
    let execution = Execution {
        name: words(alloc, "q")?,
        number: 1,
        spelled: words(alloc, "rows(seq(t))")?,
        cost: 3298534883328,
        at: vector(&[2])?,
        by: By::Optimum { tried: 0 },
        evicted: None,
        kept: KeptNote::New(1),
        cert: optimum(alloc, 3298534883328)?,
    };
    Ok(Reply::Ran {
        execution,
        rows: lines(alloc, &["row 1", "row 5"])?,
    })
}

/// An execution that reuses a plan by the first check.
fn ran_reusing(alloc: Global) -> Result<Reply, Fail> {
    let by = By::Selectivity { anchor: 1, plan: 7 };
    let cert = Cert::Selectivity(1);
    Ok(Reply::Ran {
        execution: execution(alloc, &[], by, None, KeptNote::Reused, cert)?,
        rows: lines(alloc, &[])?,
    })
}

/// An execution whose plan takes the place of one that is evicted.
fn ran_evicting(alloc: Global) -> Result<Reply, Fail> {
    let by = By::Optimum { tried: 8 };
    let kept = KeptNote::Old(18446744073709551615);
    let at = [1, 18446744073709551615];
    let cert = optimum(alloc, 5)?;
    Ok(Reply::Ran {
        execution: execution(alloc, &at, by, Some((3, 4096)), kept, cert)?,
        rows: lines(alloc, &["row \"x\""])?,
    })
}

/// An execution of which nothing is kept.
fn ran_unkept(alloc: Global) -> Result<Reply, Fail> {
    let by = By::Optimum { tried: 1 };
    let cert = optimum(alloc, 5)?;
    Ok(Reply::Ran {
        execution: execution(alloc, &[2], by, None, KeptNote::Nothing, cert)?,
        rows: lines(alloc, &[])?,
    })
}

/// A cursor whose execution reuses a plan by the second check.
fn opened(alloc: Global) -> Result<Reply, Fail> {
    let by = By::Cost {
        anchor: 1,
        plan: 7,
        tried: 3,
    };
    let cert = Cert::Cost(1);
    Ok(Reply::Opened {
        cursor: words(alloc, "my c")?,
        execution: execution(alloc, &[2], by, None, KeptNote::Reused, cert)?,
    })
}

fn fetched(alloc: Global, rows: &[&str], left: u32) -> Result<Reply, OutOfMemory> {
    Ok(Reply::Fetched {
        cursor: words(alloc, "c")?,
        rows: lines(alloc, rows)?,
        left,
    })
}

fn closed(alloc: Global) -> Result<Reply, OutOfMemory> {
    Ok(Reply::Closed {
        cursor: words(alloc, "c")?,
    })
}

fn evicted(alloc: Global) -> Result<Reply, OutOfMemory> {
    Ok(Reply::Evicted {
        name: words(alloc, "q")?,
        plan: 1,
        anchors: 1,
    })
}

/// A cache of one plan with two anchors.
fn shown(alloc: Global) -> Result<Reply, Fail> {
    let mut plans = ShownPlans::new(alloc);
    plans.push(ShownPlan {
        number: 1,
        uses: 3,
        text: words(alloc, "rows(range(t.v,1))")?,
    })?;
    let mut anchors = ShownAnchors::new(alloc);
    anchors.push(ShownAnchor {
        execution: 1,
        plan: 1,
        uses: 1,
        cost: 230897441832960,
        least: 230897441832960,
        at: vector(&[100, 1])?,
    })?;
    anchors.push(ShownAnchor {
        execution: 3,
        plan: 1,
        uses: 2,
        cost: 9,
        least: 8,
        at: vector(&[7, 2])?,
    })?;
    Ok(Reply::Shown {
        name: words(alloc, "q")?,
        plans,
        anchors,
    })
}

fn shown_empty(alloc: Global) -> Result<Reply, OutOfMemory> {
    Ok(Reply::Shown {
        name: words(alloc, "my q")?,
        plans: ShownPlans::new(alloc),
        anchors: ShownAnchors::new(alloc),
    })
}

#[test]
fn replies_are_spelled(rt: HostRuntime) -> Result<(), Fail> {
    let alloc = rt.alloc();
    let mut replies = Vec::new(alloc);
    replies.push(loaded(alloc)?)?;
    replies.push(indexed(alloc)?)?;
    replies.push(prepared(alloc)?)?;
    replies.push(ran_first(alloc)?)?;
    replies.push(ran_reusing(alloc)?)?;
    replies.push(ran_evicting(alloc)?)?;
    replies.push(ran_unkept(alloc)?)?;
    replies.push(opened(alloc)?)?;
    replies.push(fetched(alloc, &["row 5"], 0)?)?;
    replies.push(fetched(alloc, &[], 2)?)?;
    replies.push(closed(alloc)?)?;
    replies.push(evicted(alloc)?)?;
    replies.push(shown(alloc)?)?;
    replies.push(shown_empty(alloc)?)?;
    replies.push(refused(alloc, SYNTAX, "")?)?;
    replies.push(refused(alloc, UNKNOWN_TABLE, "\"order id\"")?)?;
    replies.push(Reply::Spent)?;
    let cases = [
        (
            "a table with a name in quotes",
            "7 loaded \"order id\" rows 0 columns 64\n",
        ),
        (
            "an indexed column of a table with a name in quotes",
            "7 indexed \"order id\" v\n",
        ),
        (
            "a statement with a plain name",
            "7 prepared q tables 5 predicates 3 parameters 4\n",
        ),
        (
            "a first execution, whose plan is kept as a new one",
            "7 ran q execution 1\n\
             plan rows(seq(t))\n\
             cost 3298534883328\n\
             at 2\n\
             by optimum tried 0\n\
             kept plan 1 new\n\
             cert {\"kind\":\"optimum\",\"least\":\"3298534883328\",\"table\":[{\"any\":\"3298534883328\",\"set\":1,\"sorted\":null}]}\n\
             row 1\n\
             row 5\n\
             end 2\n",
        ),
        (
            "an execution by selectivity, with no selectivities and no rows",
            "7 ran \"my q\" execution 2\n\
             plan rows(seq(t))\n\
             cost 340282366920938463463374607431768211455\n\
             at\n\
             by selectivity 1 plan 7\n\
             cert {\"anchor\":1,\"kind\":\"selectivity\"}\n\
             end 0\n",
        ),
        (
            "an execution that evicts, and adds an anchor to a plan that is there",
            "7 ran \"my q\" execution 2\n\
             plan rows(seq(t))\n\
             cost 340282366920938463463374607431768211455\n\
             at 1 18446744073709551615\n\
             by optimum tried 8\n\
             evicted plan 3 anchors 4096\n\
             kept plan 18446744073709551615\n\
             cert {\"kind\":\"optimum\",\"least\":\"5\",\"table\":[{\"any\":\"5\",\"set\":1,\"sorted\":null}]}\n\
             row \"x\"\n\
             end 1\n",
        ),
        (
            "an execution of which nothing is kept",
            "7 ran \"my q\" execution 2\n\
             plan rows(seq(t))\n\
             cost 340282366920938463463374607431768211455\n\
             at 2\n\
             by optimum tried 1\n\
             kept nothing\n\
             cert {\"kind\":\"optimum\",\"least\":\"5\",\"table\":[{\"any\":\"5\",\"set\":1,\"sorted\":null}]}\n\
             end 0\n",
        ),
        (
            "a cursor with a name in quotes, by cost",
            "7 opened \"my c\" \"my q\" execution 2\n\
             plan rows(seq(t))\n\
             cost 340282366920938463463374607431768211455\n\
             at 2\n\
             by cost 1 plan 7 tried 3\n\
             cert {\"anchor\":1,\"kind\":\"cost\"}\n\
             end\n",
        ),
        (
            "the last row of a cursor",
            "7 fetched c\nrow 5\nend 1 left 0\n",
        ),
        ("no row yet", "7 fetched c\nend 0 left 2\n"),
        ("a closed cursor", "7 closed c\n"),
        (
            "an evicted plan with its anchor",
            "7 evicted q plan 1 anchors 1\n",
        ),
        (
            "a cache of one plan and two anchors",
            "7 shown q plans 1 anchors 2\n\
             plan 1 uses 3 rows(range(t.v,1))\n\
             anchor 1 plan 1 uses 1 cost 230897441832960 least 230897441832960 at 100 1\n\
             anchor 3 plan 1 uses 2 cost 9 least 8 at 7 2\n\
             end\n",
        ),
        (
            "an empty cache",
            "7 shown \"my q\" plans 0 anchors 0\nend\n",
        ),
        ("a refusal that shows nothing", "7 refused 1 syntax\n"),
        (
            "a refusal that shows a name",
            "7 refused 2 unknown table \"order id\"\n",
        ),
        ("want of memory", ""),
    ];
    for ((what, want), reply) in cases.into_iter().zip(replies.iter()) {
        let text = reply_text(alloc, 7, reply)?;
        assert_eq!(rt; text.as_str(), want, "{what}");
    }
    Ok(())
}
