//! The drawn tables and runs, against numbers that were worked out apart from the rules of drawing,
//! and the text of a summary.
use crate::{Demo, Summary};
use bound_certificate::Cert;
use plan_trees::Vector;
use row_values::{OutOfMemory, Words};
use script_report::{
    By, Execution, KeptNote, Lines, Reply, ShownAnchor, ShownAnchors, ShownPlan, ShownPlans,
};
use std::alloc::Global;
use std::test::Fail;

#[test]
fn tables_are_drawn_row_by_row(rt: HostRuntime) -> Result<(), Fail> {
    let demo = Demo::new(rt.alloc(), 1)?;
    let cases = [
        (
            "zones",
            "a.csv",
            "id,zone\n1,8\n2,8\n3,3\n4,5\n5,1\n6,7\n",
            "\n500,5\n",
            2900,
        ),
        (
            "an id of a before a day",
            "b.csv",
            "id,aid,day\n1,294,441\n2,485,759\n3,401,211\n4,145,335\n",
            "\n5000,117,579\n",
            62210,
        ),
        (
            "an id of b before a quantity",
            "c.csv",
            "bid,qty\n2295,72\n1818,82\n156,92\n1357,9\n",
            "\n4652,23\n",
            153345,
        ),
    ];
    for (what, name, first, last, count) in cases {
        let file = demo.file(name).ok_or("no file")?;
        assert!(rt; file.starts_with(first.as_bytes()), "{what}");
        assert!(rt; file.ends_with(last.as_bytes()), "{what}");
        assert_eq!(rt; file.len(), count, "{what}");
    }
    assert!(rt; demo.file("d.csv").is_none());
    Ok(())
}

#[test]
fn runs_are_drawn_behind_the_tables(rt: HostRuntime) -> Result<(), Fail> {
    let demo = Demo::new(rt.alloc(), 1000)?;
    let lines = demo.lines();
    assert_eq!(rt; lines.len(), 1008);
    let cases = [
        ("the first line", 0, "load a a.csv"),
        ("the last index", 6, "index c qty"),
        ("the first run", 8, "run q 710 925 96"),
        ("the second run", 9, "run q 488 666 39"),
        ("the greater day drawn first", 11, "run q 87 484 13"),
        ("the last run", 1007, "run q 62 912 12"),
    ];
    for (what, place, want) in cases {
        let line = lines.get(place).ok_or("no line")?;
        assert_eq!(rt; line.as_str(), want, "{what}");
    }
    Ok(())
}

fn words(alloc: Global, text: &str) -> Result<Words, OutOfMemory> {
    Words::of(alloc, text)
}

/// An execution that got its plan so.
fn execution(alloc: Global, by: By) -> Result<Execution, Fail> {
    Ok(Execution {
        name: words(alloc, "q")?,
        number: 1,
        spelled: words(alloc, "rows(seq(t))")?,
        cost: 7,
        at: Vector::of(&[7]).ok_or("too many numbers")?,
        by,
        evicted: None,
        kept: KeptNote::Nothing,
        cert: Cert::Selectivity(1),
    })
}

/// The reply to a run with these rows.
fn ran(alloc: Global, by: By, texts: &[&str]) -> Result<Reply, Fail> {
    let mut rows = Lines::new(alloc);
    for text in texts {
        rows.push(words(alloc, text)?)?;
    }
    Ok(Reply::Ran {
        execution: execution(alloc, by)?,
        rows,
    })
}

/// A cache of one plan with two anchors.
fn shown(alloc: Global) -> Result<Reply, Fail> {
    let mut plans = ShownPlans::new(alloc);
    plans.push(ShownPlan {
        number: 1,
        uses: 3,
        text: words(alloc, "rows(seq(t))")?,
    })?;
    let mut anchors = ShownAnchors::new(alloc);
    for number in 1..=2u64 {
        anchors.push(ShownAnchor {
            execution: number,
            plan: 1,
            uses: 1,
            cost: 7,
            least: 7,
            at: Vector::of(&[7]).ok_or("too many numbers")?,
        })?;
    }
    Ok(Reply::Shown {
        name: words(alloc, "q")?,
        plans,
        anchors,
    })
}

#[test]
fn executions_and_rows_are_counted(rt: HostRuntime) -> Result<(), Fail> {
    let alloc = rt.alloc();
    let mut summary = Summary::new();
    let optimum = By::Optimum { tried: 0 };
    let cost = By::Cost {
        anchor: 1,
        plan: 1,
        tried: 1,
    };
    let selectivity = By::Selectivity { anchor: 1, plan: 1 };
    summary.count(&Reply::Indexed {
        table: words(alloc, "b")?,
        column: words(alloc, "day")?,
    });
    summary.count(&ran(alloc, optimum, &["row 1", "row 2"])?);
    summary.count(&ran(alloc, selectivity, &["row 1"])?);
    summary.count(&ran(alloc, selectivity, &[])?);
    summary.count(&Reply::Opened {
        cursor: words(alloc, "c")?,
        execution: execution(alloc, cost)?,
    });
    let text = summary.text(alloc, &shown(alloc)?)?;
    let want = "executions 4\noptimised 1\nby selectivity 2\nby cost 1\n\
        plans 1\nanchors 2\nrows 3\n";
    assert_eq!(rt; text.as_str(), want, "a run, two reuses and a cursor");
    Ok(())
}
