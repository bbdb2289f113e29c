//! The worked examples over memory, each status once, and faults by shelves and sinks that fail where they are told to.
ghost use Rattle.std.specs.Prelude.{◌≤◌};

use super::*;
use crate::job::settings;
use command_words::read_words;
use demo_run::run_demo;
use join_optimizer::Optimizer;
use outside_io::{MemShelf, MemSink, SureShelf, SureSink};
use row_values::OutOfMemory;
use session_engine::Engine;
use std::alloc::Global;
use std::test::Fail;
use weights_file::default_weights;

/// The words `run` and this name.
fn run_words(alloc: Global, name: &str) -> Result<Vec<String>, OutOfMemory> {
    let mut words = Vec::new(alloc);
    words.push(String::from_str(alloc, "run")?)?;
    words.push(String::from_str(alloc, name)?)?;
    Ok(words)
}

/// Whether the job over this script ends so and writes this, where `t.csv` has the numbers 1, 5 and 12 behind a byte
/// order mark.
fn ends_with(
    alloc: Global,
    script: &[u8],
    report: &str,
    want: Status,
) -> Result<bool, OutOfMemory> {
    let mut shelf = SureShelf::new(alloc);
    shelf.put_file("a.scr", script)?;
    shelf.put_file("t.csv", b"\xef\xbb\xbfv\r\n1\r\n5\r\n12\r\n")?;
    let mut sink = SureSink::new(alloc);
    let words = run_words(alloc, "a.scr")?;
    let status = scr(alloc, words.as_slice(), &mut shelf, &mut sink);
    Ok(status == want && sink.taken() == report.as_bytes())
}

#[test]
fn worked_examples(rt: HostRuntime) -> Result<(), Fail> {
    let first = "load t t.csv\nprepare q SELECT v FROM t WHERE v < ?\nrun q 10\n";
    let report = "1 loaded t rows 3 columns 1\n\
         2 prepared q tables 1 predicates 1 parameters 1\n\
         3 ran q execution 1\n\
         plan rows(seq(t))\n\
         cost 3298534883328\n\
         at 2\n\
         by optimum tried 0\n\
         kept plan 1 new\n\
         cert {\"kind\":\"optimum\",\"least\":\"3298534883328\",\
         \"table\":[{\"any\":\"3298534883328\",\"set\":1,\"sorted\":null}]}\n\
         row 1\n\
         row 5\n\
         end 2\n";
    assert!(rt;
        ends_with(rt.alloc(), first.as_bytes(), report, Status::Done)?,
        "byte order mark and CRLF"
    );
    let second =
        "load t t.csv\nfrob\nprepare q SELECT v FROM u WHERE v < ?\nload u none.csv\nindex u v\n";
    let refused = "1 loaded t rows 3 columns 1\n\
         2 refused 1 syntax\n\
         3 refused 2 unknown table u\n\
         4 refused 13 missing file\n\
         5 refused 2 unknown table u\n";
    assert!(rt;
        ends_with(rt.alloc(), second.as_bytes(), refused, Status::DoneRefused)?,
        "refusals"
    );
    Ok(())
}

/// What is written of a script over these files, and the status.
fn run_of(alloc: Global, files: &[(&str, &str)], script: &str) -> Result<(String, Status), Fail> {
    let mut shelf = SureShelf::new(alloc);
    shelf.put_file("a.scr", script.as_bytes())?;
    for (name, text) in files {
        shelf.put_file(name, text.as_bytes())?;
    }
    let mut sink = SureSink::new(alloc);
    let words = run_words(alloc, "a.scr")?;
    let status = scr(alloc, words.as_slice(), &mut shelf, &mut sink);
    let report = str::from_utf8(sink.taken()).map_err(|_| Fail::from("no text"))?;
    Ok((String::from_str(alloc, report)?, status))
}

/// Whether the job over this script and these files ends so and writes this.
fn reports(
    alloc: Global,
    files: &[(&str, &str)],
    script: &str,
    report: &str,
    want: Status,
) -> Result<bool, Fail> {
    let (written, status) = run_of(alloc, files, script)?;
    Ok(status == want && written.as_str() == report)
}

#[test]
fn ends_of_ranges(rt: HostRuntime) -> Result<(), Fail> {
    let files = [(
        "n.csv",
        "v\n5\n5\n7\n-9223372036854775808\n9223372036854775807\n",
    )];
    let cases = [
        (
            "at most",
            "v <= ?",
            "run q 5",
            "parameters 1",
            "at 3",
            "row 5\nrow 5\nrow -9223372036854775808\nend 3\n",
        ),
        (
            "at least",
            "v >= ?",
            "run q 5",
            "parameters 1",
            "at 4",
            "row 5\nrow 5\nrow 7\nrow 9223372036854775807\nend 4\n",
        ),
        (
            "below the least number",
            "v < ?",
            "run q -9223372036854775808",
            "parameters 1",
            "at 1",
            "end 0\n",
        ),
        (
            "ends that cross",
            "v BETWEEN ? AND ?",
            "run q 7 5",
            "parameters 2",
            "at 1",
            "end 0\n",
        ),
        (
            "both ends are taken",
            "v BETWEEN ? AND ?",
            "run q 5 7",
            "parameters 2",
            "at 3",
            "row 5\nrow 5\nrow 7\nend 3\n",
        ),
    ];
    for (what, test, run, parameters, at, rows) in cases {
        let script = format!(in rt.alloc();
            "load t n.csv\nprepare q SELECT v FROM t WHERE {test}\n{run}\n"
        )?;
        let report = format!(in rt.alloc();
            "1 loaded t rows 5 columns 1\n\
             2 prepared q tables 1 predicates 1 {parameters}\n\
             3 ran q execution 1\n\
             plan rows(seq(t))\n\
             cost 5497558138880\n\
             {at}\n\
             by optimum tried 0\n\
             kept plan 1 new\n\
             cert {{\"kind\":\"optimum\",\"least\":\"5497558138880\",\
             \"table\":[{{\"any\":\"5497558138880\",\"set\":1,\"sorted\":null}}]}}\n\
             {rows}"
        )?;
        assert!(rt;
            reports(
                rt.alloc(),
                &files,
                script.as_str(),
                report.as_str(),
                Status::Done
            )?,
            "{what}"
        );
    }
    Ok(())
}

/// So many rows of a number that begins anew after this many, and the row's own number.
pub fn numbered_rows(
    alloc: Global,
    header: &str,
    rows: u64,
    different: u64,
) -> Result<String, OutOfMemory>
    requires { 1 ≤ different }
{
    let mut text = format!(in alloc; "{header}\n")?;
    for row in 0..rows {
        write!(text, "{},{}\n", row % different + 1, row + 1)?;
    }
    Ok(text)
}

#[test]
fn smallest_pair_first_is_not_least(rt: HostRuntime) -> Result<(), Fail> {
    let a = numbered_rows(rt.alloc(), "x,y", 8, 8)?;
    let b = numbered_rows(rt.alloc(), "x,z", 1024, 1024)?;
    let c = numbered_rows(rt.alloc(), "y,z", 1024, 512)?;
    let files = [
        ("a.csv", a.as_str()),
        ("b.csv", b.as_str()),
        ("c.csv", c.as_str()),
    ];
    let script = "load a a.csv\nload b b.csv\nload c c.csv\nindex c y\nindex b z\n\
         prepare q SELECT a.x FROM a, b, c WHERE a.x = b.x AND a.y = c.y AND b.z = c.z\nrun q\n";
    let report = "1 loaded a rows 8 columns 2\n\
         2 loaded b rows 1024 columns 2\n\
         3 loaded c rows 1024 columns 2\n\
         4 indexed c y\n\
         5 indexed b z\n\
         6 prepared q tables 3 predicates 0 parameters 0\n\
         7 ran q execution 1\n\
         plan rows(probe(probe(seq(a),c,2),b,3))\n\
         cost 387045272846336\n\
         at\n\
         by optimum tried 0\n\
         kept plan 1 new\n\
         cert {\"kind\":\"optimum\",\"least\":\"387045272846336\",\
         \"table\":[{\"any\":\"8796093022208\",\"set\":1,\"sorted\":null},\
         {\"any\":\"1125899906842624\",\"set\":2,\"sorted\":null},\
         {\"any\":\"3412884092616704\",\"set\":3,\"sorted\":null},\
         {\"any\":\"1125899906842624\",\"set\":4,\"sorted\":null},\
         {\"any\":\"158329674399744\",\"set\":5,\"sorted\":null},\
         {\"any\":\"7881299347898368\",\"set\":6,\"sorted\":null},\
         {\"any\":\"387045272846336\",\"set\":7,\"sorted\":null}]}\n\
         row 1\nrow 2\nrow 3\nrow 4\nrow 5\nrow 6\nrow 7\nrow 8\nend 8\n";
    assert!(rt;
        reports(rt.alloc(), &files, script, report, Status::Done)?,
        "two probes, not the join of the smallest pair"
    );
    Ok(())
}

/// So many rows, a number from 1 in each.
fn counted_rows(
    alloc: Global,
    header: &str,
    rows: u64,
    before: &str,
    behind: &str,
) -> Result<String, OutOfMemory> {
    let mut text = format!(in alloc; "{header}\n")?;
    for row in 0..rows {
        write!(text, "{before}{}{behind}\n", row + 1)?;
    }
    Ok(text)
}

// Which of several plans of least cost runs is free, so these cases look for lines that every report has.
#[test]
fn costs_and_rows_whatever_the_plan(rt: HostRuntime) -> Result<(), Fail> {
    let k = numbered_rows(rt.alloc(), "v,w", 1000, 1000)?;
    let one = counted_rows(rt.alloc(), "x", 100, "", "")?;
    let b = counted_rows(rt.alloc(), "x,m", 100, "", ",1")?;
    let c = counted_rows(rt.alloc(), "m,y", 100, "1,", "")?;
    let d = counted_rows(rt.alloc(), "y", 100, "", "")?;
    let large = counted_rows(rt.alloc(), "v", 40_000, "", "")?;
    let many = counted_rows(rt.alloc(), "v", 1001, "", "")?;
    let files = [
        ("k.csv", k.as_str()),
        ("a.csv", one.as_str()),
        ("b.csv", b.as_str()),
        ("c.csv", c.as_str()),
        ("d.csv", d.as_str()),
        ("large.csv", large.as_str()),
        ("many.csv", many.as_str()),
        ("l.csv", "k\n1\n1\n2\n"),
        ("r.csv", "k,n\n1,10\n1,20\n3,30\n"),
    ];
    let cases = [
        (
            "an index gives the wanted order, and a sort of 1,000 rows costs more",
            "load t k.csv\nindex t v\nprepare q SELECT v FROM t WHERE w < ? ORDER BY v\nrun q 501\n",
            "plan rows(full(t.v))\ncost 2210018371829760\nat 500\n",
        ),
        (
            "of 50 rows the sort costs less, and the index's plan is kept",
            "load t k.csv\nindex t v\nprepare q SELECT v FROM t WHERE w < ? ORDER BY v\nrun q 501\nrun q 51\n",
            "5 ran q execution 2\nplan rows(sort(seq(t)))\ncost 1649267441664000\nat 50\n\
             by optimum tried 1\nkept plan 1\ncert {\"kind\":\"optimum\",\"least\":\"1649267441664000\",",
        ),
        (
            "an index makes a range cheaper, and clears the cache",
            "load t k.csv\nprepare q SELECT v FROM t WHERE v < ?\nrun q 2\nindex t v\nrun q 2\n",
            "5 ran q execution 2\nplan rows(range(t.v,1))\ncost 13194139533312\nat 1\n\
             by optimum tried 0\nkept plan 2 new\ncert {\"kind\":\"optimum\",\"least\":\"13194139533312\",",
        ),
        (
            "a hash join of two joins",
            "load a a.csv\nload b b.csv\nload c c.csv\nload d d.csv\n\
             prepare q SELECT a.x FROM a, b, c, d WHERE a.x = b.x AND b.m = c.m AND c.y = d.y\nrun q\n",
            "cost 12974237207756800\nat\n",
        ),
        (
            "duplicate join keys",
            "load l l.csv\nload r r.csv\nprepare q SELECT l.k, r.n FROM l, r WHERE l.k = r.k\nrun q\n",
            "row 1,10\nrow 1,20\nrow 1,10\nrow 1,20\nend 4\n",
        ),
        (
            "a table joined with itself",
            "load l l.csv\nprepare q SELECT x.k FROM l AS x, l AS y WHERE x.k = y.k\nrun q\n",
            "row 1\nrow 1\nrow 1\nrow 1\nrow 2\nend 5\n",
        ),
        (
            "keys that don't meet",
            "load l l.csv\nload r r.csv\nprepare q SELECT l.k FROM l, r WHERE l.k = r.n\nrun q\n",
            "\nend 0\n",
        ),
        (
            "a wide statement is refused when it runs",
            "load t large.csv\nprepare q SELECT a.v FROM t a, t b, t c, t d, t e\nrun q\n",
            "2 prepared q tables 5 predicates 0 parameters 0\n3 refused 11 wide e\n",
        ),
        (
            "1,002,001 rows are too many",
            "load t many.csv\nprepare q SELECT a.v FROM t a, t b\nrun q\n",
            "3 refused 12 too many rows\n",
        ),
    ];
    for (what, script, want) in cases {
        let (report, _) = run_of(rt.alloc(), &files, script)?;
        assert!(rt; report.as_str().contains(want), "{what}");
    }
    Ok(())
}

/// A report without its row lines.
fn without_rows(alloc: Global, report: &str) -> Result<String, OutOfMemory> {
    let mut text = String::new(alloc);
    for line in report.lines() {
        if !line.starts_with("row ") {
            write!(text, "{line}\n")?;
        }
    }
    Ok(text)
}

// An index on the numbers 1 to 1000: in units of 2^40 a range of s rows costs 10 + 2s, a scan 1000.
#[test]
fn executions_tell_how_they_got_their_plan(rt: HostRuntime) -> Result<(), Fail> {
    let n = counted_rows(rt.alloc(), "v", 1000, "", "")?;
    let files = [("n.csv", n.as_str())];
    let cases = [
        (
            "reuse by selectivity",
            "run q 101\nrun q 151\n",
            "4 ran q execution 1\n\
             plan rows(range(t.v,1))\n\
             cost 230897441832960\n\
             at 100\n\
             by optimum tried 0\n\
             kept plan 1 new\n\
             cert {\"kind\":\"optimum\",\"least\":\"230897441832960\",\
             \"table\":[{\"any\":\"230897441832960\",\"set\":1,\"sorted\":null}]}\n\
             end 100\n\
             5 ran q execution 2\n\
             plan rows(range(t.v,1))\n\
             cost 340848604610560\n\
             at 150\n\
             by selectivity 1 plan 1\n\
             cert {\"anchor\":1,\"kind\":\"selectivity\"}\n\
             end 150\n",
            Status::Done,
        ),
        (
            "reuse by cost",
            "run q 2\nrun q 5\n",
            "4 ran q execution 1\n\
             plan rows(range(t.v,1))\n\
             cost 13194139533312\n\
             at 1\n\
             by optimum tried 0\n\
             kept plan 1 new\n\
             cert {\"kind\":\"optimum\",\"least\":\"13194139533312\",\
             \"table\":[{\"any\":\"13194139533312\",\"set\":1,\"sorted\":null}]}\n\
             end 1\n\
             5 ran q execution 2\n\
             plan rows(range(t.v,1))\n\
             cost 19791209299968\n\
             at 4\n\
             by cost 1 plan 1 tried 1\n\
             cert {\"anchor\":1,\"kind\":\"cost\"}\n\
             end 4\n",
            Status::Done,
        ),
        (
            "shrinking counts",
            "run q 101\nrun q 5\n",
            "4 ran q execution 1\n\
             plan rows(range(t.v,1))\n\
             cost 230897441832960\n\
             at 100\n\
             by optimum tried 0\n\
             kept plan 1 new\n\
             cert {\"kind\":\"optimum\",\"least\":\"230897441832960\",\
             \"table\":[{\"any\":\"230897441832960\",\"set\":1,\"sorted\":null}]}\n\
             end 100\n\
             5 ran q execution 2\n\
             plan rows(range(t.v,1))\n\
             cost 19791209299968\n\
             at 4\n\
             by optimum tried 1\n\
             kept plan 1\n\
             cert {\"kind\":\"optimum\",\"least\":\"19791209299968\",\
             \"table\":[{\"any\":\"19791209299968\",\"set\":1,\"sorted\":null}]}\n\
             end 4\n",
            Status::Done,
        ),
        (
            "redundant plan, show, its own cost counts",
            "run q 101\nrun q 251\nrun q 601\nshow q\nrun q 1001\n",
            "4 ran q execution 1\n\
             plan rows(range(t.v,1))\n\
             cost 230897441832960\n\
             at 100\n\
             by optimum tried 0\n\
             kept plan 1 new\n\
             cert {\"kind\":\"optimum\",\"least\":\"230897441832960\",\
             \"table\":[{\"any\":\"230897441832960\",\"set\":1,\"sorted\":null}]}\n\
             end 100\n\
             5 ran q execution 2\n\
             plan rows(range(t.v,1))\n\
             cost 560750930165760\n\
             at 250\n\
             by optimum tried 1\n\
             kept plan 1\n\
             cert {\"kind\":\"optimum\",\"least\":\"560750930165760\",\
             \"table\":[{\"any\":\"560750930165760\",\"set\":1,\"sorted\":null}]}\n\
             end 250\n\
             6 ran q execution 3\n\
             plan rows(seq(t))\n\
             cost 1099511627776000\n\
             at 600\n\
             by optimum tried 2\n\
             kept plan 1\n\
             cert {\"kind\":\"optimum\",\"least\":\"1099511627776000\",\
             \"table\":[{\"any\":\"1099511627776000\",\"set\":1,\"sorted\":null}]}\n\
             end 600\n\
             7 shown q plans 1 anchors 3\n\
             plan 1 uses 3 rows(range(t.v,1))\n\
             anchor 1 plan 1 uses 1 cost 230897441832960 least 230897441832960 at 100\n\
             anchor 2 plan 1 uses 1 cost 560750930165760 least 560750930165760 at 250\n\
             anchor 3 plan 1 uses 1 cost 1330409069608960 least 1099511627776000 at 600\n\
             end\n\
             8 ran q execution 4\n\
             plan rows(seq(t))\n\
             cost 1099511627776000\n\
             at 1000\n\
             by optimum tried 3\n\
             kept plan 2 new\n\
             cert {\"kind\":\"optimum\",\"least\":\"1099511627776000\",\
             \"table\":[{\"any\":\"1099511627776000\",\"set\":1,\"sorted\":null}]}\n\
             end 1000\n",
            Status::Done,
        ),
        (
            "evict",
            "run q 2\nevict q 1\nevict q 9\nrun q 2\n",
            "4 ran q execution 1\n\
             plan rows(range(t.v,1))\n\
             cost 13194139533312\n\
             at 1\n\
             by optimum tried 0\n\
             kept plan 1 new\n\
             cert {\"kind\":\"optimum\",\"least\":\"13194139533312\",\
             \"table\":[{\"any\":\"13194139533312\",\"set\":1,\"sorted\":null}]}\n\
             end 1\n\
             5 evicted q plan 1 anchors 1\n\
             6 refused 18 unknown plan 9\n\
             7 ran q execution 2\n\
             plan rows(range(t.v,1))\n\
             cost 13194139533312\n\
             at 1\n\
             by optimum tried 0\n\
             kept plan 2 new\n\
             cert {\"kind\":\"optimum\",\"least\":\"13194139533312\",\
             \"table\":[{\"any\":\"13194139533312\",\"set\":1,\"sorted\":null}]}\n\
             end 1\n",
            Status::DoneRefused,
        ),
    ];
    for (what, lines, replies, want) in cases {
        let script = format!(in rt.alloc();
            "load t n.csv\nindex t v\nprepare q SELECT v FROM t WHERE v < ?\n{lines}"
        )?;
        let report = format!(in rt.alloc();
            "1 loaded t rows 1000 columns 1\n\
             2 indexed t v\n\
             3 prepared q tables 1 predicates 1 parameters 1\n\
             {replies}"
        )?;
        let (written, status) = run_of(rt.alloc(), &files, script.as_str())?;
        let told = without_rows(rt.alloc(), written.as_str())?;
        assert!(rt;
            status == want && told.as_str() == report.as_str(),
            "{what}"
        );
    }
    Ok(())
}

#[test]
fn tables_and_statements(rt: HostRuntime) -> Result<(), Fail> {
    let files = [
        ("t.csv", "v\n1\n5\n12\n"),
        ("bad.csv", "a,b\n1,2\n3\n"),
        ("two.csv", "v,w\n1,2\n"),
        ("seven.csv", "v\n7\n"),
        ("none.csv", "a,b:int\n"),
        (
            "orders.csv",
            "\"order id\",day,town\n7,6,\"Bad \"\"Ems\"\"\"\n8,4,K\u{f6}ln\n",
        ),
    ];
    let cases = [
        (
            "refusals",
            "load t t.csv\n\
             load t bad.csv\n\
             run q 1\n\
             prepare q SELECT w FROM t\n\
             prepare q SELECT v FROM\n\
             prepare q SELECT v FROM t WHERE v < ?\n\
             run q\n\
             run q 'x'\n\
             load t gone.csv\n\
             load t two.csv\n",
            "1 loaded t rows 3 columns 1\n\
             2 refused 15 not a table not csv 2\n\
             3 refused 5 unknown statement q\n\
             4 refused 3 unknown column w\n\
             5 refused 1 syntax\n\
             6 prepared q tables 1 predicates 1 parameters 1\n\
             7 refused 9 argument count 1\n\
             8 refused 10 argument kind 1\n\
             9 refused 13 missing file\n\
             10 refused 16 schema differs t\n",
            Status::DoneRefused,
        ),
        (
            "no data row",
            "load t none.csv\nprepare q SELECT a FROM t WHERE b < ?\nrun q 10\n",
            "1 loaded t rows 0 columns 2\n\
             2 prepared q tables 1 predicates 1 parameters 1\n\
             3 ran q execution 1\n\
             plan rows(seq(t))\n\
             cost 1099511627776\n\
             at 1\n\
             by optimum tried 0\n\
             kept plan 1 new\n\
             cert {\"kind\":\"optimum\",\"least\":\"1099511627776\",\
             \"table\":[{\"any\":\"1099511627776\",\"set\":1,\"sorted\":null}]}\n\
             end 0\n",
            Status::Done,
        ),
        (
            "no parameter",
            "load t t.csv\nprepare p SELECT v FROM t\nrun p\nrun p\n",
            "1 loaded t rows 3 columns 1\n\
             2 prepared p tables 1 predicates 0 parameters 0\n\
             3 ran p execution 1\n\
             plan rows(seq(t))\n\
             cost 3298534883328\n\
             at\n\
             by optimum tried 0\n\
             kept plan 1 new\n\
             cert {\"kind\":\"optimum\",\"least\":\"3298534883328\",\
             \"table\":[{\"any\":\"3298534883328\",\"set\":1,\"sorted\":null}]}\n\
             row 1\n\
             row 5\n\
             row 12\n\
             end 3\n\
             4 ran p execution 2\n\
             plan rows(seq(t))\n\
             cost 3298534883328\n\
             at\n\
             by selectivity 1 plan 1\n\
             cert {\"anchor\":1,\"kind\":\"selectivity\"}\n\
             row 1\n\
             row 5\n\
             row 12\n\
             end 3\n",
            Status::Done,
        ),
        (
            "quoted names",
            "load \"all orders\" orders.csv\n\
             prepare \"by day\" select town, \"order id\" from \"all orders\" as \"o\" where day >= 5 ;\n\
             run \"by day\"\n",
            "1 loaded \"all orders\" rows 2 columns 3\n\
             2 prepared \"by day\" tables 1 predicates 1 parameters 0\n\
             3 ran \"by day\" execution 1\n\
             plan rows(seq(o))\n\
             cost 2199023255552\n\
             at\n\
             by optimum tried 0\n\
             kept plan 1 new\n\
             cert {\"kind\":\"optimum\",\"least\":\"2199023255552\",\
             \"table\":[{\"any\":\"2199023255552\",\"set\":1,\"sorted\":null}]}\n\
             row \"Bad \\\"Ems\\\"\",7\n\
             end 1\n",
            Status::Done,
        ),
        (
            "a reload under a prepared statement",
            "load t t.csv\n\
             prepare q SELECT v FROM t WHERE v < ?\n\
             load t seven.csv\n\
             run q 10\n\
             load t bad.csv\n\
             run q 10\n",
            "1 loaded t rows 3 columns 1\n\
             2 prepared q tables 1 predicates 1 parameters 1\n\
             3 loaded t rows 1 columns 1\n\
             4 ran q execution 1\n\
             plan rows(seq(t))\n\
             cost 1099511627776\n\
             at 1\n\
             by optimum tried 0\n\
             kept plan 1 new\n\
             cert {\"kind\":\"optimum\",\"least\":\"1099511627776\",\
             \"table\":[{\"any\":\"1099511627776\",\"set\":1,\"sorted\":null}]}\n\
             row 7\n\
             end 1\n\
             5 refused 15 not a table not csv 2\n\
             6 ran q execution 2\n\
             plan rows(seq(t))\n\
             cost 1099511627776\n\
             at 1\n\
             by selectivity 1 plan 1\n\
             cert {\"anchor\":1,\"kind\":\"selectivity\"}\n\
             row 7\n\
             end 1\n",
            Status::DoneRefused,
        ),
        (
            "a group, an order, four predicates, a cache shown and emptied, and what isn't built yet",
            "load t t.csv\n\
             prepare g SELECT v, COUNT(*) FROM t GROUP BY v\n\
             run g\n\
             prepare o SELECT v FROM t ORDER BY v DESC\n\
             run o\n\
             prepare four SELECT v FROM t WHERE v < ? AND v < ? AND v < ? AND v < ?\n\
             run four 1 2 3\n\
             index t w\n\
             index s v\n\
             show g\n\
             evict g 1\n\
             cursor c g\n\
             fetch c 1\n\
             close c\n",
            "1 loaded t rows 3 columns 1\n\
             2 prepared g tables 1 predicates 0 parameters 0\n\
             3 ran g execution 1\n\
             plan hash_groups(seq(t))\n\
             cost 9895604649984\n\
             at\n\
             by optimum tried 0\n\
             kept plan 1 new\n\
             cert {\"kind\":\"optimum\",\"least\":\"9895604649984\",\
             \"table\":[{\"any\":\"3298534883328\",\"set\":1,\"sorted\":\"9895604649984\"}]}\n\
             row 1,1\n\
             row 5,1\n\
             row 12,1\n\
             end 3\n\
             4 prepared o tables 1 predicates 0 parameters 0\n\
             5 ran o execution 2\n\
             plan rows(sort(seq(t)))\n\
             cost 9895604649984\n\
             at\n\
             by optimum tried 0\n\
             kept plan 1 new\n\
             cert {\"kind\":\"optimum\",\"least\":\"9895604649984\",\
             \"table\":[{\"any\":\"3298534883328\",\"set\":1,\"sorted\":\"9895604649984\"}]}\n\
             row 12\n\
             row 5\n\
             row 1\n\
             end 3\n\
             6 prepared four tables 1 predicates 4 parameters 4\n\
             7 refused 9 argument count 4\n\
             8 refused 3 unknown column w\n\
             9 refused 2 unknown table s\n\
             10 shown g plans 1 anchors 1\n\
             plan 1 uses 1 hash_groups(seq(t))\n\
             anchor 1 plan 1 uses 1 cost 9895604649984 least 9895604649984 at\n\
             end\n\
             11 evicted g plan 1 anchors 1\n\
             12 opened c g execution 3\n\
             plan hash_groups(seq(t))\n\
             cost 9895604649984\n\
             at\n\
             by optimum tried 0\n\
             kept plan 2 new\n\
             cert {\"kind\":\"optimum\",\"least\":\"9895604649984\",\
             \"table\":[{\"any\":\"3298534883328\",\"set\":1,\"sorted\":\"9895604649984\"}]}\n\
             end\n\
             13 fetched c\n\
             row 1,1\n\
             end 1 left 2\n\
             14 closed c\n",
            Status::DoneRefused,
        ),
        (
            "a cursor outlives load and evict",
            "load t t.csv\n\
             prepare q SELECT v FROM t WHERE v < ?\n\
             cursor c q 10\n\
             fetch c 1\n\
             evict q 1\n\
             load t seven.csv\n\
             fetch c 5\n\
             fetch c 5\n\
             close c\n\
             fetch c 1\n",
            "1 loaded t rows 3 columns 1\n\
             2 prepared q tables 1 predicates 1 parameters 1\n\
             3 opened c q execution 1\n\
             plan rows(seq(t))\n\
             cost 3298534883328\n\
             at 2\n\
             by optimum tried 0\n\
             kept plan 1 new\n\
             cert {\"kind\":\"optimum\",\"least\":\"3298534883328\",\
             \"table\":[{\"any\":\"3298534883328\",\"set\":1,\"sorted\":null}]}\n\
             end\n\
             4 fetched c\n\
             row 1\n\
             end 1 left 1\n\
             5 evicted q plan 1 anchors 1\n\
             6 loaded t rows 1 columns 1\n\
             7 fetched c\n\
             row 5\n\
             end 1 left 0\n\
             8 fetched c\n\
             end 0 left 0\n\
             9 closed c\n\
             10 refused 17 unknown cursor c\n",
            Status::DoneRefused,
        ),
        (
            "cursors that are refused hold nothing",
            "load t t.csv\n\
             prepare q SELECT v FROM t\n\
             cursor c q\n\
             cursor c q\n\
             cursor d z\n\
             cursor d q 1\n\
             fetch d 1\n\
             fetch c 1000000\n\
             close c\n\
             close c\n",
            "1 loaded t rows 3 columns 1\n\
             2 prepared q tables 1 predicates 0 parameters 0\n\
             3 opened c q execution 1\n\
             plan rows(seq(t))\n\
             cost 3298534883328\n\
             at\n\
             by optimum tried 0\n\
             kept plan 1 new\n\
             cert {\"kind\":\"optimum\",\"least\":\"3298534883328\",\
             \"table\":[{\"any\":\"3298534883328\",\"set\":1,\"sorted\":null}]}\n\
             end\n\
             4 refused 6 name taken c\n\
             5 refused 5 unknown statement z\n\
             6 refused 9 argument count 0\n\
             7 refused 17 unknown cursor d\n\
             8 fetched c\n\
             row 1\n\
             row 5\n\
             row 12\n\
             end 3 left 0\n\
             9 closed c\n\
             10 refused 17 unknown cursor c\n",
            Status::DoneRefused,
        ),
        (
            "an IN: two equal operands, none, one of another kind, seventeen",
            "load t t.csv\n\
             prepare q SELECT v FROM t WHERE v IN (?, ?, 7)\n\
             run q 5 5\n\
             run q 5 12\n\
             prepare e SELECT v FROM t WHERE v IN ()\n\
             prepare x SELECT v FROM t WHERE v IN ('x')\n\
             prepare m SELECT v FROM t WHERE v IN (1,2,3,4,5,6,7,8,9,10,11,12,13,14,15,16,17)\n",
            "1 loaded t rows 3 columns 1\n\
             2 prepared q tables 1 predicates 1 parameters 2\n\
             3 ran q execution 1\n\
             plan rows(seq(t))\n\
             cost 3298534883328\n\
             at 1\n\
             by optimum tried 0\n\
             kept plan 1 new\n\
             cert {\"kind\":\"optimum\",\"least\":\"3298534883328\",\
             \"table\":[{\"any\":\"3298534883328\",\"set\":1,\"sorted\":null}]}\n\
             row 5\n\
             end 1\n\
             4 ran q execution 2\n\
             plan rows(seq(t))\n\
             cost 3298534883328\n\
             at 2\n\
             by selectivity 1 plan 1\n\
             cert {\"anchor\":1,\"kind\":\"selectivity\"}\n\
             row 5\n\
             row 12\n\
             end 2\n\
             5 refused 1 syntax\n\
             6 refused 7 misfit v\n\
             7 refused 8 too many operands\n",
            Status::DoneRefused,
        ),
        (
            "statements that can't be bound",
            "load t t.csv\n\
             prepare q SELECT v FROM u\n\
             prepare q SELECT a.v FROM t a, t a\n\
             prepare q SELECT v FROM t a, t b\n\
             prepare q SELECT v FROM t WHERE v = 'x'\n\
             prepare q SELECT SUM(v) FROM t\n\
             prepare q SELECT v FROM t, t a, t b, t c, t d, t e\n\
             prepare q SELECT v FROM t\n\
             prepare q SELECT w FROM u\n",
            "1 loaded t rows 3 columns 1\n\
             2 refused 2 unknown table u\n\
             3 refused 6 name taken a\n\
             4 refused 4 ambiguous v\n\
             5 refused 7 misfit v\n\
             6 refused 19 not grouped SUM(v)\n\
             7 refused 4 ambiguous v\n\
             8 prepared q tables 1 predicates 0 parameters 0\n\
             9 refused 6 name taken q\n",
            Status::DoneRefused,
        ),
    ];
    for (what, script, report, want) in cases {
        assert!(rt;
            reports(rt.alloc(), &files, script, report, want)?,
            "{what}"
        );
    }
    Ok(())
}

/// Whether the 65th table and the 257th statement are refused, and a table that is known is loaded again.
fn refuses_one_more(alloc: Global) -> Result<bool, Fail> {
    let mut script = String::new(alloc);
    let mut report = String::new(alloc);
    for i in 0..64_u64 {
        write!(script, "load t{i} t.csv\n")?;
        write!(report, "{} loaded t{i} rows 1 columns 1\n", i + 1)?;
    }
    script.push_str("load t64 t.csv\nload t0 t.csv\n")?;
    report.push_str("65 refused 20 store limit tables\n66 loaded t0 rows 1 columns 1\n")?;
    for i in 0..256_u64 {
        write!(script, "prepare q{i} SELECT v FROM t{}\n", i % 64)?;
        write!(
            report,
            "{} prepared q{i} tables 1 predicates 0 parameters 0\n",
            i + 67
        )?;
    }
    script.push_str("prepare q256 SELECT v FROM t0\n")?;
    report.push_str("323 refused 20 store limit statements\n")?;
    reports(
        alloc,
        &[("t.csv", "v\n7\n")],
        script.as_str(),
        report.as_str(),
        Status::DoneRefused,
    )
}

#[test]
fn limits(rt: HostRuntime) -> Result<(), Fail> {
    assert!(rt; refuses_one_more(rt.alloc())?);
    Ok(())
}

#[test]
fn statuses(rt: HostRuntime) -> Result<(), Fail> {
    assert!(rt;
        ends_with(rt.alloc(), b"", "", Status::Done)?,
        "an empty script"
    );
    assert!(rt;
        ends_with(rt.alloc(), b"# a comment\r\n \t\n", "", Status::Done)?,
        "no line that gets a reply"
    );
    assert!(rt;
        ends_with(rt.alloc(), b"\xff", "", Status::NotText)?,
        "a byte that is no text"
    );
    assert!(rt;
        ends_with(rt.alloc(), b"# \xc3", "", Status::NotText)?,
        "half a character"
    );
    assert!(rt;
        ends_with(
            rt.alloc(),
            b"\xef\xbb\xbffrob",
            "1 refused 1 syntax\n",
            Status::DoneRefused
        )?,
        "a byte order mark"
    );
    Ok(())
}

/// Whether a script above 16 MiB is too long, one that isn't there is missing, and an option is no script.
fn refuses_scripts(alloc: Global) -> Result<bool, OutOfMemory> {
    let mut shelf = SureShelf::new(alloc);
    shelf.put_file("long.scr", vec![in alloc; b'\n'; 16777217]?.as_slice())?;
    let mut sink = SureSink::new(alloc);
    let long = run_words(alloc, "long.scr")?;
    let too_long = scr(alloc, long.as_slice(), &mut shelf, &mut sink) == Status::TooLong;
    let none = run_words(alloc, "none.scr")?;
    let missing = scr(alloc, none.as_slice(), &mut shelf, &mut sink) == Status::Missing;
    let option = run_words(alloc, "-x")?;
    let usage = scr(alloc, option.as_slice(), &mut shelf, &mut sink) == Status::Usage;
    Ok(too_long && missing && usage && sink.taken().is_empty())
}

#[test]
fn scripts_that_are_not_run(rt: HostRuntime) -> Result<(), Fail> {
    assert!(rt; refuses_scripts(rt.alloc())?);
    Ok(())
}

/// Whether a failing fetch of this number ends the job with a read fault, and this written.
fn read_fails(alloc: Global, call: u64, written: &str) -> Result<bool, OutOfMemory> {
    let mut shelf = MemShelf::new(alloc);
    shelf.put_file("a.scr", b"frob\nload t t.csv\nfrob\n")?;
    shelf.put_file("t.csv", b"v\n1\n")?;
    shelf.fail_at(call)?;
    let mut sink = MemSink::new(alloc);
    let words = run_words(alloc, "a.scr")?;
    let status = scr(alloc, words.as_slice(), &mut shelf, &mut sink);
    Ok(status == Status::ReadFault && sink.taken() == written.as_bytes())
}

/// Whether a put of this number that fails after so many bytes ends the job with a write fault, and this written.
fn write_fails(alloc: Global, call: u64, takes: usize, written: &str) -> Result<bool, OutOfMemory> {
    let mut shelf = MemShelf::new(alloc);
    shelf.put_file("a.scr", b"frob\n\nfrob\n")?;
    let mut sink = MemSink::new(alloc);
    sink.fail_at(call, takes)?;
    let words = run_words(alloc, "a.scr")?;
    let status = scr(alloc, words.as_slice(), &mut shelf, &mut sink);
    Ok(status == Status::WriteFault && sink.taken() == written.as_bytes())
}

#[test]
fn faults(rt: HostRuntime) -> Result<(), Fail> {
    assert!(rt; read_fails(rt.alloc(), 1, "")?, "the script");
    assert!(rt;
        read_fails(rt.alloc(), 2, "1 refused 1 syntax\n")?,
        "the table's file"
    );
    assert!(rt;
        write_fails(rt.alloc(), 1, 0, "")?,
        "the first reply, no byte of it"
    );
    assert!(rt;
        write_fails(rt.alloc(), 1, 4, "1 re")?,
        "the first reply, four bytes of it"
    );
    assert!(rt;
        write_fails(rt.alloc(), 2, 1, "1 refused 1 syntax\n3")?,
        "the second reply, one byte of it"
    );
    assert!(rt;
        write_fails(
            rt.alloc(),
            2,
            100,
            "1 refused 1 syntax\n3 refused 1 syntax\n"
        )?,
        "the second reply, all of it"
    );
    Ok(())
}

/// A shelf with a script whose cursor outlives an eviction and a load, and its tables.
fn cursor_shelf(alloc: Global) -> Result<MemShelf, OutOfMemory> {
    let mut shelf = MemShelf::new(alloc);
    let script =
        "load t t.csv\nprepare q SELECT v FROM t WHERE v < ?\ncursor c q 10\nfetch c 1\nevict q 1\n\
         load t t2.csv\nfetch c 5\nfetch c 5\nclose c\nfetch c 1\n";
    shelf.put_file("a.scr", script.as_bytes())?;
    shelf.put_file("t.csv", b"v\n1\n5\n12\n")?;
    shelf.put_file("t2.csv", b"v\n7\n")?;
    Ok(shelf)
}

/// How many bytes each reply of a report has.
fn reply_lengths(alloc: Global, report: &str) -> Result<Vec<usize>, OutOfMemory> {
    let mut lengths = Vec::new(alloc);
    let mut length: usize = 0;
    for line in report.lines() {
        let is_head = match line.as_bytes() {
            [] => false,
            [byte, ..] => byte.is_ascii_digit(),
        };
        if is_head && length > 0 {
            lengths.push(length)?;
            length = 0;
        }
        length = length.wrapping_add(line.len()).wrapping_add(1);
    }
    lengths.push(length)?;
    Ok(lengths)
}

/// Whether the put of this number that fails after so many bytes ends that job with a write fault, and so many bytes of
/// the report written.
fn put_fails(
    alloc: Global,
    report: &str,
    call: u64,
    takes: usize,
    written: usize,
) -> Result<bool, OutOfMemory> {
    let mut shelf = cursor_shelf(alloc)?;
    let mut sink = MemSink::new(alloc);
    sink.fail_at(call, takes)?;
    let words = run_words(alloc, "a.scr")?;
    let status = scr(alloc, words.as_slice(), &mut shelf, &mut sink);
    let taken = sink.taken();
    Ok(
        status == Status::WriteFault
            && taken.len() == written
            && report.as_bytes().starts_with(taken),
    )
}

#[test]
fn each_put_fails_in_turn(rt: HostRuntime) -> Result<(), Fail> {
    let mut shelf = cursor_shelf(rt.alloc())?;
    let mut sink = MemSink::new(rt.alloc());
    let words = run_words(rt.alloc(), "a.scr")?;
    let status = scr(rt.alloc(), words.as_slice(), &mut shelf, &mut sink);
    assert!(rt;
        status == Status::DoneRefused && shelf.calls() == 3,
        "the script and two tables are fetched"
    );
    let report = str::from_utf8(sink.taken()).map_err(|_| Fail::from("no text"))?;
    let lengths = reply_lengths(rt.alloc(), report)?;
    assert_eq!(rt; lengths.len(), 10, "each line has a reply");
    let mut before: usize = 0;
    for (i, length) in lengths.iter().enumerate() {
        let call = (i as u64).wrapping_add(1);
        for takes in 0..3 {
            let written = before.wrapping_add(takes);
            assert!(rt;
                put_fails(rt.alloc(), report, call, takes, written)?,
                "put {call} after {takes} bytes"
            );
        }
        before = before.wrapping_add(*length);
    }
    Ok(())
}

/// Whether the job over a load, a preparation and a run ends so and writes this first, where the table's file has these
/// bytes.
fn begins_with(
    alloc: Global,
    table: &[u8],
    want: Status,
    report: &str,
) -> Result<bool, OutOfMemory> {
    let mut shelf = MemShelf::new(alloc);
    shelf.put_file(
        "a.scr",
        b"load t t.csv\nprepare q SELECT v FROM t WHERE v < ?\nrun q 10\n",
    )?;
    shelf.put_file("t.csv", table)?;
    let mut sink = MemSink::new(alloc);
    let words = run_words(alloc, "a.scr")?;
    let status = scr(alloc, words.as_slice(), &mut shelf, &mut sink);
    let written = sink.taken().starts_with(report.as_bytes());
    Ok(status == want && written && shelf.calls() == 2)
}

#[test]
fn files_that_are_cut(rt: HostRuntime) -> Result<(), Fail> {
    let none = "1 refused 15 not a table bad header 1\n2 refused 2 unknown table t\n\
                3 refused 5 unknown statement q\n";
    // The bytes of the file, how the job ends, and how its report begins.
    let cases: [(&[u8], Status, &str); 4] = [
        (
            b"\xef\xbb\xbfv\r\n1",
            Status::Done,
            "1 loaded t rows 1 columns 1\n2 prepared q",
        ),
        (
            b"\xef\xbb\xbfv",
            Status::DoneRefused,
            "1 loaded t rows 0 columns 1\n2 prepared q tables 1 predicates 1 parameters 1\n\
             3 refused 10 argument kind 1\n",
        ),
        (b"\xef\xbb", Status::DoneRefused, none),
        (b"", Status::DoneRefused, none),
    ];
    for (table, want, report) in cases {
        assert!(rt; begins_with(rt.alloc(), table, want, report)?, "{table:?}");
    }
    Ok(())
}

/// What the job over these words and files writes, and how it ends.
pub fn job_of(
    alloc: Global,
    words: &[&str],
    files: &[(&str, &str)],
) -> Result<(String, Status), Fail> {
    let mut shelf = SureShelf::new(alloc);
    for (name, text) in files {
        shelf.put_file(name, text.as_bytes())?;
    }
    let mut owned = Vec::new(alloc);
    for word in words {
        owned.push(String::from_str(alloc, word)?)?;
    }
    let mut sink = SureSink::new(alloc);
    let status = scr(alloc, owned.as_slice(), &mut shelf, &mut sink);
    let written = str::from_utf8(sink.taken()).map_err(|_| Fail::from("no text"))?;
    Ok((String::from_str(alloc, written)?, status))
}

#[test]
fn words_and_weights(rt: HostRuntime) -> Result<(), Fail> {
    let run = "load t t.csv\nprepare q SELECT v FROM t WHERE v < ?\nrun q 10\n";
    let long = vec![in rt.alloc(); b' '; 65537]?;
    let long = str::from_utf8(long.as_slice()).map_err(|_| Fail::from("no text"))?;
    let files = [
        ("a.scr", run),
        ("t.csv", "v\n1\n5\n12\n"),
        ("long", long),
        (
            "heavy",
            "{\"row\":3,\"fetch\":2,\"probe\":1,\"hash\":2,\"sort\":1,\"out\":1}",
        ),
        (
            "none",
            "{\"row\":0,\"fetch\":2,\"probe\":1,\"hash\":2,\"sort\":1,\"out\":1}",
        ),
        ("cut", "{\"row\":1"),
    ];
    // The words, how the job ends, and a line of what it writes.
    let cases: [(&[&str], Status, &str); 17] = [
        (&["run", "a.scr"], Status::Done, "cost 3298534883328"),
        (
            &["--weights", "heavy", "run", "a.scr"],
            Status::Done,
            "cost 9895604649984",
        ),
        (
            &["run", "--weights=heavy", "--", "a.scr"],
            Status::Done,
            "cost 9895604649984",
        ),
        (&["run", "a.scr", "--lambda", "1"], Status::Done, "at 2"),
        (
            &["run", "a.scr", "--weights", "none"],
            Status::BadWeights,
            "",
        ),
        (
            &["run", "a.scr", "--weights", "cut"],
            Status::BadWeights,
            "",
        ),
        (&["run", "a.scr", "--weights", "long"], Status::TooLong, ""),
        (&["run", "a.scr", "--weights", "far"], Status::Missing, ""),
        (&["run", "far", "--weights", "cut"], Status::BadWeights, ""),
        (&["run", "far", "--weights", "heavy"], Status::Missing, ""),
        (&["run", "a.scr", "--lambda", "1/2"], Status::Usage, ""),
        (
            &["run", "a.scr", "--keep", "3", "--lambda", "2"],
            Status::Usage,
            "",
        ),
        (&["run", "a.scr", "--budget", "0"], Status::Usage, ""),
        (&["run"], Status::Usage, ""),
        (&["--help"], Status::Usage, ""),
        (&["demo", "1001"], Status::Usage, ""),
        (&[], Status::Usage, ""),
    ];
    for (words, want, line) in cases {
        let (written, status) = job_of(rt.alloc(), words, &files)?;
        let told = if line.is_empty() {
            written.is_empty()
        } else {
            written.lines().any(|one| one == line)
        };
        assert!(rt; status == want && told, "{words:?}");
    }
    Ok(())
}

#[test]
fn settings_of_the_words_count(rt: HostRuntime) -> Result<(), Fail> {
    let n = counted_rows(rt.alloc(), "v", 1000, "", "")?;
    let large = counted_rows(rt.alloc(), "v", 40000, "", "")?;
    let budget = "load t n.csv\nindex t v\nprepare q SELECT v FROM t WHERE v < ?\n\
                  run q 101\nrun q 1001\nevict q 9\n";
    let overflow = "load t l.csv\nprepare q SELECT v FROM t WHERE v < ?\nrun q 2001\nrun q 1001\n";
    let files = [
        ("n.csv", n.as_str()),
        ("l.csv", large.as_str()),
        ("budget", budget),
        ("overflow", overflow),
    ];
    // The words, and lines of the report in this order.
    let cases: [(&[&str], Status, &[&str]); 2] = [
        (
            &["run", "budget", "--budget", "1"],
            Status::DoneRefused,
            &[
                "by optimum tried 0",
                "kept plan 1 new",
                "by optimum tried 1",
                "evicted plan 1 anchors 1",
                "kept plan 2 new",
                "6 refused 18 unknown plan 9",
            ],
        ),
        (
            &["run", "overflow", "--lambda", "9223372036854775807/1"],
            Status::Done,
            &[
                "cost 43980465111040000",
                "at 2000",
                "kept plan 1 new",
                "cost 43980465111040000",
                "at 1000",
                "by optimum tried 1",
                "kept plan 1",
            ],
        ),
    ];
    for (words, want, lines) in cases {
        let (written, status) = job_of(rt.alloc(), words, &files)?;
        let mut left = written.lines();
        let found = lines.iter().all(|line| left.any(|one| one == *line));
        assert!(rt; status == want && found, "{words:?}");
    }
    Ok(())
}

#[test]
fn one_demo(rt: HostRuntime) -> Result<(), Fail> {
    let (written, status) = job_of(rt.alloc(), &["demo", "1"], &[])?;
    let told =
        "executions 1\noptimised 1\nby selectivity 0\nby cost 0\nplans 1\nanchors 1\nrows 10\n";
    assert!(rt; status == Status::Done && written.as_str() == told);
    Ok(())
}

/// Whether sixteen cursors over sixteen versions of one table each keep their rows, whatever is loaded, opened and
/// fetched between, and a seventeenth is refused. Version i has the rows 1 to i.
fn cursors_keep_their_rows(alloc: Global) -> Result<bool, Fail> {
    let mut shelf = SureShelf::new(alloc);
    let mut script = String::from_str(alloc, "load t f1.csv\nprepare q SELECT v FROM t\n")?;
    let mut report = String::from_str(
        alloc,
        "1 loaded t rows 1 columns 1\n2 prepared q tables 1 predicates 0 parameters 0\n",
    )?;
    for i in 1..17u64 {
        let file = counted_rows(alloc, "v", i, "", "")?;
        let name = format!(in alloc; "f{i}.csv")?;
        shelf.put_file(name.as_str(), file.as_bytes())?;
        write!(script, "load t f{i}.csv\ncursor c{i} q\n")?;
        let cost = i * 1099511627776;
        write!(
            report,
            "{} loaded t rows {i} columns 1\n\
             {} opened c{i} q execution {i}\n\
             plan rows(seq(t))\n\
             cost {cost}\n\
             at\n\
             by optimum tried 0\n\
             kept plan {i} new\n\
             cert {{\"kind\":\"optimum\",\"least\":\"{cost}\",\
             \"table\":[{{\"any\":\"{cost}\",\"set\":1,\"sorted\":null}}]}}\n\
             end\n",
            2 * i + 1,
            2 * i + 2
        )?;
    }
    script.push_str("cursor c17 q\n")?;
    report.push_str("35 refused 20 store limit cursors\n")?;
    for i in 1..17u64 {
        write!(script, "fetch c{i} 1\n")?;
        write!(
            report,
            "{} fetched c{i}\nrow 1\nend 1 left {}\n",
            35 + i,
            i - 1
        )?;
    }
    for i in 1..17u64 {
        write!(script, "fetch c{i} 1000000\n")?;
        write!(report, "{} fetched c{i}\n", 51 + i)?;
        for row in 2..i + 1 {
            write!(report, "row {row}\n")?;
        }
        write!(report, "end {} left 0\n", i - 1)?;
    }
    shelf.put_file("a.scr", script.as_bytes())?;
    let mut sink = SureSink::new(alloc);
    let words = run_words(alloc, "a.scr")?;
    let status = scr(alloc, words.as_slice(), &mut shelf, &mut sink);
    Ok(status == Status::DoneRefused && sink.taken() == report.as_bytes())
}

#[test]
fn sixteen_cursors(rt: HostRuntime) -> Result<(), Fail> {
    assert!(rt; cursors_keep_their_rows(rt.alloc())?);
    Ok(())
}

/// Whether the planner was asked as often in a demo of so many runs as executions are told that were optimised.
fn asks_for_optima_alone(alloc: Global, runs: u16) -> Result<bool, Fail> {
    let Some(job) = read_words(alloc, run_words(alloc, "a.scr")?.as_slice())? else {
        return Ok(false);
    };
    let settings = settings(&job.options, default_weights());
    let mut engine = Engine::new(alloc, settings, Optimizer::new());
    let text = run_demo(alloc, &mut engine, runs)?;
    let optimised = format!(in alloc; "optimised {}", engine.optimised())?;
    Ok(text.lines().any(|line| line == optimised.as_str()))
}

#[test]
fn demos_ask_for_optima_alone(rt: HostRuntime) -> Result<(), Fail> {
    assert!(rt; asks_for_optima_alone(rt.alloc(), 50)?);
    Ok(())
}
