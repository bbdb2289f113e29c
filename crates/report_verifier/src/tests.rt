//! Scripts and reports against what the walk ends with. The numbers are worked out by hand, with the weights that the
//! program has by default: a row weighs 1, a fetched row 2, a descent's step 1, a hashed row 2, a comparison 1, a row
//! out 1.
ghost use Rattle.std.specs.Prelude.{◌≡◌, ◌<◌, ◌≤◌, IfOk};

use crate::{Stop, Verification, Verifier, verification_text};
use fraction_math::Ratio;
use plan_trees::Weights;
use report_items::read_report;
use row_values::{OutOfMemory, Words};
use script_report::{Command, read_line};
use std::alloc::Global;
use std::test::Fail;

const USUAL: Weights = Weights {
    row: 1,
    fetch: 2,
    probe: 1,
    hash: 2,
    sort: 1,
    out: 1,
};

/// More lines than a script here has.
const LINES: u64 = 100;

/// The files that scripts load.
#[derive(Drop)]
struct Shelf {
    three: String,
    thousand: String,
    more: String,
    few: String,
    many: String,
    twice: String,
}

/// A column of the numbers from 1 on.
fn numbers(alloc: Global, rows: u32) -> Result<String, OutOfMemory> {
    let mut out = String::from_str(alloc, "v\n")?;
    for row in 0..rows {
        write!(out, "{}\n", row + 1)?;
    }
    Ok(out)
}

/// Two columns: numbers that begin again after so many rows, and the numbers from 1 on.
fn pairs(alloc: Global, header: &str, rows: u32, period: u32) -> Result<String, OutOfMemory>
    requires { 0 < period }
{
    let mut out = format!(in alloc; "{header}\n")?;
    for row in 0..rows {
        write!(out, "{},{}\n", row % period + 1, row + 1)?;
    }
    Ok(out)
}

impl Shelf {
    fn new(alloc: Global) -> Result<Shelf, OutOfMemory> {
        Ok(Shelf {
            three: String::from_str(alloc, "v\n1\n5\n12\n")?,
            thousand: numbers(alloc, 1000)?,
            more: numbers(alloc, 1001)?,
            few: pairs(alloc, "x,y", 8, 8)?,
            many: pairs(alloc, "x,z", 1024, 1024)?,
            twice: pairs(alloc, "y,z", 1024, 512)?,
        })
    }

    fn file(&self, name: &Words) -> Option<&[u8]> {
        match name.as_str() {
            "t.csv" => Some(self.three.as_str().as_bytes()),
            "n.csv" => Some(self.thousand.as_str().as_bytes()),
            "m.csv" => Some(self.more.as_str().as_bytes()),
            "a.csv" => Some(self.few.as_str().as_bytes()),
            "b.csv" => Some(self.many.as_str().as_bytes()),
            "c.csv" => Some(self.twice.as_str().as_bytes()),
            _ => None,
        }
    }

    /// The file that a command asks for.
    fn fetched(&self, command: &Command) -> Option<&[u8]> {
        match command {
            Command::Load { table: _, file } => self.file(file),
            _ => None,
        }
    }
}

/// What the walk over the script ends with; a line that is none of the language stops the test.
fn walked(
    verifier: &mut Verifier,
    alloc: Global,
    shelf: &Shelf,
    script: &str,
) -> Result<Verification, Fail>
    requires { verifier.old.catalog.versions ≡ 0 }
{
    let mut number: u64 = 0;
    for line in script.lines() {
        if number >= LINES {
            return Err(Fail::from("too many lines"));
        }
        number += 1;
        let Ok(Some(command)) = read_line(alloc, line) else {
            return Err(Fail::from("no command"));
        };
        match verifier.check(number, &command, shelf.fetched(&command)) {
            Ok(()) => (),
            Err(Stop::Rejected(rejection)) => return Ok(Verification::Rejected(rejection)),
            Err(Stop::Memory) => return Err(Fail::from("out of memory")),
        }
    }
    Ok(verifier.finish())
}

/// The line that is written of the report, under this lambda.
fn verified(
    alloc: Global,
    shelf: &Shelf,
    script: &str,
    report: &str,
    lambda: Ratio,
) -> Result<Words, Fail>
    requires { lambda.den ≤ lambda.num }
{
    let items = read_report(alloc, report)?;
    let mut verifier = Verifier::new(alloc, lambda, USUAL, items);
    let verification = walked(&mut verifier, alloc, shelf, script)?;
    let text = verification_text(alloc, verification)?;
    Ok(text)
}

/// A lambda of so many.
fn lambda_of(num: u64) -> Result<Ratio, Fail>
    ensures { IfOk result (λ lambda. lambda.den ≤ lambda.num) }
{
    match Ratio::new(num, 1) {
        Some(lambda) => Ok(lambda),
        None => Err(Fail::from("no ratio")),
    }
}

/// A certificate of one cell.
fn optimum(alloc: Global, any: u64, least: u64) -> Result<String, OutOfMemory> {
    format!(in alloc;
        "cert {{\"kind\":\"optimum\",\"least\":\"{least}\",\"table\":\
            [{{\"any\":\"{any}\",\"set\":1,\"sorted\":null}}]}}\n"
    )
}

const SCAN: &str = "load t t.csv\nprepare q SELECT v FROM t WHERE v < ?\nrun q 10\n";

const SCAN_HEAD: &str = "3 ran q execution 1\n";

const SCAN_PLAN: &str = "plan rows(seq(t))\n";

const SCAN_COST: &str = "cost 3298534883328\n";

const SCAN_CERT: &str = "cert {\"kind\":\"optimum\",\"least\":\"3298534883328\",\"table\":\
    [{\"any\":\"3298534883328\",\"set\":1,\"sorted\":null}]}\n";

/// The block of a scan of three rows, of these lines.
fn block(
    alloc: Global,
    head: &str,
    plan: &str,
    cost: &str,
    cert: &str,
) -> Result<String, OutOfMemory> {
    format!(in alloc; "{head}{plan}{cost}at 2\nby optimum tried 0\n{cert}row 1\nrow 5\nend 2\n")
}

/// What is written of a scan's report with a block of these lines.
fn scanned(
    alloc: Global,
    shelf: &Shelf,
    head: &str,
    plan: &str,
    cost: &str,
    cert: &str,
) -> Result<Words, Fail> {
    let report = block(alloc, head, plan, cost, cert)?;
    let line = verified(alloc, shelf, SCAN, report.as_str(), lambda_of(2)?)?;
    Ok(line)
}

#[test]
fn a_block_is_for_its_line(rt: HostRuntime) -> Result<(), Fail> {
    let alloc = rt.alloc();
    let shelf = Shelf::new(alloc)?;
    let cases = [
        (
            "as a run writes it",
            SCAN_HEAD,
            "verified 1 executions 0 too large\n",
        ),
        (
            "said to be a cursor's",
            "3 opened c q execution 1\n",
            "verified 1 executions 0 too large\n",
        ),
        (
            "heads of other lines before it",
            "1 loaded t rows 9 columns 9\n2 refused 1 syntax\n3 ran q execution 1\r\n",
            "verified 1 executions 0 too large\n",
        ),
        (
            "another line",
            "2 ran q execution 1\n",
            "rejected 3 block\n",
        ),
        (
            "another statement",
            "3 ran r execution 1\n",
            "rejected 3 block\n",
        ),
        (
            "another execution",
            "3 ran q execution 2\n",
            "rejected 3 block\n",
        ),
        ("no head", "", "rejected 3 block\n"),
        (
            "too many rows before it",
            "3 refused 12 too many rows\n3 ran q execution 1\n",
            "rejected 0 block\n",
        ),
        (
            "too many rows of another line",
            "2 refused 12 too many rows\n",
            "rejected 3 block\n",
        ),
    ];
    for (what, head, line) in cases {
        let found = scanned(alloc, &shelf, head, SCAN_PLAN, SCAN_COST, SCAN_CERT)?;
        assert_eq!(rt; found.as_str(), line, "{what}");
    }
    let one = block(alloc, SCAN_HEAD, SCAN_PLAN, SCAN_COST, SCAN_CERT)?;
    let doubled = format!(in alloc; "{}{}", one.as_str(), one.as_str())?;
    let reports = [
        ("an empty report", "", "rejected 3 block\n"),
        (
            "a block that is left",
            doubled.as_str(),
            "rejected 0 block\n",
        ),
        (
            "too many rows, as it is said",
            "3 refused 12 too many rows\n",
            "verified 0 executions 1 too large\n",
        ),
    ];
    for (what, report, line) in reports {
        let found = verified(alloc, &shelf, SCAN, report, lambda_of(2)?)?;
        assert_eq!(rt; found.as_str(), line, "{what}");
    }
    Ok(())
}

#[test]
fn texts_are_read_in_their_order(rt: HostRuntime) -> Result<(), Fail> {
    let alloc = rt.alloc();
    let shelf = Shelf::new(alloc)?;
    let none = "cert no\n";
    let cases = [
        (
            "CR before LF",
            "plan rows(seq(t))\r\n",
            "cost 3298534883328\r\n",
            SCAN_CERT,
            "verified 1 executions 0 too large\n",
        ),
        (
            "no spelling of a plan",
            "plan rows(seq(u))\n",
            "cost no\n",
            none,
            "rejected 3 bad plan\n",
        ),
        (
            "a space in the plan",
            "plan rows( seq(t))\n",
            SCAN_COST,
            SCAN_CERT,
            "rejected 3 bad plan\n",
        ),
        (
            "a plan that isn't valid",
            "plan rows(full(t.v))\n",
            SCAN_COST,
            SCAN_CERT,
            "rejected 3 bad plan\n",
        ),
        (
            "a zero before the cost",
            SCAN_PLAN,
            "cost 03298534883328\n",
            none,
            "rejected 3 bad cost\n",
        ),
        (
            "a sign before the cost",
            SCAN_PLAN,
            "cost +3298534883328\n",
            none,
            "rejected 3 bad cost\n",
        ),
        (
            "a cost of 129 bits",
            SCAN_PLAN,
            "cost 340282366920938463463374607431768211456\n",
            none,
            "rejected 3 bad cost\n",
        ),
        (
            "no certificate, and a plan that isn't valid",
            "plan rows(full(t.v))\n",
            "cost 0\n",
            none,
            "rejected 3 block\n",
        ),
        (
            "another cost",
            SCAN_PLAN,
            "cost 3298534883327\n",
            SCAN_CERT,
            "rejected 3 bad cost\n",
        ),
    ];
    for (what, plan, cost, cert, line) in cases {
        let found = scanned(alloc, &shelf, SCAN_HEAD, plan, cost, cert)?;
        assert_eq!(rt; found.as_str(), line, "{what}");
    }
    Ok(())
}

#[test]
fn certificates_are_judged(rt: HostRuntime) -> Result<(), Fail> {
    let alloc = rt.alloc();
    let shelf = Shelf::new(alloc)?;
    let low = optimum(alloc, 3298534883327, 3298534883327)?;
    let low_number = optimum(alloc, 3298534883328, 3298534883327)?;
    let high = optimum(alloc, 3298534883329, 3298534883328)?;
    let cases = [
        (
            "white space and another order",
            "cert  {\"table\": [ {\"set\":1, \"sorted\":null, \"any\":\"3298534883328\"} ],\t\
                \"kind\":\"optimum\",\"least\":\"3298534883328\"} \r\n",
            "verified 1 executions 0 too large\n",
        ),
        ("none", "", "rejected 3 block\n"),
        (
            "one that is cut",
            "cert {\"anchor\":1,\n",
            "rejected 3 block\n",
        ),
        (
            "another member",
            "cert {\"anchor\":1,\"kind\":\"cost\",\"set\":1}\n",
            "rejected 3 block\n",
        ),
        (
            "a cell and the number too low",
            low.as_str(),
            "rejected 3 not least\n",
        ),
        (
            "the number too low",
            low_number.as_str(),
            "rejected 3 not least\n",
        ),
        ("a cell too high", high.as_str(), "rejected 3 bad table 1\n"),
        (
            "no cell",
            "cert {\"kind\":\"optimum\",\"least\":\"3298534883328\",\"table\":[]}\n",
            "rejected 3 bad table 0\n",
        ),
        (
            "an optimum that nobody told",
            "cert {\"anchor\":1,\"kind\":\"selectivity\"}\n",
            "rejected 3 unknown anchor 1\n",
        ),
    ];
    for (what, cert, line) in cases {
        let found = scanned(alloc, &shelf, SCAN_HEAD, SCAN_PLAN, SCAN_COST, cert)?;
        assert_eq!(rt; found.as_str(), line, "{what}");
    }
    Ok(())
}

/// A block of a range scan of a thousand rows by this certificate.
fn range_block(alloc: Global, head: &str, cost: u64, cert: &str) -> Result<String, OutOfMemory> {
    format!(in alloc; "{head}\nplan rows(range(t.v,1))\ncost {cost}\n{cert}end\n")
}

#[test]
fn reuses_rest_on_what_was_accepted(rt: HostRuntime) -> Result<(), Fail> {
    let alloc = rt.alloc();
    let shelf = Shelf::new(alloc)?;
    let script =
        "load t n.csv\nindex t v\nprepare q SELECT v FROM t WHERE v < ?\nrun q 101\nrun q 151\n";
    let reuse = "cert {\"anchor\":1,\"kind\":\"selectivity\"}\n";
    let least = optimum(alloc, 230897441832960, 230897441832960)?;
    let first = range_block(
        alloc,
        "4 ran q execution 1",
        230897441832960,
        least.as_str(),
    )?;
    let second = range_block(alloc, "5 ran q execution 2", 340848604610560, reuse)?;
    let report = format!(in alloc; "{}{}", first.as_str(), second.as_str())?;
    let exchanged = format!(in alloc; "{}{}", second.as_str(), first.as_str())?;
    let cases = [
        (
            "within twice the least",
            script,
            report.as_str(),
            2,
            "verified 2 executions 0 too large\n",
        ),
        (
            "not within the least itself",
            script,
            report.as_str(),
            1,
            "rejected 5 over bound\n",
        ),
        (
            "the blocks exchanged",
            script,
            exchanged.as_str(),
            2,
            "rejected 4 block\n",
        ),
        (
            "the report of another script",
            SCAN,
            report.as_str(),
            2,
            "rejected 3 block\n",
        ),
        (
            "a line that is refused before",
            "load t n.csv\nindex t v\nprepare q SELECT v FROM t WHERE v < ?\n\
                run q 101\nrun q\nrun q 1\n",
            first.as_str(),
            2,
            "rejected 6 block\n",
        ),
        (
            "an index of another table",
            "load t n.csv\nload u t.csv\nprepare q SELECT v FROM t WHERE v < ?\nindex u v\n",
            "",
            2,
            "verified 0 executions 0 too large\n",
        ),
    ];
    for (what, script, report, lambda, line) in cases {
        let found = verified(alloc, &shelf, script, report, lambda_of(lambda)?)?;
        assert_eq!(rt; found.as_str(), line, "{what}");
    }
    let indexed =
        "load t n.csv\nprepare q SELECT v FROM t WHERE v < ?\nrun q 2\nindex t v\nrun q 2\n";
    let scan = optimum(alloc, 1099511627776000, 1099511627776000)?;
    let before = format!(in alloc;
        "3 ran q execution 1\nplan rows(seq(t))\ncost 1099511627776000\n{}",
        scan.as_str()
    )?;
    let reused = format!(in alloc;
        "{}5 ran q execution 2\nplan rows(seq(t))\ncost 1099511627776000\n{reuse}",
        before.as_str()
    )?;
    let forgotten = verified(alloc, &shelf, indexed, reused.as_str(), lambda_of(2)?)?;
    assert_eq!(rt;
        forgotten.as_str(),
        "rejected 5 unknown anchor 1\n",
        "an index forgets"
    );
    let range = optimum(alloc, 13194139533312, 13194139533312)?;
    let anew = range_block(alloc, "5 ran q execution 2", 13194139533312, range.as_str())?;
    let both = format!(in alloc; "{}{}", before.as_str(), anew.as_str())?;
    let optimised = verified(alloc, &shelf, indexed, both.as_str(), lambda_of(2)?)?;
    assert_eq!(rt;
        optimised.as_str(),
        "verified 2 executions 0 too large\n",
        "optimised anew"
    );
    Ok(())
}

#[test]
fn cursors_are_opened_by_accepted_blocks(rt: HostRuntime) -> Result<(), Fail> {
    let alloc = rt.alloc();
    let shelf = Shelf::new(alloc)?;
    let open = "load t t.csv\nprepare q SELECT v FROM t WHERE v < ?\ncursor c q 10\n";
    let taken = format!(in alloc; "{open}cursor c q 10\n")?;
    let closed = format!(in alloc; "{open}close c\ncursor c q 10\n")?;
    let fetched = format!(in alloc; "{open}fetch c 1\nevict q 1\nshow q\nload t n.csv\nclose c\n")?;
    let first = block(
        alloc,
        "3 opened c q execution 1\n",
        SCAN_PLAN,
        SCAN_COST,
        SCAN_CERT,
    )?;
    let third = block(
        alloc,
        "4 opened c q execution 1\n",
        SCAN_PLAN,
        SCAN_COST,
        SCAN_CERT,
    )?;
    let too_large = format!(in alloc; "3 refused 12 too many rows\n{}", third.as_str())?;
    let cases = [
        (
            "one cursor",
            open,
            first.as_str(),
            "verified 1 executions 0 too large\n",
        ),
        (
            "other commands need no item",
            fetched.as_str(),
            first.as_str(),
            "verified 1 executions 0 too large\n",
        ),
        (
            "a name that is taken needs no item",
            taken.as_str(),
            first.as_str(),
            "verified 1 executions 0 too large\n",
        ),
        (
            "a closed name is free again",
            closed.as_str(),
            first.as_str(),
            "rejected 5 block\n",
        ),
        (
            "too many rows open no cursor",
            taken.as_str(),
            too_large.as_str(),
            "verified 1 executions 1 too large\n",
        ),
    ];
    for (what, script, report, line) in cases {
        let found = verified(alloc, &shelf, script, report, lambda_of(2)?)?;
        assert_eq!(rt; found.as_str(), line, "{what}");
    }
    Ok(())
}

/// The cells of the sets 1 to 7, of which the sixth one is this.
fn seven(alloc: Global, sixth: u64) -> Result<String, OutOfMemory> {
    let cells = [
        (1, 8796093022208),
        (2, 1125899906842624),
        (3, 3412884092616704),
        (4, 1125899906842624),
        (5, 158329674399744),
        (6, sixth),
        (7, 387045272846336),
    ];
    let mut out = String::new(alloc);
    for (set, any) in cells {
        if set > 1 {
            out.push(',')?;
        }
        write!(out, "{{\"any\":\"{any}\",\"set\":{set},\"sorted\":null}}")?;
    }
    Ok(out)
}

#[test]
fn tables_are_tested_for_every_set(rt: HostRuntime) -> Result<(), Fail> {
    let alloc = rt.alloc();
    let shelf = Shelf::new(alloc)?;
    let script = "load a a.csv\nload b b.csv\nload c c.csv\nindex c y\nindex b z\n\
        prepare q SELECT a.x FROM a, b, c WHERE a.x = b.x AND a.y = c.y AND b.z = c.z\nrun q\n";
    let cases = [
        (
            "the smallest pair first isn't least",
            7881299347898368,
            "verified 1 executions 0 too large\n",
        ),
        (
            "a cell that the plan doesn't use",
            7881299347898369,
            "rejected 7 bad table 6\n",
        ),
    ];
    for (what, sixth, line) in cases {
        let cells = seven(alloc, sixth)?;
        let report = format!(in alloc;
            "7 ran q execution 1\nplan rows(probe(probe(seq(a),c,2),b,3))\ncost 387045272846336\n\
            cert {{\"kind\":\"optimum\",\"least\":\"387045272846336\",\"table\":[{}]}}\n",
            cells.as_str()
        )?;
        let found = verified(alloc, &shelf, script, report.as_str(), lambda_of(2)?)?;
        assert_eq!(rt; found.as_str(), line, "{what}");
    }
    let wide = "load t m.csv\nprepare q SELECT x.v FROM t x, t y\nrun q\n";
    let found = verified(
        alloc,
        &shelf,
        wide,
        "3 refused 12 too many rows\n",
        lambda_of(2)?,
    )?;
    assert_eq!(rt;
        found.as_str(),
        "verified 0 executions 1 too large\n",
        "too many rows"
    );
    Ok(())
}
