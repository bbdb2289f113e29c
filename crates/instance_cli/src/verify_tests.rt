//! Verifying reports: what a run wrote, what a stranger wrote, and faults.

use super::*;
use crate::tests::{job_of, numbered_rows};
use outside_io::{MemShelf, MemSink};
use row_values::OutOfMemory;
use std::alloc::Global;
use std::test::Fail;

/// The script and the table of the worked example with a byte order mark and CR LF.
const SCRIPT: &str = "load t t.csv\nprepare q SELECT v FROM t WHERE v < ?\nrun q 10\n";

const TABLE: &str = "v\n1\n5\n12\n";

/// What is written of this report of a script over these files, and how the job ends.
fn verified(
    alloc: Global,
    files: &[(&str, &str)],
    script: &str,
    report: &str,
) -> Result<(String, Status), Fail> {
    let mut all = Vec::new(alloc);
    for file in files {
        all.push(*file)?;
    }
    all.push(("a.scr", script))?;
    all.push(("a.txt", report))?;
    job_of(alloc, &["verify", "a.scr", "a.txt"], all.as_slice())
}

/// What a run of the script over these files writes.
fn ran(alloc: Global, files: &[(&str, &str)], script: &str) -> Result<String, Fail> {
    let mut all = Vec::new(alloc);
    for file in files {
        all.push(*file)?;
    }
    all.push(("a.scr", script))?;
    let (report, _) = job_of(alloc, &["run", "a.scr"], all.as_slice())?;
    Ok(report)
}

#[test]
fn what_a_run_wrote_is_verified(rt: HostRuntime) -> Result<(), Fail> {
    let many = numbered_rows(rt.alloc(), "v,w", 1001, 1001)?;
    let files = [("t.csv", TABLE), ("n.csv", many.as_str())];
    let cases = [
        (
            "one execution",
            SCRIPT,
            "verified 1 executions 0 too large\n",
        ),
        (
            "too many rows",
            "load n n.csv\nprepare q SELECT a.v FROM n a, n b\nrun q\n",
            "verified 0 executions 1 too large\n",
        ),
        (
            "reuses, an index, a cursor and refusals",
            "load t t.csv\nprepare q SELECT v FROM t WHERE v < ?\nrun q 10\nrun q 11\nfrob\n\
             cursor c q 3\nindex t v\nrun q 10\nfetch c 1\nrun q 'x'\nload t none.csv\nclose c\nrun q 1\n",
            "verified 5 executions 0 too large\n",
        ),
        (
            "names that look like a head",
            "load t t.csv\nprepare \"3 ran q execution 1\" SELECT v FROM t\nrun \"3 ran q execution 1\"\n",
            "verified 1 executions 0 too large\n",
        ),
        ("nothing", "", "verified 0 executions 0 too large\n"),
    ];
    for (case, script, line) in cases {
        let report = ran(rt.alloc(), &files, script)?;
        let (written, status) = verified(rt.alloc(), &files, script, report.as_str())?;
        assert!(rt;
            status == Status::Done && written.as_str() == line,
            "{case}"
        );
    }
    Ok(())
}

#[test]
fn reports_of_strangers(rt: HostRuntime) -> Result<(), Fail> {
    let files = [("t.csv", TABLE)];
    let report = ran(rt.alloc(), &files, SCRIPT)?;
    // What is exchanged for what, and what is written then.
    let cases = [
        (
            "3298534883328\",\"table\":[{\"any\":\"3298534883328",
            "3298534883327\",\"table\":[{\"any\":\"3298534883327",
            "rejected 3 not least\n",
        ),
        (
            "cost 3298534883328",
            "cost 3298534883327",
            "rejected 3 bad cost\n",
        ),
        (
            "cost 3298534883328",
            "cost 03298534883328",
            "rejected 3 bad cost\n",
        ),
        (
            "plan rows(seq(t))",
            "plan rows(full(t.v))",
            "rejected 3 bad plan\n",
        ),
        (
            "plan rows(seq(t))",
            "plan rows(seq(t)) ",
            "rejected 3 bad plan\n",
        ),
        ("cert ", "certificate ", "rejected 3 block\n"),
        ("3 ran q", "2 ran q", "rejected 3 block\n"),
        ("q execution 1", "q execution 2", "rejected 3 block\n"),
        (
            "3 ran q execution 1",
            "3 refused 12 too many rows",
            "verified 0 executions 1 too large\n",
        ),
        (
            "3 ran q execution 1",
            "3 opened c q execution 1",
            "verified 1 executions 0 too large\n",
        ),
        ("\n", "\r\n", "verified 1 executions 0 too large\n"),
        (
            ",\"table\"",
            ", \"table\"",
            "verified 1 executions 0 too large\n",
        ),
        (
            "end 2\n",
            "end 2\n4 refused 12 too many rows\n",
            "rejected 0 block\n",
        ),
    ];
    for (from, to, line) in cases {
        let other = report.replace(rt.alloc(), from, to)?;
        let (written, status) = verified(rt.alloc(), &files, SCRIPT, other.as_str())?;
        let want = if line.starts_with("verified") {
            Status::Done
        } else {
            Status::Rejected
        };
        assert!(rt;
            status == want && written.as_str() == line,
            "{from} for {to}"
        );
    }
    let (written, status) = verified(rt.alloc(), &files, SCRIPT, "")?;
    assert!(rt;
        status == Status::Rejected && written.as_str() == "rejected 3 block\n",
        "an empty report"
    );
    Ok(())
}

/// How the verification of this report of this script ends, where a fetch of this number fails, if one does; and
/// whether nothing is written.
fn ends_unwritten(
    alloc: Global,
    script: Option<&[u8]>,
    report: Option<&[u8]>,
    fails_at: Option<u64>,
) -> Result<(Status, bool), Fail> {
    let mut shelf = MemShelf::new(alloc);
    if let Some(bytes) = script {
        shelf.put_file("a.scr", bytes)?;
    }
    if let Some(bytes) = report {
        shelf.put_file("a.txt", bytes)?;
    }
    shelf.put_file("t.csv", TABLE.as_bytes())?;
    if let Some(call) = fails_at {
        shelf.fail_at(call)?;
    }
    let mut sink = MemSink::new(alloc);
    let words = verify_words(alloc)?;
    let status = scr(alloc, words.as_slice(), &mut shelf, &mut sink);
    Ok((status, sink.taken().is_empty()))
}

/// The words `verify a.scr a.txt`.
fn verify_words(alloc: Global) -> Result<Vec<String>, OutOfMemory> {
    let mut words = Vec::new(alloc);
    for word in ["verify", "a.scr", "a.txt"] {
        words.push(String::from_str(alloc, word)?)?;
    }
    Ok(words)
}

#[test]
fn texts_that_are_not_verified(rt: HostRuntime) -> Result<(), Fail> {
    let script = Some(SCRIPT.as_bytes());
    let empty: Option<&[u8]> = Some(b"");
    let bad: Option<&[u8]> = Some(b"\xff");
    let half: Option<&[u8]> = Some(b"\xef\xbb\xbf# \xc3");
    // The script, the report, the fetch that fails, and how the job ends.
    let cases = [
        (None, None, None, Status::Missing),
        (script, None, None, Status::Missing),
        (bad, None, None, Status::NotText),
        (script, half, None, Status::NotText),
        (script, empty, Some(1), Status::ReadFault),
        (script, empty, Some(2), Status::ReadFault),
        (script, empty, Some(3), Status::ReadFault),
    ];
    for (number, (script, report, fails_at, want)) in cases.into_iter().enumerate() {
        let (status, unwritten) = ends_unwritten(rt.alloc(), script, report, fails_at)?;
        assert!(rt; status == want && unwritten, "case {number}");
    }
    Ok(())
}

#[test]
fn a_report_above_its_limit(rt: HostRuntime) -> Result<(), Fail> {
    let long = vec![in rt.alloc(); b'\n'; 268435457]?;
    let script = Some(SCRIPT.as_bytes());
    let (status, unwritten) = ends_unwritten(rt.alloc(), script, Some(long.as_slice()), None)?;
    assert!(rt; status == Status::TooLong && unwritten);
    Ok(())
}

/// Whether the put of the one line that fails after so many bytes ends the job with a write fault, and this written.
fn line_fails(alloc: Global, takes: usize, written: &str) -> Result<bool, OutOfMemory> {
    let mut shelf = MemShelf::new(alloc);
    shelf.put_file("a.scr", b"frob\n")?;
    shelf.put_file("a.txt", b"1 refused 1 syntax\n")?;
    let mut sink = MemSink::new(alloc);
    sink.fail_at(1, takes)?;
    let words = verify_words(alloc)?;
    let status = scr(alloc, words.as_slice(), &mut shelf, &mut sink);
    Ok(status == Status::WriteFault && sink.taken() == written.as_bytes())
}

#[test]
fn the_one_line_fails(rt: HostRuntime) -> Result<(), Fail> {
    assert!(rt; line_fails(rt.alloc(), 0, "")?, "no byte of it");
    assert!(rt; line_fails(rt.alloc(), 1, "v")?, "one byte of it");
    assert!(rt; line_fails(rt.alloc(), 2, "ve")?, "two bytes of it");
    Ok(())
}
