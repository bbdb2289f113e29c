//! What no clause says of memory: that it suffices, and a few values worked out by hand.

use crate::{Fetched, MemShelf, MemSink, Put, Shelf, Sink, SureShelf, SureSink};
use std::alloc::Global;
use std::test::Fail;

/// Whether a fetch, into a list that holds something before, answers this and gives these bytes.
fn gives<F: Shelf>(
    alloc: Global,
    shelf: &mut F,
    (name, limit): (&str, u8),
    (answer, bytes): (Fetched, &str),
) -> Result<bool, Fail> {
    let mut into = Vec::from_slice(alloc, b"left")?;
    let found = shelf.fetch(alloc, name, usize::from(limit), &mut into);
    Ok(found == answer && into.as_slice() == bytes.as_bytes())
}

/// What is taken of two pieces, where the second put is to fail after this many bytes.
fn taken_of_two(alloc: Global, takes: usize) -> Result<Vec<u8>, Fail> {
    let mut sink = MemSink::new(alloc);
    sink.fail_at(2, 1)?;
    sink.fail_at(2, takes)?;
    let _ = sink.put(b"ab");
    let _ = sink.put(b"cde");
    Ok(Vec::from_slice(alloc, sink.taken())?)
}

#[test]
fn a_fetch_gives_one_byte_more_than_the_limit(rt: HostRuntime) -> Result<(), Fail> {
    let alloc = rt.alloc();
    let mut shelf = MemShelf::new(alloc);
    shelf.put_file("five", b"first")?;
    shelf.put_file("five", b"abcde")?;
    shelf.fail_at(6)?;
    let cases = [
        ("at 0 the first byte", "five", 0, Fetched::Got, "a"),
        (
            "at two less than its length cut",
            "five",
            3,
            Fetched::Got,
            "abcd",
        ),
        ("at one less whole", "five", 4, Fetched::Got, "abcde"),
        ("at its length whole", "five", 5, Fetched::Got, "abcde"),
        ("no such file", "fiv", 9, Fetched::Missing, ""),
        ("the sixth fetch", "five", 5, Fetched::Failed, ""),
    ];
    for (what, name, limit, answer, bytes) in cases {
        assert!(rt;
            gives(alloc, &mut shelf, (name, limit), (answer, bytes))?,
            "{what}"
        );
    }
    assert_eq!(rt; shelf.calls(), 6);
    Ok(())
}

#[test]
fn what_is_sure_gives_and_takes(rt: HostRuntime) -> Result<(), Fail> {
    let alloc = rt.alloc();
    let mut shelf = SureShelf::new(alloc);
    shelf.put_file("a", b"bytes")?;
    assert!(rt; gives(alloc, &mut shelf, ("a", 3), (Fetched::Got, "byte"))?);
    assert!(rt; gives(alloc, &mut shelf, ("b", 3), (Fetched::Missing, ""))?);
    let mut sink = SureSink::new(alloc);
    assert_eq!(rt; sink.put(b"abc"), Put::Whole);
    assert_eq!(rt; sink.taken(), b"abc".as_slice());
    Ok(())
}

#[test]
fn a_put_fails_after_the_bytes_that_it_is_told(rt: HostRuntime) -> Result<(), Fail> {
    let cases = [
        ("before any byte", 0, "ab"),
        ("after two", 2, "abcd"),
        ("after all", 3, "abcde"),
        ("after more than there are", 9, "abcde"),
    ];
    for (what, takes, taken) in cases {
        let found = taken_of_two(rt.alloc(), takes)?;
        assert_eq!(rt; found.as_slice(), taken.as_bytes(), "{what}");
    }
    Ok(())
}
