//! What no clause says of the system: which names are missing and which are faults, and that
//! writers are heard.

use super::{FileShelf, OutSink};
use crate::{Fetched, Put, Shelf, Sink};
use std::alloc::Global;
use std::io::{ErrorKind, Write};
use std::test::Fail;
use std::{fs, io};

/// Whether a fetch, into a list that holds something before, answers this and gives these bytes.
fn gives(
    alloc: Global,
    shelf: &mut FileShelf<HostRuntime>,
    name: &str,
    (answer, bytes): (Fetched, &str),
) -> Result<bool, Fail> {
    let mut into = Vec::from_slice(alloc, b"left")?;
    let found = shelf.fetch(alloc, name, 2, &mut into);
    Ok(found == answer && into.as_slice() == bytes.as_bytes())
}

#[test]
fn the_system_gives_files_and_tells_why_not(rt: HostRuntime) -> Result<(), Fail> {
    fs::write(&rt, "four.txt", "abcd")?;
    fs::write(&rt, "two.txt", "ab")?;
    let cases = [
        ("a file is cut", "four.txt", Fetched::Got, "abc"),
        ("a file is whole", "two.txt", Fetched::Got, "ab"),
        ("no such file", "none.txt", Fetched::Missing, ""),
        ("a folder", ".", Fetched::Failed, ""),
        ("a path through a file", "two.txt/a", Fetched::Failed, ""),
        ("a name with a zero byte", "a\0b", Fetched::Failed, ""),
    ];
    let mut shelf = FileShelf::new(rt.clone()?);
    for (what, name, answer, bytes) in cases {
        assert!(rt;
            gives(rt.alloc(), &mut shelf, name, (answer, bytes))?,
            "{what}"
        );
    }
    assert_eq!(rt; shelf.misses, 1);
    assert_eq!(rt; shelf.faults, 3);
    fs::remove_file(&rt, "four.txt")?;
    fs::remove_file(&rt, "two.txt")?;
    Ok(())
}

/// A writer that takes two bytes at a time until it is full, and then takes none or fails.
#[derive(Drop)]
struct Narrow {
    room: usize,
    breaks: bool,
}

impl Write for Narrow {
    fn write(&mut self, bytes: &[u8]) -> io::Result<usize> {
        if self.room == 0 && self.breaks {
            return Err(io::Error::from(ErrorKind::BrokenPipe));
        }
        let count = bytes.len().min(self.room).min(2);
        self.room -= count;
        Ok(count)
    }

    fn flush(&mut self) -> io::Result<()> {
        Ok(())
    }
}

/// Puts five bytes into a writer with this room.
fn put_of_five(room: usize, breaks: bool) -> (Put, u64) {
    let mut sink = OutSink::new(Narrow { room, breaks });
    (sink.put(b"abcde"), sink.faults)
}

#[test]
fn a_writer_that_takes_nothing_or_fails_is_a_fault(rt: HostRuntime) {
    assert_eq!(rt; put_of_five(5, false), (Put::Whole, 0));
    assert_eq!(rt; put_of_five(4, false), (Put::Failed, 1), "it takes no more");
    assert_eq!(rt; put_of_five(4, true), (Put::Failed, 1), "it breaks");
}
