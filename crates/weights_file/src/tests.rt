//! Files of weights against what they say.
use crate::{WeightsFault, read_weights};
use plan_trees::Weights;
use row_values::OutOfMemory;
use std::alloc::Global;
use std::test::Fail;

/// The bytes with double quotes for single ones.
fn quoted(alloc: Global, bytes: &[u8]) -> Result<Vec<u8>, OutOfMemory> {
    let mut json = Vec::new(alloc);
    for byte in bytes {
        json.push(if *byte == b'\'' { b'"' } else { *byte })?;
    }
    Ok(json)
}

#[test]
fn files_that_say_weights(rt: HostRuntime) -> Result<(), Fail> {
    let want = Weights {
        row: 3,
        fetch: 2,
        probe: 1,
        hash: 1000,
        sort: 4,
        out: 5,
    };
    let cases = [
        (
            "in the order of their names",
            "{'row':3,'fetch':2,'probe':1,'hash':1000,'sort':4,'out':5}",
        ),
        (
            "in another order, with white space",
            " {'out': 5, 'sort': 4, 'hash': 1000,\r\n 'probe': 1, 'fetch': 2, 'row': 3}\n",
        ),
        (
            "of two equal members the last counts",
            "{'row':'x','fetch':2,'probe':1,'hash':1000,'sort':4,'out':5,'row':3}",
        ),
        (
            "a name with an escape",
            "{'r\\u006fw':3,'fetch':2,'probe':1,'hash':1000,'sort':4,'out':5}",
        ),
    ];
    for (what, text) in cases {
        let json = quoted(rt.alloc(), text.as_bytes())?;
        let found = read_weights(rt.alloc(), json.as_slice());
        assert_eq!(rt; found, Ok(want), "{what}");
    }
    Ok(())
}

#[test]
fn files_that_say_none(rt: HostRuntime) -> Result<(), Fail> {
    let cases: [(&str, &[u8]); 16] = [
        ("no byte", b""),
        ("cut off", b"{'row':1"),
        ("an array", b"[1,2,1,2,1,1]"),
        (
            "two values",
            b"{'row':1,'fetch':2,'probe':1,'hash':2,'sort':1,'out':1} 1",
        ),
        (
            "a weight of 0",
            b"{'row':0,'fetch':2,'probe':1,'hash':2,'sort':1,'out':1}",
        ),
        (
            "a weight of 1001",
            b"{'row':1,'fetch':2,'probe':1,'hash':2,'sort':1,'out':1001}",
        ),
        (
            "2^64 + 1",
            b"{'row':18446744073709551617,'fetch':2,'probe':1,'hash':2,'sort':1,'out':1}",
        ),
        (
            "below nought",
            b"{'row':-1,'fetch':2,'probe':1,'hash':2,'sort':1,'out':1}",
        ),
        (
            "a point",
            b"{'row':1.0,'fetch':2,'probe':1,'hash':2,'sort':1,'out':1}",
        ),
        (
            "an exponent",
            b"{'row':1e0,'fetch':2,'probe':1,'hash':2,'sort':1,'out':1}",
        ),
        (
            "a text",
            b"{'row':'1','fetch':2,'probe':1,'hash':2,'sort':1,'out':1}",
        ),
        (
            "a member too few",
            b"{'row':1,'fetch':2,'probe':1,'hash':2,'sort':1}",
        ),
        (
            "a member too many",
            b"{'row':1,'fetch':2,'probe':1,'hash':2,'sort':1,'out':1,'seek':1}",
        ),
        (
            "another name",
            b"{'Row':1,'fetch':2,'probe':1,'hash':2,'sort':1,'out':1}",
        ),
        (
            "a byte order mark",
            b"\xef\xbb\xbf{'row':1,'fetch':2,'probe':1,'hash':2,'sort':1,'out':1}",
        ),
        (
            "a member that counts no more, and is no text",
            b"{'row':'\xff','row':1,'fetch':2,'probe':1,'hash':2,'sort':1,'out':1}",
        ),
    ];
    for (what, bytes) in cases {
        let json = quoted(rt.alloc(), bytes)?;
        let found = read_weights(rt.alloc(), json.as_slice());
        assert_eq!(rt; found, Err(WeightsFault::BadWeights), "{what}");
    }
    Ok(())
}
