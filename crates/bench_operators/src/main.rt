//! Measures what runs a plan and what stands round it. The words are what is measured and how often, as `join 20`;
//! `bench/operators.sh` has the words and times each against a plain program, and `docs/PERFORMANCE.md` the figures.
//!
//! What was found is summed up and printed, so that no call is left out.
#![tactic(auto)]

mod measures;
mod texts;

use measures::measured;
use std::{env, io};

fn main(rt: HostRuntime) -> io::Result<()> {
    let words: Vec<String> = env::args(&rt)?.skip(1).collect(rt.alloc())?;
    let [what, rounds] = words.as_slice() else {
        return println!(rt; "what is measured, and how often");
    };
    let rounds = rounds.as_str().parse::<u64>().unwrap_or(0);
    match measured(rt.alloc(), what, rounds) {
        Ok(Some(sum)) => println!(rt; "{what} {rounds} times: {sum}"),
        Ok(None) => println!(rt; "nothing to measure"),
        Err(fault) => println!(rt; "{fault:?}"),
    }
}
