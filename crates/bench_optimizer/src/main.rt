//! Measures `optimise` and `cost_at`. The words are `chain`, `star` or `recost`, the number of
//! places, and the number of vectors. `docs/PERFORMANCE.md` has the figures and the commands.
//!
//! Each vector differs from the one before, and the sum of the costs is printed, so that no call is
//! left out.
#![tactic(auto)]

ghost use Rattle.std.specs.Prelude.{◌≤◌};

mod joins;

use join_optimizer::optimise;
use joins::{Form, MOST_PLACES, join_of};
use plan_recost::Costed;
use row_values::OutOfMemory;
use std::alloc::Global;
use std::{env, io};
use worked_statements::Worked;

/// The vector of this round: what eight predicates leave.
fn vector_of(round: u64) -> [u64; 8] {
    let n = round % 100;
    [
        n + 1,
        n / 2 + 1,
        n / 3 + 1,
        n / 4 + 1,
        101 - n,
        n / 5 + 1,
        n / 6 + 1,
        n / 7 + 1,
    ]
}

/// The least costs at so many vectors, summed up.
fn optimised(alloc: Global, w: &Worked, rounds: u64) -> Result<u128, OutOfMemory> {
    let mut sum: u128 = 0;
    for round in 0..rounds {
        let s = vector_of(round);
        if w.takes(&s) {
            let mut calls = 0;
            let best = optimise(alloc, &w.query, &w.stats, &s, &mut calls)?;
            sum = sum.wrapping_add(best.cost);
        }
    }
    Ok(sum)
}

/// The best plan at the first vector, costed at so many others: the costs, summed up.
fn recosted(alloc: Global, w: &Worked, rounds: u64) -> Result<u128, OutOfMemory> {
    let first = vector_of(0);
    if !w.takes(&first) {
        return Ok(0);
    }
    let mut calls = 0;
    let best = optimise(alloc, &w.query, &w.stats, &first, &mut calls)?;
    let kept = Costed::of(alloc, &w.query, &w.stats, best.plan)?;
    let mut sum: u128 = 0;
    for round in 0..rounds {
        let s = vector_of(round);
        if w.takes(&s) {
            sum = sum.wrapping_add(kept.cost_at(&s));
        }
    }
    Ok(sum)
}

/// What the first word asks for, over a join of so many places; 0 where it asks for nothing.
fn measured(alloc: Global, what: &str, places: u8, rounds: u64) -> Result<u128, OutOfMemory>
    requires some { 1 ≤ places }
    requires few { places ≤ 5 }
{
    let form = if what == "star" {
        Form::Star
    } else {
        Form::Chain
    };
    let Some(w) = join_of(alloc, form, places)? else {
        return Ok(0);
    };
    if what == "recost" {
        return recosted(alloc, &w, rounds);
    }
    optimised(alloc, &w, rounds)
}

fn main(rt: HostRuntime) -> io::Result<()> {
    let words: Vec<String> = env::args(&rt)?.skip(1).collect(rt.alloc())?;
    let [what, places, rounds] = words.as_slice() else {
        return println!(rt; "chain, star or recost; places; vectors");
    };
    let places = places.as_str().parse::<u8>().unwrap_or(0);
    let rounds = rounds.as_str().parse::<u64>().unwrap_or(0);
    if places == 0 || places > MOST_PLACES {
        return println!(rt; "1 to {MOST_PLACES} places");
    }
    let sum = measured(rt.alloc(), what, places, rounds)?;
    println!(rt; "{what} of {places} places at {rounds} vectors: {sum}")
}
