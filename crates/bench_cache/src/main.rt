//! Measures the decision of a plan cache, and the check of a certificate, against an optimisation. The words are `hit`
//! or `miss` and the number of anchors, or `optimise`, `optimum`, `selectivity` or `cost` and the number of places; then
//! the number of instances. `docs/PERFORMANCE.md` has the figures and the commands.
//!
//! The statement of the decisions joins five places. Each anchor was optimised, and each decision has the two checks,
//! with eight recosts at the most. An instance that hits has an anchor's own vector; one that misses is far from all.
//! What was found is summed up and printed, so that no call is left out.
#![tactic(auto)]

ghost use Rattle.std.specs.Prelude.{◌≤◌};

mod checked;
mod joins;
#[cfg(test)]
mod tests;

use bound_certificate::Cert;
use checked::{optima, reuses};
use fraction_math::Ratio;
use join_optimizer::optimise;
use joins::join_of;
use plan_trees::Top;
use row_values::OutOfMemory;
use std::alloc::Global;
use std::rc::Rc;
use std::{env, io};
use worked_caches::WorkedCache;
use worked_statements::Worked;

/// How many of the nearest anchors the cost check costs at most.
const RECOSTS: u32 = 8;

/// The vector of an anchor: each number is at most 100.
fn vector_of(number: u64) -> [u64; 5] {
    let n = number % 4096;
    [
        n * 7 % 100 + 1,
        n * 13 % 97 + 1,
        n * 29 % 89 + 1,
        n * 31 % 83 + 1,
        n * 3 % 79 + 1,
    ]
}

/// The vector of an instance that is far from all anchors.
fn far_vector(number: u64) -> [u64; 5] {
    let n = number % 50;
    [950 + n, 1000 - n, 951 + n, 999 - n, 900 + n]
}

/// The number of the plan, which is kept first where it isn't there.
fn number_of(
    alloc: Global,
    kept: &mut WorkedCache,
    plan: Rc<Top>,
) -> Result<Option<u64>, OutOfMemory> {
    match kept.cache().find_same(&plan) {
        Some(number) => Ok(Some(number)),
        None => kept.keep_plan(alloc, plan),
    }
}

/// A cache of so many anchors, each with its own least plan.
fn filled(alloc: Global, anchors: u64) -> Result<Option<WorkedCache>, OutOfMemory> {
    let Some(w) = join_of(alloc, 5)? else {
        return Ok(None);
    };
    let Some(other) = join_of(alloc, 5)? else {
        return Ok(None);
    };
    let mut kept = WorkedCache::new(alloc, other);
    for number in 0..anchors {
        let at = vector_of(number);
        if !w.takes(&at) {
            return Ok(None);
        }
        let mut calls = 0;
        let best = optimise(alloc, &w.query, &w.stats, &at, &mut calls)?;
        let Some(plan) = number_of(alloc, &mut kept, best.plan)? else {
            return Ok(None);
        };
        if !kept.keep_anchor(&at, plan, best.cost, best.cost)? {
            return Ok(None);
        }
    }
    Ok(Some(kept))
}

/// Where the anchor stands that is used again, counted from 1, by the one check or the other; 0 for none.
fn decision(kept: &WorkedCache, q: &[u64], lambda: Ratio) -> u64 {
    if let Some(Some(place)) = kept.by_selectivity(q, lambda) {
        return (place as u64).wrapping_add(1);
    }
    match kept.by_cost(q, lambda, RECOSTS) {
        Some(answer) => match answer.found {
            Some(place) => (place as u64).wrapping_add(1),
            None => 0,
        },
        None => 0,
    }
}

/// The decisions for so many instances, summed up.
fn decided(
    alloc: Global,
    is_far: bool,
    anchors: u64,
    rounds: u64,
) -> Result<Option<u64>, OutOfMemory> {
    let Some(kept) = filled(alloc, anchors)? else {
        return Ok(None);
    };
    let Some(lambda) = Ratio::new(2, 1) else {
        return Ok(None);
    };
    let mut sum: u64 = 0;
    for round in 0..rounds {
        let number = if anchors == 0 { 0 } else { round % anchors };
        let q = if is_far {
            far_vector(number)
        } else {
            vector_of(number)
        };
        sum = sum.wrapping_add(decision(&kept, &q, lambda));
    }
    Ok(Some(sum))
}

/// The least costs of so many instances of a join of so many places, summed up.
fn optimised(alloc: Global, w: &Worked, places: u8, rounds: u64) -> Result<u64, OutOfMemory>
    requires { places ≤ 5 }
{
    let mut sum: u128 = 0;
    for round in 0..rounds {
        let all = vector_of(round);
        let q = &all[..usize::from(places)];
        if w.takes(q) {
            let mut calls = 0;
            let best = optimise(alloc, &w.query, &w.stats, q, &mut calls)?;
            sum = sum.wrapping_add(best.cost);
        }
    }
    Ok(((sum >> 40) % (1 << 32)) as u64)
}

/// How many certificates of this kind for a join of so many places are accepted; none where there is no such kind.
fn accepted(
    alloc: Global,
    w: &Worked,
    kind: &str,
    places: u8,
    rounds: u64,
) -> Result<Option<u64>, OutOfMemory>
    requires { places ≤ 5 }
{
    let all = vector_of(7);
    let q = &all[..usize::from(places)];
    let accepted = match kind {
        "optimum" => optima(alloc, w, q, rounds)?,
        "selectivity" => reuses(alloc, w, q, &Cert::Selectivity(1), rounds)?,
        "cost" => reuses(alloc, w, q, &Cert::Cost(1), rounds)?,
        _ => return Ok(None),
    };
    Ok(Some(accepted))
}

/// What the words ask for; none where they ask for nothing.
fn measured(
    alloc: Global,
    what: &str,
    number: u64,
    rounds: u64,
) -> Result<Option<u64>, OutOfMemory> {
    if what == "hit" && number <= 4096 {
        return decided(alloc, false, number, rounds);
    }
    if what == "miss" && number <= 4096 {
        return decided(alloc, true, number, rounds);
    }
    if number == 0 || number > 5 {
        return Ok(None);
    }
    let places = number as u8;
    let Some(w) = join_of(alloc, places)? else {
        return Ok(None);
    };
    if what == "optimise" {
        let sum = optimised(alloc, &w, places, rounds)?;
        return Ok(Some(sum));
    }
    let count = accepted(alloc, &w, what, places, rounds)?;
    Ok(count)
}

fn main(rt: HostRuntime) -> io::Result<()> {
    let words: Vec<String> = env::args(&rt)?.skip(1).collect(rt.alloc())?;
    let [what, number, rounds] = words.as_slice() else {
        return println!(rt;
            "hit or miss and anchors, else optimise, optimum, selectivity or cost and places; instances"
        );
    };
    let number = number.as_str().parse::<u64>().unwrap_or(0);
    let rounds = rounds.as_str().parse::<u64>().unwrap_or(0);
    match measured(rt.alloc(), what, number, rounds)? {
        Some(sum) => println!(rt; "{what} {number} at {rounds} instances: {sum}"),
        None => println!(rt; "nothing to measure"),
    }
}
