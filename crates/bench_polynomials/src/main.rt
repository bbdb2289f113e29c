//! Measures `Poly::eval`: a polynomial of 32 terms in eight selectivities, at as many vectors as
//! the
//! first word says. `docs/PERFORMANCE.md` has the figures and the command.
//!
//! The polynomial is (1 + s0) (1 + s1) (1 + s2) (1 + s3) (1 + s4 s5 s6 s7), built by `shape`. Each
//! vector
//! differs from the one before, and the sum of the values is printed, so that no value is left out.
#![tactic(auto)]

ghost use Rattle.std.specs.Prelude.{◌<◌, IfOk};
ghost use Rattle.cost_polynomials.specs.Polynomial.{IsPolynomial};
ghost use Rattle.growth_checker.specs.Expression.{formula, IsSound};

use cost_polynomials::Poly;
use growth_checker::{Expr, shape};
use row_values::OutOfMemory;
use std::alloc::Global;
use std::rc::Rc;
use std::{env, io};

fn sel(alloc: Global, i: u8) -> Result<Rc<Expr>, OutOfMemory>
    requires { i < 8 }
    ensures { IfOk result (λ e. IsSound (formula e.value)) }
{
    Ok(Rc::new(alloc, Expr::Sel(i))?)
}

fn times(alloc: Global, left: Rc<Expr>, right: Rc<Expr>) -> Result<Rc<Expr>, OutOfMemory>
    requires left { IsSound (formula left.value) }
    requires right { IsSound (formula right.value) }
    ensures { IfOk result (λ e. IsSound (formula e.value)) }
{
    Ok(Rc::new(alloc, Expr::Mul(left, right))?)
}

fn one_and(alloc: Global, e: Rc<Expr>) -> Result<Rc<Expr>, OutOfMemory>
    requires { IsSound (formula e.value) }
    ensures { IfOk result (λ e. IsSound (formula e.value)) }
{
    let one = Rc::new(alloc, Expr::Num(1))?;
    Ok(Rc::new(alloc, Expr::Sum(one, e))?)
}

fn cost(alloc: Global) -> Result<Rc<Expr>, OutOfMemory>
    ensures { IfOk result (λ e. IsSound (formula e.value)) }
{
    let mut last = sel(alloc, 4)?;
    for i in 5..8 {
        last = times(alloc, last, sel(alloc, i)?)?;
    }
    let mut all = one_and(alloc, last)?;
    for i in 0..4 {
        all = times(alloc, all, one_and(alloc, sel(alloc, i)?)?)?;
    }
    Ok(all)
}

fn total(p: &Poly, rounds: u64) -> u128
    requires { IsPolynomial p.now }
{
    let mut sum: u128 = 0;
    for round in 0..rounds {
        let n = round % 1000 + 1;
        if let Some(value) = p.eval(&[n, 2, 3, 4, 5, 6, 7, 8]) {
            sum = sum.wrapping_add(value);
        }
    }
    sum
}

fn main(rt: HostRuntime) -> io::Result<()> {
    let words: Vec<String> = env::args(&rt)?.skip(1).collect(rt.alloc())?;
    let rounds = match words.as_slice() {
        [number] => number.as_str().parse::<u64>().unwrap_or(0),
        _ => 0,
    };
    let cost = cost(rt.alloc())?;
    match shape(rt.alloc(), &cost) {
        Ok(p) => {
            let terms = p.terms().len();
            let sum = total(&p, rounds);
            println!(rt; "{terms} terms at {rounds} vectors: {sum}")
        }
        Err(fault) => println!(rt; "{fault:?}"),
    }
}
