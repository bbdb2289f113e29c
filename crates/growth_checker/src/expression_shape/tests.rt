//! Shapes of small expressions, worked out by hand.

ghost use Rattle.std.specs.Prelude.{◌≡◌, IfOk};
ghost use Rattle.growth_checker.specs.Expression.{Constant, formula, Plus, Selectivity, Times};

use super::*;
use row_values::OutOfMemory;
use std::rc::Rc;
use std::test::Fail;

fn num(alloc: Global, c: u128) -> Result<Rc<Expr>, OutOfMemory>
    ensures { IfOk result (λ e. formula e.value ≡ Constant c) }
{
    Ok(Rc::new(alloc, Expr::Num(c))?)
}

fn sel(alloc: Global, i: u8) -> Result<Rc<Expr>, OutOfMemory>
    ensures { IfOk result (λ e. formula e.value ≡ Selectivity i) }
{
    Ok(Rc::new(alloc, Expr::Sel(i))?)
}

fn sum(alloc: Global, l: Rc<Expr>, r: Rc<Expr>) -> Result<Rc<Expr>, OutOfMemory>
    ensures { IfOk result (λ e. formula e.value ≡ Plus (formula l.value) (formula r.value)) }
{
    Ok(Rc::new(alloc, Expr::Sum(l, r))?)
}

fn mul(alloc: Global, l: Rc<Expr>, r: Rc<Expr>) -> Result<Rc<Expr>, OutOfMemory>
    ensures { IfOk result (λ e. formula e.value ≡ Times (formula l.value) (formula r.value)) }
{
    Ok(Rc::new(alloc, Expr::Mul(l, r))?)
}

#[test]
fn expands_a_cost(rt: HostRuntime) -> Result<(), Fail> {
    let alloc = rt.alloc();
    let growing = mul(alloc, num(alloc, 2)?, sel(alloc, 0)?)?;
    let cost = sum(alloc, num(alloc, 10)?, growing)?;
    let p = shape(alloc, &cost)?;
    assert_eq!(rt; p.terms(), [(0, 10), (1, 2)].as_slice(), "10 + 2 s0");
    assert_eq!(rt; p.eval(&[100]), Some(210), "at s0 = 100");
    Ok(())
}

#[test]
fn names_the_least_shared_selectivity(rt: HostRuntime) -> Result<(), Fail> {
    let alloc = rt.alloc();
    let square = mul(alloc, sel(alloc, 0)?, sel(alloc, 0)?)?;
    assert!(rt;
        matches!(shape(alloc, &square), Err(ShapeFault::Shared(0))),
        "s0 s0"
    );
    let left = mul(alloc, sel(alloc, 5)?, sel(alloc, 3)?)?;
    let right = sum(alloc, sel(alloc, 3)?, sel(alloc, 5)?)?;
    let both = mul(alloc, left, right)?;
    assert!(rt;
        matches!(shape(alloc, &both), Err(ShapeFault::Shared(3))),
        "s5 s3 (s3 + s5)"
    );
    Ok(())
}

#[test]
fn refuses_a_coefficient_of_two_to_128(rt: HostRuntime) -> Result<(), Fail> {
    let alloc = rt.alloc();
    let large = mul(alloc, num(alloc, 1 << 127)?, num(alloc, 2)?)?;
    assert!(rt;
        matches!(shape(alloc, &large), Err(ShapeFault::Large)),
        "2^127 times 2"
    );
    Ok(())
}
