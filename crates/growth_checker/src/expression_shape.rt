//! The shape of an expression: its expanded form, where no product has a selectivity on both sides.
//!
//! The selectivities on both sides of products are found first, in one walk over the whole
//! expression, so
//! that the least of them is named whatever else is wrong. All numbers are at least 1 and nothing
//! cancels,
//! so a coefficient that is too large on the way is too large in the end.

ghost use Rattle.std.specs.Prelude.{◌≡◌, ℕ, List, IfOk, IsErrOf, OnOk};
ghost use Rattle.cost_polynomials.specs.Polynomial.{AllFit, HasLarge, IsVectorFor, value_of};
ghost use Rattle.growth_checker.specs.Expression.{expanded, formula, IsFirstShared, IsSound, IsUnshared};
ghost use Rattle.growth_checker.specs.Expression.{HasSelectivities, mentions, shares, value_at};
ghost use Rattle.growth_checker.specs.Sharing.{AreProductsApart, has};

use crate::Expr;
use cost_polynomials::{Poly, PolyFault};
use std::alloc::Global;

/// Why an expression has no shape.
#[derive(Clone, Copy, Debug, PartialEq, Eq)]
pub enum ShapeFault {
    /// Some product has this selectivity on both sides. It is the least such.
    Shared(u8),
    /// No product shares a selectivity, and a coefficient of the expanded form is 2^128 or more.
    Large,
    /// Out of memory.
    Memory,
}

/// Two sets of selectivities: those of an expression, and those that some product has on both
/// sides.
#[derive(Clone, Copy)]
struct Uses {
    present: u8,
    shared: u8,
}

fn uses_of(e: &Expr) -> Uses
    requires { IsSound (formula e.now) }
    ensures present { (i : ℕ) → has result.present i ≡ mentions (formula e.now) i }
    ensures shared { (i : ℕ) → has result.shared i ≡ shares (formula e.now) i }
{
    match e {
        Expr::Num(_) => Uses {
            present: 0,
            shared: 0,
        },
        Expr::Sel(i) => Uses {
            present: 1 << *i,
            shared: 0,
        },
        Expr::Sum(left, right) => {
            let (l, r) = (uses_of(left), uses_of(right));
            Uses {
                present: l.present | r.present,
                shared: l.shared | r.shared,
            }
        }
        Expr::Mul(left, right) => {
            let (l, r) = (uses_of(left), uses_of(right));
            let both = l.present & r.present;
            Uses {
                present: l.present | r.present,
                shared: l.shared | r.shared | both,
            }
        }
    }
}

/// The expanded form of an expression whose products share no selectivity.
fn expand(alloc: Global, e: &Expr) -> Result<Poly, PolyFault>
    requires sound { IsSound (formula e.now) }
    requires apart { AreProductsApart (formula e.now) }
    ensures terms { IfOk result (λ p. p ≡ expanded (formula e.now)) }
    ensures fits { OnOk result (AllFit (expanded (formula e.now))) }
    ensures large { IsErrOf result PolyFault.Large → HasLarge (expanded (formula e.now)) }
{
    match e {
        Expr::Num(c) => Ok(Poly::constant(alloc, *c)?),
        Expr::Sel(i) => Ok(Poly::sel(alloc, *i)?),
        Expr::Sum(left, right) => {
            let l = expand(alloc, left)?;
            let r = expand(alloc, right)?;
            l.add(alloc, &r)
        }
        Expr::Mul(left, right) => {
            let l = expand(alloc, left)?;
            let r = expand(alloc, right)?;
            l.mul_disjoint(alloc, &r)
        }
    }
}

/// The polynomial that equals the expression at every vector.
pub fn shape(alloc: Global, e: &Expr) -> Result<Poly, ShapeFault>
    requires { IsSound (formula e.now) }
    ensures value { IfOk result (λ p. (s : List ℕ) → value_of p s ≡ value_at (formula e.now) s) }
    ensures terms { IfOk result (λ p. p ≡ expanded (formula e.now)) }
    ensures vectors { IfOk result (λ p. (s : List ℕ)
        → HasSelectivities (formula e.now) s → IsVectorFor p s) }

    // Of these three, exactly one holds of an expression.
    ensures ok { OnOk result (IsUnshared (formula e.now) × AllFit (expanded (formula e.now))) }
    ensures shared { (i : ℕ) → IsErrOf result (ShapeFault.Shared i) → IsFirstShared (formula e.now) i }
    ensures large { IsErrOf result ShapeFault.Large
        → IsUnshared (formula e.now) × HasLarge (expanded (formula e.now)) }
{
    let shared = uses_of(e).shared;
    if shared != 0 {
        return Err(ShapeFault::Shared(shared.trailing_zeros() as u8));
    }
    match expand(alloc, e) {
        Ok(p) => Ok(p),
        Err(PolyFault::Large) => Err(ShapeFault::Large),
        Err(PolyFault::Memory) => Err(ShapeFault::Memory),
    }
}

#[cfg(test)]
mod tests;
