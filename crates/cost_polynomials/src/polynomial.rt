//! The polynomials themselves: built from constants and selectivities, added, multiplied,
//! evaluated.
//!
//! A polynomial is seen as the list of its terms, each a set of selectivities and a coefficient.
//! The
//! definitions of sum, product and value know no limit, and each call here says when it meets one.

ghost use Rattle.std.specs.Prelude.{◌≡◌, ℕ, List, [], ◌∷◌, ◌+◌, ◌*◌, ◌<◌, ◌≤◌, ◌^◌, IfOk, IfSome, IsErrOf, OnOk};
ghost use Rattle.cost_polynomials.specs.Polynomial.{AllFit, AreApart, HasLarge, HasNumbers, IsExactly, IsPolynomial};
ghost use Rattle.cost_polynomials.specs.Polynomial.{IsVectorFor, number_at, poly_product, poly_sum, product_over};
ghost use Rattle.cost_polynomials.specs.Polynomial.{value_of};

use crate::gathering::{PolyFault, put_products, put_terms};
use row_values::OutOfMemory;
use std::alloc::Global;
use std::marker::Model;

/// A polynomial with some terms, at most one for each set of selectivities.
///
/// A set is a mask, whose bit `i` stands for selectivity `i`. The masks rise, and each coefficient
/// is
/// at least 1.
#[derive(Debug, Drop)]
pub struct Poly {
    terms: Vec<(u8, u128)>,
}

impl Model for Poly {
    ghost use Rattle.std.specs.Prelude.{ℕ, List};
    ghost use Rattle.cost_polynomials.specs.Polynomial.{IsPolynomial};

    ghost Value = { List (ℕ × ℕ) };

    ghost view = { λ p. p.terms.items };

    ghost invariant = { λ p. IsPolynomial p.terms.items };
}

impl Poly {
    /// The polynomial that is `c` at every vector.
    pub fn constant(alloc: Global, c: u128) -> Result<Poly, OutOfMemory>
        requires { 1 ≤ c }
        ensures terms { IfOk result (λ p. p ≡ (0, c) ∷ []) }
        ensures value { IfOk result (λ p. (s : List ℕ) → value_of p s ≡ c) }
    {
        let terms = Vec::from_slice(alloc, &[(0, c)])?;
        Ok(Poly { terms })
    }

    /// The polynomial that is the number of selectivity `i`.
    pub fn sel(alloc: Global, i: u8) -> Result<Poly, OutOfMemory>
        requires { i < 8 }
        ensures terms { IfOk result (λ p. p ≡ (2 ^ i, 1) ∷ []) }
        ensures value { IfOk result (λ p. (s : List ℕ) → value_of p s ≡ number_at s i) }
    {
        let terms = Vec::from_slice(alloc, &[(1 << i, 1)])?;
        Ok(Poly { terms })
    }

    /// The terms, in the order of their masks.
    pub fn terms(&self) -> &[(u8, u128)]
        ensures value { result.now ≡ self.now }
        ensures valid { IsPolynomial self.now }
    {
        self.terms.as_slice()
    }

    /// The sum of both.
    pub fn add(&self, alloc: Global, other: &Poly) -> Result<Poly, PolyFault>
        ensures terms { IfOk result (λ p. p ≡ poly_sum self.now other.now) }
        ensures value { IfOk result (λ p. (s : List ℕ)
            → value_of p s ≡ value_of self.now s + value_of other.now s) }
        ensures fits { OnOk result (AllFit (poly_sum self.now other.now)) }
        ensures large { IsErrOf result PolyFault.Large → HasLarge (poly_sum self.now other.now) }
    {
        let mut terms = Vec::from_slice(alloc, other.terms.as_slice())?;
        put_terms(&mut terms, self.terms.as_slice())?;
        Ok(Poly { terms })
    }

    /// The product of both, which have no variable in common.
    pub fn mul_disjoint(&self, alloc: Global, other: &Poly) -> Result<Poly, PolyFault>
        requires { AreApart self.now other.now }
        ensures terms { IfOk result (λ p. p ≡ poly_product self.now other.now) }
        ensures value { IfOk result (λ p. (s : List ℕ)
            → value_of p s ≡ value_of self.now s * value_of other.now s) }
        ensures fits { OnOk result (AllFit (poly_product self.now other.now)) }
        ensures large { IsErrOf result PolyFault.Large → HasLarge (poly_product self.now other.now) }
    {
        let mut terms = Vec::new(alloc);
        put_products(&mut terms, self.terms.as_slice(), other.terms.as_slice())?;
        Ok(Poly { terms })
    }

    /// The value at a vector, unless it is 2^128 or more.
    pub fn eval(&self, s: &[u64]) -> Option<u128>
        requires { IsVectorFor self.now s.now }
        ensures value { IsExactly result (value_of self.now s.now) }
        ensures positive { IfSome result (λ v. 1 ≤ v) }
    {
        let mut total: u128 = 0;
        for &(mask, coefficient) in self.terms.as_slice() {
            let term = term_value(mask, coefficient, s)?;
            total = total.checked_add(term)?;
        }
        Some(total)
    }
}

/// The coefficient times the numbers of the set's selectivities, unless that is 2^128 or more.
fn term_value(mask: u8, coefficient: u128, s: &[u64]) -> Option<u128>
    requires coefficient { 1 ≤ coefficient }
    requires numbers { HasNumbers mask s.now }
    ensures value { IsExactly result (coefficient * product_over mask s.now) }
{
    let mut rest = mask;
    let mut value = coefficient;
    for n in s {
        if rest % 2 == 1 {
            match value.checked_mul(u128::from(*n)) {
                // Each number left is at least 1, so the value cannot come down again.
                None => return None,
                Some(more) => value = more,
            }
        }
        rest /= 2;
    }
    Some(value)
}

#[cfg(test)]
mod tests {
    use super::*;
    use std::test::Fail;

    #[test]
    fn adds_multiplies_and_evaluates(rt: HostRuntime) -> Result<(), Fail> {
        let alloc = rt.alloc();
        let ten = Poly::constant(alloc, 10)?;
        let two = Poly::constant(alloc, 2)?;
        let first = Poly::sel(alloc, 0)?;
        let cost = ten.add(alloc, &two.mul_disjoint(alloc, &first)?)?;
        assert_eq!(rt; cost.terms(), [(0, 10), (1, 2)].as_slice(), "10 + 2 s0");
        assert_eq!(rt; cost.eval(&[100]), Some(210), "at s0 = 100");
        Ok(())
    }

    #[test]
    fn refuses_what_does_not_fit(rt: HostRuntime) -> Result<(), Fail> {
        let alloc = rt.alloc();
        let half = Poly::constant(alloc, 1 << 127)?;
        let two = Poly::constant(alloc, 2)?;
        assert!(rt;
            matches!(half.add(alloc, &half), Err(PolyFault::Large)),
            "2^127 twice"
        );
        assert!(rt;
            matches!(half.mul_disjoint(alloc, &two), Err(PolyFault::Large)),
            "twice 2^127"
        );
        let scaled = half.mul_disjoint(alloc, &Poly::sel(alloc, 7)?)?;
        assert_eq!(rt; scaled.terms(), [(128, 1 << 127)].as_slice(), "2^127 s7");
        assert_eq!(rt;
            scaled.eval(&[9, 9, 9, 9, 9, 9, 9, 1]),
            Some(1 << 127),
            "at s7 = 1"
        );
        assert_eq!(rt; scaled.eval(&[9, 9, 9, 9, 9, 9, 9, 2]), None, "at s7 = 2");
        Ok(())
    }
}
