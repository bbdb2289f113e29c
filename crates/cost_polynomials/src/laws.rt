//! Laws on the values of polynomials, for proofs in the crates above: nothing here computes.
//!
//! Let a vector of counts go from `a` to `q`. Where some of its numbers grew, the value of a
//! polynomial
//! grows by at most the factor by which their product grew. Where some shrank, it shrinks by at
//! most
//! the factor by which their product shrank.

ghost use Rattle.std.specs.Prelude.{◌≡◌, ◌*◌, ◌≤◌, length};
ghost use Rattle.cost_polynomials.specs.Polynomial.{value_of};
ghost use Rattle.cost_polynomials.specs.Growth.{grown_from, grown_to, shrunk_from, shrunk_to};

use crate::Poly;

/// From `a` to `q` the value grows by at most the growth of the numbers that grew.
pub fn grow_up(p: &Poly, q: &[u64], a: &[u64])
    requires { length q.now ≡ length a.now }
    ensures bound { value_of p.now q.now * grown_from q.now a.now
        ≤ value_of p.now a.now * grown_to q.now a.now }
{}

/// From `a` to `q` the value shrinks by at most the shrinking of the numbers that shrank.
pub fn grow_down(p: &Poly, q: &[u64], a: &[u64])
    requires { length q.now ≡ length a.now }
    ensures bound { value_of p.now a.now * shrunk_to q.now a.now
        ≤ value_of p.now q.now * shrunk_from q.now a.now }
{}
