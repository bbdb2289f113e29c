//! The two checks by which a plan is used again, made anew: by the entry of the optimum that a certificate names.
ghost use Rattle.std.specs.Prelude.{◌≡◌, ◌≤◌, ◌*◌, ◌^◌, All};
ghost use Rattle.cost_polynomials.specs.Growth.{grown_from, grown_to, shrunk_from, shrunk_to};
ghost use Rattle.cache_model.specs.Choices.{greater_product, is_at_most};

use crate::entries::Entry;
use cost_polynomials::grown;
use fraction_math::{Ratio, le_scaled};

/// Whether a plan of this cost at the entry's vector passes the selectivity check at this one.
pub(crate) fn passes_by_selectivity(entry: &Entry, s: &[u64], lambda: Ratio, cost: u128) -> bool
    requires numbers { All (λ n. 1 ≤ n) s.now }
    requires entry_numbers { All (λ n. 1 ≤ n) entry.now.at }
    requires least { 1 ≤ entry.now.least }
    requires cost { 1 ≤ cost }
    requires near { greater_product s.now entry.now.at ≤ 2 ^ 63 }
    ensures { result ≡ is_at_most
        (cost * grown_to s.now entry.now.at * shrunk_from s.now entry.now.at * lambda.den)
        (lambda.num * entry.now.least * grown_from s.now entry.now.at * shrunk_to s.now entry.now.at) }
{
    let up = grown(s, entry.at.as_slice());
    let down = grown(entry.at.as_slice(), s);
    le_scaled(
        &[
            cost,
            u128::from(up.to),
            u128::from(down.to),
            u128::from(lambda.den()),
        ],
        &[
            u128::from(lambda.num()),
            entry.least,
            u128::from(up.from),
            u128::from(down.from),
        ],
    )
}

/// Whether a plan of this cost at this vector passes the cost check.
pub(crate) fn passes_by_cost(entry: &Entry, s: &[u64], lambda: Ratio, cost: u128) -> bool
    requires numbers { All (λ n. 1 ≤ n) s.now }
    requires least { 1 ≤ entry.now.least }
    requires cost { 1 ≤ cost }
    requires near { greater_product s.now entry.now.at ≤ 2 ^ 63 }
    ensures { result ≡ is_at_most (cost * shrunk_from s.now entry.now.at * lambda.den)
        (lambda.num * entry.now.least * shrunk_to s.now entry.now.at) }
{
    let down = grown(entry.at.as_slice(), s);
    le_scaled(
        &[cost, u128::from(down.to), u128::from(lambda.den())],
        &[u128::from(lambda.num()), entry.least, u128::from(down.from)],
    )
}
