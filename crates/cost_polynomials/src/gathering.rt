//! Terms gathered into a list in the order of their masks, at most one term for each set of
//! selectivities.
//!
//! A refused call leaves its list half done, and its caller drops the list.

ghost use Rattle.std.specs.Prelude.{◌≡◌, ◌∷◌, map, OnOk, IfOk, IfErr, IsErrOf};
ghost use Rattle.cost_polynomials.specs.Gathering.{IsPlaceFor, IsPlaceOf};
ghost use Rattle.cost_polynomials.specs.Polynomial.{add_term, AllFit, gathered, HasLarge, pair_products, times_term};

use row_values::OutOfMemory;
use std::alloc::AllocFailed;

/// Why a polynomial was not built.
#[derive(Clone, Copy, Debug, PartialEq, Eq)]
pub enum PolyFault {
    /// A coefficient of the result is 2^128 or more.
    Large,
    /// Out of memory.
    Memory,
}

impl From<OutOfMemory> for PolyFault {
    ghost use Rattle.cost_polynomials.specs.declared.gathering.PolyFault.TheVariants.{Memory};
    ghost use Rattle.std.specs.Prelude.{◌≡◌};

    ghost from_gives = { λ _ e. e ≡ Memory };

    fn from(_e: OutOfMemory) -> PolyFault {
        PolyFault::Memory
    }
}

impl<T: Drop> From<AllocFailed<T>> for PolyFault {
    ghost use Rattle.cost_polynomials.specs.declared.gathering.PolyFault.TheVariants.{Memory};
    ghost use Rattle.std.specs.Prelude.{◌≡◌};

    ghost from_gives = { λ _ e. e ≡ Memory };

    fn from(_e: AllocFailed<T>) -> PolyFault {
        PolyFault::Memory
    }
}

/// Where a set has its term, or else where its term would stand.
fn place_of(terms: &[(u8, u128)], mask: u8) -> Result<usize, usize>
    ensures found { IfOk result (IsPlaceOf terms.now mask) }
    ensures new { IfErr result (IsPlaceFor terms.now mask) }
{
    for (i, &(other, _)) in terms.iter().enumerate() {
        if mask == other {
            return Ok(i);
        }
        if mask < other {
            return Err(i);
        }
    }
    Err(terms.len())
}

/// Adds one term.
pub fn put_term(terms: &mut Vec<(u8, u128)>, mask: u8, coefficient: u128) -> Result<(), PolyFault>
    requires { AllFit terms.old.items }
    ensures ok { OnOk result (terms.new.items ≡ add_term (mask, coefficient) terms.old.items) }
    ensures fits { OnOk result (AllFit terms.new.items) }
    ensures large { IsErrOf result PolyFault.Large
        → HasLarge (add_term (mask, coefficient) terms.old.items) }
{
    match place_of(terms, mask) {
        Ok(i) => match coefficient.checked_add(terms[i].1) {
            None => return Err(PolyFault::Large),
            Some(sum) => terms[i] = (mask, sum),
        },
        Err(i) => terms.insert(i, (mask, coefficient))?,
    }
    Ok(())
}

/// Adds many terms.
pub fn put_terms(terms: &mut Vec<(u8, u128)>, more: &[(u8, u128)]) -> Result<(), PolyFault>
    requires { AllFit terms.old.items }
    ensures ok { OnOk result (terms.new.items ≡ gathered more.now terms.old.items) }
    ensures fits { OnOk result (AllFit terms.new.items) }
    ensures large { IsErrOf result PolyFault.Large → HasLarge (gathered more.now terms.old.items) }
{
    for &(mask, coefficient) in more {
        put_term(terms, mask, coefficient)?;
    }
    Ok(())
}

/// Adds one term times each of many terms, which share no selectivity with it.
fn put_multiples(
    terms: &mut Vec<(u8, u128)>,
    mask: u8,
    coefficient: u128,
    factors: &[(u8, u128)],
) -> Result<(), PolyFault>
    requires { AllFit terms.old.items }
    ensures ok { OnOk result (terms.new.items
        ≡ gathered (map (times_term (mask, coefficient)) factors.now) terms.old.items) }
    ensures fits { OnOk result (AllFit terms.new.items) }
    ensures large { IsErrOf result PolyFault.Large
        → HasLarge (gathered (map (times_term (mask, coefficient)) factors.now) terms.old.items) }
{
    for &(other, factor) in factors {
        match coefficient.checked_mul(factor) {
            None => return Err(PolyFault::Large),
            Some(product) => put_term(terms, mask | other, product)?,
        }
    }
    Ok(())
}

/// Adds each of some terms times each of others, which share no selectivity with them.
pub fn put_products(
    terms: &mut Vec<(u8, u128)>,
    left: &[(u8, u128)],
    right: &[(u8, u128)],
) -> Result<(), PolyFault>
    requires { AllFit terms.old.items }
    ensures ok { OnOk result (terms.new.items
        ≡ gathered (pair_products left.now right.now) terms.old.items) }
    ensures fits { OnOk result (AllFit terms.new.items) }
    ensures large { IsErrOf result PolyFault.Large
        → HasLarge (gathered (pair_products left.now right.now) terms.old.items) }
{
    for &(mask, coefficient) in left {
        put_multiples(terms, mask, coefficient, right)?;
    }
    Ok(())
}
