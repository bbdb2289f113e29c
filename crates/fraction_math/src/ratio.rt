//! Fractions whose parts are small enough that two of them multiply within 128 bits.

ghost use Rattle.std.specs.Prelude.{◌≡◌, ◌↔◌, IsSome, IfSome};
ghost use Rattle.fraction_math.specs.Fraction.{IsPart};

use std::marker::Model;

/// Each part of a fraction is below this, 2^63, so that the product of two parts is below 2^126.
pub const PART_LIMIT: u64 = 1 << 63;

/// A fraction of two whole numbers from 1 to 2^63 - 1, not reduced.
#[derive(Clone, Copy, Debug)]
pub struct Ratio {
    num: u64,
    den: u64,
}

impl Model for Ratio {
    ghost use Rattle.fraction_math.specs.Fraction.{Fraction, IsPart};

    ghost Value = { Fraction };

    ghost view = { λ r. record { num = r.num; den = r.den } };

    ghost invariant = { λ r. IsPart r.num × IsPart r.den };

    ghost inverse = { λ f. record { num = f.num; den = f.den } };
}

impl Ratio {
    /// The fraction `num` over `den`, where both parts are in range.
    pub fn new(num: u64, den: u64) -> Option<Ratio>
        ensures valid { IsSome result ↔ (IsPart num × IsPart den) }
        ensures value { IfSome result (λ r. r ≡ record { num = num; den = den }) }
    {
        let in_range = num > 0 && num < PART_LIMIT && den > 0 && den < PART_LIMIT;
        if in_range {
            Some(Ratio { num, den })
        } else {
            None
        }
    }

    /// The part above the line.
    pub fn num(self) -> u64
        ensures value { result ≡ self.num }
        ensures valid { IsPart result }
    {
        self.num
    }

    /// The part below the line.
    pub fn den(self) -> u64
        ensures value { result ≡ self.den }
        ensures valid { IsPart result }
    {
        self.den
    }
}

#[cfg(test)]
mod tests {
    use super::*;

    #[test]
    fn takes_parts_in_range(rt: HostRuntime) {
        let cases = [
            ("nothing above the line", 0, 1, false),
            ("nothing below the line", 1, 0, false),
            ("the largest parts", (1 << 63) - 1, (1 << 63) - 1, true),
            ("2^63 below the line", 7, 1 << 63, false),
        ];
        for (what, num, den, want) in cases {
            assert_eq!(rt; Ratio::new(num, den).is_some(), want, "{what}");
        }
    }
}
