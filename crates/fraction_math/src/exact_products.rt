//! Products of many factors, compared as true whole numbers.

ghost use Rattle.std.specs.Prelude.{◌≡◌, ◌≤◌, ◌^◌, ◌↔◌, IsTrue, All, MatchOption};
ghost use Rattle.fraction_math.specs.Product.{IsAtMost, product_of};

/// The product of the factors, unless it is 2^128 or more.
pub fn product(xs: &[u128]) -> Option<u128>
    requires { All (λ x. 1 ≤ x) xs.now }
    ensures value { MatchOption result (2 ^ 128 ≤ product_of xs.now) (λ p. p ≡ product_of xs.now) }
{
    let mut all: u128 = 1;
    for x in xs {
        match all.checked_mul(*x) {
            // Each factor left is at least 1, so the product cannot come down again.
            None => return None,
            Some(more) => all = more,
        }
    }
    Some(all)
}

/// Whether both products are below 2^128 and the left one is at most the right one.
pub fn le_scaled(left: &[u128], right: &[u128]) -> bool
    requires left { All (λ x. 1 ≤ x) left.now }
    requires right { All (λ x. 1 ≤ x) right.now }
    ensures value { IsTrue result ↔ IsAtMost (product_of left.now) (product_of right.now) }
{
    match (product(left), product(right)) {
        (Some(l), Some(r)) => l <= r,
        _ => false,
    }
}

#[cfg(test)]
mod tests {
    use super::*;

    #[test]
    fn compares_true_products(rt: HostRuntime) {
        let cases: [(&str, &[u128], &[u128], bool); 4] = [
            (
                "1,210,000 is above 1,200,000",
                &[1210, 1000],
                &[2, 1000, 600],
                false,
            ),
            ("equal products", &[6, 200], &[2, 600], true),
            (
                "2^128 on the right fits no more",
                &[1],
                &[1 << 64, 1 << 64],
                false,
            ),
            ("no factors at all", &[], &[], true),
        ];
        for (what, left, right, want) in cases {
            assert_eq!(rt; le_scaled(left, right), want, "{what}");
        }
    }

    #[test]
    fn multiplies_below_two_to_128(rt: HostRuntime) {
        let cases: [(&str, &[u128], Option<u128>); 3] = [
            ("no factor", &[], Some(1)),
            ("2^128", &[1 << 64, 1 << 64], None),
            (
                "2^128 - 2^64",
                &[1 << 64, (1 << 64) - 1],
                Some(u128::MAX - u64::MAX as u128),
            ),
        ];
        for (what, xs, want) in cases {
            assert_eq!(rt; product(xs), want, "{what}");
        }
    }
}
