//! How far one selectivity vector is from another.
ghost use Rattle.std.specs.Prelude.{◌≡◌, ◌<◌, ◌≤◌, ◌^◌, All};
ghost use Rattle.cost_polynomials.specs.Growth.{grown_from, grown_to};

/// The numbers that grew from one vector to another, multiplied: as they are now, and as they were.
#[derive(Clone, Copy, Debug, PartialEq, Eq)]
pub struct GrowthProducts {
    pub to: u64,
    pub from: u64,
}

/// What grew from one vector to another. It takes no memory.
pub fn grown(to: &[u64], from: &[u64]) -> GrowthProducts
    requires numbers { All (λ n. 1 ≤ n) from.now }
    requires fits { grown_to to.now from.now < 2 ^ 64 }
    ensures to { result.to ≡ grown_to to.now from.now }
    ensures from { result.from ≡ grown_from to.now from.now }
    ensures some { 1 ≤ result.from }
    ensures more { result.from ≤ result.to }
{
    match to {
        [] => GrowthProducts { to: 1, from: 1 },
        [new, to @ ..] => match from {
            [] => GrowthProducts { to: 1, from: 1 },
            [old, from @ ..] => {
                let rest = grown(to, from);
                if old < new {
                    GrowthProducts {
                        to: new * rest.to,
                        from: old * rest.from,
                    }
                } else {
                    rest
                }
            }
        },
    }
}
