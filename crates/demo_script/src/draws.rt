//! The generator: numbers that follow from 1 by one fixed rule.
ghost use Rattle.std.specs.Prelude.{◌≡◌, ◌<◌};
ghost use Rattle.demo_script.specs.Draws as drawn;

use std::marker::Model;

/// The generator behind its last draw; contracts see its number.
#[derive(Debug, Drop)]
pub struct Draws {
    number: u64,
}

impl Model for Draws {
    ghost use Rattle.std.specs.Prelude.{ℕ, ◌<◌, ◌^◌};

    ghost Value = { ℕ };

    ghost view = { λ draws. draws.number };

    ghost invariant = { λ draws. draws.number < 2 ^ 31 };
}

impl Draws {
    /// The generator before its first draw.
    pub fn new() -> Draws
        ensures { result ≡ drawn.start }
    {
        Draws { number: 1 }
    }

    /// Draws a number below `m`.
    pub fn below(&mut self, m: u32) -> u32
        requires { 0 < m }
        ensures value { result ≡ drawn.below m self.new }
        ensures next { self.new ≡ drawn.next self.old }
        ensures bound { result < m }
    {
        self.number = (1103515245 * self.number + 12345) % (1 << 31);
        (self.number / 65536) as u32 % m
    }
}
