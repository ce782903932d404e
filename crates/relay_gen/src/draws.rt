//! The numbers that a history is made of.

ghost use Rattle.std.specs.Prelude.{◌≡◌, ◌<◌};
ghost use Rattle.relay_gen.specs.Draws.{next, drawn};

use std::marker::Model;

/// Numbers that follow from one another: a linear congruential generator of 64 bits.
#[derive(Drop)]
pub(crate) struct Draws {
    state: u64,
}

impl Model for Draws {
    ghost use Rattle.std.specs.Prelude.{ℕ};

    ghost Value = { ℕ };

    ghost view = { λ a. a.state };
}

const FACTOR: u64 = 6_364_136_223_846_793_005;

const SUMMAND: u64 = 1_442_695_040_888_963_407;

impl Draws {
    /// The numbers that follow a first one.
    pub fn new(start: u64) -> Draws
        ensures { result ≡ start }
    {
        Draws { state: start }
    }

    /// The next number below a limit.
    #[tactic(auto, unfolding(crate::specs::Draws::next, crate::specs::Draws::drawn))]
    pub fn draw(&mut self, limit: u64) -> u64
        requires { 0 < limit }
        ensures state { self.new ≡ next self.old }
        ensures value { result ≡ drawn limit (next self.old) }
        ensures below { result < limit }
    {
        self.state = self.state.wrapping_mul(FACTOR).wrapping_add(SUMMAND);
        (self.state >> 33) % limit
    }
}
