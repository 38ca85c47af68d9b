//! Numbers that look drawn, the same each time.
ghost use Rattle.std.specs.Prelude.{◌<◌};

/// A linear congruential generator.
#[derive(Debug, Drop)]
pub struct Draws {
    state: u64,
}

impl Draws {
    /// The draws that begin with this seed.
    pub fn new(seed: u64) -> Draws {
        Draws { state: seed }
    }

    /// A number from 0, below the bound.
    pub fn below(&mut self, bound: u32) -> u32
        requires { 0 < bound }
        ensures { result < bound }
    {
        self.state = self
            .state
            .wrapping_mul(6_364_136_223_846_793_005)
            .wrapping_add(1_442_695_040_888_963_407);
        (self.state >> 33) as u32 % bound
    }

    /// Whether this draw is one that comes up once in so many times.
    pub fn one_in(&mut self, times: u32) -> bool
        requires { 0 < times }
    {
        self.below(times) == 0
    }
}
