//! Numbers that look drawn, the same for the same seed.
ghost use Rattle.std.specs.Prelude.{◌≡◌, ◌<◌};
ghost use Rattle.sample_journals.specs.Draws.{drawn, state_after};

/// A linear congruential generator, whose state is the seed at first.
#[derive(Debug, Drop)]
pub(crate) struct Draws {
    pub state: u64,
}

impl Draws {
    /// A number from 0, below the bound.
    pub fn below(&mut self, bound: u32) -> u32
        requires { 0 < bound }
        ensures value { result ≡ drawn self.old.state bound }
        ensures range { result < bound }
        ensures state { self.new.state ≡ state_after self.old.state }
    {
        self.state = next_state(self.state);
        (self.state >> 33) as u32 % bound
    }
}

/// The state after a draw.
fn next_state(state: u64) -> u64
    ensures { result ≡ state_after state }
{
    state
        .wrapping_mul(6_364_136_223_846_793_005)
        .wrapping_add(1_442_695_040_888_963_407)
}
