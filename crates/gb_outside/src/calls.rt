//! The calls of objects in memory.
ghost use Rattle.std.specs.Prelude.{◌≡◌, ◌==◌};
ghost use Rattle.std.specs.List.{list_any};
ghost use Rattle.gb_outside.specs.InMemory.{fails_next, after_call};

use std::marker::Model;

/// The calls of an object in memory: how many were made, and the numbers, from 1, of those that
/// are to fail.
#[derive(Debug, Drop)]
pub struct Calls<'a> {
    made: u64,
    failing: &'a [u32],
}

impl<'a> Model for Calls<'a> {
    ghost use Rattle.gb_outside.specs.InMemory.{CallPlan};

    ghost Value = { CallPlan };

    ghost view = { λ a. record { made = a.made; failing = a.failing.now } };
}

impl<'a> Calls<'a> {
    /// No call was made, and these are to fail.
    pub fn new(failing: &'a [u32]) -> Calls<'a>
        ensures { result ≡ record { made = 0; failing = failing.now } }
    {
        Calls { made: 0, failing }
    }

    /// Counts a call. True where it is to fail.
    pub fn next_fails(&mut self) -> bool
        ensures fails { result ≡ fails_next self.old }
        ensures counted { self.new ≡ after_call self.old }
    {
        self.made = self.made.saturating_add(1);
        is_named(self.failing, self.made)
    }
}

/// Whether this number is among those.
pub fn is_named(numbers: &[u32], number: u64) -> bool
    ensures { result ≡ list_any (λ n. n == number) numbers.now }
{
    numbers.iter().any(|n| u64::from(*n) == number)
}
