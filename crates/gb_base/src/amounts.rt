//! Amounts of money, in cents.
ghost use Rattle.std.specs.Prelude.{◌≡◌, ◌≤◌, ◌↔◌, IsSome, IfSome};
ghost use Rattle.gb_base.specs.Limits.{most_cents};

use std::marker::Model;

/// An amount in cents, up to 10^13.
#[derive(Clone, Copy, Debug, PartialEq, Eq, PartialOrd, Ord)]
pub struct Cents(u64);

impl Model for Cents {
    ghost use Rattle.std.specs.Prelude.{ℕ, ◌≤◌};
    ghost use Rattle.gb_base.specs.Limits.{most_cents};

    ghost Value = { ℕ };

    ghost view = { λ a. a.0 };

    ghost invariant = { λ a. a.0 ≤ most_cents };

    ghost inverse = { λ n. record { 0 = n } };
}

impl Cents {
    /// The greatest amount, 10^13 cents.
    pub const MAX: u64 = 10_000_000_000_000;

    /// This amount; None above 10^13.
    pub fn new(n: u64) -> Option<Cents>
        ensures some { IsSome result ↔ (n ≤ most_cents) }
        ensures value { IfSome result (λ cents. cents ≡ n) }
    {
        if n <= Cents::MAX {
            Some(Cents(n))
        } else {
            None
        }
    }

    /// The number of cents.
    pub fn get(self) -> u64
        ensures value { result ≡ self }
        ensures in_range { self ≤ most_cents }
    {
        self.0
    }
}
