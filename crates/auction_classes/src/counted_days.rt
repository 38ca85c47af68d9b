//! The days of a term of interest, which many rights of a folio have alike.
ghost use Rattle.std.specs.Prelude.{◌≡◌, ◌≤◌};
ghost use Rattle.gb_base.specs.Interest.{days360};
ghost use Rattle.gb_base.specs.Limits.{most_interest_days};

use gb_base::{Day, days360};
use std::marker::Model;

/// The term whose days were counted last: rights that were entered on one day, or no later than the
/// day from which interest is current, have the same one.
#[derive(Drop)]
pub(crate) struct CountedDays {
    from: Day,
    until: Day,
    days: u32,
}

impl Model for CountedDays {
    ghost use Rattle.std.specs.Prelude.{◌≡◌, ◌≤◌};
    ghost use Rattle.gb_base.specs.Interest.{days360};
    ghost use Rattle.gb_base.specs.Limits.{most_interest_days};

    ghost Value = { Unit {0} };

    ghost view = { λ _. tt };

    ghost invariant = { λ a. (a.days ≡ days360 a.from a.until) × (a.days ≤ most_interest_days) };
}

impl CountedDays {
    /// The days from a day up to another.
    pub fn of(from: Day, until: Day) -> CountedDays {
        CountedDays {
            from,
            until,
            days: days360(from, until),
        }
    }

    /// The days from a day up to another, which are counted only where the last term was another.
    pub fn between(&mut self, from: Day, until: Day) -> u32
        ensures value { result ≡ days360 from until }
        ensures few { result ≤ most_interest_days }
    {
        if from == self.from && until == self.until {
            return self.days;
        }
        let days = days360(from, until);
        *self = CountedDays { from, until, days };
        days
    }
}
