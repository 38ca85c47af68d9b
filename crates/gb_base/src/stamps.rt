//! When receipts came in.
ghost use Rattle.std.specs.Prelude.{◌≡◌, ◌≤◌, ◌<◌, ◌↔◌, IsSome, IfSome};
ghost use Rattle.gb_base.specs.DayMinute.{IsStampDay};
ghost use Rattle.gb_base.specs.Limits.{minutes_of_day};

use crate::Day;
use std::marker::Model;

/// When a receipt came in (GBO § 13): a day from 2000-01-01 to 2149-12-31 and the minute of it.
#[derive(Clone, Copy, Debug, PartialEq, Eq, PartialOrd, Ord)]
pub struct Stamp {
    day: Day,
    minute: u16,
}

impl Model for Stamp {
    ghost use Rattle.std.specs.Prelude.{◌<◌};
    ghost use Rattle.gb_base.specs.DayMinute.{DayMinute, IsStampDay};
    ghost use Rattle.gb_base.specs.Limits.{minutes_of_day};

    ghost Value = { DayMinute };

    ghost view = { λ a. record { day = a.day; minute = a.minute } };

    ghost invariant = { λ a. IsStampDay a.day × (a.minute < minutes_of_day) };

    ghost inverse = { λ t. record { day = t.day; minute = t.minute } };
}

impl Stamp {
    /// The first stamp day, 2000-01-01.
    pub const FIRST_DAY: u32 = 10_957;

    /// The last stamp day, 2149-12-31.
    pub const LAST_DAY: u32 = 65_743;

    /// The minutes of a day.
    const MINUTES: u16 = 1_440;

    /// This minute of this day; None outside the stamp days or above minute 1,439.
    pub fn new(day: Day, minute: u16) -> Option<Stamp>
        ensures some { IsSome result ↔ (IsStampDay day × (minute < minutes_of_day)) }
        ensures value { IfSome result (λ stamp. (stamp.day ≡ day) × (stamp.minute ≡ minute)) }
    {
        let number = day.number();
        if Stamp::FIRST_DAY <= number && number <= Stamp::LAST_DAY && minute < Stamp::MINUTES {
            Some(Stamp { day, minute })
        } else {
            None
        }
    }

    /// The day.
    pub fn day(self) -> Day
        ensures value { result ≡ self.day }
        ensures stamp_day { IsStampDay self.day }
    {
        self.day
    }

    /// The minute of the day, from 0 to 1,439.
    pub fn minute(self) -> u16
        ensures value { result ≡ self.minute }
        ensures in_range { self.minute < minutes_of_day }
    {
        self.minute
    }
}
