//! Deadlines: the days after which a lapse ends the waiting of a filing (GBO § 18).
ghost use Rattle.std.specs.Prelude.{◌≡◌, ◌≤◌, ◌+◌};
ghost use Rattle.jiff_core.specs.Weekday.{monday_zero};
ghost use Rattle.gb_base.specs.DayMinute.{IsStampDay};
ghost use Rattle.gb_base.specs.Deadlines.{weekday, working_day, deadline, deadline_after};
ghost use Rattle.gb_base.specs.Limits.{last_day};

use crate::Day;
use jiff::civil::Weekday;

/// The deadline of a filing of this day, after which a lapse ends the waiting: 30 days later, and
/// the next Monday where that is a Saturday or Sunday (GBO § 18(1), BGB § 193).
pub fn deadline(day: Day) -> Day
    requires { IsStampDay day }
    ensures value { result ≡ deadline day }
    ensures working { weekday result ≤ 4 }
    ensures from { day + 30 ≤ result }
    ensures to { result ≤ day + 32 }
{
    deadline_after(day, 30)
}

/// The deadline so many days after this day: that day, or the next Monday where it is a Saturday or
/// Sunday (BGB § 193).
pub fn deadline_after(day: Day, days: u16) -> Day
    requires { day + days + 2 ≤ last_day }
    ensures value { result ≡ deadline_after days day }
    ensures working { weekday result ≤ 4 }
    ensures from { day + days ≤ result }
    ensures to { result ≤ day + days + 2 }
{
    working_day(later(day, u32::from(days)))
}

/// The day, or the next Monday where it is a Saturday or Sunday (BGB § 193).
fn working_day(day: Day) -> Day
    requires { day + 2 ≤ last_day }
    ensures { result ≡ working_day day }
{
    match weekday(day) {
        Weekday::Saturday => later(day, 2),
        Weekday::Sunday => later(day, 1),
        _ => day,
    }
}

/// The day so many days later.
fn later(day: Day, days: u32) -> Day
    requires { day + days ≤ last_day }
    ensures { result ≡ day + days }
{
    Day::new(day.number() + days).unwrap()
}

/// The day of the week.
fn weekday(day: Day) -> Weekday
    ensures { monday_zero result ≡ weekday day }
{
    day.date().weekday()
}
