//! Days, as numbers and as dates.
//! Why so: docs/DECISIONS.md, "Dates rest on `jiff`".
ghost use Rattle.std.specs.Prelude.{◌≡◌, ◌≤◌, ◌↔◌, IsSome, IfSome, pos};
ghost use Rattle.gb_base.specs.Calendar.{IsDateOfRange, IsCivilDay, date_of};
ghost use Rattle.gb_base.specs.Limits.{last_day, first_year, last_year};

use jiff::ToSpan;
use jiff::civil::{self, Date};
use std::marker::Model;

/// A day from 1970-01-01 to 2199-12-31, as the number of days since the first of these.
#[derive(Clone, Copy, Debug, PartialEq, Eq, PartialOrd, Ord)]
pub struct Day(u32);

impl Model for Day {
    ghost use Rattle.std.specs.Prelude.{ℕ, ◌≤◌};
    ghost use Rattle.gb_base.specs.Limits.{last_day};

    ghost Value = { ℕ };

    ghost view = { λ a. a.0 };

    ghost invariant = { λ a. a.0 ≤ last_day };

    ghost inverse = { λ n. record { 0 = n } };
}

impl Day {
    /// The last day, 2199-12-31.
    const LAST: u32 = 84_005;

    /// The day of this number; None above 84,005.
    pub fn new(n: u32) -> Option<Day>
        ensures some { IsSome result ↔ (n ≤ last_day) }
        ensures value { IfSome result (λ day. day ≡ n) }
    {
        if n <= Day::LAST { Some(Day(n)) } else { None }
    }

    /// The day of this date of the Gregorian calendar; None where the calendar has no such date,
    /// or it is not in the range.
    pub fn from_civil(year: u16, month: u8, day: u8) -> Option<Day>
        ensures some { IsSome result ↔ IsDateOfRange year month day }
        ensures value { IfSome result (λ n. IsCivilDay year month day n) }
    {
        let date = date_of_range(year, month, day)?;
        Some(Day(date.to_plain().to_unix_epoch_day() as u32))
    }

    /// The number of days since 1970-01-01.
    pub fn number(self) -> u32
        ensures value { result ≡ self }
        ensures in_range { self ≤ last_day }
    {
        self.0
    }

    /// The year, from 1970 to 2199.
    pub fn year(self) -> u16
        ensures value { result ≡ (date_of self).year }
        ensures date { IsCivilDay result (date_of self).month (date_of self).day self }
        ensures from { first_year ≤ result }
        ensures to { result ≤ last_year }
    {
        self.date().year() as u16
    }

    /// The month of the year, from 1 to 12.
    pub fn month(self) -> u8
        ensures value { result ≡ (date_of self).month }
        ensures date { IsCivilDay (date_of self).year result (date_of self).day self }
        ensures from { 1 ≤ result }
        ensures to { result ≤ 12 }
    {
        self.date().month() as u8
    }

    /// The day of the month, from 1 to 31.
    pub fn day(self) -> u8
        ensures value { result ≡ (date_of self).day }
        ensures date { IsCivilDay (date_of self).year (date_of self).month result self }
        ensures from { 1 ≤ result }
        ensures to { result ≤ 31 }
    {
        self.date().day() as u8
    }

    /// The date of the Gregorian calendar.
    pub(crate) fn date(self) -> Date
        ensures year { result.year ≡ pos (date_of self).year }
        ensures month { result.month ≡ (date_of self).month }
        ensures day { result.day ≡ (date_of self).day }
        ensures civil { IsCivilDay (date_of self).year (date_of self).month (date_of self).day self }
        ensures in_range { IsDateOfRange (date_of self).year (date_of self).month (date_of self).day }
    {
        match civil::date(1970, 1, 1).checked_add(i64::from(self.0).days()) {
            Ok(date) => date,
            Err(_) => unreachable!(),
        }
    }
}

/// Does nothing. Whoever calls it knows that a day is at most the last one.
pub fn is_a_day(day: Day)
    ensures { day ≤ last_day }
{
    day.number();
}

/// The year of the first day.
const FIRST_YEAR: u16 = 1970;

/// The year of the last day.
const LAST_YEAR: u16 = 2199;

/// This date of the Gregorian calendar; None where the calendar has no such date, or it is not in
/// the range.
fn date_of_range(year: u16, month: u8, day: u8) -> Option<Date>
    ensures some { IsSome result ↔ IsDateOfRange year month day }
    ensures value { IfSome result (λ date. (date.year ≡ pos year) × (date.month ≡ month) × (date.day ≡ day)) }
{
    // No month and no day of the calendar is greater, and jiff takes both as `i8`.
    if year < FIRST_YEAR || LAST_YEAR < year || 12 < month || 31 < day {
        return None;
    }
    Date::new(year as i16, month as i8, day as i8).ok()
}
