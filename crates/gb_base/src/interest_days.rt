//! Interest as forced sales count it: a year has 360 days, and each month 30. ZVG does not say how
//! days are counted; this is the office's own rule.
ghost use Rattle.std.specs.Prelude.{◌≡◌, ◌+◌, ◌≤◌};
ghost use Rattle.gb_base.specs.Interest.{commercial_day, days360, interest};
ghost use Rattle.gb_base.specs.Limits.{most_interest_days, most_rate};

use crate::{Cents, Day};

/// The days from day a up to day b, without day b itself, where a year has 360 days and each month
/// 30: the 31st of a month counts as its 30th (the office's own rule). 0 where b is before a.
///
/// ```
/// let a = Day::from_civil(2024, 1, 31)?;
/// let b = Day::from_civil(2024, 3, 1)?;
/// assert!(days360(a, b) == 31);
/// ```
pub fn days360(a: Day, b: Day) -> u32
    ensures value { result ≡ days360 a b }
    ensures few { result ≤ most_interest_days }
{
    if b < a {
        return 0;
    }
    commercial_day(b).saturating_sub(commercial_day(a))
}

/// The place of a day in years of 360 days, with months of 30.
fn commercial_day(day: Day) -> u32
    ensures value { result ≡ commercial_day day }
    ensures from { 709200 ≤ result }
    ensures to { result ≤ 792030 }
{
    360 * u32::from(day.year()) + 30 * u32::from(day.month()) + u32::from(day.day()).min(30)
}

/// The interest on a capital for so many days, in whole cents; it may exceed the greatest amount. The
/// rate is in hundredths of a percent a year, and a year has 360 days.
pub fn interest(capital: Cents, rate_bp: u16, days: u32) -> u64
    requires rate { rate_bp ≤ most_rate }
    requires days { days ≤ most_interest_days }
    ensures value { result ≡ interest capital rate_bp days }
    ensures at_most { result ≤ 461111111111111 }
{
    (u128::from(capital.get()) * u128::from(rate_bp) * u128::from(days) / 3_600_000) as u64
}
