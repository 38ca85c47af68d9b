//! The interest of a right: what is current, and what is in arrears (ZVG §§ 10, 13, 47).
ghost use Rattle.std.specs.Prelude.{◌≡◌, ◌+◌, ◌≤◌};
ghost use Rattle.gb_base.specs.Limits.{first_year, last_stamp_day, last_year, most_rate};
ghost use Rattle.auction_classes.specs.Interest.{arrears_in_class, begin_of_current, current_interest, interest_between, new_year, old_arrears, rate_of};
ghost use Rattle.auction_classes.specs.inner.InterestLimits.{most_of_term};

use crate::counted_days::CountedDays;
use act_model::RightKind;
use gb_base::{Cents, Day, days360, interest, is_a_day};

/// What the interest of a right is computed from.
#[derive(Clone, Copy)]
pub(crate) struct Accrual {
    pub capital: Cents,
    /// In hundredths of a percent a year.
    pub rate: u16,
    /// The day on which the right was entered.
    pub entered: Day,
    /// The day of the sale.
    pub sale: Day,
    /// 1 January of the year before the first seizure's (ZVG § 13).
    pub current_from: Day,
    /// 1 January of the third year before the first seizure's (ZVG § 10(1) no. 4).
    pub arrears_from: Day,
}

impl Accrual {
    /// The current interest, in cents. Most rights of a folio have it for the same days.
    pub fn current_interest(&self, counted: &mut CountedDays) -> u64
        requires rate { self.now.rate ≤ most_rate }
        requires sale { self.now.sale ≤ last_stamp_day }
        ensures value { result ≡ current_interest self.now }
        ensures at_most { result ≤ most_of_term }
    {
        let days = counted.between(self.begin_of_current(), end_of_interest(self.sale));
        interest(self.capital, self.rate, days)
    }

    /// The part of arrears from a day up to another that the right's own class has, in cents.
    pub fn arrears_in_class(&self, from: Day, until: Day) -> u64
        requires rate { self.now.rate ≤ most_rate }
        ensures value { result ≡ arrears_in_class self.now from until }
        ensures at_most { result ≤ most_of_term }
    {
        let begin = from.max(self.arrears_from.max(self.entered));
        self.interest_between(begin, until.min(self.begin_of_current()))
    }

    /// The part of arrears from a day up to another that class 8 has, in cents.
    pub fn old_arrears(&self, from: Day, until: Day) -> u64
        requires rate { self.now.rate ≤ most_rate }
        ensures value { result ≡ old_arrears self.now from until }
        ensures at_most { result ≤ most_of_term }
    {
        self.interest_between(from.max(self.entered), until.min(self.arrears_from))
    }

    /// The day on which current interest begins.
    fn begin_of_current(&self) -> Day
        ensures { result ≡ begin_of_current self.now }
    {
        self.current_from.max(self.entered)
    }

    /// The interest from a day up to another, in cents.
    fn interest_between(&self, from: Day, until: Day) -> u64
        requires rate { self.now.rate ≤ most_rate }
        ensures value { result ≡ interest_between self.now from until }
        ensures at_most { result ≤ most_of_term }
    {
        interest(self.capital, self.rate, days360(from, until))
    }
}

/// The rate of a right, in hundredths of a percent a year; one of division II bears no interest.
pub(crate) fn rate_of(kind: RightKind) -> u16
    ensures { result ≡ rate_of kind }
{
    match kind {
        RightKind::Mortgage { rate_bp } => rate_bp,
        RightKind::LandCharge { rate_bp } => rate_bp,
        _ => 0,
    }
}

/// The 15th day after a sale, up to which interest runs (ZVG § 47).
pub(crate) fn end_of_interest(sale: Day) -> Day
    requires { sale ≤ last_stamp_day }
    ensures { result ≡ sale + 15 }
{
    Day::new(sale.number() + 15).unwrap()
}

/// 1 January of a year.
pub(crate) fn new_year(year: u16) -> Day
    requires from { first_year ≤ year }
    requires to { year ≤ last_year }
    ensures { result ≡ new_year year }
{
    let first = Day::from_civil(year, 1, 1).unwrap();
    is_a_day(first);
    first
}
