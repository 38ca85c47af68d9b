//! Dates as texts, YYYY-MM-DD.
ghost use Rattle.std.specs.Prelude.{◌≡◌, ◌≤◌, Some, IfSome};
ghost use Rattle.gb_base.specs.Texts.{date_text, day_written};
ghost use Rattle.gb_base.specs.inner.DateReading.{digits_read, day_numbered, day_of_digits, day_read};

use crate::Day;
use std::fmt;

/// The civil date, as `2024-02-29`.
impl fmt::Display for Day {
    ghost output = { λ day. Some (date_text day) };

    #[tactic(auto, unfolding(crate::specs::Texts::date_text))]
    fn fmt<W: fmt::Write>(&self, f: &mut fmt::Formatter<W>) -> fmt::Result {
        let year = self.year();
        let (century, year) = (year / 100, year % 100);
        let month = self.month();
        let day = self.day();
        write!(
            f,
            "{}{}{}{}-{}{}-{}{}",
            century / 10,
            century % 10,
            year / 10,
            year % 10,
            month / 10,
            month % 10,
            day / 10,
            day % 10
        )
    }
}

impl Day {
    /// The day whose date this is, as `2024-02-29`; None where the text is no date of the range
    /// in these ten bytes.
    pub fn from_text(text: &[u8]) -> Option<Day>
        ensures { result ≡ day_written text.now }
    {
        day_read(text)
    }
}

/// The day of the date that these ten bytes write.
fn day_read(text: &[u8]) -> Option<Day>
    ensures { result ≡ day_read text.now }
{
    match text {
        [y1, y2, y3, y4, b'-', m1, m2, b'-', d1, d2] => {
            day_of_digits((*y1, *y2), (*y3, *y4), (*m1, *m2), (*d1, *d2))
        }
        _ => None,
    }
}

/// The day of the date with these digits.
#[tactic(auto, unfolding(crate::specs::inner::DateReading::day_of_digits))]
fn day_of_digits(century: (u8, u8), year: (u8, u8), month: (u8, u8), day: (u8, u8)) -> Option<Day>
    ensures { result ≡ day_of_digits century year month day }
{
    let century = digits_read(century)?;
    let year = digits_read(year)?;
    let month = digits_read(month)?;
    let day = digits_read(day)?;
    day_numbered(100 * u16::from(century) + u16::from(year), month, day)
}

/// The day of this date of the range.
fn day_numbered(year: u16, month: u8, day: u8) -> Option<Day>
    ensures { result ≡ day_numbered year month day }
{
    Day::from_civil(year, month, day)
}

/// The number of two digits.
fn digits_read(digits: (u8, u8)) -> Option<u8>
    ensures exact { result ≡ digits_read digits.0 digits.1 }
    ensures in_range { IfSome result (λ n. n ≤ 99) }
{
    let (tens, ones) = digits;
    if tens.is_ascii_digit() && ones.is_ascii_digit() {
        Some(10 * (tens - b'0') + (ones - b'0'))
    } else {
        None
    }
}
