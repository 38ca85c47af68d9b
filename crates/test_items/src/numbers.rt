//! Numbers, days and keys.
ghost use Rattle.std.specs.Prelude.{◌≡◌, ◌≤◌, ◌<◌};
ghost use Rattle.gb_base.specs.Limits.{most_acts, most_cents, minutes_of_day};
ghost use Rattle.gb_base.specs.DayMinute.{IsStampDay};

use gb_base::{Cents, Day, FolioId, Key, Person, ReceiptNo, RightId, Stamp};

/// The number of 2024-01-01.
const NEW_YEAR: u32 = 19_723;

/// The folio of this number.
pub fn folio(n: u32) -> FolioId
    requires { 1 ≤ n }
    ensures { result ≡ n }
{
    FolioId::new(n).unwrap()
}

/// The person of this number.
pub fn person(n: u32) -> Person
    requires { 1 ≤ n }
    ensures { result ≡ n }
{
    Person::new(n).unwrap()
}

/// The receipt of this number.
pub fn receipt(n: u32) -> ReceiptNo
    requires { 1 ≤ n }
    ensures { result ≡ n }
{
    ReceiptNo::new(n).unwrap()
}

/// The right that an act of a filing creates: `right(2, 1)` is 2.1.
pub fn right(filing: u32, act: u8) -> RightId
    requires filing { 1 ≤ filing }
    requires from_one { 1 ≤ act }
    requires to_eight { act ≤ most_acts }
    ensures receipt { result.receipt ≡ filing }
    ensures act { result.act ≡ act }
{
    RightId::new(receipt(filing), act).unwrap()
}

/// So many cents.
pub fn cents(n: u64) -> Cents
    requires { n ≤ most_cents }
    ensures { result ≡ n }
{
    Cents::new(n).unwrap()
}

/// A day of 2024. The 30th of February is taken for the first of March, and so on.
pub fn day(month: u8, of_month: u8) -> Day
    requires from_one { 1 ≤ of_month }
    requires to_31 { of_month ≤ 31 }
    ensures { IsStampDay result }
{
    Day::new(NEW_YEAR + days_before(month) + of_month as u32 - 1).unwrap()
}

/// The days of 2024 before a month; 0 where there is no such month.
fn days_before(month: u8) -> u32
    ensures { result ≤ 335 }
{
    match month {
        2 => 31,
        3 => 60,
        4 => 91,
        5 => 121,
        6 => 152,
        7 => 182,
        8 => 213,
        9 => 244,
        10 => 274,
        11 => 305,
        12 => 335,
        _ => 0,
    }
}

/// 2024-02-29, on which most journals of tests begin.
pub fn last_of_february() -> Day
    ensures { IsStampDay result }
{
    day(2, 29)
}

/// A minute of a day.
pub fn stamp(day: Day, minute: u16) -> Stamp
    requires day { IsStampDay day }
    requires minute { minute < minutes_of_day }
    ensures day { result.day ≡ day }
    ensures minute { result.minute ≡ minute }
{
    Stamp::new(day, minute).unwrap()
}

/// The title of a folio.
pub fn title_key(of: u32) -> Key
    requires { 1 ≤ of }
{
    Key::Title(folio(of))
}

/// A right of a folio.
pub fn right_key(of: u32, right: RightId) -> Key
    requires { 1 ≤ of }
{
    Key::Right(folio(of), right)
}

/// The forced sale of a folio.
pub fn case_key(of: u32) -> Key
    requires { 1 ≤ of }
{
    Key::Case(folio(of))
}
