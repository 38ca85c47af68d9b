//! Laws of the definitions that contracts cite. Each function does nothing; its contract is the
//! law.
ghost use Rattle.std.specs.Prelude.{◌≡◌, ◌≤◌, ℕ, min, List, sum, Some};
ghost use Rattle.gb_base.specs.Calendar.{IsDateOfRange, IsCivilDay, date_of};
ghost use Rattle.gb_base.specs.Limits.{last_day};
ghost use Rattle.gb_base.specs.Shares.{shares};
ghost use Rattle.gb_base.specs.Texts.{date_text, day_written};

/// Each day has just one date, which is of the range, and each date of the range has just one
/// number.
pub fn days_are_dates()
    ensures in_range { (n : ℕ) → n ≤ last_day → IsDateOfRange (date_of n).year (date_of n).month (date_of n).day }
    ensures date { (n : ℕ) → n ≤ last_day → IsCivilDay (date_of n).year (date_of n).month (date_of n).day n }
    ensures number { (year month day : ℕ) → IsDateOfRange year month day
        → (n : ℕ) × (n ≤ last_day) × IsCivilDay year month day n }
    ensures no_other { (year month day n : ℕ) → IsCivilDay year month day n → n ≤ last_day
        → (year ≡ (date_of n).year) × (month ≡ (date_of n).month) × (day ≡ (date_of n).day) }
{}

/// A day's text is the text of no other day.
pub fn texts_are_days()
    ensures { (n : ℕ) → n ≤ last_day → day_written (date_text n) ≡ Some n }
{}

/// The shares in money come to the money, or to the sum of the claims where the money reaches it.
pub fn shares_add_up()
    ensures { (money : ℕ) (claims : List ℕ) → sum (shares money claims) ≡ min money (sum claims) }
{}
