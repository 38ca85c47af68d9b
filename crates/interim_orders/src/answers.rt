//! How lapses and extensions are answered.
use gb_base::Day;

/// How a lapse is answered.
#[derive(Clone, Copy, Debug, PartialEq, Eq)]
pub enum Lapse {
    /// The deadline is not over: this day is the last of it.
    TooEarly(Day),
    /// The filing named does not wait, or the item is no lapse.
    NotPending,
    /// The filing is rejected.
    Rejected,
}

/// How an extension is answered.
#[derive(Clone, Copy, Debug, PartialEq, Eq)]
pub enum Extension {
    /// The filing named does not wait, or the item is no extension.
    NotPending,
    /// The deadline is over: this day was the last of it.
    TooLate(Day),
    /// The deadline stays this day, since the one that is wanted is not later.
    NotLater(Day),
    /// The filing waits until this day.
    Extended(Day),
}
