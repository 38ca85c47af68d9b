//! Clocks.
use gb_base::Stamp;

/// A clock that stamps receipts.
pub trait Clock {
    ghost use Rattle.std.specs.Prelude.{List, Option};
    ghost use Rattle.gb_base.specs.DayMinute.{DayMinute};
    ghost use Rattle.gb_outside.specs.Ticks.{Ticks};

    /// Where the clock tells them, the stamps that it will still give, the last one again and again.
    ghost ticks: { Self → Option (List DayMinute) };

    /// The stamp of now.
    fn now(&mut self) -> Stamp
        ensures { Ticks (ticks self.old) (ticks self.new) result };
}
