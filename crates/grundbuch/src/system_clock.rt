//! The system's clock as the office's clock.
ghost use Rattle.std.specs.Prelude.{◌≡◌};
ghost use Rattle.grundbuch.specs.Clock.{first_stamp, stamp_at, stamp_of};

use gb_base::{Day, Stamp};
use gb_outside::Clock;
use std::rt;
use std::time::{SystemTime, UNIX_EPOCH};

/// The seconds of each day: the clock counts no leap second.
const DAY: u64 = 86_400;

/// The system's clock in UTC as the office's clock. It does not tell what it will say.
#[derive(Drop)]
pub struct SystemClock<'a, R: rt::Clock> {
    runtime: &'a R,
}

impl<'a, R: rt::Clock> SystemClock<'a, R> {
    /// The clock of this runtime. It is not asked yet.
    pub fn new(runtime: &'a R) -> SystemClock<'a, R>
        ensures { result.runtime.now ≡ runtime.now }
    {
        SystemClock { runtime }
    }
}

impl<R: rt::Clock> Clock for SystemClock<'_, R> {
    ghost use Rattle.std.specs.Prelude.{None};

    ghost ticks = { λ clock. None };

    fn now(&mut self) -> Stamp {
        stamp_at(seconds(self.runtime))
    }
}

/// The seconds since 1970-01-01 at midnight; None where the clock cannot be read.
fn seconds<R: rt::Clock>(runtime: &R) -> Option<u64> {
    let now = SystemTime::now(runtime).ok()?;
    let since_1970 = now.duration_since(UNIX_EPOCH).ok()?;
    Some(since_1970.as_secs())
}

/// The stamp of a moment. Where it is not known, or no receipt can have come in on its day, it is
/// the first stamp, which nobody takes for the present.
fn stamp_at(seconds: Option<u64>) -> Stamp
    ensures { result ≡ stamp_at seconds }
{
    match seconds.and_then(stamp_of) {
        Some(stamp) => stamp,
        None => first_stamp(),
    }
}

/// The stamp of a moment; None where no receipt can have come in on its day.
fn stamp_of(seconds: u64) -> Option<Stamp>
    ensures { result ≡ stamp_of seconds }
{
    let day = Day::new(u32::try_from(seconds / DAY).ok()?)?;
    Stamp::new(day, (seconds % DAY / 60) as u16)
}

/// The first minute that a receipt can have, 2000-01-01 at midnight.
fn first_stamp() -> Stamp
    ensures { result ≡ first_stamp }
{
    Stamp::new(Day::new(Stamp::FIRST_DAY).unwrap(), 0).unwrap()
}
