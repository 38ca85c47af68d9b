//! A clock that gives the stamps of a list.
ghost use Rattle.std.specs.Prelude.{◌≡◌, ◌<◌, Some, length};

use crate::Clock;
use gb_base::Stamp;

/// Gives the stamps of a slice in order, and the last one again and again.
#[derive(Debug, Drop)]
pub struct ListClock<'a> {
    stamps: &'a [Stamp],
    ghost some: { 0 < length stamps.now },
}

impl<'a> ListClock<'a> {
    /// A clock that gives these stamps.
    pub fn new(stamps: &'a [Stamp]) -> ListClock<'a>
        requires { 0 < length stamps.now }
        ensures ticks { ⟦<ListClock<'a> as Clock>⟧.ticks result ≡ Some stamps.now }
    {
        ListClock { stamps }
    }
}

impl Clock for ListClock<'_> {
    ghost use Rattle.std.specs.Prelude.{Some};

    ghost ticks = { λ s. Some s.stamps.now };

    fn now(&mut self) -> Stamp {
        match self.stamps {
            [last] => *last,
            [first, rest @ ..] => {
                self.stamps = rest;
                *first
            }
            [] => unreachable!(),
        }
    }
}
