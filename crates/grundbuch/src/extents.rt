//! How long the journal's file may be that a run has left.
ghost use Rattle.std.specs.Prelude.{◌≡◌};
ghost use Rattle.grundbuch.specs.Extents.{after_write, any_length, just, may_be};

/// How long a file may be by what a run did to it: at least so many bytes, and at most so many.
#[derive(Clone, Copy, Debug)]
pub struct Extent {
    least: u64,
    most: u64,
}

impl Extent {
    /// The run has not looked at it yet.
    pub fn any() -> Extent
        ensures { result ≡ any_length }
    {
        Extent {
            least: 0,
            most: u64::MAX,
        }
    }

    /// It has so many bytes.
    pub fn just(len: u64) -> Extent
        ensures { result ≡ just len }
    {
        Extent {
            least: len,
            most: len,
        }
    }

    /// Whether it may have so many bytes.
    pub fn may_be(self, len: u64) -> bool
        ensures { result ≡ may_be self len }
    {
        self.least <= len && len <= self.most
    }

    /// How long it may be once so many bytes were written at an offset. A write that failed may have
    /// written some of them.
    pub fn after_write(self, at: u64, count: u64, whole: bool) -> Extent
        ensures { result ≡ after_write self at count whole }
    {
        let end = at.saturating_add(count);
        let least = if whole {
            self.least.max(end)
        } else {
            self.least
        };
        Extent {
            least,
            most: self.most.max(end),
        }
    }
}
