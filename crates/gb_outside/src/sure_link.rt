//! A link that never fails.
ghost use Rattle.std.specs.Prelude.{◌≡◌, Some, None};
ghost use Rattle.gb_outside.specs.declared.sure_link.SureLink.{SureLink};

use crate::moves::move_front;
use crate::{Got, Link, Wrote};

/// A connection that gives the bytes of a slice and takes all that is written, with no fault.
/// It keeps nothing of what is written.
#[derive(Debug, Drop)]
pub struct SureLink<'a> {
    bytes: &'a [u8],
}

impl<'a> SureLink<'a> {
    /// A link that gives these bytes.
    pub fn new(bytes: &'a [u8]) -> SureLink<'a>
        ensures left { ⟦<SureLink<'a> as Link>⟧.left result ≡ Some bytes.now }
        ensures untold { (link : SureLink) → ⟦<SureLink<'a> as Link>⟧.written link ≡ None }
        ensures sure { (link : SureLink) → ⟦<SureLink<'a> as Link>⟧.faults link ≡ 0 }
    {
        SureLink { bytes }
    }
}

impl Link for SureLink<'_> {
    ghost use Rattle.std.specs.Prelude.{◌≡◌, Some, None, length};
    ghost use Rattle.gb_outside.specs.Bytes.{IsTaken, Writes, write_failed};
    ghost use Rattle.gb_outside.specs.Faults.{Counts};
    ghost use Rattle.gb_outside.specs.declared.streams.Wrote.TheVariants.{Took};

    ghost left = { λ s. Some s.bytes.now };

    ghost written = { λ _. None };

    ghost faults = { λ _. 0 };

    fn read(&mut self, into: &mut [u8]) -> Got {
        if self.bytes.is_empty() {
            return Got::End;
        }
        let (n, rest) = move_front(self.bytes, into);
        self.bytes = rest;
        Got::Bytes(n)
    }

    fn write(&mut self, piece: &[u8]) -> Wrote
        ensures count { IsTaken result (length piece.now) }
        ensures content { Writes None None result piece.now }
        ensures left { Some self.new.bytes.now ≡ Some self.old.bytes.now }
        ensures cause { Counts 0 0 (write_failed result) }
        ensures all { result ≡ Took (length piece.now) }
    {
        Wrote::Took(piece.len())
    }
}
