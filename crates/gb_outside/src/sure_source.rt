//! A source that never fails.
ghost use Rattle.std.specs.Prelude.{◌≡◌, Some};
ghost use Rattle.gb_outside.specs.declared.sure_source.SureSource.{SureSource};

use crate::moves::move_front;
use crate::{Got, Source};

/// Bytes of a slice that come in with no fault.
#[derive(Debug, Drop)]
pub struct SureSource<'a> {
    bytes: &'a [u8],
}

impl<'a> SureSource<'a> {
    /// These bytes, all still to come.
    pub fn new(bytes: &'a [u8]) -> SureSource<'a>
        ensures left { ⟦<SureSource<'a> as Source>⟧.left result ≡ Some bytes.now }
        ensures sure { (source : SureSource) → ⟦<SureSource<'a> as Source>⟧.faults source ≡ 0 }
    {
        SureSource { bytes }
    }
}

impl Source for SureSource<'_> {
    ghost use Rattle.std.specs.Prelude.{Some};

    ghost left = { λ s. Some s.bytes.now };

    ghost faults = { λ _. 0 };

    fn read(&mut self, into: &mut [u8]) -> Got {
        if self.bytes.is_empty() {
            return Got::End;
        }
        let (n, rest) = move_front(self.bytes, into);
        self.bytes = rest;
        Got::Bytes(n)
    }
}
