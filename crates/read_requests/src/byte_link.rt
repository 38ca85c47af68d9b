//! A connection that gives one byte a read.
use gb_outside::{Got, Link, Wrote};

/// A connection that gives the bytes of a slice, one a read, and takes all that is written.
#[derive(Debug, Drop)]
pub(crate) struct ByteLink<'a> {
    bytes: &'a [u8],
}

impl<'a> ByteLink<'a> {
    pub(crate) fn new(bytes: &'a [u8]) -> ByteLink<'a> {
        ByteLink { bytes }
    }
}

impl Link for ByteLink<'_> {
    ghost use Rattle.std.specs.Prelude.{None};

    ghost left = { λ _. None };

    ghost written = { λ _. None };

    ghost faults = { λ _. 0 };

    fn read(&mut self, into: &mut [u8]) -> Got {
        let Some((byte, rest)) = self.bytes.split_first() else {
            return Got::End;
        };
        into[0] = *byte;
        self.bytes = rest;
        Got::Bytes(1)
    }

    fn write(&mut self, piece: &[u8]) -> Wrote {
        Wrote::Took(piece.len())
    }
}
