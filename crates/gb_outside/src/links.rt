//! Links, which read and write.
use crate::{Got, Wrote};

/// A connection: bytes that come in and bytes that go out, with one count of faults.
pub trait Link {
    ghost use Rattle.std.specs.Prelude.{◌≡◌, ℕ, ◌<◌, List, Option, length};
    ghost use Rattle.gb_outside.specs.Bytes.{IsGot, Reads, read_failed, IsTaken, Writes, write_failed};
    ghost use Rattle.gb_outside.specs.Faults.{Counts};

    /// The bytes still to come, where the link tells them.
    ghost left: { Self → Option (List ℕ) };

    /// The bytes written so far, where the link tells them.
    ghost written: { Self → Option (List ℕ) };

    /// How often the link has failed.
    ghost faults: { Self → ℕ };

    /// Reads some of the bytes to come. A link that gives none is at its end.
    fn read(&mut self, into: &mut [u8]) -> Got
        requires { 0 < length into.old }
        ensures count { IsGot result (length into.new) }
        ensures content { Reads (left self.old) (left self.new) result into.new }
        ensures written { written self.new ≡ written self.old }
        ensures cause { Counts (faults self.old) (faults self.new) (read_failed result) };

    /// Writes some of a piece, from its front.
    fn write(&mut self, piece: &[u8]) -> Wrote
        ensures count { IsTaken result (length piece.now) }
        ensures content { Writes (written self.old) (written self.new) result piece.now }
        ensures left { left self.new ≡ left self.old }
        ensures cause { Counts (faults self.old) (faults self.new) (write_failed result) };
}
