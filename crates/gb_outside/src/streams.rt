//! Where bytes come from, and where they go.
/// What a read answers.
#[derive(Clone, Copy, Debug, PartialEq, Eq)]
pub enum Got {
    /// So many bytes came, at least one.
    Bytes(usize),
    /// No more bytes come.
    End,
    /// The source failed.
    Failed,
}

/// What a write answers.
#[derive(Clone, Copy, Debug, PartialEq, Eq)]
pub enum Wrote {
    /// So many bytes of the piece were taken, from its front.
    Took(usize),
    /// The sink failed.
    Failed,
}

/// Bytes that come in.
pub trait Source {
    ghost use Rattle.std.specs.Prelude.{ℕ, ◌<◌, List, Option, length};
    ghost use Rattle.gb_outside.specs.Bytes.{IsGot, Reads, read_failed};
    ghost use Rattle.gb_outside.specs.Faults.{Counts};

    /// The bytes still to come, where the source tells them.
    ghost left: { Self → Option (List ℕ) };

    /// How often the source has failed.
    ghost faults: { Self → ℕ };

    /// Reads some of the bytes to come. A source that gives none is at its end.
    fn read(&mut self, into: &mut [u8]) -> Got
        requires { 0 < length into.old }
        ensures count { IsGot result (length into.new) }
        ensures content { Reads (left self.old) (left self.new) result into.new }
        ensures cause { Counts (faults self.old) (faults self.new) (read_failed result) };
}

/// Bytes that go out.
pub trait Sink {
    ghost use Rattle.std.specs.Prelude.{ℕ, List, Option, length};
    ghost use Rattle.gb_outside.specs.Bytes.{IsTaken, Writes, write_failed};
    ghost use Rattle.gb_outside.specs.Faults.{Counts};

    /// The bytes written so far, where the sink tells them.
    ghost written: { Self → Option (List ℕ) };

    /// How often the sink has failed.
    ghost faults: { Self → ℕ };

    /// Writes some of a piece, from its front.
    fn write(&mut self, piece: &[u8]) -> Wrote
        ensures count { IsTaken result (length piece.now) }
        ensures content { Writes (written self.old) (written self.new) result piece.now }
        ensures cause { Counts (faults self.old) (faults self.new) (write_failed result) };
}
