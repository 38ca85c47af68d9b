//! Standard output as the office's sink.
ghost use Rattle.std.specs.Prelude.{◌<◌, ◌≢◌, IfErr, IfOk, length};
ghost use Rattle.std.specs.IoError.{error_kind};
ghost use Rattle.std.specs.Io.{WritesAtMost};
ghost use Rattle.std.specs.Io.KnownBytes.{WriteAppends};

use crate::faults::counted;
use gb_outside::{Sink, Wrote};
use std::io;
use std::io::{ErrorKind, Write};

/// Standard output, or any other writer, as the office's sink. It does not tell the office its
/// bytes, since standard output tells none; what a writer tells, it holds.
#[derive(Drop)]
pub struct Output<W: Write + Drop> {
    writer: W,
    faults: u64,
}

impl<W: Write + Drop> Output<W> {
    ghost use Rattle.std.specs.Prelude.{◌≡◌};

    /// The writer as a sink that has not failed yet. Nothing is written.
    pub fn new(writer: W) -> Output<W>
        ensures writer { result.writer ≡ writer }
        ensures faults { result.faults ≡ 0 }
    {
        Output { writer, faults: 0 }
    }
}

impl<W: Write + Drop> Sink for Output<W> {
    ghost use Rattle.std.specs.Prelude.{◌≡◌, length, None};
    ghost use Rattle.gb_outside.specs.Bytes.{IsTaken, Writes, write_failed};
    ghost use Rattle.gb_outside.specs.Faults.{Counts, faults_after};
    ghost use Rattle.grundbuch.specs.Adapters.{PutsIn};

    ghost written = { λ sink. None };

    ghost faults = { λ sink. sink.faults };

    fn write(&mut self, piece: &[u8]) -> Wrote
        ensures count { IsTaken result (length piece.now) }
        ensures content { Writes None None result piece.now }
        ensures cause { Counts self.old.faults self.new.faults (write_failed result) }
        ensures once { self.new.faults ≡ faults_after self.old.faults (write_failed result) }
        ensures bytes { PutsIn (W.contents self.old.writer) (W.contents self.new.writer) result piece.now }
    {
        match counted(&mut self.faults, write_some(&mut self.writer, piece)) {
            Ok(count) => Wrote::Took(count),
            Err(_) => Wrote::Failed,
        }
    }
}

/// Writes once, and again where a signal interrupts the call. A writer that takes nothing of a
/// piece that is not empty has failed.
pub fn write_some<W: Write>(writer: &mut W, piece: &[u8]) -> io::Result<usize>
    ensures bound { WritesAtMost result piece.now }
    ensures some { IfOk result (λ count. 0 < length piece.now → 0 < count) }
    ensures bytes { WriteAppends (W.contents writer.old) (W.contents writer.new) result piece.now }
    ensures again { IfErr result (λ error. error_kind error ≢ ErrorKind.Interrupted) }
{
    for _ in 0..u64::MAX {
        match writer.write(piece) {
            Ok(0) if !piece.is_empty() => return Err(io::Error::from(ErrorKind::WriteZero)),
            Err(error) if error.kind() == ErrorKind::Interrupted => {}
            answer => return answer,
        }
    }
    Err(io::Error::from(ErrorKind::Other))
}
