//! Standard input as the office's source.
ghost use Rattle.std.specs.Prelude.{◌≢◌, IfErr};
ghost use Rattle.std.specs.Io.{ReadsAtMost};
ghost use Rattle.std.specs.IoError.{error_kind};
ghost use Rattle.std.specs.Io.KnownBytes.{ReadConsumes};

use crate::faults::counted;
use gb_outside::{Got, Source};
use std::io;
use std::io::{ErrorKind, Read};

/// Standard input, or any other reader, as the office's source. It does not tell the office its
/// bytes, since standard input tells none; what a reader tells, it hands on.
#[derive(Drop)]
pub struct Input<R: Read + Drop> {
    reader: R,
    faults: u64,
}

impl<R: Read + Drop> Input<R> {
    ghost use Rattle.std.specs.Prelude.{◌≡◌};

    /// The reader as a source that has not failed yet. Nothing is read.
    pub fn new(reader: R) -> Input<R>
        ensures reader { result.reader ≡ reader }
        ensures faults { result.faults ≡ 0 }
    {
        Input { reader, faults: 0 }
    }
}

impl<R: Read + Drop> Source for Input<R> {
    ghost use Rattle.std.specs.Prelude.{◌≡◌, ◌<◌, length, None};
    ghost use Rattle.gb_outside.specs.Bytes.{IsGot, Reads, read_failed};
    ghost use Rattle.gb_outside.specs.Faults.{Counts, faults_after};
    ghost use Rattle.grundbuch.specs.Adapters.{HandsOn};

    ghost left = { λ source. None };

    ghost faults = { λ source. source.faults };

    fn read(&mut self, into: &mut [u8]) -> Got
        requires { 0 < length into.old }
        ensures count { IsGot result (length into.new) }
        ensures content { Reads None None result into.new }
        ensures cause { Counts self.old.faults self.new.faults (read_failed result) }
        ensures once { self.new.faults ≡ faults_after self.old.faults (read_failed result) }
        ensures bytes { HandsOn (R.remaining self.old.reader) (R.remaining self.new.reader) result into.new }
    {
        match counted(&mut self.faults, read_some(&mut self.reader, into)) {
            Ok(0) => Got::End,
            Ok(count) => Got::Bytes(count),
            Err(_) => Got::Failed,
        }
    }
}

/// Reads once, and again where a signal interrupts the call.
pub fn read_some<R: Read>(reader: &mut R, into: &mut [u8]) -> io::Result<usize>
    ensures bound { ReadsAtMost result into.new }
    ensures bytes { ReadConsumes (R.remaining reader.old) (R.remaining reader.new) result into.new }
    ensures again { IfErr result (λ error. error_kind error ≢ ErrorKind.Interrupted) }
{
    for _ in 0..u64::MAX {
        match reader.read(into) {
            Err(error) if error.kind() == ErrorKind::Interrupted => {}
            answer => return answer,
        }
    }
    Err(io::Error::from(ErrorKind::Other))
}
