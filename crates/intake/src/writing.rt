//! Writing a whole text.
ghost use Rattle.std.specs.Prelude.{◌≡◌, Err, OnOk, OnErr};
ghost use Rattle.std.specs.Io.KnownBytes.{Appends};
ghost use Rattle.gb_outside.specs.Bytes.{AppendsFront};
ghost use Rattle.gb_outside.specs.Faults.{Counts};
ghost use Rattle.intake.specs.Faults.{output_failed};
ghost use Rattle.intake.specs.Writing.{StopsAtFault};

use crate::faults::OutputFault;
use gb_outside::{Sink, Wrote};

/// Writes a whole text, or a front of it where the sink fails. Nothing is written after a failure.
/// It takes no memory.
pub fn write_all<K: Sink>(sink: &mut K, text: &[u8]) -> Result<(), OutputFault>
    ensures whole { OnOk result (Appends (K.written sink.old) (K.written sink.new) text.now) }
    ensures part { OnErr result (AppendsFront (K.written sink.old) (K.written sink.new) text.now) }
    ensures stops { OnErr result (StopsAtFault K.written K.faults sink.old sink.new text.now) }
    ensures no_memory { result ≡ Err OutputFault.Memory → ⊥ }
    ensures cause { Counts (K.faults sink.old) (K.faults sink.new) (output_failed result) }
{
    let mut done = 0;
    while done < text.len() {
        match sink.write(&text[done..]) {
            Wrote::Took(count) => done += count,
            Wrote::Failed => return Err(OutputFault::Write),
        }
    }
    Ok(())
}
