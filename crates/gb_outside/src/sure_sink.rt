//! A sink that never fails.
ghost use Rattle.std.specs.Prelude.{◌≡◌, None};
ghost use Rattle.gb_outside.specs.declared.sure_sink.SureSink.{SureSink};

use crate::{Sink, Wrote};

/// Takes all that is written, with no fault, and keeps nothing.
#[derive(Clone, Copy, Debug, Default)]
pub struct SureSink;

impl SureSink {
    /// A sink that takes everything.
    pub fn new() -> SureSink
        ensures untold { (sink : SureSink) → ⟦<SureSink as Sink>⟧.written sink ≡ None }
        ensures sure { (sink : SureSink) → ⟦<SureSink as Sink>⟧.faults sink ≡ 0 }
    {
        SureSink
    }
}

impl Sink for SureSink {
    ghost use Rattle.std.specs.Prelude.{◌≡◌, None, length};
    ghost use Rattle.gb_outside.specs.declared.streams.Wrote.TheVariants.{Took};

    ghost written = { λ _. None };

    ghost faults = { λ _. 0 };

    fn write(&mut self, piece: &[u8]) -> Wrote
        ensures { result ≡ Took (length piece.now) }
    {
        Wrote::Took(piece.len())
    }
}
