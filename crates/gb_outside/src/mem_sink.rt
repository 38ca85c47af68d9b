//! A sink in memory.
ghost use Rattle.std.specs.Prelude.{◌≡◌, Some, [], IfOk};

use crate::calls::Calls;
use crate::{Sink, Wrote};
use gb_base::NoMemory;
use std::alloc::Global;
use std::marker::Model;

/// Keeps the bytes that are written, up to a room that is taken when it is made. Writes of chosen
/// numbers fail, and so does one that finds no room.
#[derive(Debug, Drop)]
pub struct MemSink<'a> {
    bytes: Vec<u8>,
    room: usize,
    calls: Calls<'a>,
    faults: u64,
}

impl<'a> Model for MemSink<'a> {
    ghost use Rattle.std.specs.Prelude.{◌≤◌, vec_len};
    ghost use Rattle.std.specs.Vec.{vec_capacity};
    ghost use Rattle.gb_outside.specs.InMemory.{BytesOut};

    ghost Value = { BytesOut };

    ghost view = { λ a. record { written = a.bytes.items; room = a.room; plan = a.calls; faults = a.faults } };

    ghost invariant = { λ a. (vec_len a.bytes ≤ a.room) × (a.room ≤ vec_capacity a.bytes) };
}

impl<'a> MemSink<'a> {
    /// Room for so many bytes, none written. `fail` has the numbers, from 1, of the writes that
    /// are to fail.
    pub fn new(alloc: Global, room: usize, fail: &'a [u32]) -> Result<MemSink<'a>, NoMemory>
        ensures written { IfOk result (λ sink. ⟦<MemSink<'a> as Sink>⟧.written sink ≡ Some []) }
        ensures faults { IfOk result (λ sink. ⟦<MemSink<'a> as Sink>⟧.faults sink ≡ 0) }
        ensures room { IfOk result (λ sink. sink.room ≡ room) }
        ensures plan { IfOk result (λ sink. sink.plan ≡ record { made = 0; failing = fail.now }) }
    {
        Ok(MemSink {
            bytes: Vec::with_capacity(alloc, room)?,
            room,
            calls: Calls::new(fail),
            faults: 0,
        })
    }

    /// The bytes written.
    pub fn written(&self) -> &[u8]
        ensures { ⟦<MemSink<'a> as Sink>⟧.written self.now ≡ Some result.now }
    {
        &self.bytes
    }
}

impl Sink for MemSink<'_> {
    ghost use Rattle.std.specs.Prelude.{◌-◌, length, Some};
    ghost use Rattle.gb_outside.specs.Bytes.{IsTaken, Writes, write_failed};
    ghost use Rattle.gb_outside.specs.Faults.{Counts, faults_after};
    ghost use Rattle.gb_outside.specs.InMemory.{fails_next, after_call, write_answer};

    ghost written = { λ s. Some s.written };

    ghost faults = { λ s. s.faults };

    fn write(&mut self, piece: &[u8]) -> Wrote
        ensures count { IsTaken result (length piece.now) }
        ensures content { Writes (Some self.old.written) (Some self.new.written) result piece.now }
        ensures cause { Counts self.old.faults self.new.faults (write_failed result) }
        ensures once { self.new.faults ≡ faults_after self.old.faults (write_failed result) }
        ensures answer { result
            ≡ write_answer (fails_next self.old.plan) (length piece.now) (self.old.room - length self.old.written) }
        ensures plan { self.new.plan ≡ after_call self.old.plan }
        ensures room { self.new.room ≡ self.old.room }
    {
        let spare = self.room - self.bytes.len();
        if self.calls.next_fails() || (spare == 0 && !piece.is_empty()) {
            self.faults = self.faults.saturating_add(1);
            return Wrote::Failed;
        }
        let n = piece.len().min(spare);
        match self.bytes.extend_from_slice(&piece[..n]) {
            Ok(()) => Wrote::Took(n),
            Err(_) => unreachable!(),
        }
    }
}
