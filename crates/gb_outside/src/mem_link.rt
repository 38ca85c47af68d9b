//! A connection in memory, by which tests and proofs see what is written to it.
ghost use Rattle.std.specs.Prelude.{◌≡◌, Some, [], IfOk};

use crate::calls::Calls;
use crate::moves::move_front;
use crate::{Got, Link, Wrote};
use gb_base::NoMemory;
use std::alloc::Global;
use std::marker::Model;

/// A connection that gives the bytes of a slice and keeps the bytes that are written, up to a room
/// that is taken when it is made. Calls of chosen numbers fail, reads and writes counted together,
/// and so does a write that finds no room.
#[derive(Debug, Drop)]
pub struct MemLink<'a> {
    bytes: &'a [u8],
    written: Vec<u8>,
    room: usize,
    calls: Calls<'a>,
    faults: u64,
}

impl<'a> Model for MemLink<'a> {
    ghost use Rattle.std.specs.Prelude.{◌≤◌, vec_len};
    ghost use Rattle.std.specs.Vec.{vec_capacity};
    ghost use Rattle.gb_outside.specs.InMemory.{BytesBothWays};

    ghost Value = { BytesBothWays };

    ghost view = { λ a. record { left = a.bytes.now; written = a.written.items; room = a.room; plan = a.calls; faults = a.faults } };

    ghost invariant = { λ a. (vec_len a.written ≤ a.room) × (a.room ≤ vec_capacity a.written) };
}

impl<'a> MemLink<'a> {
    /// These bytes, all still to come, and room for `room` bytes, none written. `fail` has the
    /// numbers, from 1, of the calls that are to fail.
    pub fn new(
        alloc: Global,
        bytes: &'a [u8],
        room: usize,
        fail: &'a [u32],
    ) -> Result<MemLink<'a>, NoMemory>
        ensures left { IfOk result (λ link. ⟦<MemLink<'a> as Link>⟧.left link ≡ Some bytes.now) }
        ensures written { IfOk result (λ link. ⟦<MemLink<'a> as Link>⟧.written link ≡ Some []) }
        ensures faults { IfOk result (λ link. ⟦<MemLink<'a> as Link>⟧.faults link ≡ 0) }
        ensures room { IfOk result (λ link. link.room ≡ room) }
        ensures plan { IfOk result (λ link. link.plan ≡ record { made = 0; failing = fail.now }) }
    {
        Ok(MemLink {
            bytes,
            written: Vec::with_capacity(alloc, room)?,
            room,
            calls: Calls::new(fail),
            faults: 0,
        })
    }

    /// The bytes written.
    pub fn written(&self) -> &[u8]
        ensures { ⟦<MemLink<'a> as Link>⟧.written self.now ≡ Some result.now }
    {
        &self.written
    }
}

impl Link for MemLink<'_> {
    ghost use Rattle.std.specs.Prelude.{◌<◌, ◌-◌, length, Some};
    ghost use Rattle.gb_outside.specs.Bytes.{IsGot, Reads, read_failed, IsTaken, Writes, write_failed};
    ghost use Rattle.gb_outside.specs.Faults.{Counts, faults_after};
    ghost use Rattle.gb_outside.specs.InMemory.{fails_next, after_call, read_answer, write_answer};

    ghost left = { λ s. Some s.left };

    ghost written = { λ s. Some s.written };

    ghost faults = { λ s. s.faults };

    fn read(&mut self, into: &mut [u8]) -> Got
        requires { 0 < length into.old }
        ensures count { IsGot result (length into.new) }
        ensures content { Reads (Some self.old.left) (Some self.new.left) result into.new }
        ensures written { Some self.new.written ≡ Some self.old.written }
        ensures cause { Counts self.old.faults self.new.faults (read_failed result) }
        ensures once { self.new.faults ≡ faults_after self.old.faults (read_failed result) }
        ensures answer { result ≡ read_answer (fails_next self.old.plan) self.old.left (length into.old) }
        ensures plan { self.new.plan ≡ after_call self.old.plan }
        ensures room { self.new.room ≡ self.old.room }
    {
        if self.calls.next_fails() {
            self.faults = self.faults.saturating_add(1);
            return Got::Failed;
        }
        if self.bytes.is_empty() {
            return Got::End;
        }
        let (n, rest) = move_front(self.bytes, into);
        self.bytes = rest;
        Got::Bytes(n)
    }

    fn write(&mut self, piece: &[u8]) -> Wrote
        ensures count { IsTaken result (length piece.now) }
        ensures content { Writes (Some self.old.written) (Some self.new.written) result piece.now }
        ensures left { Some self.new.left ≡ Some self.old.left }
        ensures cause { Counts self.old.faults self.new.faults (write_failed result) }
        ensures once { self.new.faults ≡ faults_after self.old.faults (write_failed result) }
        ensures answer { result
            ≡ write_answer (fails_next self.old.plan) (length piece.now) (self.old.room - length self.old.written) }
        ensures plan { self.new.plan ≡ after_call self.old.plan }
        ensures room { self.new.room ≡ self.old.room }
    {
        let spare = self.room - self.written.len();
        if self.calls.next_fails() || (spare == 0 && !piece.is_empty()) {
            self.faults = self.faults.saturating_add(1);
            return Wrote::Failed;
        }
        let n = piece.len().min(spare);
        match self.written.extend_from_slice(&piece[..n]) {
            Ok(()) => Wrote::Took(n),
            Err(_) => unreachable!(),
        }
    }
}
