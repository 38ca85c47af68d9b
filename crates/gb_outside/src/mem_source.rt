//! A source in memory.
ghost use Rattle.std.specs.Prelude.{◌≡◌, Some};

use crate::calls::Calls;
use crate::moves::move_front;
use crate::{Got, Source};
use std::marker::Model;

/// Bytes of a slice that come in. Reads of chosen numbers fail.
#[derive(Debug, Drop)]
pub struct MemSource<'a> {
    bytes: &'a [u8],
    calls: Calls<'a>,
    faults: u64,
}

impl<'a> Model for MemSource<'a> {
    ghost use Rattle.gb_outside.specs.InMemory.{BytesIn};

    ghost Value = { BytesIn };

    ghost view = { λ a. record { left = a.bytes.now; plan = a.calls; faults = a.faults } };
}

impl<'a> MemSource<'a> {
    /// These bytes, all still to come. `fail` has the numbers, from 1, of the reads that are to
    /// fail.
    pub fn new(bytes: &'a [u8], fail: &'a [u32]) -> MemSource<'a>
        ensures left { ⟦<MemSource<'a> as Source>⟧.left result ≡ Some bytes.now }
        ensures faults { ⟦<MemSource<'a> as Source>⟧.faults result ≡ 0 }
        ensures plan { result.plan ≡ record { made = 0; failing = fail.now } }
    {
        MemSource {
            bytes,
            calls: Calls::new(fail),
            faults: 0,
        }
    }
}

impl Source for MemSource<'_> {
    ghost use Rattle.std.specs.Prelude.{◌<◌, length, Some};
    ghost use Rattle.gb_outside.specs.Bytes.{IsGot, Reads, read_failed};
    ghost use Rattle.gb_outside.specs.Faults.{Counts, faults_after};
    ghost use Rattle.gb_outside.specs.InMemory.{fails_next, after_call, read_answer};

    ghost left = { λ s. Some s.left };

    ghost faults = { λ s. s.faults };

    fn read(&mut self, into: &mut [u8]) -> Got
        requires { 0 < length into.old }
        ensures count { IsGot result (length into.new) }
        ensures content { Reads (Some self.old.left) (Some self.new.left) result into.new }
        ensures cause { Counts self.old.faults self.new.faults (read_failed result) }
        ensures once { self.new.faults ≡ faults_after self.old.faults (read_failed result) }
        ensures answer { result ≡ read_answer (fails_next self.old.plan) self.old.left (length into.old) }
        ensures plan { self.new.plan ≡ after_call self.old.plan }
    {
        if self.calls.next_fails() {
            self.faults = self.faults.saturating_add(1);
            return Got::Failed;
        }
        if self.bytes.is_empty() {
            return Got::End;
        }
        let (n, rest) = move_front(self.bytes, into);
        self.bytes = rest;
        Got::Bytes(n)
    }
}
