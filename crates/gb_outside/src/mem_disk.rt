//! A disk in memory with a record of all calls, by which tests stop it and let it fail.
//! Why so: docs/DECISIONS.md, "A disk in memory has its limits in fields".
ghost use Rattle.std.specs.Prelude.{◌≡◌, ◌+◌, ◌≤◌, [], length, nat_le, vec_len, vec_capacity, IfOk, is_err, true, false};
ghost use Rattle.gb_outside.specs.Faults.{Counts};
ghost use Rattle.gb_outside.specs.Images.{Only};
ghost use Rattle.gb_outside.specs.Recorded.{idle, wrote, synced, overwritten};
ghost use Rattle.gb_outside.specs.Stops.{disk_then, disk_left};
ghost use Rattle.gb_outside.specs.MemDisks.{file_of, bytes_written, is_full, is_due, call_fails, has_room_at, faulted, disk_after, after_look};

use crate::calls::is_named;
use crate::stops::Replay;
use crate::{Disk, DiskFailed, Fill};
use gb_base::NoMemory;
use std::alloc::Global;
use std::marker::Model;

/// A call on the disk, as far as its file goes.
#[derive(Clone, Copy)]
pub(crate) enum Call {
    /// A length, a read, or a call that failed and did nothing.
    Idle,
    /// A write of `size` bytes at `at`, of which the first `kept` came into the file.
    Write { at: usize, size: usize, kept: usize },
    /// A sync that succeeded.
    Sync,
}

/// A file in memory, with a record of all calls. The calls that it was told to fail do so, a write
/// among them once it has written the first half of its bytes.
#[derive(Drop)]
pub struct MemDisk {
    // The file as it reads, how long it may become, and the file as it was handed in.
    bytes: Vec<u8>,
    longest: usize,
    first: Vec<u8>,
    // All calls so far and the bytes written, with their limits.
    calls: Vec<Call>,
    most_calls: usize,
    written: Vec<u8>,
    most_written: usize,
    // The numbers, from 1, of the calls that are to fail.
    fail: Vec<u32>,
    faults: u64,
}

impl Model for MemDisk {
    ghost use Rattle.std.specs.Prelude.{◌≤◌, vec_capacity};
    ghost use Rattle.gb_outside.specs.MemDisks.{DiskInMemory};
    ghost use Rattle.gb_outside.specs.inner.Calls.{events, IsReplayed};

    ghost Value = { DiskInMemory };

    ghost view = { λ a. record {
      first = a.first.items;
      done = events a.calls.items a.written.items;
      longest = a.longest;
      most_calls = a.most_calls;
      most_written = a.most_written;
      failing = a.fail.items;
      faults = a.faults;
    } };

    ghost invariant = { λ a. (a.longest ≤ vec_capacity a.bytes)
        × (a.most_calls ≤ vec_capacity a.calls)
        × (a.most_written ≤ vec_capacity a.written)
        × IsReplayed a.first.items a.bytes.items a.written.items a.calls.items };
}

impl MemDisk {
    /// A file of up to `longest` bytes that at first is `bytes` and counts as synced, with room
    /// for `calls` calls that write `written` bytes; the calls numbered in `fail`, from 1, fail.
    pub fn new(
        alloc: Global,
        bytes: &[u8],
        longest: usize,
        written: usize,
        calls: usize,
        fail: &[u32],
    ) -> Result<MemDisk, NoMemory>
        ensures made { IfOk result (λ disk. disk ≡ record {
          first = bytes.now;
          done = [];
          longest = longest;
          most_calls = calls;
          most_written = written;
          failing = fail.now;
          faults = 0;
        }) }
        ensures file { IfOk result (λ disk. ⟦<MemDisk as Disk>⟧.reads disk ≡ bytes.now) }
        ensures synced { IfOk result (λ disk. Only bytes.now (⟦<MemDisk as Disk>⟧.images disk)) }
        ensures faults { IfOk result (λ disk. ⟦<MemDisk as Disk>⟧.faults disk ≡ 0) }
    {
        let mut file = Vec::with_capacity(alloc, longest.max(bytes.len()))?;
        file.extend_from_slice(bytes)?;
        Ok(MemDisk {
            bytes: file,
            longest,
            first: bytes.to_vec(alloc)?,
            calls: Vec::with_capacity(alloc, calls)?,
            most_calls: calls,
            written: Vec::with_capacity(alloc, written)?,
            most_written: written,
            fail: fail.to_vec(alloc)?,
            faults: 0,
        })
    }

    /// The file as it reads.
    pub fn bytes(&self) -> &[u8]
        ensures { result.now ≡ ⟦<MemDisk as Disk>⟧.reads self.now }
    {
        &self.bytes
    }

    /// The disk that a stop after the first `calls` recorded calls leaves, or after all of them
    /// where there are fewer. Its file is as long as this one was then, and what no successful sync
    /// covers of it is filled so. No call of it is to fail, and it has an empty record and the room
    /// of this one.
    pub fn stopped(&self, alloc: Global, calls: u32, fill: Fill) -> Result<MemDisk, NoMemory>
        ensures left { IfOk result (λ disk. disk ≡ disk_left calls fill self.now) }
        ensures size { IfOk result (λ disk. length (⟦<MemDisk as Disk>⟧.reads disk) ≡ length (⟦<MemDisk as Disk>⟧.reads (disk_then calls self.now))) }
        ensures image { IfOk result (λ disk. ⟦<MemDisk as Disk>⟧.images (disk_then calls self.now) (⟦<MemDisk as Disk>⟧.reads disk)) }
    {
        let count = self.calls.len().min(calls as usize);
        let mut replay = Replay::new(alloc, &self.first, &self.written)?;
        replay.make_all(alloc, &self.calls[..count], fill)?;
        MemDisk::new(
            alloc,
            replay.left(),
            self.longest,
            self.most_written,
            self.most_calls,
            &[],
        )
    }
}

impl MemDisk {
    // Whether the record has no room for a call.
    fn is_full(&self) -> bool
        ensures { result ≡ is_full self.now }
    {
        self.calls.len() >= self.most_calls
    }

    // Whether the next call is to fail.
    fn is_due(&self) -> bool
        ensures { result ≡ is_due self.now }
    {
        is_named(&self.fail, self.calls.len() as u64 + 1)
    }

    // Whether there is room for a write of so many bytes at this offset.
    fn has_room(&self, at: usize, size: usize) -> bool
        ensures { result ≡ has_room_at self.now at size }
    {
        fits(at, size, self.longest) && fits(self.written.len(), size, self.most_written)
    }

    // Records a call that changes nothing, where there is room.
    fn idle(&mut self)
        ensures { self.new ≡ disk_after false idle self.old }
    {
        if !self.is_full() {
            self.calls.push_reserved(Call::Idle);
        }
    }

    // Records a sync that succeeded.
    fn synced(&mut self)
        requires { is_full self.old ≡ false }
        ensures { self.new ≡ disk_after false synced self.old }
    {
        self.calls.push_reserved(Call::Sync);
    }

    // Counts a fault.
    fn fault(&mut self) -> DiskFailed
        ensures left { self.new ≡ faulted self.old }
        ensures cause { Counts self.old.faults self.new.faults true }
    {
        self.faults = self.faults.saturating_add(1);
        DiskFailed
    }

    // A call that fails and does nothing.
    fn failed(&mut self) -> DiskFailed
        ensures left { self.new ≡ disk_after true idle self.old }
        ensures cause { Counts self.old.faults self.new.faults true }
    {
        self.idle();
        self.fault()
    }

    // Records a write of `size` bytes at `at`, of which this piece comes into the file.
    fn store(&mut self, at: usize, size: usize, piece: &[u8])
        requires offset { at ≤ length (file_of self.old) }
        requires file { at + length piece.now ≤ self.old.longest }
        requires written { bytes_written self.old.done + length piece.now ≤ self.old.most_written }
        requires calls { is_full self.old ≡ false }
        requires whole { length piece.now ≤ size }
        ensures { self.new ≡ disk_after false (wrote at size piece.now) self.old }
    {
        overwrite(&mut self.bytes, at, piece);
        self.written.extend_from_slice(piece).unwrap();
        let kept = piece.len();
        self.calls.push_reserved(Call::Write { at, size, kept });
    }

    // A call that changes nothing.
    fn look(&mut self) -> Result<(), DiskFailed>
        ensures fails { is_err result ≡ call_fails self.old }
        ensures left { self.new ≡ after_look self.old }
        ensures cause { Counts self.old.faults self.new.faults (is_err result) }
    {
        if self.is_full() || self.is_due() {
            return Err(self.failed());
        }
        self.idle();
        Ok(())
    }
}

// Whether so many more keep within a limit.
fn fits(count: usize, more: usize, limit: usize) -> bool
    ensures { result ≡ nat_le (count + more) limit }
{
    count <= limit && more <= limit - count
}

/// Puts a piece over what is there from `at` on, and past the end, where there is room.
pub(crate) fn overwrite(bytes: &mut Vec<u8>, at: usize, piece: &[u8])
    requires offset { at ≤ vec_len bytes.old }
    requires room { at + length piece.now ≤ vec_capacity bytes.old }
    ensures file { bytes.new.items ≡ overwritten at piece.now bytes.old.items }
    ensures room { vec_capacity bytes.old ≤ vec_capacity bytes.new }
{
    let inside = piece.len().min(bytes.len() - at);
    let (over, past) = piece.split_at(inside);
    bytes[at..at + inside].copy_from_slice(over);
    bytes.extend_from_slice(past).unwrap();
}

impl Disk for MemDisk {
    ghost use Rattle.std.specs.Prelude.{◌≡◌, ◌+◌, ◌≤◌, length, true, is_err};
    ghost use Rattle.gb_outside.specs.Faults.{Counts};
    ghost use Rattle.gb_outside.specs.Images.{Torn, Follows, NoneNew, Elapses, LenIs, ReadsAt, WritesAt, Syncs};
    ghost use Rattle.gb_outside.specs.MemDisks.{file_of, images_of, moment_of, since_of, call_fails, write_fails, after_look, after_sync, after_write};
    ghost use Rattle.gb_outside.specs.inner.RecordedLaws.{image_no_longer, since_counts_now, since_only_now};
    ghost use Rattle.std.proofs.Common.{inl, refl};

    ghost tells = { true };

    ghost reads = { file_of };

    ghost images = { images_of };

    ghost moment = { moment_of };

    ghost since = { since_of };

    ghost faults = { λ d. d.faults };

    ghost reads_is_image = { λ d yes. inl refl };

    ghost no_longer = { λ d c yes image. image_no_longer d.first d.done c image };

    ghost counts_now = { λ d t c yes le image. since_counts_now d.first d.done t c image };

    ghost only_now = { λ d c yes left. since_only_now d.first d.done c left };

    fn len(&mut self) -> Result<u64, DiskFailed>
        ensures len { LenIs (file_of self.old) result }
        ensures fails { is_err result ≡ call_fails self.old }
        ensures left { self.new ≡ after_look self.old }
        ensures same { file_of self.new ≡ file_of self.old }
        ensures stop { NoneNew (images_of self.old) (images_of self.new) }
        ensures time { Elapses (moment_of self.old) (moment_of self.new) (since_of self.old) (since_of self.new) (images_of self.new) }
        ensures cause { Counts self.old.faults self.new.faults (is_err result) }
    {
        self.look()?;
        Ok(self.bytes.len() as u64)
    }

    fn read_at(&mut self, at: u64, into: &mut [u8]) -> Result<(), DiskFailed>
        requires { at + length into.old ≤ length (file_of self.old) }
        ensures bytes { ReadsAt (file_of self.old) at result into.new }
        ensures fails { is_err result ≡ call_fails self.old }
        ensures left { self.new ≡ after_look self.old }
        ensures same { file_of self.new ≡ file_of self.old }
        ensures stop { NoneNew (images_of self.old) (images_of self.new) }
        ensures time { Elapses (moment_of self.old) (moment_of self.new) (since_of self.old) (since_of self.new) (images_of self.new) }
        ensures cause { Counts self.old.faults self.new.faults (is_err result) }
    {
        self.look()?;
        let at = at as usize;
        into.copy_from_slice(&self.bytes[at..at + into.len()]);
        Ok(())
    }

    fn write_at(&mut self, at: u64, bytes: &[u8]) -> Result<(), DiskFailed>
        requires { at ≤ length (file_of self.old) }
        ensures written { WritesAt (file_of self.old) (file_of self.new) at result bytes.now }
        ensures fails { is_err result ≡ write_fails self.old at (length bytes.now) }
        ensures left { self.new ≡ after_write at bytes.now self.old }
        ensures stop { Follows (Torn at (length bytes.now)) (images_of self.old) (images_of self.new) }
        ensures time { Elapses (moment_of self.old) (moment_of self.new) (since_of self.old) (since_of self.new) (images_of self.new) }
        ensures cause { Counts self.old.faults self.new.faults (is_err result) }
    {
        let at = at as usize;
        let size = bytes.len();
        if self.is_full() || !self.has_room(at, size) {
            return Err(self.failed());
        }
        if self.is_due() {
            self.store(at, size, &bytes[..size / 2]);
            return Err(self.fault());
        }
        self.store(at, size, bytes);
        Ok(())
    }

    fn sync(&mut self) -> Result<(), DiskFailed>
        ensures durable { Syncs (file_of self.new) result (images_of self.new) }
        ensures fails { is_err result ≡ call_fails self.old }
        ensures left { self.new ≡ after_sync self.old }
        ensures same { file_of self.new ≡ file_of self.old }
        ensures stop { NoneNew (images_of self.old) (images_of self.new) }
        ensures time { Elapses (moment_of self.old) (moment_of self.new) (since_of self.old) (since_of self.new) (images_of self.new) }
        ensures cause { Counts self.old.faults self.new.faults (is_err result) }
    {
        if self.is_full() || self.is_due() {
            return Err(self.failed());
        }
        self.synced();
        Ok(())
    }
}
