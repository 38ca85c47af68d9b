//! The log: opening it, and appending to it.
ghost use Rattle.std.specs.Prelude.{◌≡◌, ◌↔◌, ◌+◌, ◌≤◌, ◌++◌, ◌^◌, [], ◌∷◌, ℕ, List, true, false, IsTrue, IfOk, IfErr, OnOk, length};
ghost use Rattle.gb_outside.specs.Faults.{Counts};
ghost use Rattle.gb_outside.specs.Images.{Holds, Torn, Only, LeavesOnly};
ghost use Rattle.journal_disk.specs.Layout.{the_heading, file_limit, frame_head, first_gate, appended, IsBody};
ghost use Rattle.journal_disk.specs.Opening.{opening_disk_failed, AreFramesTo, HasFramesAhead, LogOpens, LogRefuses, IsKept, MakesUnmade, AnswersSynced};
ghost use Rattle.journal_disk.specs.Appending.{StandsOn, FramesWithOrWithout, append_failed, log_after};

use crate::appending::write_frame;
use crate::heading::{Found, find};
use crate::layout::{FILE_LIMIT, FIRST_GATE, FRAME_HEAD};
use crate::reading::read_frames;
use crate::writing::make;
use crate::{AppendFault, Frame, OpenFault};
use gb_outside::{Disk, DiskFailed};
use std::alloc::Global;
use std::marker::Model;

/// A log of frames on a disk. It knows the offset of the closed gate that ends them, and whether an
/// append has failed; the disk is lent to each call.
#[derive(Drop)]
pub struct Log {
    failed: bool,
    gate: u64,
}

impl Model for Log {
    ghost use Rattle.journal_disk.specs.LogState.{LogState};

    ghost Value = { LogState };

    ghost view = { λ a. record { failed = a.failed; gate = a.gate } };
}

impl Log {
    /// Opens the journal of a disk: the log, and the frames in order. An unmade file is made.
    /// An answer about the file comes only after a sync, so that a stop leaves what it says.
    pub fn open<D: Disk>(alloc: Global, disk: &mut D) -> Result<(Log, Vec<Frame>), OpenFault>
        // The frames that it gives, and those before a bad gate, stand one after the other, on any disk.
        ensures frames { IfOk result (λ opened. AreFramesTo the_heading opened.1.items opened.0.gate) }
        ensures ahead { IfErr result (HasFramesAhead the_heading) }

        // The answer is by the file's standing.
        ensures opened { IsTrue D.tells → IfOk result (λ opened. LogOpens the_heading (D.reads disk.old) opened.0 opened.1.items (D.reads disk.new) (D.images disk.new)) }
        ensures works { IfOk result (λ opened. opened.0.failed ≡ false) }
        ensures made { IsTrue D.tells → MakesUnmade (opening_disk_failed result) (D.reads disk.old) (D.reads disk.new) }
        ensures settled { OnOk result (IsTrue D.tells → Only (D.reads disk.new) (D.images disk.new)) }
        ensures refused { IsTrue D.tells → IfErr result (LogRefuses the_heading (D.reads disk.old)) }
        ensures kept { IsTrue D.tells → IsKept (D.reads disk.old) (D.reads disk.new) }
        ensures torn { IsTrue D.tells → Torn 0 (first_gate the_heading + 1) (D.reads disk.old) (D.reads disk.new) }

        // Every answer but `Disk` comes only after a sync, done before every write: a stop at any moment from then on leaves the frames that were found.
        ensures any_moment { IsTrue D.tells → AnswersSynced D.reads D.images D.moment D.since disk.old disk.new (opening_disk_failed result) }
        ensures cause { Counts (D.faults disk.old) (D.faults disk.new) (opening_disk_failed result) }
    {
        disk.sync()?;
        open_synced(alloc, disk)
    }

    /// Whether an append has failed.
    pub fn failed(&self) -> bool
        ensures { result ≡ self.now.failed }
    {
        self.failed
    }

    /// Appends a frame with this body, of 1 to 1,024 bytes. Once the answer is Ok, a stop leaves it;
    /// a stop before that leaves the frames with it or without. After `Disk` the log has failed.
    pub fn append<D: Disk>(&mut self, disk: &mut D, body: &[u8]) -> Result<(), AppendFault>
        requires body { IsBody body.now }
        requires stands { IsTrue D.tells → self.old.failed ≡ false → (bodies : List (List ℕ)) × StandsOn the_heading self.old.gate bodies (D.reads disk.old) (D.images disk.old) }

        // After Ok the log stands on the disk with the new frame.
        ensures appended { OnOk result (IsTrue D.tells → (bodies : List (List ℕ)) → StandsOn the_heading self.old.gate bodies (D.reads disk.old) (D.images disk.old)
            → StandsOn the_heading self.new.gate (bodies ++ body.now ∷ []) (D.reads disk.new) (D.images disk.new)) }
        ensures written { OnOk result (IsTrue D.tells → Holds (D.reads disk.old) self.old.gate (appended body.now) (D.reads disk.new)) }
        ensures log { self.new ≡ log_after self.old (length body.now) result }

        // After any answer the bytes outside the new frame are as before.
        ensures torn { IsTrue D.tells → Torn self.old.gate (length (appended body.now)) (D.reads disk.old) (D.reads disk.new) }

        // A stop at any moment leaves the frames before, with the new one or without.
        ensures any_moment { IsTrue D.tells → (bodies : List (List ℕ)) → self.old.failed ≡ false → StandsOn the_heading self.old.gate bodies (D.reads disk.old) (D.images disk.old)
            → LeavesOnly D.moment D.since disk.old disk.new (FramesWithOrWithout the_heading bodies body.now) }

        // Each fault has its cause, and two of them call no device.
        ensures must_reopen { (result ≡ Err AppendFault.MustReopen) ↔ (self.old.failed ≡ true) }
        ensures full { (result ≡ Err AppendFault.Full) ↔ ((self.old.failed ≡ false) × (file_limit ≤ self.old.gate + frame_head + length body.now)) }
        ensures untouched_full { result ≡ Err AppendFault.Full → disk.new ≡ disk.old }
        ensures untouched_failed { result ≡ Err AppendFault.MustReopen → disk.new ≡ disk.old }
        ensures cause { Counts (D.faults disk.old) (D.faults disk.new) (append_failed result) }
    {
        if self.failed {
            return Err(AppendFault::MustReopen);
        }
        let size = (FRAME_HEAD + body.len()) as u64;
        if self.gate >= FILE_LIMIT - size {
            return Err(AppendFault::Full);
        }
        match write_frame(disk, self.gate, body) {
            Ok(()) => {
                self.gate += size;
                Ok(())
            }
            Err(DiskFailed) => {
                self.failed = true;
                Err(AppendFault::Disk)
            }
        }
    }
}

/// Opens the journal of a disk where a stop leaves what a read gives.
fn open_synced<D: Disk>(alloc: Global, disk: &mut D) -> Result<(Log, Vec<Frame>), OpenFault>
    requires { IsTrue D.tells → Only (D.reads disk.old) (D.images disk.old) }
    ensures frames { IfOk result (λ opened. AreFramesTo the_heading opened.1.items opened.0.gate) }
    ensures ahead { IfErr result (HasFramesAhead the_heading) }
    ensures opened { IsTrue D.tells → IfOk result (λ opened. LogOpens the_heading (D.reads disk.old) opened.0 opened.1.items (D.reads disk.new) (D.images disk.new)) }
    ensures works { IfOk result (λ opened. opened.0.failed ≡ false) }
    ensures made { IsTrue D.tells → MakesUnmade (opening_disk_failed result) (D.reads disk.old) (D.reads disk.new) }
    ensures settled { OnOk result (IsTrue D.tells → Only (D.reads disk.new) (D.images disk.new)) }
    ensures refused { IsTrue D.tells → IfErr result (LogRefuses the_heading (D.reads disk.old)) }
    ensures any_moment { IsTrue D.tells → LeavesOnly D.moment D.since disk.old disk.new (IsKept (D.reads disk.old)) }
    ensures torn { IsTrue D.tells → Torn 0 (first_gate the_heading + 1) (D.reads disk.old) (D.reads disk.new) }
    ensures cause { Counts (D.faults disk.old) (D.faults disk.new) (opening_disk_failed result) }
{
    match find(disk)? {
        Found::Unmade { begun } => {
            make(disk, begun)?;
            Ok((log_at(FIRST_GATE), Vec::new(alloc)))
        }
        Found::Foreign => Err(OpenFault::NotJournal),
        Found::Made { len } => {
            let (gate, frames) = read_frames(alloc, disk, len)?;
            Ok((log_at(gate), frames))
        }
    }
}

/// A log with its closed gate at `gate`.
fn log_at(gate: u64) -> Log
    ensures { result ≡ record { failed = false; gate = gate } }
{
    let failed = false;
    Log { failed, gate }
}
