//! Reads the frames of a made file, block by block.
ghost use Rattle.std.specs.Prelude.{◌≡◌, ◌+◌, ◌<◌, ◌≤◌, ◌^◌, IsTrue, IfOk, IfErr, OnOk, length, take, drop, vec_len};
ghost use Rattle.gb_outside.specs.Faults.{Counts};
ghost use Rattle.journal_disk.specs.Layout.{the_heading, first_gate, IsMade};
ghost use Rattle.journal_disk.specs.Opening.{opening_disk_failed, AreFramesTo, HasFramesAhead};
ghost use Rattle.journal_disk.specs.inner.Reading.{IsNoVerdict, OnlyReads, FindsFrames};
ghost use Rattle.journal_disk.specs.inner.Scan.{Scanned};

use crate::layout::FIRST_GATE;
use crate::scan::{End, Ending, scan};
use crate::{Frame, OpenFault};
use gb_outside::Disk;
use std::alloc::{AllocError, Global};

/// How many bytes are read at once: a frame that a block cuts is read again at the head of the
/// next one, and is short beside a block.
const BLOCK: usize = 1 << 16;

/// A block of this size to read into.
fn new_block(alloc: Global, size: usize) -> Result<Vec<u8>, AllocError>
    ensures { IfOk result (λ block. vec_len block ≡ size) }
{
    vec![in alloc; 0; size]
}

/// Reads a block whose first byte is a gate, and adds its frames up to where none begins.
fn scan_block<D: Disk>(
    alloc: Global,
    disk: &mut D,
    at: u64,
    block: &mut [u8],
    frames: &mut Vec<Frame>,
) -> Result<End, OpenFault>
    requires some { 0 < length block.old }
    requires offset { at + length block.old < 2 ^ 64 }
    requires within { IsTrue D.tells → at + length block.old ≤ length (D.reads disk.old) }
    ensures scanned { IfOk result (λ end. Scanned at block.new frames.old.items frames.new.items end.at end.ending) }
    ensures block { length block.new ≡ length block.old }
    ensures read { OnOk result (IsTrue D.tells → block.new ≡ take (length block.old) (drop at (D.reads disk.old))) }
    ensures reads { IsTrue D.tells → OnlyReads D.reads D.images D.moment D.since disk.old disk.new }
    ensures no_verdict { IfErr result IsNoVerdict }
    ensures moves { IfOk result (λ end. 1030 ≤ length block.old → end.ending ≡ Ending.Short → at < end.at) }
    ensures ahead { IfOk result (λ end. end.at < at + length block.old) }
    ensures cause { Counts (D.faults disk.old) (D.faults disk.new) (opening_disk_failed result) }
{
    disk.read_at(at, block)?;
    Ok(scan(alloc, at, block, frames)?)
}

/// The frames of a made file of `len` bytes, and the offset of the gate that ends them.
pub(crate) fn read_frames<D: Disk>(
    alloc: Global,
    disk: &mut D,
    len: u64,
) -> Result<(u64, Vec<Frame>), OpenFault>
    requires some { first_gate the_heading < len }
    requires length { IsTrue D.tells → len ≡ length (D.reads disk.old) }
    requires made { IsTrue D.tells → IsMade the_heading (D.reads disk.old) }
    ensures frames { IfOk result (λ found. AreFramesTo the_heading found.1.items found.0) }
    ensures ahead { IfErr result (HasFramesAhead the_heading) }
    ensures answer { IsTrue D.tells → FindsFrames (D.reads disk.old) result }
    ensures reads { IsTrue D.tells → OnlyReads D.reads D.images D.moment D.since disk.old disk.new }
    ensures cause { Counts (D.faults disk.old) (D.faults disk.new) (opening_disk_failed result) }
{
    let mut block = new_block(alloc, (BLOCK as u64).min(len - FIRST_GATE) as usize)?;
    let mut frames = Vec::new(alloc);
    let mut at = FIRST_GATE;
    loop {
        let size = (BLOCK as u64).min(len - at);
        let end = scan_block(alloc, disk, at, &mut block[..size as usize], &mut frames)?;
        match end.ending {
            Ending::Closed => return Ok((end.at, frames)),
            Ending::Short if size < len - at => at = end.at,
            Ending::Short | Ending::Wrong => {
                return Err(OpenFault::BadRecord {
                    at: end.at,
                    ahead: frames,
                });
            }
        }
    }
}
