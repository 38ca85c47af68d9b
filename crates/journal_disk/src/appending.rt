//! Appends a frame at a closed gate.
ghost use Rattle.std.specs.Prelude.{◌≡◌, ◌+◌, ◌<◌, ◌≤◌, ◌^◌, ◌++◌, [], ◌∷◌, ℕ, List, IsTrue, OnOk, is_err, length};
ghost use Rattle.std.specs.Int.{to_be_bytes};
ghost use Rattle.gb_outside.specs.Faults.{Counts};
ghost use Rattle.gb_outside.specs.Images.{Holds, Torn, LeavesOnly};
ghost use Rattle.journal_disk.specs.Layout.{the_heading, frame_head, file_limit, IsBody, measured, appended};
ghost use Rattle.journal_disk.specs.Appending.{StandsOn, FramesWithOrWithout};

use crate::layout::{CLOSED, FILE_LIMIT, FRAME_HEAD, LONGEST_BODY, OPEN};
use crate::writing::put;
use gb_outside::{Disk, DiskFailed};

/// How many bytes a frame has after its gate, at most: a length, a body and the next gate.
const MOST_BEHIND: usize = FRAME_HEAD + LONGEST_BODY;

/// Fills what stands after a gate: the length, the body and a closed gate.
fn fill(behind: &mut [u8], body: &[u8])
    requires body { length body.now < 2 ^ 32 }
    requires room { length behind.old ≡ frame_head + length body.now }
    ensures { behind.new ≡ measured body.now ++ 0 ∷ [] }
{
    let end = 4 + body.len();
    behind[..4].copy_from_slice(&(body.len() as u32).to_be_bytes());
    behind[4..end].copy_from_slice(body);
    behind[end] = CLOSED;
}

/// Appends a frame at the closed gate that stands at `gate`. The gate is opened last, when all that
/// this brings into force is on the disk.
pub(crate) fn write_frame<D: Disk>(disk: &mut D, gate: u64, body: &[u8]) -> Result<(), DiskFailed>
    requires body { IsBody body.now }
    requires gate { gate < file_limit }
    requires within { IsTrue D.tells → gate < length (D.reads disk.old) }
    ensures appended { OnOk result (IsTrue D.tells → (bodies : List (List ℕ)) → StandsOn the_heading gate bodies (D.reads disk.old) (D.images disk.old)
        → StandsOn the_heading (gate + frame_head + length body.now) (bodies ++ body.now ∷ []) (D.reads disk.new) (D.images disk.new)) }
    ensures written { OnOk result (IsTrue D.tells → Holds (D.reads disk.old) gate (appended body.now) (D.reads disk.new)) }
    ensures any_moment { IsTrue D.tells → (bodies : List (List ℕ)) → StandsOn the_heading gate bodies (D.reads disk.old) (D.images disk.old)
        → LeavesOnly D.moment D.since disk.old disk.new (FramesWithOrWithout the_heading bodies body.now) }
    ensures torn { IsTrue D.tells → Torn gate (length (appended body.now)) (D.reads disk.old) (D.reads disk.new) }
    ensures cause { Counts (D.faults disk.old) (D.faults disk.new) (is_err result) }
{
    let mut room = [CLOSED; MOST_BEHIND];
    let behind = &mut room[..FRAME_HEAD + body.len()];
    fill(behind, body);
    put(disk, gate + 1, behind)?;
    put(disk, gate, &[OPEN])
}
