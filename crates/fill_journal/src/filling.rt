//! Filling a journal and opening it again.
ghost use Rattle.journal_disk.specs.Layout.{IsBody};

use gb_outside::Disk;
use journal_disk::Log;
use std::alloc::Global;

/// Opens the journal of a disk and appends so many frames with this body; None where one of the
/// calls is refused.
pub(crate) fn fill<D: Disk>(alloc: Global, disk: &mut D, body: &[u8], count: u32) -> Option<()>
    requires body { IsBody body.now }
{
    let (mut log, _) = Log::open(alloc, disk).ok()?;
    for _ in 0..count {
        log.append(disk, body).ok()?;
    }
    Some(())
}

/// How many frames the journal of a disk has; None where it is not opened.
pub(crate) fn count_frames<D: Disk>(alloc: Global, disk: &mut D) -> Option<usize> {
    let (_, frames) = Log::open(alloc, disk).ok()?;
    Some(frames.len())
}
