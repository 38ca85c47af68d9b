//! A journal's file at its full size.
ghost use Rattle.std.specs.Prelude.{◌≤◌};

use gb_outside::MemDisk;
use journal_disk::{AppendFault, Log};
use std::alloc::{AllocError, Global};
use std::process::Abort;
use std::test::Fail;

/// Where the file ends: no gate stands at this offset or beyond.
const LIMIT: usize = 128 * 1024 * 1024;

/// Adds a frame whose body has this size: an open gate, the length, the body.
fn add_frame(file: &mut Vec<u8>, size: usize) -> Result<(), AllocError>
    requires { size ≤ 1024 }
{
    file.push(1)?;
    file.extend_from_slice(&(size as u32).to_be_bytes())?;
    file.resize(file.len() + size, 7)
}

/// A journal in which a frame with a body of two bytes would put its closed gate at the limit. Its
/// frames have bodies of 1,024 bytes, but for the last two. Before a body stand 5 bytes, and
/// before the first frame 9.
fn nearly_full(alloc: Global) -> Result<Vec<u8>, AllocError> {
    let gate = LIMIT - 5 - 2;
    let mut file = Vec::with_capacity(alloc, gate + 1)?;
    file.extend_from_slice(b"\x47GBJOURN1")?;
    let left = gate - 9;
    let whole = left / 1029 - 1;
    for _ in 0..whole {
        add_frame(&mut file, 1024)?;
    }
    let rest = left - whole * 1029;
    add_frame(&mut file, rest / 2 - 5)?;
    add_frame(&mut file, rest - rest / 2 - 5)?;
    file.push(0)?;
    Ok(file)
}

/// The log that is opened again has the further frame, and is full.
fn opens_full(rt: &impl Abort, alloc: Global, disk: &mut MemDisk) -> Result<(), Fail> {
    let (mut log, frames) = Log::open(alloc, disk)?;
    assert_eq!(rt; frames.len(), 130_437);
    assert_eq!(rt; log.append(disk, b"a"), Err(AppendFault::Full));
    Ok(())
}

#[test]
fn the_file_is_full_where_a_gate_would_stand_at_its_limit(rt: HostRuntime) -> Result<(), Fail> {
    let alloc = rt.alloc();
    let file = nearly_full(alloc)?;
    let mut disk = MemDisk::new(alloc, &file, LIMIT, 16, 8192, &[])?;
    let (mut log, frames) = Log::open(alloc, &mut disk)?;
    assert_eq!(rt; frames.len(), 130_436);
    assert_eq!(rt; log.append(&mut disk, b"ab"), Err(AppendFault::Full));
    assert_eq!(rt; log.append(&mut disk, b"a"), Ok(()));
    opens_full(&rt, alloc, &mut disk)
}
