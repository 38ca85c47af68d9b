//! Finds the frames of a journal, gate by gate.
ghost use Rattle.std.specs.Prelude.{◌≡◌, ◌+◌, ◌<◌, ◌≤◌, ◌^◌, length, IfOk};
ghost use Rattle.journal_disk.specs.inner.Scan.{StandsAt, Scanned};

use crate::Frame;
use crate::layout::{FRAME_HEAD, LONGEST_BODY, OPEN};
use std::alloc::{AllocError, Global};

/// Why no frame begins at a gate.
#[derive(Clone, Copy, Debug, PartialEq, Eq)]
pub(crate) enum Ending {
    /// The gate is not open.
    Closed,
    /// It is open, and the length is 0 or too long.
    Wrong,
    /// It is open, and the bytes end before the frame does, or before the gate after it.
    Short,
}

/// Where frames end, and why.
#[derive(Clone, Copy)]
pub(crate) struct End {
    pub(crate) at: u64,
    pub(crate) ending: Ending,
}

/// The size of the body of the frame that begins with these bytes.
fn body_size(bytes: &[u8]) -> Result<usize, Ending>
    requires { 0 < length bytes.now }
    ensures { StandsAt bytes.now result }
{
    match bytes {
        [OPEN, a, b, c, d, rest @ ..] => {
            let size = u32::from_be_bytes([*a, *b, *c, *d]) as usize;
            if size == 0 || size > LONGEST_BODY {
                return Err(Ending::Wrong);
            }
            if rest.len() <= size {
                return Err(Ending::Short);
            }
            Ok(size)
        }
        [OPEN, ..] => Err(Ending::Short),
        _ => Err(Ending::Closed),
    }
}

/// Adds the frames of these bytes, the first of them a gate at `at`, up to where none begins.
pub(crate) fn scan(
    alloc: Global,
    at: u64,
    bytes: &[u8],
    frames: &mut Vec<Frame>,
) -> Result<End, AllocError>
    requires some { 0 < length bytes.now }
    requires offset { at + length bytes.now < 2 ^ 64 }
    ensures { IfOk result (λ end. Scanned at bytes.now frames.old.items frames.new.items end.at end.ending) }
{
    let mut gate = at;
    let mut rest = bytes;
    loop {
        let size = match body_size(rest) {
            Ok(size) => size,
            Err(ending) => return Ok(End { at: gate, ending }),
        };
        let (frame, behind) = rest.split_at(FRAME_HEAD + size);
        let body = Vec::from_slice(alloc, &frame[FRAME_HEAD..])?;
        frames.push(Frame { at: gate, body })?;
        gate += frame.len() as u64;
        rest = behind;
    }
}
