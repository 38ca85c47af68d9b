//! What stands at the head of a file.
ghost use Rattle.std.specs.Prelude.{◌≡◌, ◌<◌, ◌≤◌, ℕ, List, IsTrue, IfOk, is_err, length, take};
ghost use Rattle.gb_outside.specs.Faults.{Counts};
ghost use Rattle.journal_disk.specs.inner.Reading.{OnlyReads};
ghost use Rattle.journal_disk.specs.Layout.{the_heading, first_gate};
ghost use Rattle.journal_disk.specs.inner.Heading.{FoundIn};

use crate::layout::{FIRST_GATE, HEADING};
use gb_outside::{Disk, DiskFailed};

/// How many bytes tell whether a file is made: those up to the first gate, with that gate.
const HEAD: usize = FIRST_GATE as usize + 1;

/// What stands at the head of a file.
#[derive(Clone, Copy, Debug, PartialEq, Eq)]
pub(crate) enum Found {
    /// It is not made. Where its making has begun, its byte 0 is 0.
    Unmade { begun: bool },
    /// It is no journal.
    Foreign,
    /// It is made, and has so many bytes.
    Made { len: u64 },
}

/// What a file of `len` bytes is that begins with these bytes: all of it, or its first ten.
fn classify(head: &[u8], len: u64) -> Found
    requires { length head.now ≤ len }
    ensures found { (file : List ℕ) → head.now ≡ take HEAD file → len ≡ length file → FoundIn file result }
    ensures made { (n : ℕ) → result ≡ Found.Made n → first_gate the_heading < n }
{
    match head {
        [0, ..] => Found::Unmade { begun: true },
        [] | [_] => Found::Unmade { begun: false },
        [_, heading @ .., _] if heading == HEADING.as_slice() => Found::Made { len },
        _ => Found::Foreign,
    }
}

/// Reads the length and the head of a file.
pub(crate) fn find<D: Disk>(disk: &mut D) -> Result<Found, DiskFailed>
    ensures found { IsTrue D.tells → IfOk result (FoundIn (D.reads disk.old)) }
    ensures made { IfOk result (λ found. (n : ℕ) → found ≡ Found.Made n → first_gate the_heading < n) }
    ensures reads { IsTrue D.tells → OnlyReads D.reads D.images D.moment D.since disk.old disk.new }
    ensures cause { Counts (D.faults disk.old) (D.faults disk.new) (is_err result) }
{
    let len = disk.len()?;
    let mut head = [0; HEAD];
    let size = len.min(HEAD as u64) as usize;
    disk.read_at(0, &mut head[..size])?;
    Ok(classify(&head[..size], len))
}
