//! Writes, each of which is on the disk before the next begins.
ghost use Rattle.std.specs.Prelude.{◌≡◌, ◌+◌, ◌≤◌, ◌++◌, [], ◌∷◌, IsTrue, OnOk, is_err, length};
ghost use Rattle.gb_outside.specs.Faults.{Counts};
ghost use Rattle.gb_outside.specs.Images.{Holds, Torn, Only, LeavesOnly};
ghost use Rattle.journal_disk.specs.Layout.{the_heading, first_gate, made_from, StandsFor};
ghost use Rattle.journal_disk.specs.inner.Heading.{BeginsWithZero, FoundIn};
ghost use Rattle.journal_disk.specs.inner.Writing.{TornFrom};

use crate::heading::Found;
use crate::layout::{CLOSED, FIRST_GATE, HEADING, MARK};
use gb_outside::{Disk, DiskFailed};

/// Writes a piece and brings it onto the disk.
pub(crate) fn put<D: Disk>(disk: &mut D, at: u64, piece: &[u8]) -> Result<(), DiskFailed>
    requires { IsTrue D.tells → at ≤ length (D.reads disk.old) }
    ensures written { OnOk result (IsTrue D.tells → Holds (D.reads disk.old) at piece.now (D.reads disk.new)) }
    ensures settled { OnOk result (IsTrue D.tells → Only (D.reads disk.new) (D.images disk.new)) }
    ensures any_moment { IsTrue D.tells → LeavesOnly D.moment D.since disk.old disk.new (TornFrom (D.images disk.old) at (length piece.now)) }
    ensures torn { IsTrue D.tells → Torn at (length piece.now) (D.reads disk.old) (D.reads disk.new) }
    ensures cause { Counts (D.faults disk.old) (D.faults disk.new) (is_err result) }
{
    disk.write_at(at, piece)?;
    disk.sync()
}

/// Makes a file of no byte, or of one, begin with a byte 0 of value 0.
fn begin<D: Disk>(disk: &mut D) -> Result<(), DiskFailed>
    requires short { IsTrue D.tells → length (D.reads disk.old) ≤ 1 }
    requires settled { IsTrue D.tells → Only (D.reads disk.old) (D.images disk.old) }
    ensures begun { OnOk result (IsTrue D.tells → D.reads disk.new ≡ 0 ∷ []) }
    ensures settled { OnOk result (IsTrue D.tells → Only (D.reads disk.new) (D.images disk.new)) }
    ensures any_moment { IsTrue D.tells → LeavesOnly D.moment D.since disk.old disk.new (λ c. StandsFor the_heading c []) }
    ensures torn { IsTrue D.tells → Torn 0 (first_gate the_heading + 1) (D.reads disk.old) (D.reads disk.new) }
    ensures cause { Counts (D.faults disk.old) (D.faults disk.new) (is_err result) }
{
    put(disk, 0, &[0])
}

/// Makes a file that begins with a byte 0 of value 0: the mark comes last, once all that it
/// stands for is on the disk.
fn finish<D: Disk>(disk: &mut D) -> Result<(), DiskFailed>
    requires begun { IsTrue D.tells → BeginsWithZero (D.reads disk.old) }
    requires settled { IsTrue D.tells → Only (D.reads disk.old) (D.images disk.old) }
    ensures made { OnOk result (IsTrue D.tells → D.reads disk.new ≡ made_from the_heading (D.reads disk.old)) }
    ensures settled { OnOk result (IsTrue D.tells → Only (D.reads disk.new) (D.images disk.new)) }
    ensures any_moment { IsTrue D.tells → LeavesOnly D.moment D.since disk.old disk.new (λ c. StandsFor the_heading c []) }
    ensures torn { IsTrue D.tells → Torn 0 (first_gate the_heading + 1) (D.reads disk.old) (D.reads disk.new) }
    ensures cause { Counts (D.faults disk.old) (D.faults disk.new) (is_err result) }
{
    let mut fresh = [CLOSED; FIRST_GATE as usize];
    fresh[..HEADING.len()].copy_from_slice(&HEADING);
    put(disk, 1, &fresh)?;
    put(disk, 0, &[MARK])
}

/// Makes an unmade file: one without frames.
pub(crate) fn make<D: Disk>(disk: &mut D, begun: bool) -> Result<(), DiskFailed>
    requires unmade { IsTrue D.tells → FoundIn (D.reads disk.old) (Found.Unmade begun) }
    requires settled { IsTrue D.tells → Only (D.reads disk.old) (D.images disk.old) }
    ensures made { OnOk result (IsTrue D.tells → D.reads disk.new ≡ made_from the_heading (D.reads disk.old)) }
    ensures settled { OnOk result (IsTrue D.tells → Only (D.reads disk.new) (D.images disk.new)) }
    ensures any_moment { IsTrue D.tells → LeavesOnly D.moment D.since disk.old disk.new (λ c. StandsFor the_heading c []) }
    ensures torn { IsTrue D.tells → Torn 0 (first_gate the_heading + 1) (D.reads disk.old) (D.reads disk.new) }
    ensures cause { Counts (D.faults disk.old) (D.faults disk.new) (is_err result) }
{
    if !begun {
        begin(disk)?;
    }
    finish(disk)
}
