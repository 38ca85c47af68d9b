//! What a stop leaves of a file in memory, once the calls on it are made again.
ghost use Rattle.std.specs.Prelude.{◌≡◌, ◌++◌, ◌+◌, ◌-◌, ◌≤◌, length, vec_len, replicate, IfOk, OnOk};
ghost use Rattle.gb_outside.specs.Recorded.{overwritten};
ghost use Rattle.gb_outside.specs.Stops.{blanked, left_by_write};
ghost use Rattle.gb_outside.specs.inner.Remaking.{begun, written_again, made_again, remade, CanMake, CanRemake};

use crate::mem_disk::{Call, overwrite};
use gb_base::NoMemory;
use std::alloc::Global;
use std::marker::Model;

/// What a stop leaves in the bytes that no successful sync covers.
#[derive(Clone, Copy, Debug, PartialEq, Eq)]
pub enum Fill {
    /// What the last successful sync left, and 0 past its end.
    Old,
    /// The newest bytes.
    New,
    /// 0 in each.
    Zeros,
    /// 255 in each.
    Ones,
}

/// A file while its calls are made once more: as it reads, what a stop would leave of it, and the
/// bytes of the writes to come.
#[derive(Drop)]
pub(crate) struct Replay<'a> {
    file: Vec<u8>,
    left: Vec<u8>,
    rest: &'a [u8],
}

impl<'a> Model for Replay<'a> {
    ghost use Rattle.gb_outside.specs.inner.Remaking.{Remade};

    ghost Value = { Remade };

    ghost view = { λ a. record { file = a.file.items; left = a.left.items; rest = a.rest.now } };
}

impl<'a> Replay<'a> {
    /// The file before its first call, and the bytes of all its writes.
    pub(crate) fn new(
        alloc: Global,
        first: &[u8],
        written: &'a [u8],
    ) -> Result<Replay<'a>, NoMemory>
        ensures { IfOk result (λ replay. replay ≡ begun first.now written.now) }
    {
        Ok(Replay {
            file: first.to_vec(alloc)?,
            left: first.to_vec(alloc)?,
            rest: written,
        })
    }

    /// What a stop leaves.
    pub(crate) fn left(&self) -> &[u8]
        ensures { result.now ≡ self.now.left }
    {
        &self.left
    }

    /// Makes these calls.
    pub(crate) fn make_all(
        &mut self,
        alloc: Global,
        calls: &[Call],
        fill: Fill,
    ) -> Result<(), NoMemory>
        requires { CanRemake fill self.old calls.now }
        ensures { OnOk result (self.new ≡ remade fill self.old calls.now) }
    {
        for call in calls {
            self.make(alloc, call, fill)?;
        }
        Ok(())
    }

    fn make(&mut self, alloc: Global, call: &Call, fill: Fill) -> Result<(), NoMemory>
        requires { CanMake self.old call.now }
        ensures { OnOk result (self.new ≡ made_again fill self.old call.now) }
    {
        match call {
            Call::Idle => Ok(()),
            Call::Write { at, size, kept } => self.write(alloc, *at, *size, *kept, fill),
            Call::Sync => self.sync(),
        }
    }

    fn write(
        &mut self,
        alloc: Global,
        at: usize,
        size: usize,
        kept: usize,
        fill: Fill,
    ) -> Result<(), NoMemory>
        requires file { at ≤ length self.old.file }
        requires left { at ≤ length self.old.left }
        requires kept { kept ≤ length self.old.rest }
        ensures { OnOk result (self.new ≡ written_again fill at size kept self.old) }
    {
        let (piece, behind) = self.rest.split_at(kept);
        put(&mut self.file, at, piece)?;
        leave(alloc, &mut self.left, at, size, piece, fill)?;
        self.rest = behind;
        Ok(())
    }

    fn sync(&mut self) -> Result<(), NoMemory>
        ensures { OnOk result (self.new ≡ record { file = self.old.file; left = self.old.file; rest = self.old.rest }) }
    {
        self.left.clear();
        self.left.extend_from_slice(&self.file)?;
        Ok(())
    }
}

// Puts a piece over what is there from `at` on, and past the end.
fn put(bytes: &mut Vec<u8>, at: usize, piece: &[u8]) -> Result<(), NoMemory>
    requires { at ≤ vec_len bytes.old }
    ensures file { OnOk result (bytes.new.items ≡ overwritten at piece.now bytes.old.items) }
    ensures grows { OnOk result (vec_len bytes.old ≤ vec_len bytes.new) }
{
    bytes.reserve(piece.len())?;
    overwrite(bytes, at, piece);
    Ok(())
}

// What a stop would leave after a write of this size at `at`, of which this piece came, where it
// would have left these bytes before.
fn leave(
    alloc: Global,
    left: &mut Vec<u8>,
    at: usize,
    size: usize,
    piece: &[u8],
    fill: Fill,
) -> Result<(), NoMemory>
    requires { at ≤ vec_len left.old }
    ensures { OnOk result (left.new.items ≡ left_by_write fill at size piece.now left.old.items) }
{
    match fill {
        Fill::Old => widen(alloc, left, at, piece.len()),
        Fill::New => put(left, at, piece),
        Fill::Zeros => blank(alloc, left, at, size, piece, 0),
        Fill::Ones => blank(alloc, left, at, size, piece, 255),
    }
}

// Adds zeros up to where so many bytes from `at` on end.
fn widen(alloc: Global, left: &mut Vec<u8>, at: usize, count: usize) -> Result<(), NoMemory>
    requires { at ≤ vec_len left.old }
    ensures { OnOk result (left.new.items ≡ left.old.items ++ replicate (at + count - length left.old.items) 0) }
{
    let past = count.saturating_sub(left.len() - at);
    let zeros = filled(alloc, 0, past)?;
    left.extend_from_slice(&zeros)?;
    Ok(())
}

// Puts the piece there, and then this byte over all of the range that the file has.
fn blank(
    alloc: Global,
    left: &mut Vec<u8>,
    at: usize,
    size: usize,
    piece: &[u8],
    byte: u8,
) -> Result<(), NoMemory>
    requires { at ≤ vec_len left.old }
    ensures { OnOk result (left.new.items ≡ blanked byte at size (overwritten at piece.now left.old.items)) }
{
    put(left, at, piece)?;
    let inside = size.min(left.len() - at);
    let over = filled(alloc, byte, inside)?;
    put(left, at, &over)
}

// So many times this byte.
fn filled(alloc: Global, byte: u8, count: usize) -> Result<Vec<u8>, NoMemory>
    ensures { IfOk result (λ bytes. bytes.items ≡ replicate count byte) }
{
    vec![in alloc; byte; count]
}
