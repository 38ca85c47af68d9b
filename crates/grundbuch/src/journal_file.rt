//! The journal's file as the office's disk.
//! Why so: docs/DECISIONS.md, "After a failed sync every later one fails".
//! Why so: docs/DECISIONS.md, "Only a failed sync gives the file up".
//! Why so: docs/DECISIONS.md, "The file is looked at before and after each record".
ghost use Rattle.std.specs.Prelude.{◌≡◌, ◌⊎◌, None, is_err, IsOk, IsErr, IsSome, IsTrue};
ghost use Rattle.gb_outside.specs.Faults.{Counts, faults_after};

use crate::faults::counted;
use crate::held_file::{HeldFile, Kept};
use crate::watching::Watch;
use gb_outside::{Disk, DiskFailed};
use std::io;
use std::os::unix::fs::FileExt;
use std::rt::Files;

/// The file `grundbuch.journal` of the current folder as the office's disk. It is opened at its
/// first use, made where there is none, and kept from other programs from then on. It tells
/// nothing of its bytes.
#[derive(Drop)]
pub struct JournalFile<'a, R: Files> {
    file: HeldFile<'a, R>,
    files: &'a R,

    /// Whether the folder was synced, so that a stop leaves the file's entry there.
    has_entry: bool,

    /// Whether a sync of the open file failed.
    lost: bool,

    /// Whether another has touched the file.
    watch: Watch<R::File>,
    faults: u64,
}

impl<'a, R: Files> JournalFile<'a, R> {
    /// The file as a disk that has not failed yet. No file is touched.
    pub fn new(files: &'a R) -> JournalFile<'a, R>
        ensures { result.faults ≡ 0 }
    {
        JournalFile {
            file: HeldFile::new(files, "grundbuch.journal"),
            files,
            has_entry: false,
            lost: false,
            watch: Watch::new(),
            faults: 0,
        }
    }
}

impl<R: Files> JournalFile<'_, R>
where
    R::File: FileExt + Kept,
{
    /// Brings the file onto the disk, where no sync of it has failed. One that failed may have
    /// given up what was written, and a later one would say nothing of it: so each later one fails.
    /// A file that could not be opened had nothing to give up.
    fn bring_to_disk(&mut self) -> io::Result<()>
        ensures entry { IsOk result → IsTrue self.new.has_entry }
        ensures lost { IsErr result → (self.new.file.opened ≡ None) ⊎ IsTrue self.new.lost }
        ensures stays_lost { IsTrue self.old.lost → IsErr result × IsTrue self.new.lost }
        ensures unopened { self.new.file.opened ≡ None → self.new.lost ≡ self.old.lost }
        ensures now_open { IsOk result → IsSome self.new.file.opened }
        ensures stays_open { IsSome self.old.file.opened → self.new.file ≡ self.old.file }
        ensures uncounted { self.new.faults ≡ self.old.faults }
    {
        if self.lost {
            return Err(io::Error::from(io::ErrorKind::Other));
        }
        self.file.open()?;
        let synced = self.sync_with_entry();
        self.lost = synced.is_err();
        synced
    }

    /// Syncs the file, and the first time also the folder with its entry, which an earlier run may
    /// have made and not synced. After a record an error says too that somebody has touched the file.
    fn sync_with_entry(&mut self) -> io::Result<()>
        ensures entry { IsOk result → IsTrue self.new.has_entry }
        ensures file { self.new.file ≡ self.old.file }
        ensures uncounted { self.new.faults ≡ self.old.faults }
    {
        self.file.sync()?;
        if !self.has_entry {
            self.watch.sync_folder(self.files)?;
            self.has_entry = true;
        }
        self.watch.look_after(&mut self.file)
    }
}

impl<R: Files> Disk for JournalFile<'_, R>
where
    R::File: FileExt + Kept,
{
    ghost use Rattle.std.specs.Prelude.{◌≡◌, ◌⊎◌, None, is_err, IsOk, IsErr, IsSome, IsTrue, false, []};
    ghost use Rattle.gb_outside.specs.Faults.{Counts, faults_after};

    ghost tells = { false };

    ghost reads = { λ _. [] };

    ghost images = { λ _ _. ⊥ };

    ghost moment = { λ _. 0 };

    ghost since = { λ _ _ _. ⊥ };

    ghost faults = { λ disk. disk.faults };

    fn len(&mut self) -> Result<u64, DiskFailed>
        ensures keeps_lost { self.new.lost ≡ self.old.lost }
        ensures keeps_entry { self.new.has_entry ≡ self.old.has_entry }
        ensures now_open { IsOk result → IsSome self.new.file.opened }
        ensures stays_open { IsSome self.old.file.opened → self.new.file ≡ self.old.file }
        ensures cause { Counts self.old.faults self.new.faults (is_err result) }
        ensures once { self.new.faults ≡ faults_after self.old.faults (is_err result) }
    {
        let len = self.watch.look(&mut self.file);
        told(&mut self.faults, len)
    }

    fn read_at(&mut self, at: u64, into: &mut [u8]) -> Result<(), DiskFailed>
        ensures keeps_lost { self.new.lost ≡ self.old.lost }
        ensures keeps_entry { self.new.has_entry ≡ self.old.has_entry }
        ensures now_open { IsOk result → IsSome self.new.file.opened }
        ensures stays_open { IsSome self.old.file.opened → self.new.file ≡ self.old.file }
        ensures cause { Counts self.old.faults self.new.faults (is_err result) }
        ensures once { self.new.faults ≡ faults_after self.old.faults (is_err result) }
    {
        told(&mut self.faults, self.file.read_at(at, into))
    }

    fn write_at(&mut self, at: u64, bytes: &[u8]) -> Result<(), DiskFailed>
        ensures keeps_lost { self.new.lost ≡ self.old.lost }
        ensures keeps_entry { self.new.has_entry ≡ self.old.has_entry }
        ensures now_open { IsOk result → IsSome self.new.file.opened }
        ensures stays_open { IsSome self.old.file.opened → self.new.file ≡ self.old.file }
        ensures cause { Counts self.old.faults self.new.faults (is_err result) }
        ensures once { self.new.faults ≡ faults_after self.old.faults (is_err result) }
    {
        let written = self.watch.write(&mut self.file, at, bytes);
        told(&mut self.faults, written)
    }

    fn sync(&mut self) -> Result<(), DiskFailed>
        ensures entry { IsOk result → IsTrue self.new.has_entry }
        ensures lost { IsErr result → (self.new.file.opened ≡ None) ⊎ IsTrue self.new.lost }
        ensures stays_lost { IsTrue self.old.lost → IsErr result × IsTrue self.new.lost }
        ensures unopened { self.new.file.opened ≡ None → self.new.lost ≡ self.old.lost }
        ensures now_open { IsOk result → IsSome self.new.file.opened }
        ensures stays_open { IsSome self.old.file.opened → self.new.file ≡ self.old.file }
        ensures cause { Counts self.old.faults self.new.faults (is_err result) }
        ensures once { self.new.faults ≡ faults_after self.old.faults (is_err result) }
    {
        let brought = self.bring_to_disk();
        told(&mut self.faults, brought)
    }

    ghost reads_is_image = { λ disk no. Prim.cc };

    ghost no_longer = { λ disk c no image. absurd image };

    ghost counts_now = { λ disk t c no later now. now };

    ghost only_now = { λ disk c no left. left };
}

/// What the office is told of a call, where an error is a fault that is counted.
fn told<T: Drop>(faults: &mut u64, answer: io::Result<T>) -> Result<T, DiskFailed>
    ensures answer { is_err result ≡ is_err answer }
    ensures cause { Counts faults.old faults.new (is_err result) }
    ensures once { faults.new ≡ faults_after faults.old (is_err result) }
{
    match counted(faults, answer) {
        Ok(value) => Ok(value),
        Err(_) => Err(DiskFailed),
    }
}
