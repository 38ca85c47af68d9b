//! Whether nobody but the run has touched the journal's file.
//! Why so: docs/DECISIONS.md, "The file is looked at before and after each record".
ghost use Rattle.std.specs.Prelude.{◌≡◌, IfOk, IsOk, IsSome, OnErr, true};
ghost use Rattle.grundbuch.specs.Extents.{just, may_be};

use crate::extents::Extent;
use crate::folder::Folder;
use crate::held_file::{HeldFile, Kept};
use std::fs::OpenFile;
use std::io;
use std::os::unix::fs::FileExt;
use std::rt::Files;

/// How the run left the file, by which it sees whether another has touched it.
#[derive(Drop)]
pub struct Watch<F: Drop> {
    folder: Folder<F>,

    /// How long the file may be, unless another has touched it.
    extent: Extent,

    /// Where the write began before which it was looked at last.
    begun: Option<u64>,

    /// Whether it is to be looked at after the next sync.
    is_due: bool,
}

impl<F: Drop> Watch<F> {
    /// The run has not looked at the file yet. No file is touched.
    pub fn new() -> Watch<F> {
        Watch {
            folder: Folder::new(),
            extent: Extent::any(),
            begun: None,
            is_due: false,
        }
    }
}

impl<F: FileExt + Kept + OpenFile + Drop> Watch<F> {
    /// Brings the names of the folder onto the disk.
    pub fn sync_folder<R: Files<File = F>>(&mut self, files: &R) -> io::Result<()> {
        self.folder.sync(files)
    }

    /// The length of the file, where nobody has touched it: it is the one under its name, and as
    /// long as the run left it. An error where somebody has.
    pub fn look<R: Files<File = F>>(&mut self, file: &mut HeldFile<'_, R>) -> io::Result<u64>
        ensures untouched { IfOk result (λ len. may_be self.old.extent len ≡ true) }
        ensures looked { IfOk result (λ len. self.new.extent ≡ just len) }
        ensures else_same { OnErr result (self.new.extent ≡ self.old.extent) }
        ensures now_open { IsOk result → IsSome file.new.opened }
        ensures stays_open { IsSome file.old.opened → file.new ≡ file.old }
    {
        let len = file.len(&mut self.folder)?;
        if !self.extent.may_be(len) {
            return Err(io::Error::from(io::ErrorKind::InvalidData));
        }
        self.extent = Extent::just(len);
        Ok(len)
    }

    /// Writes all the bytes from this offset on, where nobody has touched the file. A record is one
    /// write, and its gate is opened by another that ends where that one began: before it there is no
    /// look, but one after its sync.
    pub fn write<R: Files<File = F>>(
        &mut self,
        file: &mut HeldFile<'_, R>,
        at: u64,
        bytes: &[u8],
    ) -> io::Result<()>
        ensures now_open { IsOk result → IsSome file.new.opened }
        ensures stays_open { IsSome file.old.opened → file.new ≡ file.old }
    {
        let count = bytes.len() as u64;
        self.is_due = self.begun.take() == Some(at.saturating_add(count));
        if !self.is_due {
            self.look(file)?;
            self.begun = Some(at);
        }
        let written = file.write_at(at, bytes);
        self.extent = self.extent.after_write(at, count, written.is_ok());
        written
    }

    /// An error where somebody has touched the file since it was looked at before a record whose gate
    /// was opened last.
    pub fn look_after<R: Files<File = F>>(&mut self, file: &mut HeldFile<'_, R>) -> io::Result<()>
        ensures stays_open { IsSome file.old.opened → file.new ≡ file.old }
    {
        if self.is_due {
            self.is_due = false;
            self.look(file)?;
        }
        Ok(())
    }
}
