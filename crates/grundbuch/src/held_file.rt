//! A file of the system that one program at a time has.
//! Why so: docs/DECISIONS.md, "The file is locked at its first use, without waiting".
//! Why so: docs/DECISIONS.md, "The file lies beside the standard streams".
//! Why so: docs/DECISIONS.md, "The file is looked at before and after each record".
use crate::folder::Folder;
use std::fs::{File, Metadata, OpenFile, OpenOptions};
use std::io;
use std::io::{Seek, SeekFrom};
use std::os::unix::fs::{FileExt, MetadataExt};
use std::rt::Files;

/// A file that can be kept from other programs, and whose length is known without its times.
pub trait Kept {
    /// Takes the file for this open of it, until that is closed. An error where another has it.
    fn lock_now(&self) -> io::Result<()>;

    /// Its length in bytes, by a position that nobody uses.
    fn end(&self) -> io::Result<u64>;
}

impl Kept for File {
    fn lock_now(&self) -> io::Result<()> {
        Ok(self.try_lock()?)
    }

    fn end(&self) -> io::Result<u64> {
        let mut file = self;
        file.seek(SeekFrom::End(0))
    }
}

/// What tells a file from all others: its device, and its number there.
#[derive(Clone, Copy, Debug, PartialEq, Eq)]
pub struct Node {
    device: u64,
    number: u64,
}

/// The node of a file.
pub fn node_of(metadata: &Metadata) -> Node {
    Node {
        device: metadata.dev(),
        number: metadata.ino(),
    }
}

/// A file that is open, and its node.
#[derive(Drop)]
struct Opened<F: Drop> {
    file: F,
    node: Node,
}

/// A file that is opened at its first use, made where there is none, and kept from other programs
/// from then on. Each call that finds it shut tries to open it.
#[derive(Drop)]
pub struct HeldFile<'a, R: Files> {
    files: &'a R,
    path: &'a str,
    opened: Option<Opened<R::File>>,
}

impl<'a, R: Files> HeldFile<'a, R> {
    ghost use Rattle.std.specs.Prelude.{◌≡◌, None};

    /// The file of this path. It is not touched.
    pub fn new(files: &'a R, path: &'a str) -> HeldFile<'a, R>
        ensures path { result.path.now ≡ path.now }
        ensures shut { result.opened ≡ None }
    {
        HeldFile {
            files,
            path,
            opened: None,
        }
    }
}

impl<R: Files> HeldFile<'_, R>
where
    R::File: FileExt + Kept,
{
    ghost use Rattle.std.specs.Prelude.{◌≡◌, None, IsOk, IsErr, IsSome};

    /// Opens the file where it is shut. Where that fails it stays shut. One that is open stays the
    /// same.
    pub fn open(&mut self) -> io::Result<()>
        ensures shut { IsErr result → self.new.opened ≡ None }
        ensures now_open { IsOk result → IsSome self.new.opened }
        ensures stays_open { IsSome self.old.opened → self.new ≡ self.old }
    {
        if self.opened.is_none() {
            let opened = self.open_and_lock()?;
            self.opened = Some(opened);
        }
        Ok(())
    }

    fn open_and_lock(&self) -> io::Result<Opened<R::File>> {
        let mut how = OpenOptions::new();
        how.read(true).write(true).create(true);
        let file = open_beside_streams(self.files, &how, self.path)?;
        file.lock_now()?;
        let node = node_of(&file.metadata()?);
        Ok(Opened { file, node })
    }

    /// The open file. One that is shut is an error.
    fn opened(&self) -> io::Result<&Opened<R::File>>
        ensures now_open { IsOk result → IsSome self.now.opened }
    {
        match &self.opened {
            Some(opened) => Ok(opened),
            None => Err(io::Error::from(io::ErrorKind::Other)),
        }
    }

    /// Brings the file onto the disk. One that is shut is an error.
    pub fn sync(&self) -> io::Result<()>
        ensures now_open { IsOk result → IsSome self.now.opened }
    {
        self.opened()?.file.sync_all()
    }

    /// The length in bytes of the file. An error where its name in the folder is not that of the open
    /// one: where this was deleted or renamed, or another was put in its place.
    pub fn len(&mut self, folder: &mut Folder<R::File>) -> io::Result<u64>
        ensures now_open { IsOk result → IsSome self.new.opened }
        ensures stays_open { IsSome self.old.opened → self.new ≡ self.old }
    {
        self.open()?;
        let opened = self.opened()?;
        folder.look(self.files, self.path, opened.node)?;
        opened.file.end()
    }

    /// Fills `into` with the bytes from this offset on.
    pub fn read_at(&mut self, at: u64, into: &mut [u8]) -> io::Result<()>
        ensures now_open { IsOk result → IsSome self.new.opened }
        ensures stays_open { IsSome self.old.opened → self.new ≡ self.old }
    {
        self.open()?;
        self.opened()?.file.read_exact_at(into, at)
    }

    /// Writes all the bytes, from this offset on.
    pub fn write_at(&mut self, at: u64, bytes: &[u8]) -> io::Result<()>
        ensures now_open { IsOk result → IsSome self.new.opened }
        ensures stays_open { IsSome self.old.opened → self.new ≡ self.old }
    {
        self.open()?;
        self.opened()?.file.write_all_at(bytes, at)
    }
}

/// Opens a file under a descriptor above the three of the standard streams. Where a stream is
/// closed, the system gives its number to the next file that is opened, and what is then printed
/// would be written into the file. A copy of a descriptor never has one of the three numbers.
pub fn open_beside_streams<R: Files>(
    files: &R,
    how: &OpenOptions,
    path: &str,
) -> io::Result<R::File> {
    let file = how.open(files, path)?;
    file.try_clone()
}
