//! The folder of the journal's file: its sync, and whether a name there is still the file's.
//! Why so: docs/DECISIONS.md, "The file is looked at before and after each record".
use crate::held_file::{Node, node_of, open_beside_streams};
use std::fs::{Metadata, OpenFile, OpenOptions};
use std::os::unix::fs::MetadataExt;
use std::rt::Files;
use std::{fs, io};

/// A moment by the clock of the file system, which stamps what it changes.
#[derive(Clone, Copy, Debug, PartialEq, Eq, PartialOrd, Ord)]
struct Moment {
    seconds: i64,
    nanos: i64,
}

/// When this was changed last. Nobody can set that back.
fn changed_at(metadata: &Metadata) -> Moment {
    Moment {
        seconds: metadata.ctime(),
        nanos: metadata.ctime_nsec(),
    }
}

/// The current folder, which is opened at its first use.
#[derive(Drop)]
pub struct Folder<F: Drop> {
    opened: Option<F>,

    /// The folder's last change, where the file was seen under its name after it. It is kept once the
    /// file was changed at a later moment: the clock may stand for some thousandths of a second, and
    /// two changes of the folder would have one moment.
    seen: Option<Moment>,
}

impl<F: Drop> Folder<F> {
    /// The folder. It is not touched.
    pub fn new() -> Folder<F> {
        Folder {
            opened: None,
            seen: None,
        }
    }
}

impl<F: OpenFile + Drop> Folder<F> {
    /// The open folder.
    fn open<R: Files<File = F>>(&mut self, files: &R) -> io::Result<&F> {
        if self.opened.is_none() {
            let mut how = OpenOptions::new();
            how.read(true);
            self.opened = Some(open_beside_streams(files, &how, ".")?);
        }
        match &self.opened {
            Some(folder) => Ok(folder),
            None => Err(io::Error::from(io::ErrorKind::Other)),
        }
    }

    /// Brings the names of the folder onto the disk.
    pub fn sync<R: Files<File = F>>(&mut self, files: &R) -> io::Result<()> {
        self.open(files)?.sync_all()
    }

    /// An error where this name is not that of the file of this node. While the folder is unchanged its
    /// names are, so the file itself is not asked: a file that was asked for its times is stamped anew
    /// by the next write, and each sync then writes the stamp too.
    pub fn look<R: Files<File = F>>(
        &mut self,
        files: &R,
        name: &str,
        node: Node,
    ) -> io::Result<()> {
        let changed = changed_at(&self.open(files)?.metadata()?);
        if self.seen == Some(changed) {
            return Ok(());
        }
        let named = fs::symlink_metadata(files, name)?;
        if node_of(&named) == node {
            self.seen = (changed < changed_at(&named)).then_some(changed);
            return Ok(());
        }
        // A link may lead to the file, whose name stands in another folder.
        if node_of(&fs::metadata(files, name)?) == node {
            return Ok(());
        }
        Err(io::Error::from(io::ErrorKind::NotFound))
    }
}
