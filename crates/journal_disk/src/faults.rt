//! Why a journal could not be opened, or a frame not be appended.
ghost use Rattle.std.specs.Prelude.{◌≡◌};
ghost use Rattle.journal_disk.specs.declared.faults.OpenFault.TheVariants.{Disk, Memory};

use crate::Frame;
use gb_outside::DiskFailed;
use std::alloc::{AllocError, AllocFailed};

/// Why a journal could not be opened.
#[derive(Debug, Drop)]
pub enum OpenFault {
    /// The disk failed.
    Disk,
    /// The file is no journal, and not one that a stop left unmade.
    NotJournal,
    /// At `at` stands an open gate that no whole frame follows; `ahead` has the frames before it.
    BadRecord { at: u64, ahead: Vec<Frame> },
    /// Memory ran out for the frames.
    Memory,
}

impl From<DiskFailed> for OpenFault {
    ghost from_gives = { λ _ e. e ≡ Disk };

    fn from(_: DiskFailed) -> Self {
        OpenFault::Disk
    }
}

impl From<AllocError> for OpenFault {
    ghost from_gives = { λ _ e. e ≡ Memory };

    fn from(_: AllocError) -> Self {
        OpenFault::Memory
    }
}

impl<T: Drop> From<AllocFailed<T>> for OpenFault {
    ghost from_gives = { λ _ e. e ≡ Memory };

    fn from(_: AllocFailed<T>) -> Self {
        OpenFault::Memory
    }
}

/// Why a frame was not appended.
#[derive(Clone, Copy, Debug, PartialEq, Eq)]
pub enum AppendFault {
    /// The disk failed. The log answers `MustReopen` from now on; opened again, the file has the
    /// frame or not.
    Disk,
    /// The closed gate after the frame would stand at byte 134,217,728 or beyond.
    Full,
    /// An earlier append answered `Disk`.
    MustReopen,
}
