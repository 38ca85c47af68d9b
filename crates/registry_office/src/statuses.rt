//! How a run ends.
ghost use Rattle.std.specs.Prelude.{◌≡◌};
ghost use Rattle.registry_office.specs.Statuses.{status_of_door, status_of_fault};
ghost use Rattle.registry_office.specs.inner.Ends.{status_of, status_of_writing};

use connections::DoorEnd;
use intake::{OutputFault, SessionFault};
use receipt_journal::BookFault;

/// How a run of the office ended.
#[derive(Clone, Copy, Debug, PartialEq, Eq)]
pub enum Status {
    /// All was read, done and written.
    Ok,
    /// The words are no command.
    Usage,
    /// The source failed.
    ReadFault,
    /// The sink failed.
    WriteFault,
    /// The disk failed.
    DiskFault,
    /// No memory was found.
    Memory,
    /// The disk holds something other than a journal.
    NotJournal,
    /// The journal has a bad record whose gate stands at this byte.
    BadRecord { at: u64 },
    /// The input is longer than 64 MiB.
    InputTooLong,
    /// The listener failed.
    DoorFault,
}

/// The status of a session over an input.
pub fn status_of(done: Result<(), SessionFault>) -> Status
    ensures { result ≡ status_of done }
{
    match done {
        Ok(()) => Status::Ok,
        Err(SessionFault::Read) => Status::ReadFault,
        Err(SessionFault::Write) => Status::WriteFault,
        Err(SessionFault::Disk) => Status::DiskFault,
        Err(SessionFault::Memory) => Status::Memory,
        Err(SessionFault::TooLong) => Status::InputTooLong,
    }
}

/// The status of a text that was to be written.
pub fn status_of_writing(done: Result<(), OutputFault>) -> Status
    ensures { result ≡ status_of_writing done }
{
    match done {
        Ok(()) => Status::Ok,
        Err(OutputFault::Write) => Status::WriteFault,
        Err(OutputFault::Memory) => Status::Memory,
    }
}

/// The status of a door that was served.
pub fn status_of_door(end: DoorEnd) -> Status
    ensures { result ≡ status_of_door end }
{
    match end {
        DoorEnd::Done => Status::Ok,
        DoorEnd::DoorFault => Status::DoorFault,
        DoorEnd::Memory => Status::Memory,
    }
}

/// The status of a book that was not opened.
pub fn status_of_opening(fault: BookFault) -> Status
    ensures { result ≡ status_of_fault fault }
{
    match fault {
        BookFault::Disk => Status::DiskFault,
        BookFault::NotJournal => Status::NotJournal,
        BookFault::BadRecord { at } => Status::BadRecord { at },
        BookFault::Memory => Status::Memory,
    }
}
