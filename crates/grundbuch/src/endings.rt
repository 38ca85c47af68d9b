//! How the program ends: the exit status, and the line on standard error.
ghost use Rattle.std.specs.Prelude.{◌≡◌, Some};
ghost use Rattle.grundbuch.specs.Endings.{exit_status, ending_text};

use registry_office::Status;
use std::fmt;

/// The exit status of the program.
pub fn number(status: Status) -> u8
    ensures { result ≡ exit_status status }
{
    match status {
        Status::Ok => 0,
        Status::Usage => 2,
        Status::ReadFault => 3,
        Status::WriteFault => 4,
        Status::DiskFault => 5,
        Status::Memory => 6,
        Status::NotJournal => 7,
        Status::BadRecord { .. } => 8,
        Status::InputTooLong => 9,
        Status::DoorFault => 10,
    }
}

/// What the program says of a status.
#[derive(Clone, Copy)]
struct Ending(Status);

impl fmt::Display for Ending {
    ghost output = { λ ending. Some (ending_text ending.0) };

    fn fmt<W: fmt::Write>(&self, f: &mut fmt::Formatter<W>) -> fmt::Result {
        match self.0 {
            Status::Ok => Ok(()),
            Status::Usage => f.write_str("usage"),
            Status::ReadFault => f.write_str("read fault"),
            Status::WriteFault => f.write_str("write fault"),
            Status::DiskFault => f.write_str("disk fault"),
            Status::Memory => f.write_str("out of memory"),
            Status::NotJournal => f.write_str("not a journal"),
            Status::BadRecord { at } => write!(f, "bad record at {at}"),
            Status::InputTooLong => f.write_str("input too long"),
            Status::DoorFault => f.write_str("door fault"),
        }
    }
}

/// Prints the line that belongs to a status; none where all was done. Where that fails nothing
/// more can be done.
pub fn tell<R: Eprint>(rt: &R, status: Status) {
    if status != Status::Ok {
        let _ = eprintln!(rt; "{}", Ending(status));
    }
}
