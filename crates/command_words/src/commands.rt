//! What the office is to do.
use intake::Intake;

/// What the office is to do.
#[derive(Clone, Copy, Debug, PartialEq, Eq)]
pub enum Command {
    /// Settle the journal of the disk at so many desks, and write the report.
    Settle { desks: u16 },
    /// Receive the stamped lines of the input into a journal in memory, settle it at so many desks
    /// and write the report.
    SettleLines { desks: u16 },
    /// Settle the journal of the disk at so many desks, and serve over it until so many replies are
    /// written, or as many connections served.
    Serve { desks: u16, requests: u32 },
    /// Receive what the input has into the journal of the disk.
    Receive { intake: Intake },
    /// Make the generated journal of this seed and size, settle it at so many desks, and write its
    /// summary.
    Sample { seed: u64, size: u32, desks: u16 },
}
