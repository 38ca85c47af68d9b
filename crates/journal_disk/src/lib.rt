//! The journal file: a log of frames on a disk. A stop at any moment leaves the frames that were
//! there or these and the one that was being appended, and from the answer Ok on this one too.
#![tactic(auto)]

mod appending;
mod faults;
mod frames;
mod heading;
pub mod laws;
mod layout;
mod logs;
mod reading;
mod scan;
mod writing;

pub use faults::{AppendFault, OpenFault};
pub use frames::Frame;
pub use logs::Log;
