//! The journal of the office on a disk: each receipt is a record of its file, numbered once and
//! kept over a stop.
#![tactic(auto)]

mod books;
mod faults;
pub mod laws;
mod lengths;
mod received;
mod records;

pub use books::Book;
pub use faults::BookFault;
pub use received::Received;
