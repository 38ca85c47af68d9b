//! The intake: an input is read, each of its lines or rows is answered as it comes, and what
//! receives keeps the items.
#![tactic(auto)]

mod answering;
mod faults;
mod inputs;
mod intakes;
mod lines;
mod list_session;
mod receivers;
mod session;
mod words;
mod writing;

pub use faults::{OutputFault, SessionFault};
pub use intakes::Intake;
pub use lines::LineKind;
pub use list_session::answer_list;
pub use receivers::{BookOnDisk, Receiver};
pub use session::answer_lines;
pub use words::{malformed_line, received_line};
pub use writing::write_all;
