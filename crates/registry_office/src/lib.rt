//! The office: does what the words of its command say, over the journal of a disk or in memory.
#![tactic(auto)]

mod disk_settling;
mod line_settling;
mod receiving;
mod reporting;
mod sampling;
mod serving;
mod statuses;
mod taking;
mod top;

pub use disk_settling::settle;
pub use sample_journals::sample_journal;
pub use serving::serve_connection;
pub use statuses::Status;
pub use taking::take;
pub use top::run;
