//! The line of a folio, along which money is shared: which of its rights stand there, in which
//! order, which exchanges and exercised reservations count, and what `Slots` are filled with.
//! Why so: docs/DECISIONS.md, "What a line is made of stands in one crate below the texts".
#![tactic(auto)]

mod exchange_turns;
mod exchanges;
mod exercises;
mod folio_reads;
mod folio_rights;
mod held_lines;
mod held_rights;
mod journal_rights;
mod line;
mod readings;
mod slots;

pub use exchanges::{Exchange, count_exchanges};
pub use folio_reads::{capital_of, is_live, right_front};
pub use folio_rights::{CreatedRight, has_same_place};
pub use held_lines::held_line;
pub use held_rights::HeldRights;
pub use journal_rights::rights_filed;
pub use line::FolioLine;
pub use readings::FolioReading;
pub use slots::{folio_slots, joins_place};
