//! Opening lists: a CSV text whose rows each open a folio for one owner, and what they ask.
#![tactic(auto)]

mod csv_records;
mod lists;
mod openings;

pub use lists::OpeningList;
