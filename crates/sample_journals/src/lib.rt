//! The generated journal: a large journal of valid items, for tests under load.
//!
//! `sample_journal` makes it. `draws` are its numbers, `filings` and `sales` its items,
//! `folio_notes` what the generator keeps of each folio, and `turns` the kinds of a receipt;
//! `generators` draws one receipt after the other.
#![tactic(auto)]

mod draws;
mod filings;
mod folio_notes;
mod generated;
mod generators;
mod sales;
mod turns;

pub use generated::sample_journal;
