//! What comes in, the journal that numbers it, and what follows from the journal alone.
//!
//! - What comes in: `items` with what each is about, `filing_acts` with `rights`, `land` and `people`, `documents`, and
//!   `sales` for a forced sale. `filing_rules` and `ranges` say what is well formed.
//! - The journal: `receipts`, `journals` and its answers `added`. `item_indexes` and `lists` are how
//!   it finds cures, creating acts and filings; `cure_documents` and `firsts` are how it finds what
//!   cures bring. `journal_names` has names of journals, by which types speak of one.
//! - What follows from it: `filings` finds filings, acts and rights, `creations` the creating acts of
//!   a folio that count, `touched_keys` the keys that a filing touches, `divisions` and `groups` what
//!   it creates; `matters` is a filing with the item with which it is judged, `filing_documents` are
//!   the documents that count then, and `sought` says what is looked for among them.
#![tactic(auto)]

mod added;
mod creations;
mod cure_documents;
mod divisions;
mod documents;
mod filing_acts;
mod filing_documents;
mod filing_rules;
mod filings;
mod firsts;
mod groups;
mod item_indexes;
mod items;
mod journal_names;
mod journals;
mod land;
pub mod laws;
mod lists;
mod matters;
mod people;
mod ranges;
mod receipts;
mod rights;
mod sales;
mod sought;
mod touched_keys;

pub use added::Added;
pub use creations::{earlier_rights, first_rights};
pub use divisions::filing_creates_in_division;
pub use documents::{Doc, Docs, Form};
pub use filing_acts::{Act, Acts};
pub use filing_rules::keeps_rules;
pub use filings::{applicant_of, filing_at, new_right};
pub use groups::{has_equal, shares_its_group};
pub use items::{Filing, Item, Subject};
pub use journal_names::JournalName;
pub use journals::{Journal, MOST_CREATIONS, is_a_journal};
pub use land::Inventory;
pub use matters::Matter;
pub use people::Owners;
pub use ranges::well_formed;
pub use receipts::Receipt;
pub use rights::{RightKind, RightSpec};
pub use sales::{Basis, Registration};
pub use sought::{PersonTest, Sought};
pub use touched_keys::filing_keys;
