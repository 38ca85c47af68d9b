//! Numbers, acts, documents, items, journals and draws for tests. No code outside tests uses it.
//!
//! Each function takes numbers, and requires that they are in range: a test with literals proves
//! that at once. Folios and persons are named by their numbers, a right by `right(2, 1)`.
#![tactic(auto)]

mod acts;
mod docs;
mod draws;
mod items;
mod journals;
mod numbers;

pub use acts::{
    assignment, charge, creation, exchange, land_charge, one, opening, opening_for, owner, parcel,
    spec, three, two,
};
pub use docs::{consent, documents, plain_consent};
pub use draws::Draws;
pub use items::{
    advance, award, call, cure, distribution, extension, filed, filing, filing_of, lapse,
    seizure_by, seizure_from,
};
pub use journals::received;
pub use numbers::{
    case_key, cents, day, folio, last_of_february, person, receipt, right, right_key, stamp,
    title_key,
};
