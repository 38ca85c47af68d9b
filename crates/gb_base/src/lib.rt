//! The plain values of a land registry: numbers of folios, persons and receipts, amounts in
//! cents, days, stamps, the sections of the statutes and the keys of the register.
#![tactic(auto)]

mod amounts;
mod date_texts;
mod days;
mod deadlines;
mod ids;
mod interest_days;
mod keys;
pub mod laws;
mod lists;
mod memory;
mod numerals;
mod sections;
mod shares;
mod stamps;
mod texts;

pub use amounts::Cents;
pub use days::{Day, is_a_day};
pub use deadlines::{deadline, deadline_after};
pub use ids::{FolioId, Person, ReceiptNo, RightId};
pub use interest_days::{days360, interest};
pub use keys::Key;
pub use lists::{copy_into, push_copy};
pub use memory::NoMemory;
pub use numerals::number_in;
pub use sections::Section;
pub use shares::share;
pub use stamps::Stamp;
pub use texts::Euros;
