//! What is claimed in a forced sale, class by class, the lowest bid, and what remains of each right
//! (ZVG §§ 10 to 13, 43 to 52).
//!
//! - A sale as an item finds it: `findings`, with the case and the title before a receipt
//!   (`sale_readings`), what the items of the case say (`case_items`), its seizures
//!   (`seizures_found`), the rights with what is claimed of them (`rights_found`, with `accruals`
//!   and `counted_days` for interest), and the former owners (`owners_found`).
//! - What is claimed: `claims_found` has all claims, `claim_rows` their order in a plan, `claims`
//!   with `claim_lists` keeps both in lists whose room stays. A `ClaimItem` is one claim of a plan, a
//!   `RightClaimed` a right of class 4 with what it claims, a `SeizedFor` a seizure with its claim.
//! - The lines: `right_classes` are the classes 4 and 6, `right_claims` and `class_places` what fills
//!   the line of one, `class_lines` shares its money.
//! - What is computed: `covers` and `lowest_bids` the lowest bid, `whole_bids` where each creditor is
//!   a personal one, `computed` as an item computes it at once, and `remaining` what remains of a
//!   right.
#![tactic(auto)]

mod accruals;
mod case_items;
mod claim_items;
mod claim_lists;
mod claim_rows;
mod claims;
mod claims_found;
mod class_lines;
mod class_places;
mod computed;
mod counted_days;
mod covers;
mod findings;
mod lowest_bids;
mod owners_found;
mod remaining;
mod right_claims;
mod right_classes;
mod rights_found;
mod sale_readings;
mod seizures_found;
mod whole_bids;

pub use claim_items::{ClaimItem, RightClaimed, SeizedFor};
pub use claims::Claims;
pub use lowest_bids::{Lowest, NoServedCreditor};
