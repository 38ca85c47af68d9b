//! What each right of a line of places gets of a sum that is paid along it, cent by cent: with
//! groups of equal rank, exchanges of rank (BGB § 880) and exercised reservations (BGB § 881).
#![tactic(auto)]

mod chains;
mod cutting;
mod exchanging;
mod groups;
mod joining;
mod keeping;
pub mod laws;
mod paying;
mod pieces;
mod place_numbers;
mod places;
mod relations;
mod slots;
mod spans;
mod thresholds;

pub use groups::{group_of, is_listed_ahead};
pub use places::{Knot, Piece, Place, Swap};
pub use relations::Relation;
pub use slots::Slots;
