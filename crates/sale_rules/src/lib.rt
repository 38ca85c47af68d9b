//! What items of a forced sale bring, and on which grounds they are refused (ZVG §§ 15 to 113).
#![tactic(auto)]

mod awards;
mod calls;
mod distributions;
mod grounds;
mod lowest_found;
mod registrations;
mod rights_left;
mod sale_views;
mod scratch;
mod seizures;

pub use awards::{AwardRefusal, award};
pub use calls::open_bids;
pub use distributions::{distribute, money_distributed};
pub use registrations::register;
pub use scratch::Scratch;
pub use seizures::seize;
