//! The plan by which the money of an award is distributed (ZVG §§ 109 to 114).
#![tactic(auto)]

mod class_claims;
pub mod laws;
mod payments;
mod plan_lines;
mod plans;
mod rights_paid;
mod splits;

pub use plan_lines::{PlanLine, PlanPart};
pub use plans::Plan;
pub use splits::split;
