//! Runs and connections over objects in memory, for tests. No code outside tests uses it.
#![tactic(auto)]

mod replies;
mod runs;

pub use replies::{ACCEPTED, REPEATED};
pub use runs::{Run, disk_of, run_of, served_over};
