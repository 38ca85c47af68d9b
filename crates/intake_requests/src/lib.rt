//! What the lines and the rows of an input ask of the intake.
#![tactic(auto)]

mod requests;

pub use requests::{Reply, Request, SenderReference};
