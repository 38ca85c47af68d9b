//! The words of the command line: read with `clap`, and the command that they are.
#![tactic(auto)]

mod commands;
mod forms;
mod grammar;
mod options;
mod reading;
mod table;

pub use commands::Command;
pub use reading::{WordsFault, read_words};
