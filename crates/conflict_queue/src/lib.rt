//! What an item touches, and at each key the queue of the items that touch it (GBO § 17).
//!
//! - `touched`: the keys of an item.
//! - `dockets`, with its folder: the docket of a journal, its lists of keys and its queues.
#![tactic(auto)]

mod dockets;
pub mod laws;
mod touched;

pub use dockets::Docket;
pub use touched::touches;
