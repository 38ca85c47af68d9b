//! The peers of a port, as they are kept until the office has time for them: how far each has come,
//! who is next, who has to go, what each has sent, and how long a reply may take. Moments are
//! milliseconds that are handed in; no device is called.
//!
//! ```
//! let mut peers = Peers::new(alloc)?;
//! peers.note(place, Stage::Silent, now)?;
//! inbox.keep(bytes)?;
//! if let Some(stage) = inbox.stage(&mut framer) {
//!     peers.note(place, stage, now)?;
//! }
//! let next: Option<usize> = peers.next();
//! ```
#![tactic(auto)]

mod inboxes;
pub mod laws;
mod peers;
mod replying;
mod stages;

pub use inboxes::Inbox;
pub use peers::{MOST_PEERS, Peers};
pub use replying::Replying;
pub use stages::{Peer, Stage};
