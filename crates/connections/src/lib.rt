//! Connections are served: requests are answered by a book and its register.
#![tactic(auto)]

mod bodies;
mod clerks;
mod doors;
mod receiving;
mod replies;
mod serving;

pub use clerks::Clerk;
pub use doors::DoorEnd;
pub use replies::Reply;
pub use serving::{Ended, Served};
