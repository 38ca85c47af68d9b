//! Requests and replies over a link: the next request of its bytes, the route that a request asks
//! for, and the bytes of a reply.
#![tactic(auto)]

mod finding;
mod framing;
mod headers;
mod heads;
pub mod laws;
mod lines;
mod replies;
mod request_parts;
mod requests;
mod routes;
mod rows;
mod sending;
mod targets;

pub use finding::{RouteFault, Routes, route};
pub use framing::{Framed, Framer};
pub use replies::{ReplyFault, write_reply};
pub use request_parts::Request;
pub use requests::{Next, next_request};
pub use routes::Route;
