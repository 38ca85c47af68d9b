//! What threads may hand to one another.
use crate::Request;
use gb_outside::{MemLink, SureLink};

/// Takes any type whose values threads may hand to one another.
fn is_sent<T: Send>() {}

/// Threads may hand the links in memory, and requests, to one another.
fn links_are_sent() {
    is_sent::<MemLink<'static>>();
    is_sent::<SureLink<'static>>();
    is_sent::<Request>();
}
