//! Reading a link to its end.
use gb_outside::{Got, Link};
use registry_http::{Next, next_request};
use std::alloc::Global;

/// The most requests or reads of a link.
const MOST: usize = 100_000_000;

/// How many requests a link has; None where one of them is refused.
pub(crate) fn count_requests<L: Link>(alloc: Global, link: &mut L) -> Option<usize> {
    let mut rest = Vec::new(alloc);
    for count in 0..MOST {
        match next_request(alloc, link, &mut rest) {
            Next::Request(_) => {}
            Next::End => return Some(count),
            _ => return None,
        }
    }
    None
}

/// How many bytes a link has, each of them kept.
pub(crate) fn count_bytes<L: Link>(alloc: Global, link: &mut L) -> Option<usize> {
    let mut bytes = Vec::new(alloc);
    let mut block = [0; 4096];
    for _ in 0..MOST {
        match link.read(&mut block) {
            Got::Bytes(count) => bytes.extend_from_slice(&block[..count]).ok()?,
            Got::End => return Some(bytes.len()),
            Got::Failed => return None,
        }
    }
    None
}
