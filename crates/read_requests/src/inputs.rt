//! The bytes of requests.
use std::alloc::{AllocError, Global};

fn push_many(bytes: &mut Vec<u8>, count: usize) -> Result<(), AllocError> {
    for _ in 0..count {
        bytes.push(b'x')?;
    }
    Ok(())
}

/// A request whose head has so many bytes.
pub(crate) fn long_head(alloc: Global, len: usize) -> Result<Vec<u8>, AllocError> {
    let mut bytes = Vec::from_slice(alloc, b"GET / HTTP/1.1\r\na: ")?;
    push_many(&mut bytes, len.saturating_sub(23))?;
    bytes.extend_from_slice(b"\r\n\r\n")?;
    Ok(bytes)
}

/// A request whose body has so many bytes.
pub(crate) fn long_body(alloc: Global, len: usize) -> Result<Vec<u8>, AllocError> {
    let head = format!(in alloc; "POST /receipts HTTP/1.1\r\nContent-Length: {len}\r\n\r\n")?;
    let mut bytes = head.into_bytes();
    push_many(&mut bytes, len)?;
    Ok(bytes)
}

/// So many requests, one after another.
pub(crate) fn many_requests(alloc: Global, count: usize) -> Result<Vec<u8>, AllocError> {
    let mut bytes = Vec::new(alloc);
    for number in 0..count {
        let request = format!(in alloc; "GET /folios/{number} HTTP/1.1\r\nHost: a\r\n\r\n")?;
        bytes.extend_from_slice(request.as_bytes())?;
    }
    Ok(bytes)
}
