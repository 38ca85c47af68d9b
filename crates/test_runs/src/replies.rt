//! Replies to the first receipt of a journal, whole bytes.

/// The reply where it was received.
pub const ACCEPTED: &[u8] =
    b"HTTP/1.1 201 Created\r\nContent-Type: text/plain\r\nContent-Length: 11\r\n\r\naccepted 1\n";

/// The reply where it was there.
pub const REPEATED: &[u8] =
    b"HTTP/1.1 200 OK\r\nContent-Type: text/plain\r\nContent-Length: 11\r\n\r\nrepeated 1\n";
