//! Requests and replies of links in memory, whole bytes, and a made file.

/// A request that the opening of folio 7 be received.
pub const POST: &[u8] =
    b"POST /receipts HTTP/1.1\r\nContent-Length: 246\r\n\r\n{\"sender\":1,\"reference\":1,\"item\":{\"kind\":\"filing\",\"applicant\":10,\"conditional\":false,\"acts\":[{\"act\":\"open\",\"folio\":7,\"district\":12,\"parcel\":345,\"sub\":6,\"area\":800,\"owners\":[10]}],\"docs\":[{\"doc\":\"consent\",\"act\":1,\"person\":10,\"form\":\"certified\"}]}}";

/// Two requests, each that the opening of folio 7 be received: `POST` twice.
pub const POST_TWICE: &[u8] =
    b"POST /receipts HTTP/1.1\r\nContent-Length: 246\r\n\r\n{\"sender\":1,\"reference\":1,\"item\":{\"kind\":\"filing\",\"applicant\":10,\"conditional\":false,\"acts\":[{\"act\":\"open\",\"folio\":7,\"district\":12,\"parcel\":345,\"sub\":6,\"area\":800,\"owners\":[10]}],\"docs\":[{\"doc\":\"consent\",\"act\":1,\"person\":10,\"form\":\"certified\"}]}}POST /receipts HTTP/1.1\r\nContent-Length: 246\r\n\r\n{\"sender\":1,\"reference\":1,\"item\":{\"kind\":\"filing\",\"applicant\":10,\"conditional\":false,\"acts\":[{\"act\":\"open\",\"folio\":7,\"district\":12,\"parcel\":345,\"sub\":6,\"area\":800,\"owners\":[10]}],\"docs\":[{\"doc\":\"consent\",\"act\":1,\"person\":10,\"form\":\"certified\"}]}}";

pub const READ: &[u8] = b"GET /folios/7 HTTP/1.1\r\n\r\n";

/// Two requests, each to read folio 7: `READ` twice.
pub const READ_TWICE: &[u8] = b"GET /folios/7 HTTP/1.1\r\n\r\nGET /folios/7 HTTP/1.1\r\n\r\n";

/// The reply to a read of a folio that is not there.
pub const NOT_FOUND: &[u8] =
    b"HTTP/1.1 404 Not Found\r\nContent-Type: text/plain\r\nContent-Length: 10\r\n\r\nnot found\n";

/// Two replies, each to a read of a folio that is not there: `NOT_FOUND` twice.
pub const NOT_FOUND_TWICE: &[u8] =
    b"HTTP/1.1 404 Not Found\r\nContent-Type: text/plain\r\nContent-Length: 10\r\n\r\nnot found\nHTTP/1.1 404 Not Found\r\nContent-Type: text/plain\r\nContent-Length: 10\r\n\r\nnot found\n";

/// The reply `NOT_FOUND` without its last byte.
pub const CUT_OFF: &[u8] =
    b"HTTP/1.1 404 Not Found\r\nContent-Type: text/plain\r\nContent-Length: 10\r\n\r\nnot found";

/// The reply where the disk failed.
pub const UNAVAILABLE: &[u8] =
    b"HTTP/1.1 503 Service Unavailable\r\nContent-Type: text/plain\r\nContent-Length: 20\r\n\r\nservice unavailable\n";

/// The reply where the file is no journal.
pub const NOT_A_JOURNAL: &[u8] =
    b"HTTP/1.1 500 Internal Server Error\r\nContent-Type: text/plain\r\nContent-Length: 14\r\n\r\nnot a journal\n";

/// A file that was made, without a receipt. An opening of it makes four calls, and a receipt four
/// more: two writes, with a sync after each.
pub const MADE: &[u8] = b"\x47GBJOURN1\0";
