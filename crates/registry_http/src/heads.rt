//! The head at the front of some bytes.
//! Why so: docs/DECISIONS.md, "Room for 2,731 header lines".
ghost use Rattle.std.specs.Prelude.{◌≡◌, ◌≤◌, length, nat_lt};
ghost use Rattle.httparse.specs.Spans.{IsRequestWithin, IsRequestOf};
ghost use Rattle.registry_http.specs.Heads.{longest_head, most_header_lines};
ghost use Rattle.registry_http.specs.inner.Reading.{IsFront, IsJudged, most_fields};

use crate::headers::{body_length, has_header, says_close};
use crate::targets::ends_in_target;
use httparse::Status;
use httparse::spans::{HeaderSpan, RequestSpans, parse_request};

/// The longest head, in bytes.
pub(crate) const LONGEST_HEAD: usize = 8192;

/// The most header lines of a head.
const MOST_HEADER_LINES: usize = 64;

/// The longest body, in bytes.
const LONGEST_REQUEST_BODY: usize = 65536;

/// No head of at most 8,192 bytes has more header lines, since each takes three bytes at least.
pub(crate) const MOST_FIELDS: usize = 2731;

/// A head that is taken.
#[derive(Clone, Copy)]
pub(crate) struct Head<'b> {
    pub(crate) method: &'b [u8],
    pub(crate) path: &'b [u8],
    /// How many bytes the head has.
    pub(crate) len: usize,
    /// How many bytes the body has.
    pub(crate) body_len: usize,
    /// Whether the connection ends after this request.
    pub(crate) last: bool,
}

/// What stands at the front of some bytes.
pub(crate) enum Front<'b> {
    /// A head that is taken.
    Head(Head<'b>),
    /// No head yet.
    Cut,
    /// No head and none will come, or a head that is refused.
    Refused,
    /// A head that announces too long a body.
    TooLong,
}

/// Whether so many header lines are too many.
fn are_too_many(lines: usize) -> bool
    ensures { result ≡ nat_lt most_header_lines lines }
{
    lines > MOST_HEADER_LINES
}

/// Judges a head by what its headers say.
fn judge<'b>(bytes: &'b [u8], headers: &[HeaderSpan], head: &RequestSpans) -> Front<'b>
    requires within { IsRequestWithin bytes.now headers.now head.now }
    requires read { IsRequestOf bytes.now headers.now head.now }
    requires fits { length bytes.now ≤ longest_head }
    ensures { IsJudged bytes.now result }
{
    let headers = &headers[..head.headers];
    if are_too_many(headers.len()) || has_header(bytes, headers, b"transfer-encoding") {
        return Front::Refused;
    }
    match body_length(bytes, headers) {
        None => Front::Refused,
        Some(body_len) if body_len > LONGEST_REQUEST_BODY => Front::TooLong,
        Some(body_len) => Front::Head(Head {
            method: head.method.of(bytes),
            path: head.path.of(bytes),
            len: head.len,
            body_len,
            last: head.version == 0 || says_close(bytes, headers),
        }),
    }
}

/// What stands at the front of these bytes. `spans` is room for the headers.
pub(crate) fn read_front<'b>(bytes: &'b [u8], spans: &mut [HeaderSpan]) -> Front<'b>
    requires { length spans.old ≡ most_fields }
    ensures { IsFront bytes.now result }
{
    let front = &bytes[..LONGEST_HEAD.min(bytes.len())];
    match parse_request(front, spans) {
        Ok(Status::Complete(head)) => judge(front, spans, &head),
        Ok(Status::Partial) => {
            if bytes.len() < LONGEST_HEAD {
                Front::Cut
            } else {
                Front::Refused
            }
        }
        Err(_) => {
            if bytes.len() < LONGEST_HEAD && ends_in_target(bytes) {
                Front::Cut
            } else {
                Front::Refused
            }
        }
    }
}
