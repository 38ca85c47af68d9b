//! What the headers of a request say.
ghost use Rattle.std.specs.Prelude.{◌≡◌, ◌^◌, ◌<◌, ◌≤◌, All, length, map, codes, nat_lt};
ghost use Rattle.std.specs.List.{list_any};
ghost use Rattle.std.specs.Str.{str_eq_ignore_ascii_case};
ghost use Rattle.httparse.specs.Spans.{IsHeaderWithin, header_bytes};
ghost use Rattle.registry_http.specs.Heads.{values_of, length_of, length_in};

use httparse::spans::HeaderSpan;

/// The most digits of a Content-Length.
const MOST_DIGITS: usize = 8;

/// The name of a header, and its value without the white space around it.
fn parts<'b>(bytes: &'b [u8], span: &HeaderSpan) -> (&'b [u8], &'b [u8])
    requires { IsHeaderWithin (length bytes.now) span.now }
    ensures { (result.0.now, result.1.now) ≡ header_bytes bytes.now span.now }
{
    (span.name.of(bytes), span.value.of(bytes))
}

/// Whether two names are the same, without regard to ASCII case.
fn is_same(name: &[u8], other: &[u8]) -> bool
    ensures { result ≡ str_eq_ignore_ascii_case name.now other.now }
{
    name.eq_ignore_ascii_case(other)
}

/// Whether a header has this name.
pub(crate) fn has_header(bytes: &[u8], headers: &[HeaderSpan], name: &[u8]) -> bool
    requires { All (IsHeaderWithin (length bytes.now)) headers.now }
    ensures { result ≡ nat_lt 0 (length (values_of name.now (map (header_bytes bytes.now) headers.now))) }
{
    for span in headers {
        if is_same(parts(bytes, span).0, name) {
            return true;
        }
    }
    false
}

/// Whether the value of some Connection header is `close`.
pub(crate) fn says_close(bytes: &[u8], headers: &[HeaderSpan]) -> bool
    requires { All (IsHeaderWithin (length bytes.now)) headers.now }
    ensures { result ≡ list_any (λ value. str_eq_ignore_ascii_case value (codes "close"))
        (values_of (codes "connection") (map (header_bytes bytes.now) headers.now)) }
{
    for span in headers {
        let (name, value) = parts(bytes, span);
        if is_same(name, b"connection") && is_same(value, b"close") {
            return true;
        }
    }
    false
}

/// The number that one to eight digits write; None for any other text.
fn read_length(text: &[u8]) -> Option<usize>
    ensures { result ≡ length_of text.now }
{
    if text.is_empty() || text.len() > MOST_DIGITS {
        return None;
    }
    let mut length = 0;
    for digit in text {
        if !digit.is_ascii_digit() {
            return None;
        }
        length = length * 10 + usize::from(*digit - b'0');
    }
    Some(length)
}

/// The length of the body: 0 without a Content-Length, and None where two of them stand, or one
/// whose value is no length.
pub(crate) fn body_length(bytes: &[u8], headers: &[HeaderSpan]) -> Option<usize>
    requires { All (IsHeaderWithin (length bytes.now)) headers.now }
    ensures { result ≡ length_in (values_of (codes "content-length") (map (header_bytes bytes.now) headers.now)) }
{
    let mut length = None;
    for span in headers {
        let (name, value) = parts(bytes, span);
        if is_same(name, b"content-length") {
            if length.is_some() {
                return None;
            }
            length = Some(read_length(value)?);
        }
    }
    Some(length.unwrap_or(0))
}
