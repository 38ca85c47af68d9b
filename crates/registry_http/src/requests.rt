//! The requests of a link, one after another.
ghost use Rattle.std.specs.Prelude.{◌≡◌, ◌+◌, ◌<◌, ◌≤◌, OnOk, IfOk, IfErr, Ok, true, false, length, take, drop, vec_len};
ghost use Rattle.std.specs.Io.KnownBytes.{IsAtEnd};
ghost use Rattle.gb_outside.specs.Faults.{Counts};
ghost use Rattle.httparse.specs.Grammar.{IsToken};
ghost use Rattle.registry_http.specs.Requests.{LacksEnd, ReadsNext, KeepsFew, link_failed, longest_read};
ghost use Rattle.registry_http.specs.inner.Reading.{HasHead, Brings, Breaks, ReadsOn, work_failed, most_fields};
ghost use Rattle.registry_http.specs.declared.requests.Next.TheVariants.{Memory as OutOfMemory};

use crate::heads::{Front, Head, LONGEST_HEAD, MOST_FIELDS, read_front};
use crate::lines::Lines;
use crate::request_parts::Request;
use gb_base::NoMemory;
use gb_outside::{Got, Link};
use http::method::{Method, MethodError};
use httparse::spans::{EMPTY_HEADER_SPAN, HeaderSpan};
use std::alloc::{AllocError, Global};

/// How many bytes one read asks for at most.
const LONGEST_READ: usize = 4096;

/// What comes next on a link.
#[derive(Debug, Drop)]
pub enum Next {
    /// A whole request.
    Request(Request),
    /// The link ended before a request's first byte.
    End,
    /// The link ended inside a request.
    Cut,
    /// The bytes begin no head, or one that is refused.
    HeadFault,
    /// The head announces a body of more than 65,536 bytes.
    BodyTooLong,
    /// The link failed.
    LinkFault,
    /// No memory was found.
    Memory,
}

impl From<AllocError> for Next {
    ghost from_gives = { λ _ e. e ≡ OutOfMemory };

    fn from(_: AllocError) -> Next {
        Next::Memory
    }
}

/// A request whose head has come.
#[derive(Drop)]
struct Begun {
    method: Method,
    path: Vec<u8>,
    len: usize,
    body_len: usize,
    last: bool,
}

/// A block to read into.
fn new_block(alloc: Global) -> Result<Vec<u8>, NoMemory>
    ensures { IfOk result (λ block. vec_len block ≡ longest_read) }
{
    vec![in alloc; 0; LONGEST_READ]
}

/// Room for the headers of a head.
pub(crate) fn new_spans(alloc: Global) -> Result<Vec<HeaderSpan>, NoMemory>
    ensures { IfOk result (λ spans. vec_len spans ≡ most_fields) }
{
    vec![in alloc; EMPTY_HEADER_SPAN; MOST_FIELDS]
}

/// The method of this name, which the grammar of heads has let through.
fn read_method(alloc: Global, name: &[u8]) -> Result<Method, NoMemory>
    requires { IsToken name.now }
    ensures { IfOk result (λ method. method ≡ name.now) }
{
    match Method::from_bytes(alloc, name) {
        Ok(method) => Ok(method),
        Err(MethodError::OutOfMemory) => Err(AllocError),
        Err(MethodError::Invalid) => unreachable!(),
    }
}

/// Keeps what a head says, so that the bytes can grow.
fn begin(alloc: Global, head: Head<'_>) -> Result<Begun, NoMemory>
    requires { IsToken head.method.now }
    ensures { IfOk result (λ begun. (begun.method ≡ head.entry.method.now) × (begun.path.items ≡ head.entry.path.now)
        × (begun.len ≡ head.entry.len) × (begun.body_len ≡ head.entry.body_len) × (begun.last ≡ head.entry.last)) }
{
    Ok(Begun {
        method: read_method(alloc, head.method)?,
        path: Vec::from_slice(alloc, head.path)?,
        len: head.len,
        body_len: head.body_len,
        last: head.last,
    })
}

/// Reads some more bytes of the link to the end of `bytes`; false at the end of the link.
fn read_more<L: Link>(link: &mut L, bytes: &mut Vec<u8>, block: &mut [u8]) -> Result<bool, Next>
    requires { length block.old ≡ longest_read }
    ensures more { OnOk result (Brings (L.left link.old) (L.left link.new) bytes.old.items bytes.new.items) }
    ensures some { result ≡ Ok true → length bytes.old.items < length bytes.new.items }
    ensures end { result ≡ Ok false → (bytes.new.items ≡ bytes.old.items) × IsAtEnd (L.left link.new) }
    ensures fault { IfErr result (Breaks (L.left link.old) (L.left link.new) bytes.old.items bytes.new.items) }
    ensures written { L.written link.new ≡ L.written link.old }
    ensures cause { Counts (L.faults link.old) (L.faults link.new) (work_failed result) }
{
    match link.read(block) {
        Got::Bytes(count) => {
            bytes.extend_from_slice(&block[..count])?;
            Ok(true)
        }
        Got::End => Ok(false),
        Got::Failed => Err(Next::LinkFault),
    }
}

/// Reads on until a head is whole or none will come: to its empty line, to as many bytes as a head
/// may have, or to the end of the link.
fn read_lines<L: Link>(link: &mut L, bytes: &mut Vec<u8>, block: &mut [u8]) -> Result<(), Next>
    requires { length block.old ≡ longest_read }
    ensures reads { OnOk result (ReadsOn (L.left link.old) (L.left link.new) bytes.old.items bytes.new.items) }
    ensures over { OnOk result (LacksEnd bytes.new.items → IsAtEnd (L.left link.new)) }
    ensures answer { IfErr result (ReadsNext (L.left link.old) (L.left link.new) bytes.old.items bytes.new.items) }
    ensures written { L.written link.new ≡ L.written link.old }
    ensures cause { Counts (L.faults link.old) (L.faults link.new) (work_failed result) }
{
    let mut lines = Lines::Ahead.after_all(bytes);
    while bytes.len() < LONGEST_HEAD && !lines.are_over() {
        let looked = bytes.len();
        if !read_more(link, bytes, block)? {
            return Ok(());
        }
        lines = lines.after_all(&bytes[looked..]);
    }
    Ok(())
}

/// Reads the next head.
fn read_head<L: Link>(
    alloc: Global,
    link: &mut L,
    bytes: &mut Vec<u8>,
    block: &mut [u8],
) -> Result<Begun, Next>
    requires { length block.old ≡ longest_read }
    ensures head { IfOk result (λ begun. HasHead bytes.new.items begun.method begun.path.items begun.len begun.body_len begun.last) }
    ensures reads { OnOk result (ReadsOn (L.left link.old) (L.left link.new) bytes.old.items bytes.new.items) }
    ensures answer { IfErr result (ReadsNext (L.left link.old) (L.left link.new) bytes.old.items bytes.new.items) }
    ensures written { L.written link.new ≡ L.written link.old }
    ensures cause { Counts (L.faults link.old) (L.faults link.new) (work_failed result) }
{
    read_lines(link, bytes, block)?;
    let mut spans = new_spans(alloc)?;
    match read_front(bytes, &mut spans) {
        Front::Head(head) => Ok(begin(alloc, head)?),
        Front::Cut if bytes.is_empty() => Err(Next::End),
        Front::Cut => Err(Next::Cut),
        Front::Refused => Err(Next::HeadFault),
        Front::TooLong => Err(Next::BodyTooLong),
    }
}

/// Reads on until the body behind a head is whole.
fn read_body<L: Link>(
    link: &mut L,
    bytes: &mut Vec<u8>,
    block: &mut [u8],
    begun: &Begun,
) -> Result<(), Next>
    requires block { length block.old ≡ longest_read }
    requires head { HasHead bytes.old.items begun.now.method begun.now.path.items begun.now.len begun.now.body_len begun.now.last }
    ensures long { OnOk result (begun.now.len + begun.now.body_len ≤ length bytes.new.items) }
    ensures reads { OnOk result (ReadsOn (L.left link.old) (L.left link.new) bytes.old.items bytes.new.items) }
    ensures answer { IfErr result (ReadsNext (L.left link.old) (L.left link.new) bytes.old.items bytes.new.items) }
    ensures written { L.written link.new ≡ L.written link.old }
    ensures cause { Counts (L.faults link.old) (L.faults link.new) (work_failed result) }
{
    let end = begun.len + begun.body_len;
    while bytes.len() < end {
        if !read_more(link, bytes, block)? {
            return Err(Next::Cut);
        }
    }
    Ok(())
}

/// Takes a request, all of whose bytes have come, off their front.
fn take_request(alloc: Global, bytes: &mut Vec<u8>, begun: Begun) -> Result<Request, NoMemory>
    requires { begun.len + begun.body_len ≤ length bytes.old.items }
    ensures request { IfOk result (λ request. request ≡ record {
      method = begun.method;
      path = begun.path.items;
      body = take begun.body_len (drop begun.len bytes.old.items);
      last = begun.last;
    }) }
    ensures rest { OnOk result (bytes.new.items ≡ drop (begun.len + begun.body_len) bytes.old.items) }
    ensures few { length bytes.new.items ≤ length bytes.old.items }
{
    let end = begun.len + begun.body_len;
    let body = Vec::from_slice(alloc, &bytes[begun.len..end])?;
    let rest = Vec::from_slice(alloc, &bytes[end..])?;
    *bytes = rest;
    Ok(Request::new(begun.method, begun.path, body, begun.last))
}

/// Reads the next request.
fn read_request<L: Link>(alloc: Global, link: &mut L, bytes: &mut Vec<u8>) -> Result<Request, Next>
    ensures request { IfOk result (λ request. ReadsNext (L.left link.old) (L.left link.new) bytes.old.items bytes.new.items
        (Next.Request request)) }
    ensures answer { IfErr result (ReadsNext (L.left link.old) (L.left link.new) bytes.old.items bytes.new.items) }
    ensures written { L.written link.new ≡ L.written link.old }
    ensures cause { Counts (L.faults link.old) (L.faults link.new) (work_failed result) }
{
    let mut block = new_block(alloc)?;
    let begun = read_head(alloc, link, bytes, &mut block)?;
    read_body(link, bytes, &mut block, &begun)?;
    Ok(take_request(alloc, bytes, begun)?)
}

/// The next request of a link. `rest` has the bytes that were read beyond the request before; those
/// behind this one are kept there. The link is read only where more bytes are wanted: where no
/// empty line has followed a line and fewer bytes came than a head may have, or where a body lacks
/// bytes. So no reply waits for bytes that it does not need, and a broken head is refused at its
/// empty line at the latest. After any answer but a request the connection is over, and what `rest`
/// has is of no use.
pub fn next_request<L: Link>(alloc: Global, link: &mut L, rest: &mut Vec<u8>) -> Next
    ensures answer { ReadsNext (L.left link.old) (L.left link.new) rest.old.items rest.new.items result }
    ensures few { KeepsFew rest.old.items rest.new.items result }
    ensures written { L.written link.new ≡ L.written link.old }
    ensures cause { Counts (L.faults link.old) (L.faults link.new) (link_failed result) }
{
    match read_request(alloc, link, rest) {
        Ok(request) => Next::Request(request),
        Err(next) => next,
    }
}
