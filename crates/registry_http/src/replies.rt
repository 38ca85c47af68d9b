//! The replies that are written to a link.
//! Why so: docs/DECISIONS.md, "A reply over HTTP is written from one buffer".
ghost use Rattle.std.specs.Prelude.{◌≡◌, ◌<◌, IfOk, OnOk, OnErr, Err};
ghost use Rattle.std.specs.Io.KnownBytes.{Appends};
ghost use Rattle.gb_outside.specs.Faults.{Counts};
ghost use Rattle.registry_http.specs.Replies.{AppendsPart, phrase_of, reply_bytes, reply_failed};
ghost use Rattle.registry_http.specs.declared.replies.ReplyFault.TheVariants.{LinkFault, Memory};

use gb_base::NoMemory;
use gb_outside::{Link, Wrote};
use http::StatusCode;
use std::alloc::{AllocError, Global};

/// Why a reply was not written whole.
#[derive(Clone, Copy, Debug, PartialEq, Eq)]
pub enum ReplyFault {
    /// The link failed: a front of the reply was written, and not the whole.
    LinkFault,
    /// No memory was found: nothing was written.
    Memory,
}

impl From<AllocError> for ReplyFault {
    ghost from_gives = { λ _ e. e ≡ Memory };

    fn from(_: AllocError) -> ReplyFault {
        ReplyFault::Memory
    }
}

/// The phrase of a status; an empty one where `http` has none.
fn phrase(status: StatusCode) -> &'static str
    ensures { result.now ≡ phrase_of status }
{
    status.canonical_reason().unwrap_or("")
}

/// A whole reply.
fn reply(alloc: Global, status: StatusCode, body: &[u8]) -> Result<Vec<u8>, NoMemory>
    ensures { IfOk result (λ reply. reply.items ≡ reply_bytes status body.now) }
{
    let head = format!(in alloc;
        "HTTP/1.1 {} {}\r\nContent-Type: text/plain\r\nContent-Length: {}\r\n\r\n",
        status.as_u16(),
        phrase(status),
        body.len()
    )?;
    let mut reply = head.into_bytes();
    reply.extend_from_slice(body)?;
    Ok(reply)
}

/// Writes all of these bytes, or a front of them that is not the whole where the link fails.
fn write_all<L: Link>(link: &mut L, bytes: &[u8]) -> Result<(), ReplyFault>
    ensures whole { OnOk result (Appends (L.written link.old) (L.written link.new) bytes.now) }
    ensures part { OnErr result (AppendsPart (L.written link.old) (L.written link.new) bytes.now) }
    ensures failed { OnErr result (result ≡ Err LinkFault) }
    ensures left { L.left link.new ≡ L.left link.old }
    ensures cause { Counts (L.faults link.old) (L.faults link.new) (reply_failed result) }
{
    let mut done = 0;
    while done < bytes.len() {
        match link.write(&bytes[done..]) {
            Wrote::Took(count) => done += count,
            Wrote::Failed => return Err(ReplyFault::LinkFault),
        }
    }
    Ok(())
}

/// Writes a reply of this status and body, as one piece, so that a small one goes out at once.
pub fn write_reply<L: Link>(
    alloc: Global,
    link: &mut L,
    status: StatusCode,
    body: &[u8],
) -> Result<(), ReplyFault>
    ensures whole { OnOk result (Appends (L.written link.old) (L.written link.new) (reply_bytes status body.now)) }
    ensures part { result ≡ Err LinkFault → AppendsPart (L.written link.old) (L.written link.new) (reply_bytes status body.now) }
    ensures nothing { result ≡ Err Memory → L.written link.new ≡ L.written link.old }
    ensures left { L.left link.new ≡ L.left link.old }
    ensures cause { Counts (L.faults link.old) (L.faults link.new) (reply_failed result) }
{
    let reply = reply(alloc, status, body)?;
    write_all(link, &reply)
}
