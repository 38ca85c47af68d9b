//! How far a request at the front of bytes has come, for whoever keeps bytes until a request is whole.
ghost use Rattle.std.specs.Prelude.{◌≡◌};
ghost use Rattle.registry_http.specs.Framing.{IsFramed};
ghost use Rattle.registry_http.specs.inner.Framing.{lacks_end};
ghost use Rattle.registry_http.specs.inner.Reading.{HasHead};

use crate::heads::{Front, Head, LONGEST_HEAD, read_front};
use crate::lines::Lines;
use crate::requests::new_spans;
use gb_base::NoMemory;
use httparse::spans::HeaderSpan;
use std::alloc::Global;
use std::marker::Model;

/// What stands at the front of the bytes of a link that came so far.
#[derive(Clone, Copy, Debug, PartialEq, Eq)]
pub enum Framed {
    /// A request that is not whole, or nothing: more bytes are wanted.
    Wanting,
    /// A whole request, of so many bytes.
    Whole(usize),
    /// What is refused, whatever follows.
    Refused,
}

/// Tells how far requests have come. The room that it needs is taken when it is made.
#[derive(Drop)]
pub struct Framer {
    spans: Vec<HeaderSpan>,
}

impl Model for Framer {
    ghost use Rattle.std.specs.Prelude.{◌≡◌, vec_len};
    ghost use Rattle.registry_http.specs.inner.Reading.{most_fields};

    ghost Value = { Unit {0} };

    ghost view = { λ _. tt };

    ghost invariant = { λ a. vec_len a.spans ≡ most_fields };
}

impl Framer {
    /// It may run out of memory (NoMemory).
    pub fn new(alloc: Global) -> Result<Framer, NoMemory> {
        Ok(Framer {
            spans: new_spans(alloc)?,
        })
    }

    /// What stands at the front of these bytes. As `next_request` does, it judges a head once its
    /// empty line came, or at 8,192 bytes. It takes no memory.
    pub fn frame(&mut self, bytes: &[u8]) -> Framed
        ensures { IsFramed bytes.now result }
    {
        if lacks_end(bytes) {
            return Framed::Wanting;
        }
        match read_front(bytes, &mut self.spans) {
            Front::Head(head) => framed_by(bytes, head),
            Front::Cut => Framed::Wanting,
            Front::Refused => Framed::Refused,
            Front::TooLong => Framed::Refused,
        }
    }
}

/// Whether fewer bytes came than a head may have, and no empty line.
fn lacks_end(bytes: &[u8]) -> bool
    ensures { result ≡ lacks_end bytes.now }
{
    bytes.len() < LONGEST_HEAD && !Lines::Ahead.after_all(bytes).are_over()
}

/// What bytes are that begin with this head: its request is whole, or some of its body lacks.
fn framed_by(bytes: &[u8], head: Head<'_>) -> Framed
    requires { HasHead bytes.now head.method.now head.path.now head.len head.body_len head.last }
    ensures { IsFramed bytes.now result }
{
    let size = head.len + head.body_len;
    if size <= bytes.len() {
        Framed::Whole(size)
    } else {
        Framed::Wanting
    }
}
