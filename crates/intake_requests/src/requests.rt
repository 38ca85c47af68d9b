//! What one line or row of an input asks.
//! Why so: docs/DECISIONS.md, "A refused request holds its whole reply".
use act_model::Item;
use gb_base::{NoMemory, Stamp};
use std::alloc::Global;
use std::marker::Model;

/// A reply line, with its LF.
#[derive(Debug, Drop)]
pub struct Reply {
    text: Vec<u8>,
}

impl Model for Reply {
    ghost use Rattle.std.specs.Prelude.{List, ℕ};

    ghost Value = { List ℕ };

    ghost view = { λ a. a.text.items };
}

impl Reply {
    ghost use Rattle.std.specs.Prelude.{◌≡◌};

    /// This text.
    pub fn new(text: Vec<u8>) -> Reply
        ensures { result ≡ text.items }
    {
        Reply { text }
    }

    /// The bytes of the line.
    pub fn text(&self) -> &[u8]
        ensures { result.now ≡ self.now }
    {
        self.text.as_slice()
    }
}

/// A sender with its own number for what it sends: under both an item acts once.
#[derive(Clone, Copy, Debug, PartialEq, Eq)]
pub struct SenderReference {
    pub sender: u32,
    pub reference: u64,
}

/// What one line or row of an input asks: nothing, or a text that is refused with this reply, or
/// that an item be received, which the clock stamps where it has no stamp of its own.
#[derive(Debug, Drop)]
pub enum Request {
    /// Nothing.
    Nothing,
    /// A text that is no item.
    Refused(Reply),
    /// An item.
    Receive {
        stamp: Option<Stamp>,
        from: SenderReference,
        item: Item,
    },
}

impl Request {
    ghost use Rattle.std.specs.Prelude.{◌≡◌, IfOk};
    ghost use Rattle.intake_requests.specs.declared.requests.Request.TheVariants.{Refused};

    /// A text that is refused with these bytes. It may run out of memory (`NoMemory`).
    pub fn refused(alloc: Global, text: &[u8]) -> Result<Request, NoMemory>
        ensures { IfOk result (λ request. request ≡ Refused text.now) }
    {
        Ok(Request::Refused(Reply::new(Vec::from_slice(alloc, text)?)))
    }
}
