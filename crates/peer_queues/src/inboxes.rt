//! What a peer has sent and the office has not read.
use crate::stages::Stage;
use gb_base::NoMemory;
use registry_http::{Framed, Framer};
use std::alloc::Global;
use std::marker::Model;

/// How many bytes of a peer are kept: those of a head and of a body.
const MOST_KEPT: usize = 8_192 + 65_536;

/// What a peer has sent and the office has not read. The office is given it request by request: what
/// is opened is given to its end, and what came behind it is kept.
#[derive(Drop)]
pub struct Inbox {
    opened: Vec<u8>,
    /// How many bytes of what is opened were given.
    given: usize,
    kept: Vec<u8>,
    /// Whether the peer's bytes have ended.
    ended: bool,
    /// Whether something was opened before.
    known: bool,
}

impl Model for Inbox {
    ghost use Rattle.std.specs.Prelude.{◌≤◌, drop, vec_len};
    ghost use Rattle.peer_queues.specs.InboxState.{InboxState};

    ghost Value = { InboxState };

    ghost view = { λ a. record { giving = drop a.given a.opened.items; kept = a.kept.items; ended = a.ended; known = a.known } };

    ghost invariant = { λ a. a.given ≤ vec_len a.opened };
}

impl Inbox {
    ghost use Rattle.std.specs.Prelude.{◌≡◌, ◌-◌, ◌==◌, [], false, true, take, drop, length, min, Option, Some, None, OnOk, OnErr};
    ghost use Rattle.peer_queues.specs.Inboxes.{HasCome, IsDue, Opens, most_kept, with_end, with_more, without_front};

    /// The inbox of a peer that has sent nothing.
    pub fn new(alloc: Global) -> Inbox
        ensures { result ≡ record { giving = []; kept = []; ended = false; known = false } }
    {
        Inbox {
            opened: Vec::new(alloc),
            given: 0,
            kept: Vec::new(alloc),
            ended: false,
            known: false,
        }
    }

    /// How many bytes more are kept. A full inbox has a whole request, or one that is refused.
    pub fn room(&self) -> usize
        ensures { result ≡ most_kept - length self.now.kept }
    {
        MOST_KEPT.saturating_sub(self.kept.len())
    }

    /// Keeps bytes that came. It may run out of memory (NoMemory).
    pub fn keep(&mut self, bytes: &[u8]) -> Result<(), NoMemory>
        ensures kept { OnOk result (self.new ≡ with_more self.old bytes.now) }
        ensures lost { OnErr result (self.new ≡ self.old) }
    {
        self.kept.extend_from_slice(bytes)
    }

    /// The peer's bytes have ended.
    pub fn end(&mut self)
        ensures { self.new ≡ with_end self.old }
    {
        self.ended = true;
    }

    /// How far the peer has come; None where it has ended and all of it was opened.
    pub fn stage(&self, framer: &mut Framer) -> Option<Stage>
        ensures { HasCome self.now.kept self.now.ended self.now.known result }
    {
        if self.kept.is_empty() {
            self.stage_without_bytes()
        } else if self.due(framer) == 0 {
            Some(Stage::Begun)
        } else {
            Some(Stage::Ready)
        }
    }

    /// How far the peer has come of which no bytes are kept.
    fn stage_without_bytes(&self) -> Option<Stage>
        requires { self.now.kept ≡ [] }
        ensures { HasCome self.now.kept self.now.ended self.now.known result }
    {
        if self.ended {
            None
        } else if self.known {
            Some(Stage::Idle)
        } else {
            Some(Stage::Silent)
        }
    }

    /// How many bytes the office is to be given: those of one whole request, or all, where they are
    /// refused or no more come. 0 where more are wanted.
    #[tactic(auto, using(crate::proofs::DueBytes::due_whole, crate::proofs::DueBytes::due_refused, crate::proofs::DueBytes::due_ended, crate::proofs::DueBytes::due_later))]
    fn due(&self, framer: &mut Framer) -> usize
        ensures { IsDue self.now.kept self.now.ended result }
    {
        match framer.frame(&self.kept) {
            Framed::Whole(size) => size,
            Framed::Refused => self.kept.len(),
            Framed::Wanting if self.ended => self.kept.len(),
            Framed::Wanting => 0,
        }
    }

    /// Opens what the office is to be given next; what is left of what was opened before is dropped.
    /// It may run out of memory (NoMemory).
    pub fn open(&mut self, alloc: Global, framer: &mut Framer) -> Result<(), NoMemory>
        ensures opened { OnOk result (Opens self.old self.new) }
        ensures lost { OnErr result (self.new ≡ self.old) }
    {
        let size = self.due(framer);
        let opened = Vec::from_slice(alloc, &self.kept[..size])?;
        let kept = Vec::from_slice(alloc, &self.kept[size..])?;
        self.opened = opened;
        self.given = 0;
        self.kept = kept;
        self.known = true;
        Ok(())
    }

    /// How many bytes of what is opened are still to be given.
    pub fn left(&self) -> usize
        ensures { result ≡ length self.now.giving }
    {
        self.opened.len() - self.given
    }

    /// Gives as many bytes of what is opened as there is room for, from their front.
    #[tactic(auto, using(crate::proofs::DueBytes::given_more))]
    pub fn give(&mut self, into: &mut [u8]) -> usize
        ensures count { result ≡ min (length self.old.giving) (length into.old) }
        ensures given { take result into.new ≡ take result self.old.giving }
        ensures rest { self.new ≡ without_front result self.old }
    {
        let rest = &self.opened[self.given..];
        let count = rest.len().min(into.len());
        into[..count].copy_from_slice(&rest[..count]);
        self.given += count;
        count
    }
}
