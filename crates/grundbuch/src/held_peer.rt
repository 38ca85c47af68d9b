//! A peer of the port: its connection, and what it has sent.
//! Why so: docs/DECISIONS.md, "A peer is read before the office has it".
ghost use Rattle.std.specs.Prelude.{◌≡◌, ◌<◌, ◌≢◌, ◌==◌, false, true, [], is_some, min, take, length, IfErr, IfOk, IfSome, OnErr, OnOk};
ghost use Rattle.std.specs.Io.{WritesAtMost};
ghost use Rattle.std.specs.Io.KnownBytes.{WriteAppends};
ghost use Rattle.std.specs.IoError.{error_kind};
ghost use Rattle.peer_queues.specs.Inboxes.{HasCome, Opens, without_front};
ghost use Rattle.grundbuch.specs.HeldPeers.{Hears};

use crate::input::read_some;
use crate::output::write_some;
use gb_base::NoMemory;
use mio::net::TcpStream;
use peer_queues::{Inbox, Stage};
use registry_http::Framer;
use std::alloc::Global;
use std::io;
use std::io::{ErrorKind, Read, Write};
use std::net::Shutdown;

/// How many bytes are thrown away of a peer that is let go.
const MOST_THROWN: usize = 65_536;

/// A stream whose writing side can be shut.
pub trait Shut {
    /// Nothing more is written. Where the system refuses that, nothing more can be done.
    fn shut(&self);
}

impl Shut for TcpStream {
    fn shut(&self) {
        let _ = self.shutdown(Shutdown::Write);
    }
}

/// What a read brought.
#[derive(Clone, Copy, Debug)]
enum Heard {
    /// Bytes, which are kept.
    More,
    /// Nothing for now: none have come, none are kept beyond those that are, or the peer has ended.
    Nothing,
}

/// A peer of the port, over a connection or any other stream none of whose calls waits.
#[derive(Drop)]
pub struct HeldPeer<S: Read + Write + Drop> {
    stream: S,
    inbox: Inbox,
    /// How many bytes were thrown away since it was let go.
    thrown: usize,
}

impl<S: Read + Write + Drop> HeldPeer<S> {
    /// A peer of which nothing was read.
    pub fn new(alloc: Global, stream: S) -> HeldPeer<S>
        ensures stream { result.stream ≡ stream }
        ensures inbox { result.inbox ≡ record { giving = []; kept = []; ended = false; known = false } }
    {
        HeldPeer {
            stream,
            inbox: Inbox::new(alloc),
            thrown: 0,
        }
    }

    /// Reads what has come, as far as it is kept: how far the peer has come. None where it is gone.
    pub fn hear(&mut self, block: &mut [u8], framer: &mut Framer) -> Option<Stage>
        ensures heard { Hears (S.remaining self.old.stream) (S.remaining self.new.stream) self.old.inbox self.new.inbox (is_some result) }
        ensures come { is_some result ≡ true → HasCome self.new.inbox.kept self.new.inbox.ended self.new.inbox.known result }
    {
        for _ in 0..u64::MAX {
            match self.hear_once(block) {
                Some(Heard::More) => {}
                Some(Heard::Nothing) => return self.inbox.stage(framer),
                None => return None,
            }
        }
        None
    }

    /// Reads once. None where the stream failed, or no memory was found for what it gave.
    fn hear_once(&mut self, block: &mut [u8]) -> Option<Heard>
        ensures { Hears (S.remaining self.old.stream) (S.remaining self.new.stream) self.old.inbox self.new.inbox (is_some result) }
    {
        let most = self.inbox.room().min(block.len());
        if most == 0 {
            return Some(Heard::Nothing);
        }
        match read_some(&mut self.stream, &mut block[..most]) {
            Ok(0) => {
                self.inbox.end();
                Some(Heard::Nothing)
            }
            Ok(count) => match self.inbox.keep(&block[..count]) {
                Ok(()) => Some(Heard::More),
                Err(_) => None,
            },
            Err(error) if error.kind() == ErrorKind::WouldBlock => Some(Heard::Nothing),
            Err(_) => None,
        }
    }

    /// Reads what has come of a peer that is let go, and throws it away. None once it has ended, or
    /// so much was thrown away as is at most.
    pub fn throw_away(&mut self, block: &mut [u8]) -> Option<Stage>
        ensures { IfSome result (λ stage. stage ≡ Stage.Leaving) }
    {
        for _ in 0..u64::MAX {
            if self.thrown >= MOST_THROWN {
                return None;
            }
            match read_some(&mut self.stream, block) {
                Ok(0) => return None,
                Ok(count) => self.thrown = self.thrown.saturating_add(count),
                Err(error) if error.kind() == ErrorKind::WouldBlock => return Some(Stage::Leaving),
                Err(_) => return None,
            }
        }
        None
    }

    /// Opens what the office is to be given next. It may run out of memory (NoMemory).
    pub fn open(&mut self, alloc: Global, framer: &mut Framer) -> Result<(), NoMemory>
        ensures opened { OnOk result (Opens self.old.inbox self.new.inbox) }
        ensures lost { OnErr result (self.new.inbox ≡ self.old.inbox) }
        ensures stream { self.new.stream ≡ self.old.stream }
    {
        self.inbox.open(alloc, framer)
    }

    /// Whether all that was opened is given.
    pub fn is_given(&self) -> bool
        ensures { result ≡ (length self.now.inbox.giving == 0) }
    {
        self.inbox.left() == 0
    }

    /// Gives the office the next bytes of what is opened.
    pub fn give(&mut self, into: &mut [u8]) -> usize
        ensures count { result ≡ min (length self.old.inbox.giving) (length into.new) }
        ensures given { take result into.new ≡ take result self.old.inbox.giving }
        ensures rest { self.new.inbox ≡ without_front result self.old.inbox }
        ensures stream { self.new.stream ≡ self.old.stream }
    {
        self.inbox.give(into)
    }

    /// Writes some of a piece, without waiting.
    pub fn send(&mut self, piece: &[u8]) -> io::Result<usize>
        ensures bound { WritesAtMost result piece.now }
        ensures some { IfOk result (λ count. 0 < length piece.now → 0 < count) }
        ensures bytes { WriteAppends (S.contents self.old.stream) (S.contents self.new.stream) result piece.now }
        ensures again { IfErr result (λ error. error_kind error ≢ ErrorKind.Interrupted) }
        ensures inbox { self.new.inbox ≡ self.old.inbox }
    {
        write_some(&mut self.stream, piece)
    }
}

impl<S: Read + Write + Shut + Drop> HeldPeer<S> {
    /// Nothing more is written to the peer.
    pub fn shut(&self) {
        self.stream.shut();
    }
}
