//! A connection of the port as the office's link.
//! Why so: docs/DECISIONS.md, "A peer is read before the office has it".
//! Why so: docs/DECISIONS.md, "A connection that is let go is read to its end".
ghost use Rattle.std.specs.Prelude.{◌≡◌, ◌<◌, ◌==◌, ◌&&◌, true, None, Some, IfOk, is_some, length, slice_set};
ghost use Rattle.std.specs.Io.{WritesAtMost};
ghost use Rattle.std.specs.List.{list_any};
ghost use Rattle.peer_queues.specs.Queues.{is_at};
ghost use Rattle.grundbuch.specs.HeldPeers.{GoesOnIf};

use crate::faults::counted;
use crate::waiting_room::{PortPeer, WaitingRoom};
use gb_outside::{Got, Link, Wrote};
use peer_queues::Replying;
use std::io::ErrorKind;
use std::net::Net;
use std::{io, rt};

/// A peer that was taken from those that wait, with the room in which the others do.
#[derive(Drop)]
pub struct Taken<'a, R: Net + rt::Clock> {
    pub room: WaitingRoom<'a, R>,
    pub place: usize,
    pub peer: PortPeer,
}

/// A connection of the port as the office's link, as long as the office has it. It does not tell the
/// office its bytes, since a connection tells none.
#[derive(Drop)]
pub struct Connection<'a, R: Net + rt::Clock> {
    taken: Taken<'a, R>,
    /// The reply to the request that is opened, once it began.
    reply: Option<Replying>,
    faults: u64,
}

impl<'a, R: Net + rt::Clock> Connection<'a, R> {
    /// The peer as a link that has not failed yet.
    pub fn new(taken: Taken<'a, R>) -> Connection<'a, R>
        ensures taken { result.taken ≡ taken.entry }
        ensures reply { result.reply ≡ None }
        ensures faults { result.faults ≡ 0 }
    {
        Connection {
            taken,
            reply: None,
            faults: 0,
        }
    }

    /// Lets the peer go or wait again, and gives the room back.
    pub fn end(self) -> WaitingRoom<'a, R>
        ensures { list_any (is_at self.entry.taken.place) self.entry.taken.room.peers ≡ true
            → result.places.items ≡ slice_set self.entry.taken.room.places.items self.entry.taken.place (Some self.entry.taken.peer) }
    {
        let failed = self.faults > 0;
        let Taken {
            mut room,
            place,
            peer,
        } = self.taken;
        room.take_back(place, peer, failed);
        room
    }

    /// Whether all that is opened is given, and the reply to it began.
    fn has_replied(&self) -> bool
        ensures { result ≡ (length self.now.taken.peer.inbox.giving == 0 && is_some self.now.reply) }
    {
        self.taken.peer.is_given() && self.reply.is_some()
    }

    /// Behind a reply: lets the peer wait again, until it is next or others are.
    fn go_on(&mut self)
        ensures goes_on { GoesOnIf (length self.old.taken.peer.inbox.giving == 0 && is_some self.old.reply)
            self.old.taken.peer.inbox self.new.taken.peer.inbox (list_any (is_at self.new.taken.place) self.new.taken.room.peers) }
        ensures place { self.new.taken.place ≡ self.old.taken.place }
        ensures uncounted { self.new.faults ≡ self.old.faults }
    {
        if !self.has_replied() {
            return;
        }
        self.reply = None;
        let taken = &mut self.taken;
        taken.room.go_on(taken.place, &mut taken.peer);
    }

    /// Writes some of a piece, and waits for the peer as long as a reply may take.
    fn send(&mut self, piece: &[u8]) -> io::Result<usize>
        ensures bound { WritesAtMost result piece.now }
        ensures some { IfOk result (λ count. 0 < length piece.now → 0 < count) }
        ensures inbox { self.new.taken.peer.inbox ≡ self.old.taken.peer.inbox }
        ensures place { self.new.taken.place ≡ self.old.taken.place }
        ensures uncounted { self.new.faults ≡ self.old.faults }
    {
        for _ in 0..u64::MAX {
            match self.taken.peer.send(piece) {
                Err(error) if error.kind() == ErrorKind::WouldBlock => {}
                answer => {
                    self.note_reply();
                    return answer;
                }
            }
            if self.is_late() {
                return Err(io::Error::from(ErrorKind::TimedOut));
            }
            self.taken.room.turn_shortly()?;
        }
        Err(io::Error::from(ErrorKind::Other))
    }

    /// Bytes of the reply were taken, or it begins.
    fn note_reply(&mut self)
        ensures taken { self.new.taken ≡ self.old.taken }
        ensures uncounted { self.new.faults ≡ self.old.faults }
    {
        let now = self.taken.room.now();
        match &mut self.reply {
            Some(reply) => reply.moves(now),
            None => self.reply = Some(Replying::new(now)),
        }
    }

    /// Whether the reply has taken too long. One that has not begun begins.
    fn is_late(&mut self) -> bool
        ensures taken { self.new.taken ≡ self.old.taken }
        ensures uncounted { self.new.faults ≡ self.old.faults }
    {
        let now = self.taken.room.now();
        let other = self.taken.room.ready_since();
        match &self.reply {
            Some(reply) => reply.is_late(now, other),
            None => {
                self.reply = Some(Replying::new(now));
                false
            }
        }
    }
}

impl<R: Net + rt::Clock> Link for Connection<'_, R> {
    ghost use Rattle.std.specs.Prelude.{◌≡◌, ◌<◌, ◌==◌, ◌&&◌, ℕ, List, length, Option, None, is_some};
    ghost use Rattle.gb_outside.specs.Bytes.{IsGot, IsTaken, Reads, Writes, read_failed, write_failed};
    ghost use Rattle.gb_outside.specs.Faults.{Counts, faults_after};
    ghost use Rattle.std.specs.List.{list_any};
    ghost use Rattle.peer_queues.specs.Queues.{is_at};
    ghost use Rattle.grundbuch.specs.HeldPeers.{GivesNext};

    ghost left = { λ link. None };

    ghost written = { λ link. None };

    ghost faults = { λ link. link.faults };

    fn read(&mut self, into: &mut [u8]) -> Got
        requires { 0 < length into.old }
        ensures count { IsGot result (length into.new) }
        ensures content { Reads None None result into.new }
        ensures written { ◌≡◌ {A = Option (List ℕ)} None None }
        ensures cause { Counts self.old.faults self.new.faults (read_failed result) }
        ensures once { self.new.faults ≡ faults_after self.old.faults (read_failed result) }
        ensures given { GivesNext self.old.taken.peer.inbox self.new.taken.peer.inbox
            (length self.old.taken.peer.inbox.giving == 0 && is_some self.old.reply)
            (list_any (is_at self.new.taken.place) self.new.taken.room.peers) result into.new }
        ensures place { self.new.taken.place ≡ self.old.taken.place }
    {
        self.go_on();
        match self.taken.peer.give(into) {
            0 => Got::End,
            count => Got::Bytes(count),
        }
    }

    fn write(&mut self, piece: &[u8]) -> Wrote
        ensures count { IsTaken result (length piece.now) }
        ensures content { Writes None None result piece.now }
        ensures left { ◌≡◌ {A = Option (List ℕ)} None None }
        ensures cause { Counts self.old.faults self.new.faults (write_failed result) }
        ensures once { self.new.faults ≡ faults_after self.old.faults (write_failed result) }
        ensures inbox { self.new.taken.peer.inbox ≡ self.old.taken.peer.inbox }
        ensures place { self.new.taken.place ≡ self.old.taken.place }
    {
        let sent = self.send(piece);
        match counted(&mut self.faults, sent) {
            Ok(count) => Wrote::Took(count),
            Err(_) => Wrote::Failed,
        }
    }
}
