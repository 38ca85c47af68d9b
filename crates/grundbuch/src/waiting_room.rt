//! The peers of the port while they wait, and the loop that asks the system for more of them.
//! Why so: docs/DECISIONS.md, "A peer is read before the office has it".
ghost use Rattle.std.specs.Prelude.{◌≡◌, ◌⊎◌, ◌||◌, false, true, None, Some, IfOk, IfSome, find, is_some, option_map, slice_index_or, slice_set};
ghost use Rattle.std.specs.List.{list_any};
ghost use Rattle.peer_queues.specs.Queues.{is_at, is_in};
ghost use Rattle.peer_queues.specs.Stages.{is_ready};
ghost use Rattle.grundbuch.specs.HeldPeers.{GoesOn, Hears, HearsThere, IsOpened};

use crate::held_peer::HeldPeer;
use crate::port::{Ear, Port};
use gb_base::NoMemory;
use mio::net::TcpStream;
use peer_queues::{MOST_PEERS, Peers, Stage};
use registry_http::Framer;
use std::alloc::Global;
use std::net::Net;
use std::{io, rt};

/// How many bytes one read asks for.
const BLOCK: usize = 16_384;

/// How many milliseconds pass at most between two looks at whose time is over.
const LOOK: u64 = 100;

/// How many while one waits that is late soon, or that has no place.
const SHORT_LOOK: u64 = 10;

/// A peer over a connection of the port.
pub type PortPeer = HeldPeer<TcpStream>;

/// The peers of the port while they wait. One of them may be with the office.
#[derive(Drop)]
pub struct WaitingRoom<'a, R: Net + rt::Clock> {
    runtime: &'a R,
    alloc: Global,
    /// None until the first peer is asked for.
    port: Option<Port>,
    ear: Ear,
    peers: Peers,
    places: Vec<Option<PortPeer>>,
    /// The place whose peer is with the office.
    out: Option<usize>,
    /// A connection that was taken and has no place yet.
    spare: Option<TcpStream>,
    framer: Framer,
    block: Vec<u8>,
}

/// Places, of which none is taken.
fn new_places(alloc: Global) -> Result<Vec<Option<PortPeer>>, NoMemory> {
    let mut places = Vec::with_capacity(alloc, MOST_PEERS)?;
    for _ in 0..MOST_PEERS {
        places.push(None)?;
    }
    Ok(places)
}

/// A block to read into.
fn new_block(alloc: Global) -> Result<Vec<u8>, NoMemory> {
    vec![in alloc; 0; BLOCK]
}

/// What is answered where the port is not open.
fn closed() -> io::Error {
    io::Error::from(io::ErrorKind::NotConnected)
}

impl<'a, R: Net + rt::Clock> WaitingRoom<'a, R> {
    /// Nobody waits. The port is not opened. It may run out of memory (NoMemory).
    pub fn new(runtime: &'a R, alloc: Global) -> Result<WaitingRoom<'a, R>, NoMemory> {
        Ok(WaitingRoom {
            runtime,
            alloc,
            port: None,
            ear: Ear::new(alloc)?,
            peers: Peers::new(alloc)?,
            places: new_places(alloc)?,
            out: None,
            spare: None,
            framer: Framer::new(alloc)?,
            block: new_block(alloc)?,
        })
    }

    /// The milliseconds since the port was opened.
    pub fn now(&self) -> u64 {
        match &self.port {
            Some(port) => port.now(self.runtime),
            None => 0,
        }
    }

    /// The moment from which some peer that waits is ready, if one is.
    pub fn ready_since(&self) -> Option<u64> {
        Some(self.peers.first_ready()?.since)
    }

    /// Waits until a peer is ready, and takes the one that has been ready longest.
    pub fn next(&mut self) -> io::Result<(usize, PortPeer)>
        ensures { IfOk result (λ next. IsOpened next.1.inbox) }
    {
        if self.port.is_none() {
            self.port = Some(Port::open(self.runtime)?);
        }
        for _ in 0..u64::MAX {
            self.turn(self.patience())?;
            if let Some((place, mut peer)) = self.take_ready() {
                if peer.open(self.alloc, &mut self.framer).is_ok() {
                    self.out = Some(place);
                    return Ok((place, peer));
                }
            }
        }
        Err(closed())
    }

    /// How many milliseconds the system may let pass until it tells of something. None where nobody
    /// is kept waiting by that.
    fn patience(&self) -> Option<u64> {
        if self.peers.first_ready().is_some() {
            Some(0)
        } else if self.spare.is_some() {
            Some(SHORT_LOOK)
        } else if self.peers.len() == 0 {
            None
        } else {
            Some(LOOK)
        }
    }

    /// Takes the peer that has been ready longest out of its place.
    fn take_ready(&mut self) -> Option<(usize, PortPeer)>
        ensures first { IfSome result (λ taken. option_map (λ peer. peer.place) (find is_ready self.old.peers) ≡ Some taken.0) }
        ensures peer { IfSome result (λ taken. slice_index_or self.old.places.items taken.0 None ≡ Some taken.1) }
    {
        let place = self.peers.next()?;
        Some((place, self.take(place)?))
    }

    /// Takes the peer of a place.
    fn take(&mut self, place: usize) -> Option<PortPeer>
        ensures peer { result ≡ slice_index_or self.old.places.items place None }
        ensures places { self.new.places.items ≡ slice_set self.old.places.items place None }
    {
        self.places.get_mut(place)?.take()
    }

    /// Waits until the system tells of something, takes in what has come, lets go whose time is over,
    /// and takes those in who wait at the port.
    fn turn(&mut self, patience: Option<u64>) -> io::Result<()> {
        let Some(port) = &mut self.port else {
            return Err(closed());
        };
        port.wait(&mut self.ear, patience)?;
        let now = self.now();
        for index in 0..self.ear.len() {
            if let Some(place) = self.ear.place(index) {
                self.hear(place, now);
            }
        }
        self.close_over(now);
        self.take_in(now)
    }

    /// Takes one turn while a reply cannot go on.
    pub fn turn_shortly(&mut self) -> io::Result<()> {
        self.turn(Some(SHORT_LOOK))
    }

    /// Reads what the peer of a place has sent, and notes how far it has come.
    fn hear(&mut self, place: usize, now: u64)
        ensures heard { list_any (is_in place Stage.Leaving) self.old.peers ≡ false
            → HearsThere (option_map (λ peer. peer.inbox) (slice_index_or self.old.places.items place None))
            (option_map (λ peer. peer.inbox) (slice_index_or self.new.places.items place None)) }
        ensures others { self.new.places.items ≡ slice_set self.old.places.items place (slice_index_or self.new.places.items place None) }
    {
        let leaving = self.peers.is_in(place, Stage::Leaving);
        let Some(mut peer) = self.take(place) else {
            return;
        };
        match self.read(&mut peer, leaving) {
            Some(stage) => self.put(place, peer, stage, now),
            None => self.peers.forget(place),
        }
    }

    /// Reads what a peer has sent; where it is let go that is thrown away.
    fn read(&mut self, peer: &mut PortPeer, leaving: bool) -> Option<Stage>
        ensures heard { leaving ≡ false → Hears None None peer.old.inbox peer.new.inbox (is_some result) }
        ensures thrown { leaving ≡ true → IfSome result (λ stage. stage ≡ Stage.Leaving) }
        ensures places { self.new.places.items ≡ self.old.places.items }
    {
        if leaving {
            peer.throw_away(&mut self.block)
        } else {
            peer.hear(&mut self.block, &mut self.framer)
        }
    }

    /// Puts a peer into its place, come so far. Where no memory is found for that it is closed.
    fn put(&mut self, place: usize, peer: PortPeer, stage: Stage, now: u64)
        ensures { (self.new.places.items ≡ slice_set self.old.places.items place (Some peer)) ⊎ (self.new.places.items ≡ self.old.places.items) }
    {
        if self.peers.note(place, stage, now).is_ok() {
            self.put_back(place, peer);
        }
    }

    /// Puts a peer that waits back into its place.
    fn put_back(&mut self, place: usize, peer: PortPeer)
        ensures { self.new.places.items ≡ slice_set self.old.places.items place (Some peer) }
    {
        if let Some(here) = self.places.get_mut(place) {
            *here = Some(peer);
        }
    }

    /// Closes the connection of a place.
    fn close(&mut self, place: usize) {
        self.peers.forget(place);
        if let Some(here) = self.places.get_mut(place) {
            *here = None;
        }
    }

    /// Closes the connections of those whose time is over.
    fn close_over(&mut self, now: u64) {
        for _ in 0..MOST_PEERS {
            match self.peers.over(now) {
                Some(peer) => self.close(peer.place),
                None => return,
            }
        }
    }

    /// Takes in those who wait at the port, as long as there are places.
    fn take_in(&mut self, now: u64) -> io::Result<()> {
        for _ in 0..MOST_PEERS {
            if self.spare.is_none() {
                let Some(port) = &mut self.port else {
                    return Err(closed());
                };
                self.spare = port.take()?;
            }
            if self.spare.is_none() {
                return Ok(());
            }
            let Some(place) = self.make_place(now) else {
                return Ok(());
            };
            if let Some(stream) = self.spare.take() {
                self.give_place(place, stream, now);
            }
        }
        Ok(())
    }

    /// A place that is free, or that a peer gives up.
    fn make_place(&mut self, now: u64) -> Option<usize> {
        if let Some(place) = self.free_place() {
            return Some(place);
        }
        let peer = self.peers.giving_way(now)?;
        self.close(peer.place);
        self.free_place()
    }

    /// A place that is free.
    fn free_place(&self) -> Option<usize> {
        for (place, here) in self.places.iter().enumerate() {
            if here.is_none() && self.out != Some(place) {
                return Some(place);
            }
        }
        None
    }

    /// Gives a connection a place.
    fn give_place(&mut self, place: usize, mut stream: TcpStream, now: u64) {
        let Some(port) = &self.port else {
            return;
        };
        if port.register(&mut stream, place).is_ok() {
            let peer = HeldPeer::new(self.alloc, stream);
            self.put(place, peer, Stage::Silent, now);
            self.hear(place, now);
        }
    }

    /// Has the peer wait again that is with the office, of which nothing is opened any more, until it
    /// is next or others are. True where it has been ready longest, and is opened.
    pub fn go_on(&mut self, place: usize, peer: &mut PortPeer) -> bool
        ensures { GoesOn peer.old.inbox peer.new.inbox result (list_any (is_at place) self.new.peers) }
    {
        if !self.wait_again(place, peer) {
            return false;
        }
        self.is_next(place, peer)
    }

    /// Has the peer wait again. Those that have come further meanwhile are before it. False where it
    /// does not wait: it is gone, or another wants a place and no other gives way.
    fn wait_again(&mut self, place: usize, peer: &mut PortPeer) -> bool
        ensures { Hears None None peer.old.inbox peer.new.inbox (result || list_any (is_at place) self.new.peers) }
    {
        if self.turn(Some(0)).is_err() {
            return false;
        }
        if self.lacks_place() {
            return false;
        }
        self.hear_out(place, peer)
    }

    /// Whether a connection wants a place and no other gives way.
    fn lacks_place(&self) -> bool {
        self.spare.is_some() && self.peers.giving_way(u64::MAX).is_none()
    }

    /// Waits until some peer is ready, or the one of this place, which is out of it, has to go. True
    /// where the one of this place has been ready longest, and is opened.
    fn is_next(&mut self, place: usize, peer: &mut PortPeer) -> bool
        ensures { GoesOn peer.old.inbox peer.new.inbox result (list_any (is_at place) self.new.peers) }
    {
        for _ in 0..u64::MAX {
            if let Some(first) = self.peers.first_ready() {
                if first.place != place {
                    return false;
                }
                self.peers.forget(place);
                return peer.open(self.alloc, &mut self.framer).is_ok();
            }
            if !self.goes_on_waiting(place, peer) {
                return false;
            }
        }
        false
    }

    /// Takes one turn while no peer is ready. False where the one of this place has to go.
    fn goes_on_waiting(&mut self, place: usize, peer: &mut PortPeer) -> bool
        ensures { Hears None None peer.old.inbox peer.new.inbox (result || list_any (is_at place) self.new.peers) }
    {
        if self.turn(Some(LOOK)).is_err() {
            return false;
        }
        if !self.peers.has(place) {
            return false;
        }
        self.hear_out(place, peer)
    }

    /// Reads what the peer has sent that is out of its place, and notes how far it has come. False
    /// where it is gone.
    fn hear_out(&mut self, place: usize, peer: &mut PortPeer) -> bool
        ensures { Hears None None peer.old.inbox peer.new.inbox (result || list_any (is_at place) self.new.peers) }
    {
        match peer.hear(&mut self.block, &mut self.framer) {
            Some(stage) => {
                let now = self.now();
                self.peers.note(place, stage, now).is_ok()
            }
            None => {
                self.peers.forget(place);
                false
            }
        }
    }

    /// Takes a peer back from the office. One that does not wait is let go; where its connection has
    /// failed, it is closed.
    pub fn take_back(&mut self, place: usize, peer: PortPeer, failed: bool)
        ensures { list_any (is_at place) self.old.peers ≡ true → self.new.places.items ≡ slice_set self.old.places.items place (Some peer) }
    {
        self.out = None;
        if self.peers.has(place) {
            self.put_back(place, peer);
        } else if !failed {
            peer.shut();
            let now = self.now();
            self.put(place, peer, Stage::Leaving, now);
            self.hear(place, now);
        }
    }

    /// Waits for those that are let go, so that the end of the program takes no reply back.
    pub fn end(&mut self) {
        for _ in 0..u64::MAX {
            if !self.peers.any_leaving() || self.turn(Some(SHORT_LOOK)).is_err() {
                return;
            }
        }
    }
}
