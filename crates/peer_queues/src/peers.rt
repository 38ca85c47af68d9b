//! The peers that wait, in the order in which they came as far as they have.
ghost use Rattle.std.specs.Prelude.{◌≡◌, find, option_copied};
ghost use Rattle.peer_queues.specs.Stages.{is_idle, is_new, is_over, is_ready};

use crate::stages::{Peer, Stage};
use gb_base::NoMemory;
use std::alloc::Global;
use std::marker::Model;

/// How many peers are held at most.
pub const MOST_PEERS: usize = 256;

/// The peers that wait, each in a place of its own. They stand in the order in which they came as far
/// as they have: who comes further, or begins again, stands last from then on.
#[derive(Drop)]
pub struct Peers {
    held: Vec<Peer>,
}

impl Model for Peers {
    ghost use Rattle.std.specs.Prelude.{List};
    ghost use Rattle.peer_queues.specs.declared.stages.Peer.{Peer};

    ghost Value = { List Peer };

    ghost view = { λ a. a.held.items };
}

impl Peers {
    ghost use Rattle.std.specs.Prelude.{◌≡◌, ◌==◌, [], find, length, option_map, IfOk, OnOk, OnErr};
    ghost use Rattle.std.specs.List.{list_any};
    ghost use Rattle.std.specs.Option.{option_or};
    ghost use Rattle.peer_queues.specs.Stages.{is_idle, is_leaving, is_new, is_over, is_ready};
    ghost use Rattle.peer_queues.specs.Queues.{giving_way, is_at, is_in, noted, rest_after, without};

    /// No peers. Room for as many as are held is taken here; it may run out of memory (NoMemory).
    pub fn new(alloc: Global) -> Result<Peers, NoMemory>
        ensures { IfOk result (λ peers. peers ≡ []) }
    {
        Ok(Peers {
            held: Vec::with_capacity(alloc, MOST_PEERS)?,
        })
    }

    /// How many wait.
    pub fn len(&self) -> usize
        ensures { result ≡ length self.now }
    {
        self.held.len()
    }

    /// Whether the peer of a place waits.
    pub fn has(&self, place: usize) -> bool
        ensures { result ≡ list_any (is_at place) self.now }
    {
        self.held.iter().any(|peer| !peer.is_elsewhere(place))
    }

    /// Whether the peer of a place has come just so far.
    pub fn is_in(&self, place: usize, stage: Stage) -> bool
        ensures { result ≡ list_any (is_in place stage) self.now }
    {
        self.held
            .iter()
            .any(|peer| !peer.is_elsewhere(place) && peer.stage.is(stage))
    }

    /// Notes how far the peer of a place has come. Where it has come no further it stays where it
    /// stands, so that its time goes on; else it stands last, from this moment on. Where no memory is
    /// found it waits no longer.
    pub fn note(&mut self, place: usize, stage: Stage, now: u64) -> Result<(), NoMemory>
        ensures noted { OnOk result (self.new ≡ noted place stage now self.old) }
        ensures lost { OnErr result (self.new ≡ without place self.old) }
    {
        if self.is_in(place, stage) {
            return Ok(());
        }
        self.forget(place);
        let since = now;
        self.held.push(Peer {
            place,
            stage,
            since,
        })?;
        Ok(())
    }

    /// The peer of a place waits no longer.
    pub fn forget(&mut self, place: usize)
        ensures { self.new ≡ without place self.old }
    {
        self.held.retain(|peer| peer.is_elsewhere(place));
    }

    /// The peer that has been ready longest.
    pub fn first_ready(&self) -> Option<Peer>
        ensures { result ≡ find is_ready self.now }
    {
        first_ready(&self.held).copied()
    }

    /// Takes the peer that has been ready longest, and answers its place.
    pub fn next(&mut self) -> Option<usize>
        ensures first { result ≡ option_map (λ peer. peer.place) (find is_ready self.old) }
        ensures rest { self.new ≡ rest_after (find is_ready self.old) self.old }
    {
        let place = self.first_ready()?.place;
        self.forget(place);
        Some(place)
    }

    /// A peer whose time is over.
    pub fn over(&self, now: u64) -> Option<Peer>
        ensures { result ≡ find (is_over now) self.now }
    {
        first_over(&self.held, now).copied()
    }

    /// The peer that gives its place to another.
    pub fn giving_way(&self, now: u64) -> Option<Peer>
        ensures { result ≡ giving_way now self.now }
    {
        let peer = self.next_to_go()?;
        if peer.has_stayed(now) {
            Some(peer)
        } else {
            None
        }
    }

    /// The peer that is the next to give its place to another.
    fn next_to_go(&self) -> Option<Peer>
        ensures { result ≡ option_or (find is_new self.now) (find is_idle self.now) }
    {
        match first_new(&self.held) {
            Some(peer) => Some(*peer),
            None => first_idle(&self.held).copied(),
        }
    }

    /// Whether some peer is let go.
    pub fn any_leaving(&self) -> bool
        ensures { result ≡ list_any is_leaving self.now }
    {
        self.held.iter().any(|peer| peer.is_leaving())
    }
}

fn first_ready(held: &[Peer]) -> Option<&Peer>
    ensures { option_copied result ≡ find is_ready held.now }
{
    held.iter().find(|peer| peer.is_ready())
}

fn first_over(held: &[Peer], now: u64) -> Option<&Peer>
    ensures { option_copied result ≡ find (is_over now) held.now }
{
    held.iter().find(|peer| peer.is_over(now))
}

fn first_new(held: &[Peer]) -> Option<&Peer>
    ensures { option_copied result ≡ find is_new held.now }
{
    held.iter().find(|peer| peer.is_new())
}

fn first_idle(held: &[Peer]) -> Option<&Peer>
    ensures { option_copied result ≡ find is_idle held.now }
{
    held.iter().find(|peer| peer.is_idle())
}
