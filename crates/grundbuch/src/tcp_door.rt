//! The TCP port of the office as its listener.
ghost use Rattle.std.specs.Prelude.{◌≡◌};

use crate::connection::{Connection, Taken};
use crate::faults::counted;
use crate::waiting_room::WaitingRoom;
use gb_outside::{Door, Listener};
use std::alloc::Global;
use std::io::ErrorKind;
use std::net::Net;
use std::{io, rt};

/// A port of TCP as the office's listener. It is opened at its first use, and no other program can
/// open it from then on. It tells nothing of its connections.
#[derive(Drop)]
pub struct TcpDoor<'a, R: Net + rt::Clock> {
    runtime: &'a R,
    alloc: Global,
    /// None before the first use, and while a connection is with the office, which has the room
    /// with it.
    room: Option<WaitingRoom<'a, R>>,
    /// Whether the room was made.
    is_made: bool,
    /// Whether no memory was found for the room.
    lacks_memory: bool,
    faults: u64,
}

impl<'a, R: Net + rt::Clock> TcpDoor<'a, R> {
    /// The port as a listener that has not failed yet. It is not opened, and takes no memory before
    /// its first use.
    pub fn new(runtime: &'a R, alloc: Global) -> TcpDoor<'a, R>
        ensures { result.faults ≡ 0 }
    {
        TcpDoor {
            runtime,
            alloc,
            room: None,
            is_made: false,
            lacks_memory: false,
            faults: 0,
        }
    }

    /// Whether the port could not be opened since no memory was found.
    pub fn lacks_memory(&self) -> bool
        ensures { result ≡ self.now.lacks_memory }
    {
        self.lacks_memory
    }

    /// Takes the room, which is made at the first use.
    fn take_room(&mut self) -> io::Result<WaitingRoom<'a, R>>
        ensures uncounted { self.new.faults ≡ self.old.faults }
    {
        if self.is_made {
            return self.room.take().ok_or(io::Error::from(ErrorKind::Other));
        }
        match WaitingRoom::new(self.runtime, self.alloc) {
            Ok(room) => {
                self.is_made = true;
                Ok(room)
            }
            Err(_) => {
                self.lacks_memory = true;
                Err(io::Error::from(ErrorKind::OutOfMemory))
            }
        }
    }

    /// The next peer that is ready.
    fn take_next(&mut self) -> io::Result<Taken<'a, R>>
        ensures uncounted { self.new.faults ≡ self.old.faults }
    {
        let mut room = self.take_room()?;
        match room.next() {
            Ok((place, peer)) => Ok(Taken { room, place, peer }),
            Err(error) => {
                self.room = Some(room);
                Err(error)
            }
        }
    }

    /// Waits for the peers that are let go: a quarter of a second at most.
    pub fn end(mut self) {
        if let Some(room) = &mut self.room {
            room.end();
        }
    }
}

impl<'a, R: Net + rt::Clock> Listener for TcpDoor<'a, R> {
    type Link = Connection<'a, R>;

    ghost use Rattle.std.specs.Prelude.{◌≡◌, ◌+◌, None};

    ghost waiting = { λ door. None };

    ghost served = { λ door. None };

    ghost out = { λ door. 0 };

    ghost faults = { λ door. door.faults };

    fn accept(&mut self) -> Door<Connection<'a, R>> {
        let taken = self.take_next();
        match counted(&mut self.faults, taken) {
            Ok(taken) => Door::Open(Connection::new(taken)),
            Err(_) => Door::Failed,
        }
    }

    fn done(&mut self, link: Connection<'a, R>) {
        self.room = Some(link.end());
    }
}
