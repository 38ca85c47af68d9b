//! The port of the office, and what the system tells of it and of its connections.
use gb_base::NoMemory;
use mio::net::{TcpListener, TcpStream};
use mio::{Events, Interest, Poll, Token};
use std::alloc::Global;
use std::io::ErrorKind;
use std::net::{Ipv4Addr, Net, SocketAddr};
use std::time::{Duration, Instant};
use std::{io, rt};

/// Where the office is asked, by programs of the same machine alone.
const NUMBER: u16 = 7117;

/// The name of the port among what the system tells of. Connections have the numbers of their places.
const OWN: usize = usize::MAX;

/// How much the system tells at once.
const MOST_TOLD: usize = 64;

/// What is needed to hear what the system tells.
#[derive(Drop)]
pub struct Ear {
    events: Events,
    /// The places of which it told last.
    told: Vec<usize>,
}

impl Ear {
    /// It may run out of memory (NoMemory).
    pub fn new(alloc: Global) -> Result<Ear, NoMemory> {
        Ok(Ear {
            events: Events::with_capacity(alloc, MOST_TOLD)?,
            told: Vec::with_capacity(alloc, MOST_TOLD)?,
        })
    }

    /// How many places it told of.
    pub fn len(&self) -> usize {
        self.told.len()
    }

    /// One of these places.
    pub fn place(&self, index: usize) -> Option<usize> {
        self.told.get(index).copied()
    }

    /// Notes the places of which the system told. True where it told of the port itself.
    fn note(&mut self) -> bool {
        let mut knocks = false;
        self.told.clear();
        for event in &self.events {
            let Token(number) = event.token();
            if number == OWN {
                knocks = true;
            } else {
                let _ = self.told.push(number);
            }
        }
        knocks
    }
}

/// The port, which is open.
#[derive(Drop)]
pub struct Port {
    poll: Poll,
    listener: TcpListener,
    opened: Instant,
    /// Whether a connection may wait there.
    knocks: bool,
}

impl Port {
    /// Opens the port.
    pub fn open<R: Net + rt::Clock>(runtime: &R) -> io::Result<Port> {
        let opened = Instant::now(runtime)?;
        let poll = Poll::new(runtime)?;
        let address = SocketAddr::from((Ipv4Addr::LOCALHOST, NUMBER));
        let mut listener = TcpListener::bind(runtime, address)?;
        poll.registry()
            .register(&mut listener, Token(OWN), Interest::READABLE)?;
        Ok(Port {
            poll,
            listener,
            opened,
            knocks: false,
        })
    }

    /// The milliseconds since the port was opened; 0 where the clock cannot be read.
    pub fn now<R: rt::Clock>(&self, runtime: &R) -> u64 {
        match self.opened.elapsed(runtime) {
            Ok(passed) => passed
                .as_secs()
                .saturating_mul(1000)
                .saturating_add(u64::from(passed.subsec_millis())),
            Err(_) => 0,
        }
    }

    /// Waits until the system tells of something, so many milliseconds at most.
    pub fn wait(&mut self, ear: &mut Ear, patience: Option<u64>) -> io::Result<()> {
        self.poll
            .poll(&mut ear.events, patience.map(Duration::from_millis))?;
        if ear.note() {
            self.knocks = true;
        }
        Ok(())
    }

    /// The next connection that waits at the port; None where none does. One whose peer has gone
    /// before it is taken is passed over.
    pub fn take(&mut self) -> io::Result<Option<TcpStream>> {
        for _ in 0..u64::MAX {
            if !self.knocks {
                return Ok(None);
            }
            match self.listener.accept() {
                Ok((stream, _)) => return Ok(Some(stream)),
                Err(error) => match error.kind() {
                    ErrorKind::WouldBlock => self.knocks = false,
                    ErrorKind::Interrupted | ErrorKind::ConnectionAborted => {}
                    _ => return Err(error),
                },
            }
        }
        Ok(None)
    }

    /// Has the system tell of a connection by the number of its place. What is written to it goes out
    /// at once, if it can be set so.
    pub fn register(&self, stream: &mut TcpStream, place: usize) -> io::Result<()> {
        let _ = stream.set_nodelay(true);
        let both = Interest::READABLE | Interest::WRITABLE;
        self.poll.registry().register(stream, Token(place), both)
    }
}
