//! What stands outside the office: sources and sinks of bytes, the disk, the clock, links and
//! the door they come through, and the gate of a desk. Each trait says what its calls do where
//! the object tells what it holds, and counts its faults; objects in memory meet each trait.
#![tactic(auto)]

mod calls;
mod clocks;
mod disks;
mod doors;
mod gates;
mod links;
mod list_clock;
mod mem_disk;
mod mem_link;
mod mem_listener;
mod mem_sink;
mod mem_source;
mod moves;
mod open_gate;
mod stops;
mod streams;
mod sure_disk;
mod sure_link;
mod sure_listener;
mod sure_sink;
mod sure_source;

pub use clocks::Clock;
pub use disks::{Disk, DiskFailed};
pub use doors::{Door, Listener};
pub use gates::DeskGate;
pub use links::Link;
pub use list_clock::ListClock;
pub use mem_disk::MemDisk;
pub use mem_link::MemLink;
pub use mem_listener::MemListener;
pub use mem_sink::MemSink;
pub use mem_source::MemSource;
pub use open_gate::OpenGate;
pub use stops::Fill;
pub use streams::{Got, Sink, Source, Wrote};
pub use sure_disk::SureDisk;
pub use sure_link::SureLink;
pub use sure_listener::SureListener;
pub use sure_sink::SureSink;
pub use sure_source::SureSource;
