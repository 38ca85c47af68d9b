//! The program: hands standard input and output, its file, its clock and its port to the office, and
//! ends with the office's status.
#![tactic(auto)]

mod connection;
mod endings;
mod extents;
mod faults;
mod folder;
mod held_file;
mod held_peer;
mod input;
mod journal_file;
mod output;
mod port;
mod system_clock;
mod tcp_door;
mod waiting_room;
mod watching;
mod words;

use crate::input::Input;
use crate::journal_file::JournalFile;
use crate::output::Output;
use crate::system_clock::SystemClock;
use crate::tcp_door::TcpDoor;
use gb_outside::OpenGate;
use registry_office::{Status, run};
use std::io;
use std::process::ExitCode;
use std::rc::RcStr;
use std::sync::Wait;
use std::thread::Threads;

fn main(rt: HostRuntime) -> ExitCode {
    let status = match words::words(&rt) {
        Ok(words) => office(&rt, &rt, words.as_slice()),
        Err(status) => status,
    };
    endings::tell(&rt, status);
    ExitCode::from(endings::number(status))
}

/// Runs the office over standard input and output, the journal's file of the current folder, the
/// system's clock and the office's port. `threads` is the same runtime, seen as what starts threads.
/// Where no memory is found for the port that is the status, and no fault of the port.
fn office<R: AllocGlobal + Threads + Wait + Sync>(
    rt: &HostRuntime,
    threads: &R,
    words: &[RcStr],
) -> Status {
    let mut source = Input::new(rt.reader());
    let mut sink = Output::new(io::writer(rt));
    let mut disk = JournalFile::new(rt);
    let mut clock = SystemClock::new(rt);
    let mut door = TcpDoor::new(rt, threads.alloc());
    let status = run(
        threads,
        words,
        &mut source,
        &mut sink,
        &mut disk,
        &mut clock,
        &mut door,
        &OpenGate,
    );
    if door.lacks_memory() {
        return Status::Memory;
    }
    door.end();
    status
}
