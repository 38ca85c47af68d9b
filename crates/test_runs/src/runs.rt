//! Runs and connections over objects in memory.
use gb_base::{Day, NoMemory, Stamp};
use gb_outside::{ListClock, MemDisk, MemLink, MemSink, MemSource, OpenGate, SureListener};
use registry_office::{Status, run, serve_connection};
use std::rc::RcStr;
use std::sync::Wait;
use std::thread::Threads;

/// The words of a run, its input, and which reads and writes of it fail.
#[derive(Clone, Copy)]
pub struct Run<'a> {
    pub command: &'a [&'a str],
    pub input: &'a [u8],
    pub failing_reads: &'a [u32],
    pub failing_writes: &'a [u32],
}

impl Run<'_> {
    /// How the run over the disk ended, and what was written.
    pub fn done<R: AllocGlobal + Threads + Wait + Sync>(
        &self,
        rt: &R,
        disk: &mut MemDisk,
    ) -> Result<(Status, Vec<u8>), NoMemory> {
        let alloc = rt.alloc();
        let mut words = Vec::new(alloc);
        for word in self.command {
            words.push(RcStr::from_str(alloc, word)?)?;
        }
        let stamps = [Stamp::new(Day::new(19_783).unwrap(), 540).unwrap()];
        let mut sink = MemSink::new(alloc, 1 << 16, self.failing_writes)?;
        let status = run(
            rt,
            words.as_slice(),
            &mut MemSource::new(self.input, self.failing_reads),
            &mut sink,
            disk,
            &mut ListClock::new(&stamps),
            &mut SureListener::new(Vec::new(alloc)),
            &OpenGate,
        );
        Ok((status, Vec::from_slice(alloc, sink.written())?))
    }
}

/// A run over this input of which nothing fails.
pub fn run_of<'a>(command: &'a [&'a str], input: &'a [u8]) -> Run<'a> {
    Run {
        command,
        input,
        failing_reads: &[],
        failing_writes: &[],
    }
}

/// A disk with this file, of which the numbered calls fail.
pub fn disk_of<R: AllocGlobal>(rt: &R, file: &[u8], fail: &[u32]) -> Result<MemDisk, NoMemory> {
    MemDisk::new(rt.alloc(), file, 4096, 8192, 256, fail)
}

/// How many replies a connection over this disk that asks this is given, and their bytes. Its clock
/// has two stamps, of minutes 540 and 541.
pub fn served_over<R: AllocGlobal + Threads + Wait + Sync>(
    rt: &R,
    disk: &mut MemDisk,
    asks: &[u8],
) -> Result<(u32, Vec<u8>), NoMemory> {
    let mut link = MemLink::new(rt.alloc(), asks, 4_096, &[])?;
    let day = Day::new(19_783).unwrap();
    let stamps = [Stamp::new(day, 540).unwrap(), Stamp::new(day, 541).unwrap()];
    let mut clock = ListClock::new(&stamps);
    let served = serve_connection(rt, &mut link, disk, &mut clock, 2, &OpenGate, 9);
    Ok((served.replies, Vec::from_slice(rt.alloc(), link.written())?))
}
