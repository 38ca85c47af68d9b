//! Appends frames to a journal in memory, opens it again, and prints how many frames it has. The
//! words are the number of frames and the size of their bodies; with a third word `time` it prints
//! how long the appending and the opening take.
#![tactic(auto)]

ghost use Rattle.journal_disk.specs.Layout.{IsBody};

mod filling;

use crate::filling::{count_frames, fill};
use anyhow::{Context, Result, bail};
use gb_outside::MemDisk;
use std::env;
use std::rt::Clock;
use std::time::{Duration, Instant};

/// How long the body of a frame may be.
const LONGEST_BODY: usize = 1024;

/// How long a journal's file may be.
const LONGEST_FILE: usize = 134_217_728;

fn main(rt: HostRuntime) -> Result<()> {
    let mut words = env::args(&rt)?.skip(1);
    let count: u32 = words.next().context("how many frames?")?.parse()?;
    let size: u16 = words.next().context("how long are they?")?.parse()?;
    let timed = words.next().is_some();
    let bytes = [7; LONGEST_BODY];
    let body = &bytes[..LONGEST_BODY.min(usize::from(size))];
    if body.is_empty() {
        bail!("a body has a byte or more");
    }
    run(&rt, count, body, timed)
}

fn run(rt: &(impl Print + Clock + AllocGlobal), count: u32, body: &[u8], timed: bool) -> Result<()>
    requires { IsBody body.now }
{
    // Two writes and two syncs for each frame, and the reads of the openings.
    let calls = 4 * count as usize + 8_192;
    let written = (body.len() + 6) * count as usize + 64;
    let mut disk = MemDisk::new(rt.alloc(), &[], LONGEST_FILE, written, calls, &[])?;
    let start = Instant::now(rt)?;
    fill(rt.alloc(), &mut disk, body, count).context("the journal is not filled")?;
    let filling = start.elapsed(rt)?;
    let start = Instant::now(rt)?;
    let frames = count_frames(rt.alloc(), &mut disk).context("the journal is not opened")?;
    let opening = start.elapsed(rt)?;
    let bytes = disk.bytes().len() as u64;
    println!(rt; "{frames} frames, {bytes} bytes")?;
    if timed {
        print_time(rt, "append", frames as u64, bytes, filling)?;
        print_time(rt, "open", frames as u64, bytes, opening)?;
    }
    Ok(())
}

fn print_time(rt: &impl Print, name: &str, count: u64, bytes: u64, time: Duration) -> Result<()> {
    let micros = u64::try_from(time.as_micros()).unwrap_or(u64::MAX).max(1);
    let rate = count.saturating_mul(1_000_000) / micros;
    let speed = bytes / micros;
    println!(rt; "{name}: {micros} us, {rate} frames/s, {speed} MB/s")?;
    Ok(())
}
