//! Reads the requests of a link in memory, and prints how many there are and how many bytes they
//! have. The words are what is read and a number: `head`, a request whose head has so many bytes,
//! and `body`, one whose body has, come byte by byte; `requests`, so many of them, come in blocks.
//! With a third word `time` it prints how long the requests take, and how long their bytes alone.
#![tactic(auto)]

mod byte_link;
mod inputs;
mod reading;

use crate::byte_link::ByteLink;
use crate::inputs::{long_body, long_head, many_requests};
use crate::reading::{count_bytes, count_requests};
use anyhow::{Context, Result, bail};
use gb_outside::SureLink;
use std::env;
use std::rt::Clock;
use std::time::{Duration, Instant};

fn main(rt: HostRuntime) -> Result<()> {
    let mut words = env::args(&rt)?.skip(1);
    let kind = words.next().context("what is read?")?;
    let number: usize = words.next().context("how much?")?.parse()?;
    let timed = words.next().is_some();
    match kind.as_str() {
        "head" => run_by_bytes(&rt, &long_head(rt.alloc(), number)?, timed),
        "body" => run_by_bytes(&rt, &long_body(rt.alloc(), number)?, timed),
        "requests" => run_by_blocks(&rt, &many_requests(rt.alloc(), number)?, timed),
        _ => bail!("what is read is head, body or requests"),
    }
}

fn run_by_bytes(rt: &(impl Print + Clock + AllocGlobal), bytes: &[u8], timed: bool) -> Result<()> {
    let start = Instant::now(rt)?;
    let requests = count_requests(rt.alloc(), &mut ByteLink::new(bytes)).context("no requests")?;
    let reading = start.elapsed(rt)?;
    let start = Instant::now(rt)?;
    let count = count_bytes(rt.alloc(), &mut ByteLink::new(bytes)).context("no bytes")?;
    print(rt, requests, count, timed, reading, start.elapsed(rt)?)
}

fn run_by_blocks(rt: &(impl Print + Clock + AllocGlobal), bytes: &[u8], timed: bool) -> Result<()> {
    let start = Instant::now(rt)?;
    let requests = count_requests(rt.alloc(), &mut SureLink::new(bytes)).context("no requests")?;
    let reading = start.elapsed(rt)?;
    let start = Instant::now(rt)?;
    let count = count_bytes(rt.alloc(), &mut SureLink::new(bytes)).context("no bytes")?;
    print(rt, requests, count, timed, reading, start.elapsed(rt)?)
}

fn print(
    rt: &impl Print,
    requests: usize,
    bytes: usize,
    timed: bool,
    reading: Duration,
    plain: Duration,
) -> Result<()> {
    println!(rt; "{requests} requests, {bytes} bytes")?;
    if timed {
        println!(rt;
            "read: {} us, the bytes alone: {} us",
            reading.as_micros(),
            plain.as_micros()
        )?;
    }
    Ok(())
}
