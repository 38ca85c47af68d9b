//! How long reading and spelling take.
use crate::receipts::{MAX_LINE, receipt_of};
use act_codec::{decode, encode};
use anyhow::Result;
use serde_json::Value;
use std::alloc::Global;
use std::rt::Clock;
use std::time::{Duration, Instant};

pub(crate) fn print(rt: &(impl Print + Clock + AllocGlobal), lines: &[String]) -> Result<()> {
    let mut bytes = 0u64;
    for line in lines {
        bytes = bytes.saturating_add(line.len() as u64);
    }
    let count = lines.len();
    println!(rt; "{count} lines, {bytes} bytes")?;
    let start = Instant::now(rt)?;
    let items = count_items(rt.alloc(), lines);
    print_time(rt, "read_stamped", items, bytes, start.elapsed(rt)?)?;
    let start = Instant::now(rt)?;
    let values = count_values(rt.alloc(), lines);
    print_time(rt, "serde_json", values, bytes, start.elapsed(rt)?)?;

    let spellings = spellings(rt.alloc(), lines)?;
    let mut bytes = 0u64;
    for spelling in spellings.as_slice() {
        bytes = bytes.saturating_add(spelling.len() as u64);
    }
    let count = spellings.len();
    println!(rt; "{count} spellings, {bytes} bytes")?;
    let start = Instant::now(rt)?;
    let receipts = count_receipts(spellings.as_slice());
    print_time(rt, "decode", receipts, bytes, start.elapsed(rt)?)?;
    let start = Instant::now(rt)?;
    let same = count_same(rt.alloc(), spellings.as_slice())?;
    print_time(rt, "decode and encode", same, bytes, start.elapsed(rt)?)
}

fn print_time(rt: &impl Print, name: &str, count: u64, bytes: u64, time: Duration) -> Result<()> {
    let micros = u64::try_from(time.as_micros()).unwrap_or(u64::MAX).max(1);
    let rate = count.saturating_mul(1_000_000) / micros;
    let speed = bytes / micros;
    println!(rt; "{name}: {count} in {micros} us, {rate}/s, {speed} MB/s")?;
    Ok(())
}

/// How many of the lines are stamped items.
fn count_items(alloc: Global, lines: &[String]) -> u64 {
    let mut count = 0u64;
    for line in lines {
        if line.len() <= MAX_LINE && receipt_of(alloc, line.as_bytes()).is_ok() {
            count = count.saturating_add(1);
        }
    }
    count
}

/// How many of the lines are JSON.
fn count_values(alloc: Global, lines: &[String]) -> u64 {
    let mut count = 0u64;
    for line in lines {
        if Value::from_slice(alloc, line.as_bytes()).is_ok() {
            count = count.saturating_add(1);
        }
    }
    count
}

/// The spelling of each stamped item.
fn spellings(alloc: Global, lines: &[String]) -> Result<Vec<Vec<u8>>> {
    let mut spellings = Vec::new(alloc);
    for line in lines {
        if line.len() > MAX_LINE {
            continue;
        }
        if let Ok(receipt) = receipt_of(alloc, line.as_bytes()) {
            spellings.push(encode(alloc, &receipt)?)?;
        }
    }
    Ok(spellings)
}

/// How many of these are spellings.
fn count_receipts(spellings: &[Vec<u8>]) -> u64 {
    let mut count = 0u64;
    for spelling in spellings {
        if decode(spelling).is_some() {
            count = count.saturating_add(1);
        }
    }
    count
}

/// How many of these are the spelling of the receipt that they are read as.
fn count_same(alloc: Global, spellings: &[Vec<u8>]) -> Result<u64> {
    let mut count = 0u64;
    for spelling in spellings {
        if let Some(receipt) = decode(spelling)
            && encode(alloc, &receipt)? == *spelling
        {
            count = count.saturating_add(1);
        }
    }
    Ok(count)
}
