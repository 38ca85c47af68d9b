//! Reads lines from standard input, and prints what each one is: as it is handed in, and as a
//! stamped line, there with the spelling of its receipt. With the word `time` it prints instead
//! how long reading and spelling take, beside the time in which serde_json alone reads the lines.
#![tactic(auto)]

mod answers;
mod receipts;
mod times;

use anyhow::Result;
use std::env;
use std::io::{BufRead, BufReader};

fn main(rt: HostRuntime) -> Result<()> {
    let mut timed = false;
    for word in env::args(&rt)?.skip(1) {
        timed = word.as_str() == "time";
    }
    let mut input = BufReader::new(rt.alloc(), rt.reader())?;
    let mut lines = Vec::new(rt.alloc());
    for line in input.lines(rt.alloc()) {
        lines.push(line?)?;
    }
    if timed {
        times::print(&rt, lines.as_slice())
    } else {
        answers::print(&rt, lines.as_slice())
    }
}
