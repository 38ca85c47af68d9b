//! Stops while three items are received: after each call of the disk, and after each call that fails.
//! What was acknowledged is found, and the same input once more leaves all three.
use gb_base::NoMemory;
use gb_outside::{Fill, MemDisk};
use registry_office::Status;
use std::process::Abort;
use std::sync::Wait;
use std::test::Fail;
use std::thread::Threads;
use test_runs::{ACCEPTED, REPEATED, Run, disk_of, run_of, served_over};

/// How three items come in.
#[derive(Clone, Copy)]
enum Input<'a> {
    /// As the lines or the rows of a run.
    Run(Run<'a>),
    /// As the requests of one connection.
    Posts(&'a [u8]),
}

/// Three items, with the reply to each: that it is received, and that it was there before.
#[derive(Clone, Copy)]
struct Received<'a> {
    input: Input<'a>,
    accepted: [&'a [u8]; 3],
    repeated: [&'a [u8]; 3],
}

const LINES: &[u8] =
    b"{\"sender\":1,\"reference\":1,\"item\":{\"kind\":\"lapse\",\"filing\":7}}\n{\"sender\":1,\"reference\":2,\"item\":{\"kind\":\"lapse\",\"filing\":8}}\n{\"sender\":1,\"reference\":3,\"item\":{\"kind\":\"lapse\",\"filing\":9}}\n";

const ROWS: &[u8] =
    b"folio,district,parcel,sub,area,owner\n7,12,345,6,800,10\n8,12,346,6,800,10\n9,12,347,6,800,10\n";

const POSTS: &[u8] =
    b"POST /receipts HTTP/1.1\r\nContent-Length: 61\r\n\r\n{\"sender\":1,\"reference\":1,\"item\":{\"kind\":\"lapse\",\"filing\":7}}POST /receipts HTTP/1.1\r\nContent-Length: 61\r\n\r\n{\"sender\":1,\"reference\":2,\"item\":{\"kind\":\"lapse\",\"filing\":8}}POST /receipts HTTP/1.1\r\nContent-Length: 61\r\n\r\n{\"sender\":1,\"reference\":3,\"item\":{\"kind\":\"lapse\",\"filing\":9}}";

const ACCEPTED_SECOND: &[u8] =
    b"HTTP/1.1 201 Created\r\nContent-Type: text/plain\r\nContent-Length: 11\r\n\r\naccepted 2\n";

const ACCEPTED_THIRD: &[u8] =
    b"HTTP/1.1 201 Created\r\nContent-Type: text/plain\r\nContent-Length: 11\r\n\r\naccepted 3\n";

const REPEATED_SECOND: &[u8] =
    b"HTTP/1.1 200 OK\r\nContent-Type: text/plain\r\nContent-Length: 11\r\n\r\nrepeated 2\n";

const REPEATED_THIRD: &[u8] =
    b"HTTP/1.1 200 OK\r\nContent-Type: text/plain\r\nContent-Length: 11\r\n\r\nrepeated 3\n";

const FILLS: [Fill; 4] = [Fill::Old, Fill::New, Fill::Zeros, Fill::Ones];

/// More calls than any of these makes.
const MANY: u32 = 100;

fn run_over<'a>(command: &'a [&'a str], input: &'a [u8]) -> Received<'a> {
    Received {
        input: Input::Run(run_of(command, input)),
        accepted: [b"accepted 1\n", b"accepted 2\n", b"accepted 3\n"],
        repeated: [b"repeated 1\n", b"repeated 2\n", b"repeated 3\n"],
    }
}

fn posts() -> Received<'static> {
    Received {
        input: Input::Posts(POSTS),
        accepted: [ACCEPTED, ACCEPTED_SECOND, ACCEPTED_THIRD],
        repeated: [REPEATED, REPEATED_SECOND, REPEATED_THIRD],
    }
}

/// How items came in: the status of a run, which a connection has none of, and what was written.
type Came = (Option<Status>, Vec<u8>);

fn ran<R: AllocGlobal + Threads + Wait + Sync>(
    rt: &R,
    disk: &mut MemDisk,
    run: &Run<'_>,
) -> Result<Came, NoMemory> {
    let (status, written) = run.done(rt, disk)?;
    Ok((Some(status), written))
}

fn posted<R: AllocGlobal + Threads + Wait + Sync>(
    rt: &R,
    disk: &mut MemDisk,
    asks: &[u8],
) -> Result<Came, NoMemory> {
    let (_, written) = served_over(rt, disk, asks)?;
    Ok((None, written))
}

/// How many of these replies a text begins with, in their order, and what stands behind them.
fn first_of<'a>(text: &'a [u8], replies: &[&[u8]]) -> (usize, &'a [u8]) {
    let mut rest = text;
    for (count, reply) in replies.iter().enumerate() {
        match rest.strip_prefix(reply) {
            Some(behind) => rest = behind,
            None => return (count, rest),
        }
    }
    (replies.len(), rest)
}

impl Received<'_> {
    /// The items come in over this disk.
    fn come<R: AllocGlobal + Threads + Wait + Sync>(
        &self,
        rt: &R,
        disk: &mut MemDisk,
    ) -> Result<Came, NoMemory> {
        match &self.input {
            Input::Run(run) => ran(rt, disk, run),
            Input::Posts(asks) => posted(rt, disk, asks),
        }
    }

    /// The status where the input has one.
    fn status(&self, status: Status) -> Option<Status> {
        match &self.input {
            Input::Run(_) => Some(status),
            Input::Posts(_) => None,
        }
    }

    /// The items come in again over a disk that a stop left. At least so many were there, the first ones,
    /// and now all are, as they are in this file behind its mark. How many were there.
    fn come_again<R: AllocGlobal + Threads + Wait + Sync + Abort>(
        &self,
        rt: &R,
        mut left: MemDisk,
        told: usize,
        file: Option<&[u8]>,
    ) -> Result<usize, Fail> {
        let (status, written) = self.come(rt, &mut left)?;
        assert_eq!(rt; status, self.status(Status::Ok));
        let (found, rest) = first_of(&written, &self.repeated);
        let others = self.accepted.get(found..).unwrap_or(&[]);
        assert!(rt; told <= found);
        assert_eq!(rt; first_of(rest, others), (others.len(), b"".as_slice()));
        assert_eq!(rt; left.bytes().get(1..), file);
        Ok(found)
    }

    /// The same after a stop that follows so many calls of this disk, for each fill. How many items the
    /// four stops found together.
    fn stop<R: AllocGlobal + Threads + Wait + Sync + Abort>(
        &self,
        rt: &R,
        disk: &MemDisk,
        calls: u32,
        told: usize,
        file: Option<&[u8]>,
    ) -> Result<usize, Fail> {
        let mut found: usize = 0;
        for fill in FILLS {
            let stopped = disk.stopped(rt.alloc(), calls, fill)?;
            found = found.saturating_add(self.come_again(rt, stopped, told, file)?);
        }
        Ok(found)
    }

    /// Each call of the disk fails in turn, until none does. Before that call, and after it, the disk
    /// stops.
    fn stop_at_each_call<R: AllocGlobal + Threads + Wait + Sync + Abort>(
        &self,
        rt: &R,
    ) -> Result<Counted, Fail> {
        let mut whole = disk_of(rt, &[], &[])?;
        self.come(rt, &mut whole)?;
        let file = whole.bytes().get(1..);
        let mut counted = Counted::default();
        for call in 1..MANY {
            let mut disk = disk_of(rt, &[], &[call])?;
            let (status, written) = self.come(rt, &mut disk)?;
            let (told, _) = first_of(&written, &self.accepted);
            counted.before(self.stop(rt, &whole, call - 1, told, file)?);
            if told == 3 {
                assert_eq!(rt; status, self.status(Status::Ok));
                return Ok(counted);
            }
            assert_eq!(rt; status, self.status(Status::DiskFault));
            counted.after(told, self.stop(rt, &disk, call, told, file)?);
        }
        Ok(counted)
    }
}

/// What was counted over all that fail in turn.
#[derive(Clone, Copy, Debug, Default, PartialEq, Eq)]
struct Counted {
    /// How many calls failed.
    failed: usize,
    /// How often the disk was stopped.
    stops: usize,
    /// How many items were acknowledged where a call failed.
    told: usize,
    /// How many items were found after a stop before a call.
    found_before: usize,
    /// How many a stop finds after a call that failed.
    found_after: usize,
}

impl Counted {
    /// Four stops before a call found so many items.
    fn before(&mut self, found: usize) {
        self.stops = self.stops.saturating_add(FILLS.len());
        self.found_before = self.found_before.saturating_add(found);
    }

    /// A call failed after so many were acknowledged, and four stops after it found so many.
    fn after(&mut self, told: usize, found: usize) {
        self.failed = self.failed.saturating_add(1);
        self.stops = self.stops.saturating_add(FILLS.len());
        self.told = self.told.saturating_add(told);
        self.found_after = self.found_after.saturating_add(found);
    }
}

/// An opening of an empty disk takes nine calls, and each receipt four: its record, a sync, the open
/// gate, a sync. So 21 may fail; before each of them, after each that fails, and after the last, there
/// are four stops. A receipt is found once its second sync was made, and before that where a stop
/// leaves the open gate as it was written.
fn counts<R: AllocGlobal + Threads + Wait + Sync + Abort + Print>(
    rt: &R,
    what: &str,
    received: &Received<'_>,
) -> Result<(), Fail> {
    let counted = received.stop_at_each_call(rt)?;
    let Counted { failed, stops, .. } = counted;
    println!(rt; "{what}: {failed} calls failed in turn, {stops} stops, as many repeats")?;
    let wanted = Counted {
        failed: 21,
        stops: 172,
        told: 12,
        found_before: 63,
        found_after: 51,
    };
    assert_eq!(rt; counted, wanted);
    Ok(())
}

#[test]
fn each_stop_leaves_what_was_acknowledged(rt: HostRuntime) -> Result<(), Fail> {
    counts(&rt, "take", &run_over(&["take"], LINES))?;
    counts(
        &rt,
        "opening",
        &run_over(&["opening", "--sender", "9"], ROWS),
    )?;
    counts(&rt, "posts", &posts())
}
