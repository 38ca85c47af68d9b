//! Settling while a call of the disk, the source or the sink fails, and what is not called.
use crate::endings::writes;
use registry_office::Status;
use std::process::Abort;
use std::sync::Wait;
use std::test::Fail;
use std::thread::Threads;
use test_runs::{Run, disk_of, run_of};

/// The file of a journal with one lapse, of filing 2.
const LAPSE: &[u8] =
    b"\x47GBJOURN1\x01\x00\x00\x00\x17\x00\x00\x4d\x46\x02\x1c\x00\x00\x00\x01\x00\x00\x00\x00\x00\x00\x00\x05\x03\x00\x00\x00\x02\x00";

const REPORT: &[u8] = b"receipt 1 not pending\nend receipts 1 folios 0\n";

/// Two lines of lapses.
const LINES: &[u8] =
    b"{\"day\":\"2024-03-01\",\"minute\":540,\"sender\":1,\"reference\":1,\"item\":{\"kind\":\"lapse\",\"filing\":9}}\n{\"day\":\"2024-03-01\",\"minute\":540,\"sender\":1,\"reference\":2,\"item\":{\"kind\":\"lapse\",\"filing\":9}}\n";

const REPLIES: &[u8] = b"accepted 1\naccepted 2\n";

/// The summary of each journal of one receipt.
const SUMMARY: &[u8] =
    b"receipts 1\nentered 1\nrejected 0\ninterim 0\ncured 0\nother 0\nfolios 1\nrights 0\ncapital 0.00\npaid 0.00\n";

/// The words and the input of a run of which the first read would fail.
fn reading_nothing<'a>(command: &'a [&'a str]) -> Run<'a> {
    Run {
        failing_reads: &[1],
        ..run_of(command, b"not read")
    }
}

/// The journal is opened once, by four calls of the disk, and no other call is made. The file stays.
#[test]
fn each_call_of_the_disk_may_fail(rt: HostRuntime) -> Result<(), Fail> {
    let run = reading_nothing(&["settle", "--desks", "4"]);
    for call in [1, 2, 3, 4] {
        let mut disk = disk_of(&rt, LAPSE, &[call])?;
        writes(&rt, &run, &mut disk, Status::DiskFault, b"")?;
        assert_eq!(rt; disk.bytes(), LAPSE);
    }
    let mut disk = disk_of(&rt, LAPSE, &[5])?;
    writes(&rt, &run, &mut disk, Status::Ok, REPORT)
}

/// A run over the lines, where these reads and writes fail, ends with this status and writes this text.
/// The first call of the disk would fail, too.
fn fails<R: AllocGlobal + Threads + Wait + Sync + Abort>(
    rt: &R,
    failing_reads: &[u32],
    failing_writes: &[u32],
    status: Status,
    text: &[u8],
) -> Result<(), Fail> {
    let run = Run {
        command: &["settle", "--desks", "2", "--lines"],
        input: LINES,
        failing_reads,
        failing_writes,
    };
    writes(
        rt,
        &run,
        &mut disk_of(rt, b"no journal", &[1])?,
        status,
        text,
    )
}

#[test]
fn each_read_and_write_over_lines_may_fail(rt: HostRuntime) -> Result<(), Fail> {
    fails(&rt, &[1], &[], Status::ReadFault, b"")?;
    fails(&rt, &[2], &[], Status::ReadFault, REPLIES)?;
    fails(&rt, &[], &[1], Status::WriteFault, b"")?;
    fails(&rt, &[], &[2], Status::WriteFault, b"accepted 1\n")?;
    fails(&rt, &[], &[3], Status::WriteFault, REPLIES)
}

#[test]
fn a_sample_reads_nothing_and_its_write_may_fail(rt: HostRuntime) -> Result<(), Fail> {
    let run = reading_nothing(&["sample", "--seed", "7", "--size", "1", "--desks", "1"]);
    let mut disk = disk_of(&rt, b"no journal", &[1])?;
    writes(&rt, &run, &mut disk, Status::Ok, SUMMARY)?;
    let cut = Run {
        failing_writes: &[1],
        ..run
    };
    writes(&rt, &cut, &mut disk, Status::WriteFault, b"")
}
