//! One connection that is served with a disk and a clock of its own. Its book is opened by its first
//! request that needs it.
use crate::links::{MADE, NOT_A_JOURNAL, NOT_FOUND, POST, POST_TWICE, UNAVAILABLE};
use gb_outside::MemDisk;
use std::process::Abort;
use std::sync::Wait;
use std::test::Fail;
use std::thread::Threads;
use test_runs::{ACCEPTED, disk_of, served_over};

/// A request to read the report, and one that no route has.
const REPORT_AND_NOTHING: &[u8] = b"GET /report HTTP/1.1\r\n\r\nGET /x HTTP/1.1\r\n\r\n";

/// A connection that asks this of the disk has these replies written to it.
fn answers<R: AllocGlobal + Threads + Wait + Sync + Abort>(
    rt: &R,
    disk: &mut MemDisk,
    asks: &[u8],
    replies: [&[u8]; 2],
) -> Result<(), Fail> {
    let (count, written) = served_over(rt, disk, asks)?;
    assert_eq!(rt; count, 2);
    let [first, second] = replies;
    assert!(rt; written.strip_prefix(first) == Some(second));
    Ok(())
}

/// The first receipt of the disk came in at minute 540 of the first of March.
fn has_first_stamp(rt: &impl Abort, disk: &MemDisk) {
    let stamp = [0x00, 0x00, 0x4d, 0x47, 0x02, 0x1c];
    assert_eq!(rt; disk.bytes().get(14..20), Some(stamp.as_slice()));
}

#[test]
fn a_connection_reads_what_it_posted(rt: HostRuntime) -> Result<(), Fail> {
    let mut asks = Vec::from_slice(rt.alloc(), POST)?;
    asks.extend_from_slice(b"GET /receipts/1 HTTP/1.1\r\n\r\n")?;
    let verdict =
        b"HTTP/1.1 200 OK\r\nContent-Type: text/plain\r\nContent-Length: 18\r\n\r\nreceipt 1 entered\n";
    let mut disk = disk_of(&rt, MADE, &[])?;
    answers(&rt, &mut disk, asks.as_slice(), [ACCEPTED, verdict])?;
    has_first_stamp(&rt, &disk);
    Ok(())
}

/// The receipt after a failed opening has the clock's first stamp, whichever call of the opening failed.
#[test]
fn a_failed_opening_has_not_asked_the_clock(rt: HostRuntime) -> Result<(), Fail> {
    for call in [1, 2, 3, 4] {
        let mut disk = disk_of(&rt, MADE, &[call])?;
        answers(&rt, &mut disk, POST_TWICE, [UNAVAILABLE, ACCEPTED])?;
        has_first_stamp(&rt, &disk);
    }
    Ok(())
}

/// The report wants the journal, and a path without a route does not.
#[test]
fn a_file_that_is_no_journal_is_said_to_be_none(rt: HostRuntime) -> Result<(), Fail> {
    let mut disk = disk_of(&rt, b"hello world", &[])?;
    answers(
        &rt,
        &mut disk,
        REPORT_AND_NOTHING,
        [NOT_A_JOURNAL, NOT_FOUND],
    )?;
    assert_eq!(rt; disk.bytes(), b"hello world".as_slice());
    Ok(())
}
