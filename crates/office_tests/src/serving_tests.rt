//! The top call as it serves links that come through a door, while a call of the door, of the disk
//! or of a link fails.
use crate::links::{
    CUT_OFF, MADE, NOT_FOUND, NOT_FOUND_TWICE, POST, READ, READ_TWICE, UNAVAILABLE,
};
use gb_base::{Day, NoMemory, ReceiptNo, Stamp};
use gb_outside::{
    DeskGate, ListClock, MemDisk, MemLink, MemListener, MemSource, OpenGate, SureSink,
};
use registry_office::{Status, run};
use std::process::Abort;
use std::rc::RcStr;
use std::sync::Wait;
use std::sync::atomic::AtomicU32;
use std::sync::atomic::Ordering::SeqCst;
use std::test::Fail;
use std::thread::Threads;
use test_runs::{ACCEPTED, REPEATED, disk_of};

/// What two links ask; which calls of the disk and of the first link fail, and which accepts of the
/// door; how many bytes the first link takes; and for how many replies the words are.
#[derive(Clone, Copy)]
struct Asked<'a> {
    sent: [&'a [u8]; 2],
    failing_calls: &'a [u32],
    failing_of_first: &'a [u32],
    failing_accepts: &'a [u32],
    room_of_first: usize,
    requests: &'a str,
}

/// Two links that ask this, of which nothing fails.
fn unfailing<'a>(sent: [&'a [u8]; 2]) -> Asked<'a> {
    Asked {
        sent,
        failing_calls: &[],
        failing_of_first: &[],
        failing_accepts: &[],
        room_of_first: 4_096,
        requests: "9",
    }
}

impl<'a> Asked<'a> {
    fn door<R: AllocGlobal>(&self, rt: &R) -> Result<MemListener<'a>, NoMemory> {
        let alloc = rt.alloc();
        let [first, second] = self.sent;
        let mut links = Vec::new(alloc);
        links.push(MemLink::new(alloc, first, self.room_of_first, self.failing_of_first)?)?;
        links.push(MemLink::new(alloc, second, 4_096, &[])?)?;
        MemListener::new(alloc, links, self.failing_accepts)
    }

    /// Serving the links over this disk, at this gate, ends with this status, and these are written
    /// to those that came.
    fn ends_over<R: AllocGlobal + Threads + Wait + Sync + Abort, G: DeskGate>(
        &self,
        rt: &R,
        disk: &mut MemDisk,
        gate: &G,
        status: Status,
        wanted: &[&[u8]],
    ) -> Result<(), Fail> {
        let mut words = Vec::new(rt.alloc());
        for word in ["serve", "--desks", "2", "--requests", self.requests] {
            words.push(RcStr::from_str(rt.alloc(), word)?)?;
        }
        let stamps = [Stamp::new(Day::new(19_783).unwrap(), 540).unwrap()];
        let mut door = self.door(rt)?;
        let ended = run(
            rt,
            words.as_slice(),
            &mut MemSource::new(&[], &[]),
            &mut SureSink::new(),
            disk,
            &mut ListClock::new(&stamps),
            &mut door,
            gate,
        );
        assert_eq!(rt; ended, status);
        let links = door.served();
        assert_eq!(rt; links.len(), wanted.len());
        for (link, text) in links.iter().zip(wanted) {
            assert_eq!(rt; link.written(), *text);
        }
        Ok(())
    }

    /// Serving the links over a made file ends with this status, and these are written to those that came.
    fn ends<R: AllocGlobal + Threads + Wait + Sync + Abort>(
        &self,
        rt: &R,
        status: Status,
        wanted: &[&[u8]],
    ) -> Result<(), Fail> {
        let mut disk = disk_of(rt, MADE, self.failing_calls)?;
        self.ends_over(rt, &mut disk, &OpenGate, status, wanted)
    }
}

#[test]
fn a_door_that_fails_ends_the_run(rt: HostRuntime) -> Result<(), Fail> {
    let second = Asked {
        failing_accepts: &[2],
        ..unfailing([READ, READ])
    };
    second.ends(&rt, Status::DoorFault, &[NOT_FOUND])
}

/// Counts the items that meet it.
#[derive(Drop)]
struct CountingGate {
    calls: AtomicU32,
}

impl DeskGate for CountingGate {
    fn at(&self, _item: ReceiptNo) {
        self.calls.fetch_add(1, SeqCst);
    }
}

/// Each item of the journal meets the gate before the first link, which here does not come.
#[test]
fn the_journal_is_settled_at_the_desks_first(rt: HostRuntime) -> Result<(), Fail> {
    let mut disk = disk_of(&rt, MADE, &[])?;
    let asked = unfailing([POST, POST]);
    asked.ends_over(&rt, &mut disk, &OpenGate, Status::Ok, &[ACCEPTED, REPEATED])?;
    let gate = CountingGate {
        calls: AtomicU32::new(0),
    };
    let shut = Asked {
        failing_accepts: &[1],
        ..asked
    };
    shut.ends_over(&rt, &mut disk, &gate, Status::DoorFault, &[])?;
    assert_eq!(&rt; gate.calls.load(SeqCst), 1);
    Ok(())
}

/// Where this call of the disk fails, serving two links that post the same ends with this status.
fn disk_fails_at<R: AllocGlobal + Threads + Wait + Sync + Abort>(
    rt: &R,
    call: u32,
    status: Status,
    wanted: &[&[u8]],
) -> Result<(), Fail> {
    let calls = [call];
    let failing = Asked {
        failing_calls: &calls,
        ..unfailing([POST, POST])
    };
    failing.ends(rt, status, wanted)
}

/// The opening makes four calls, and ends the run where one fails. Each call of a receipt may fail:
/// it is kept once. No other call is made.
#[test]
fn each_call_of_the_disk_may_fail(rt: HostRuntime) -> Result<(), Fail> {
    disk_fails_at(&rt, 1, Status::DiskFault, &[])?;
    disk_fails_at(&rt, 2, Status::DiskFault, &[])?;
    disk_fails_at(&rt, 3, Status::DiskFault, &[])?;
    disk_fails_at(&rt, 4, Status::DiskFault, &[])?;
    disk_fails_at(&rt, 5, Status::Ok, &[UNAVAILABLE, ACCEPTED])?;
    disk_fails_at(&rt, 6, Status::Ok, &[UNAVAILABLE, ACCEPTED])?;
    disk_fails_at(&rt, 7, Status::Ok, &[UNAVAILABLE, ACCEPTED])?;
    disk_fails_at(&rt, 8, Status::Ok, &[UNAVAILABLE, REPEATED])?;
    disk_fails_at(&rt, 9, Status::Ok, &[ACCEPTED, REPEATED])
}

#[test]
fn an_open_book_is_read_without_the_disk(rt: HostRuntime) -> Result<(), Fail> {
    let failing = Asked {
        failing_calls: &[5],
        ..unfailing([READ, READ_TWICE])
    };
    failing.ends(&rt, Status::Ok, &[NOT_FOUND, NOT_FOUND_TWICE])
}

/// One read gives both requests, and each reply is one write.
#[test]
fn each_call_of_a_link_may_fail(rt: HostRuntime) -> Result<(), Fail> {
    let read = Asked {
        failing_of_first: &[1],
        ..unfailing([READ_TWICE, READ_TWICE])
    };
    read.ends(&rt, Status::Ok, &[b"", NOT_FOUND_TWICE])?;
    let first_reply = Asked {
        failing_of_first: &[2],
        ..unfailing([READ_TWICE, READ_TWICE])
    };
    first_reply.ends(&rt, Status::Ok, &[b"", NOT_FOUND_TWICE])?;
    let second_reply = Asked {
        failing_of_first: &[3],
        ..unfailing([READ_TWICE, READ_TWICE])
    };
    second_reply.ends(&rt, Status::Ok, &[NOT_FOUND, NOT_FOUND_TWICE])
}

/// A reply counts once all its bytes are written, whatever becomes of its link then.
#[test]
fn a_reply_of_a_link_that_fails_counts(rt: HostRuntime) -> Result<(), Fail> {
    let counted = Asked {
        failing_of_first: &[3],
        requests: "2",
        ..unfailing([READ_TWICE, READ_TWICE])
    };
    counted.ends(&rt, Status::Ok, &[NOT_FOUND, NOT_FOUND])
}

/// A reply without its last byte does not count.
#[test]
fn a_link_without_room_takes_a_front_of_a_reply(rt: HostRuntime) -> Result<(), Fail> {
    let cut_off = Asked {
        room_of_first: CUT_OFF.len(),
        requests: "2",
        ..unfailing([READ_TWICE, READ_TWICE])
    };
    cut_off.ends(&rt, Status::Ok, &[CUT_OFF, NOT_FOUND_TWICE])
}
