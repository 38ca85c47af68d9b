//! Lines and rows that are received while a call of the disk, the source or the sink fails.
use crate::endings::{ends, writes};
use gb_outside::MemDisk;
use registry_office::Status;
use std::process::Abort;
use std::sync::Wait;
use std::test::Fail;
use std::thread::Threads;
use test_runs::{Run, disk_of, run_of};

/// A run whose input is received twice: what it writes the first time; what it writes where the
/// second receipt fails; and the report of both.
#[derive(Clone, Copy)]
struct Received<'a> {
    run: Run<'a>,
    taken: &'a [u8],
    in_part: &'a [u8],
    report: &'a [u8],
}

/// Two items, with a blank line and one that is no item between them.
const LINES: &[u8] =
    b"{\"sender\":1,\"reference\":1,\"item\":{\"kind\":\"filing\",\"applicant\":10,\"conditional\":false,\"acts\":[{\"act\":\"open\",\"folio\":7,\"district\":12,\"parcel\":345,\"sub\":6,\"area\":800,\"owners\":[10]}],\"docs\":[{\"doc\":\"consent\",\"act\":1,\"person\":10,\"form\":\"certified\"}]}}\n \n{}\n{\"sender\":1,\"reference\":2,\"item\":{\"kind\":\"filing\",\"applicant\":10,\"conditional\":false,\"acts\":[{\"act\":\"create\",\"folio\":7,\"kind\":\"land-charge\",\"rate\":500,\"capital\":10000000,\"holder\":20,\"group\":1}],\"docs\":[{\"doc\":\"consent\",\"act\":1,\"person\":10,\"form\":\"certified\"}]}}";

const REPORT_OF_LINES: &[u8] =
    b"receipt 1 entered\nreceipt 2 entered\nfolio 7\ninventory district 12 parcel 345/6 area 800\nowners 10\nright 2.1 III right land-charge 100000.00 rate 500 holder 20 placed 2024-03-01\nranks 7\nrank 1 2.1\ncents 1-10000000 2.1\nend receipts 2 folios 1\n";

/// Two rows, with one between them that is none.
const ROWS: &[u8] =
    b"folio,district,parcel,sub,area,owner\n7,12,345,6,800,10\n7,12\n8,12,346,0,500,11\n";

const REPORT_OF_ROWS: &[u8] =
    b"receipt 1 entered\nreceipt 2 entered\nfolio 7\ninventory district 12 parcel 345/6 area 800\nowners 10\nranks 7\nfolio 8\ninventory district 12 parcel 346/0 area 500\nowners 11\nranks 8\nend receipts 2 folios 2\n";

const NOTHING: &[u8] = b"end receipts 0 folios 0\n";

fn take() -> Received<'static> {
    Received {
        run: run_of(&["take"], LINES),
        taken: b"accepted 1\nmalformed sender\naccepted 2\n",
        in_part: b"accepted 1\nmalformed sender\n",
        report: REPORT_OF_LINES,
    }
}

fn opening() -> Received<'static> {
    Received {
        run: run_of(&["opening", "--sender", "9"], ROWS),
        taken: b"accepted 1\nmalformed row\naccepted 2\n",
        in_part: b"accepted 1\nmalformed row\n",
        report: REPORT_OF_ROWS,
    }
}

impl Received<'_> {
    /// This run ends with this status over a disk of which the numbered calls fail, and writes this
    /// text. The run that follows it over the same disk is whole, and each item stands once.
    fn is_received_again<R: AllocGlobal + Threads + Wait + Sync + Abort>(
        &self,
        rt: &R,
        cut: &Run<'_>,
        failing_calls: &[u32],
        status: Status,
        text: &[u8],
    ) -> Result<(), Fail> {
        let mut disk = disk_of(rt, &[], failing_calls)?;
        writes(rt, cut, &mut disk, status, text)?;
        ends(rt, &self.run, &mut disk, Status::Ok)?;
        settles(rt, &mut disk, self.report)
    }

    /// Opening an empty disk takes nine calls, and each receipt four, of which two are syncs. Each
    /// fails in turn, and no other call is made.
    fn disk_fails<R: AllocGlobal + Threads + Wait + Sync + Abort>(
        &self,
        rt: &R,
    ) -> Result<(), Fail> {
        for call in 1..18 {
            let text = if call < 14 { b"" } else { self.in_part };
            self.is_received_again(rt, &self.run, &[call], Status::DiskFault, text)?;
        }
        let mut disk = disk_of(rt, &[], &[18])?;
        writes(rt, &self.run, &mut disk, Status::Ok, self.taken)
    }

    /// Each of the three writes fails in turn.
    fn sink_fails<R: AllocGlobal + Threads + Wait + Sync + Abort>(
        &self,
        rt: &R,
    ) -> Result<(), Fail> {
        for write in [1, 2, 3] {
            let cut = Run {
                failing_writes: &[write],
                ..self.run
            };
            let mut disk = disk_of(rt, &[], &[])?;
            ends(rt, &cut, &mut disk, Status::WriteFault)?;
            ends(rt, &self.run, &mut disk, Status::Ok)?;
            settles(rt, &mut disk, self.report)?;
        }
        Ok(())
    }
}

/// The journal of a disk is settled at two desks.
fn settles<R: AllocGlobal + Threads + Wait + Sync + Abort>(
    rt: &R,
    disk: &mut MemDisk,
    report: &[u8],
) -> Result<(), Fail> {
    let settling = run_of(&["settle", "--desks", "2"], &[]);
    writes(rt, &settling, disk, Status::Ok, report)
}

#[test]
fn each_call_of_the_disk_may_fail(rt: HostRuntime) -> Result<(), Fail> {
    take().disk_fails(&rt)?;
    opening().disk_fails(&rt)
}

#[test]
fn each_write_may_fail(rt: HostRuntime) -> Result<(), Fail> {
    take().sink_fails(&rt)?;
    opening().sink_fails(&rt)
}

/// Of the two reads the second finds the end. What came is received line by line, and of a list
/// nothing is.
#[test]
fn each_read_may_fail(rt: HostRuntime) -> Result<(), Fail> {
    let (take, opening) = (take(), opening());
    for (read, text) in [(1, b"".as_slice()), (2, take.in_part)] {
        let cut = Run {
            failing_reads: &[read],
            ..take.run
        };
        take.is_received_again(&rt, &cut, &[], Status::ReadFault, text)?;
        let cut = Run {
            failing_reads: &[read],
            ..opening.run
        };
        let mut disk = disk_of(&rt, &[], &[])?;
        writes(&rt, &cut, &mut disk, Status::ReadFault, b"")?;
        settles(&rt, &mut disk, NOTHING)?;
    }
    Ok(())
}
