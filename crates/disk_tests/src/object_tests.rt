//! Objects that do not fail: what follows from their clauses alone, and that they can be made.
ghost use Rattle.std.specs.Prelude.{◌≡◌, ◌<◌, length, false, IfOk, is_err};
ghost use Rattle.gb_outside.specs.Bytes.{read_failed};
ghost use Rattle.gb_outside.specs.Faults.{Counts};

use gb_base::NoMemory;
use gb_outside::{Disk, DiskFailed, Fill, Got, MemDisk, MemSource, Source, SureDisk, SureSource};
use std::alloc::Global;
use std::test::Fail;

// A call through the bound, as the office makes it.
fn read_some<S: Source>(source: &mut S, into: &mut [u8]) -> Got
    requires { 0 < length into.old }
    ensures { Counts (S.faults source.old) (S.faults source.new) (read_failed result) }
{
    source.read(into)
}

// A source whose count is constant never fails: this follows from the clauses of the trait.
fn read_surely(bytes: &[u8], into: &mut [u8]) -> Got
    requires { 0 < length into.old }
    ensures { read_failed result ≡ false }
{
    read_some(&mut SureSource::new(bytes), into)
}

// A source in memory of which no call is to fail never fails either: this is its own clause.
fn read_unplanned(bytes: &[u8], into: &mut [u8]) -> Got
    requires { 0 < length into.old }
    ensures { read_failed result ≡ false }
{
    MemSource::new(bytes, &[]).read(into)
}

// A disk in memory that has room and of which no call is to fail does not fail either.
fn sync_unplanned(alloc: Global) -> Result<Result<(), DiskFailed>, NoMemory>
    ensures { IfOk result (λ answer. is_err answer ≡ false) }
{
    let mut disk = MemDisk::new(alloc, b"abc", 3, 0, 1, &[])?;
    Ok(disk.sync())
}

/// The file of two bytes, over which three are written that no sync covers, as a stop leaves it.
fn left_by_a_stop(alloc: Global, fill: Fill) -> Result<Vec<u8>, NoMemory> {
    let mut disk = MemDisk::new(alloc, b"xy", 3, 3, 1, &[])?;
    let _ = disk.write_at(0, b"abc");
    let stopped = disk.stopped(alloc, 1, fill)?;
    Vec::from_slice(alloc, stopped.bytes())
}

#[test]
fn a_disk_without_planned_faults_syncs(rt: HostRuntime) -> Result<(), Fail> {
    assert_eq!(rt; sync_unplanned(rt.alloc())?, Ok(()));
    Ok(())
}

#[test]
fn sources_without_faults_give_what_fits(rt: HostRuntime) {
    let mut into = [0; 2];
    assert_eq!(rt; read_surely(b"abc", &mut into), Got::Bytes(2));
    assert_eq!(rt; into, *b"ab");
    assert_eq!(rt; read_unplanned(b"c", &mut into), Got::Bytes(1));
    assert_eq!(rt; into[0], b'c');
    assert_eq!(rt; read_surely(b"", &mut into), Got::End);
}

#[test]
fn a_sure_disk_is_empty_and_reads_zeros(rt: HostRuntime) {
    let mut disk = SureDisk::new();
    let mut into = [7; 3];
    assert_eq!(rt; disk.write_at(0, b"abc"), Ok(()));
    assert_eq!(rt; disk.sync(), Ok(()));
    assert_eq!(rt; disk.len(), Ok(0));
    assert_eq!(rt; disk.read_at(0, &mut into), Ok(()));
    assert_eq!(rt; into, [0; 3]);
}

/// scripts/check-memory.py refuses each allocation of this test in turn.
#[test]
fn a_stop_fills_what_no_sync_covers(rt: HostRuntime) -> Result<(), Fail> {
    let alloc = rt.alloc();
    assert_eq!(rt;
        left_by_a_stop(alloc, Fill::Old)?.as_slice(),
        [b'x', b'y', 0].as_slice()
    );
    assert_eq!(rt;
        left_by_a_stop(alloc, Fill::New)?.as_slice(),
        b"abc".as_slice()
    );
    assert_eq!(rt;
        left_by_a_stop(alloc, Fill::Zeros)?.as_slice(),
        [0; 3].as_slice()
    );
    assert_eq!(rt;
        left_by_a_stop(alloc, Fill::Ones)?.as_slice(),
        [255; 3].as_slice()
    );
    Ok(())
}
