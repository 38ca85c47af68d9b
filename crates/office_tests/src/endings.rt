//! How a run ends, which is asserted.
use gb_outside::MemDisk;
use registry_office::Status;
use std::process::Abort;
use std::sync::Wait;
use std::test::Fail;
use std::thread::Threads;
use test_runs::Run;

/// The run over the disk ends with this status, whatever it writes.
pub fn ends<R: AllocGlobal + Threads + Wait + Sync + Abort>(
    rt: &R,
    run: &Run<'_>,
    disk: &mut MemDisk,
    status: Status,
) -> Result<(), Fail> {
    let (ended, _) = run.done(rt, disk)?;
    assert_eq!(rt; ended, status);
    Ok(())
}

/// The run over the disk ends with this status, and writes this text.
pub fn writes<R: AllocGlobal + Threads + Wait + Sync + Abort>(
    rt: &R,
    run: &Run<'_>,
    disk: &mut MemDisk,
    status: Status,
    text: &[u8],
) -> Result<(), Fail> {
    let (ended, written) = run.done(rt, disk)?;
    assert_eq!(rt; ended, status);
    assert_eq!(rt; written.as_slice(), text);
    Ok(())
}
