//! Four items of four folios, which four desks have in hand at once.
ghost use Rattle.std.specs.Prelude.{◌≤◌};

use act_model::Journal;
use gb_base::{NoMemory, ReceiptNo};
use gb_outside::{DeskGate, MemSink, OpenGate};
use registry_office::{Status, settle};
use std::alloc::Global;
use std::process::Abort;
use std::sync::Wait;
use std::sync::atomic::Ordering::SeqCst;
use std::sync::atomic::{AtomicBool, AtomicU32};
use std::test::Fail;
use std::thread::{Threads, yield_now};
use test_items::{consent, day, filed, opening, receipt, received};

/// How often a call looks whether all four are there, until it gives up.
const MOST_LOOKS: u32 = 1_000_000_000;

/// A bit for each of the four items.
const ALL_FOUR: u32 = 0b1111;

/// Keeps each of the items 1 to 4, and so the lock of its folio, until it was called for all four.
/// Where one desk does all, or one lock is over two of the folios, a call gives up, and then none
/// waits any more.
#[derive(Drop)]
struct FourGates {
    called: AtomicU32,
    gave_up: AtomicBool,
}

impl FourGates {
    fn new() -> FourGates {
        FourGates {
            called: AtomicU32::new(0),
            gave_up: AtomicBool::new(false),
        }
    }

    /// Whether it was called for all four, and each call saw that.
    fn all_met(&self) -> bool {
        self.called.load(SeqCst) == ALL_FOUR && !self.gave_up.load(SeqCst)
    }
}

impl DeskGate for FourGates {
    fn at(&self, item: ReceiptNo) {
        self.called.fetch_or(bit_of(item), SeqCst);
        for look in 0..MOST_LOOKS {
            if self.called.load(SeqCst) == ALL_FOUR || self.gave_up.load(SeqCst) {
                return;
            }
            // Fewer processors than desks may have to take turns.
            if look % 1_024 == 0 {
                yield_now();
            }
        }
        self.gave_up.store(true, SeqCst);
    }
}

fn bit_of(item: ReceiptNo) -> u32 {
    match item.get() {
        1 => 0b0001,
        2 => 0b0010,
        3 => 0b0100,
        4 => 0b1000,
        _ => 0,
    }
}

/// Receipts 1 to 4 open folios 1 to 4.
fn of_four_folios(rt: &impl Abort, alloc: Global) -> Journal {
    let mut journal = Journal::new(alloc);
    for number in [1, 2, 3, 4] {
        let opened = filed(10, opening(number, 10), &[consent(1, 10)]);
        assert_eq!(rt;
            received(&mut journal, day(3, 1), &opened),
            Some(receipt(number))
        );
    }
    journal
}

/// What is written of them.
const REPORT: &[u8] =
    b"receipt 1 entered\nreceipt 2 entered\nreceipt 3 entered\nreceipt 4 entered\nfolio 1\ninventory district 12 parcel 345/6 area 800\nowners 10\nranks 1\nfolio 2\ninventory district 12 parcel 345/6 area 800\nowners 10\nranks 2\nfolio 3\ninventory district 12 parcel 345/6 area 800\nowners 10\nranks 3\nfolio 4\ninventory district 12 parcel 345/6 area 800\nowners 10\nranks 4\nend receipts 4 folios 4\n";

/// How so many desks end with them, and what is written.
fn settled<R: AllocGlobal + Threads + Wait + Sync + Abort, G: DeskGate>(
    rt: &R,
    desks: u16,
    gate: &G,
) -> Result<(Status, Vec<u8>), NoMemory>
    requires { (1 ≤ desks) × (desks ≤ 64) }
{
    let alloc = rt.alloc();
    let journal = of_four_folios(rt, alloc);
    let mut sink = MemSink::new(alloc, 1 << 16, &[])?;
    let status = settle(rt, &journal, &mut sink, desks, gate);
    Ok((status, Vec::from_slice(alloc, sink.written())?))
}

/// Items that touch no folio in common do not wait for one another.
#[test]
fn four_desks_are_at_their_gates_at_once(rt: HostRuntime) -> Result<(), Fail> {
    let gates = FourGates::new();
    let (status, written) = settled(&rt, 4, &gates)?;
    assert!(rt; gates.all_met());
    assert_eq!(rt; status, Status::Ok);
    assert_eq!(rt; written.as_slice(), REPORT);
    Ok(())
}

#[test]
fn one_desk_writes_the_same(rt: HostRuntime) -> Result<(), Fail> {
    let (status, written) = settled(&rt, 1, &OpenGate)?;
    assert_eq!(rt; status, Status::Ok);
    assert_eq!(rt; written.as_slice(), REPORT);
    Ok(())
}
