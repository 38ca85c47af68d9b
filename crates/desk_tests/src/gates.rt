//! A gate that notes for which items it was called, and stays long at some.

use conflict_queue::Docket;
use gb_base::{FolioId, NoMemory, ReceiptNo};
use gb_outside::DeskGate;
use std::alloc::Global;
use std::sync::atomic::Ordering::SeqCst;
use std::sync::atomic::{AtomicU32, AtomicUsize};
use test_items::Draws;

/// How often a gate that stays long looks at a word.
const LOOKS: u32 = 5_000;

/// The items at which a gate stays long.
#[derive(Clone, Copy, Debug)]
pub enum Slow {
    Never,
    /// At this item.
    At(ReceiptNo),
    /// At the items of this folio.
    In(FolioId),
    /// At one item in three, as this seed has it.
    Drawn(u64),
}

/// Notes the items in the order of the calls, and stays long at some of them.
#[derive(Drop)]
pub struct WatchingGate<'a> {
    docket: &'a Docket,
    slow: &'a Slow,
    /// For each call its item, up to as many calls as there are items.
    called: Vec<AtomicU32>,
    calls: AtomicUsize,
    /// Nobody writes it; a gate that stays long looks at it.
    idle: AtomicU32,
}

impl<'a> WatchingGate<'a> {
    /// A gate for the items of a docket that was not called yet. May run out of memory (NoMemory).
    pub fn new(
        alloc: Global,
        docket: &'a Docket,
        slow: &'a Slow,
    ) -> Result<WatchingGate<'a>, NoMemory> {
        let mut called = Vec::with_capacity(alloc, docket.len())?;
        for _item in 0..docket.len() {
            called.push(AtomicU32::new(0))?;
        }
        Ok(WatchingGate {
            docket,
            slow,
            called,
            calls: AtomicUsize::new(0),
            idle: AtomicU32::new(0),
        })
    }

    /// How often it was called.
    pub fn calls(&self) -> usize {
        self.calls.load(SeqCst)
    }

    /// The items of its calls, in their order.
    pub fn order(&self, alloc: Global) -> Result<Vec<ReceiptNo>, NoMemory> {
        let mut order = Vec::with_capacity(alloc, self.called.len())?;
        for slot in self.called.as_slice() {
            if let Some(item) = ReceiptNo::new(slot.load(SeqCst)) {
                order.push(item)?;
            }
        }
        Ok(order)
    }

    fn is_slow_at(&self, item: ReceiptNo) -> bool {
        match self.slow {
            Slow::Never => false,
            Slow::At(one) => item == *one,
            Slow::In(folio) => self.is_in(item, *folio),
            Slow::Drawn(seed) => {
                let seed = seed.wrapping_add(u64::from(item.get()));
                Draws::new(seed).one_in(3)
            }
        }
    }

    /// Whether the item touches a key of this folio.
    fn is_in(&self, item: ReceiptNo, folio: FolioId) -> bool {
        if item.get() as usize > self.docket.len() {
            return false;
        }
        self.docket
            .keys(item)
            .iter()
            .any(|key| key.folio() == folio)
    }

    fn stay(&self) {
        for _look in 0..LOOKS {
            if self.idle.load(SeqCst) > 0 {
                return;
            }
        }
    }
}

impl DeskGate for WatchingGate<'_> {
    fn at(&self, item: ReceiptNo) {
        let before = self.calls.fetch_add(1, SeqCst);
        if let Some(slot) = self.called.get(before) {
            slot.store(item.get(), SeqCst);
        }
        if self.is_slow_at(item) {
            self.stay();
        }
    }
}
