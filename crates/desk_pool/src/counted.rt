//! What is counted of a journal before room is kept for it.
ghost use Rattle.std.specs.Prelude.{◌≡◌, IfOk};
ghost use Rattle.conflict_queue.specs.Schedules.{in_receipt_order};
ghost use Rattle.desk_pool.specs.inner.Counted.{IsCounted};

use crate::building_queues::build_queues;
use crate::folio_queues::FolioQueue;
use crate::key_rooms::count_rooms;
use act_model::Journal;
use conflict_queue::Docket;
use gb_base::{Key, NoMemory, ReceiptNo};
use std::alloc::Global;
use std::collections::BTreeMap;

/// The keys of each item, the items of each folio, and the room that all of them need at each key.
#[derive(Drop)]
pub(crate) struct Counted {
    pub docket: Docket,
    pub queues: Vec<FolioQueue>,
    pub rooms: BTreeMap<Key, usize>,
}

/// Counts the keys, the queues and the room of a journal. May run out of memory (NoMemory).
pub(crate) fn count(alloc: Global, journal: &Journal) -> Result<Counted, NoMemory>
    ensures { IfOk result (IsCounted journal.now.receipts) }
{
    let docket = Docket::build(alloc, journal)?;
    let queues = build_queues(alloc, journal, &docket)?;
    let rooms = count_rooms(alloc, journal, &docket, queues.as_slice())?;
    Ok(Counted {
        docket,
        queues,
        rooms,
    })
}

/// The items of a journal, in the order of their receipts. May run out of memory (NoMemory).
pub(crate) fn list_receipts(alloc: Global, journal: &Journal) -> Result<Vec<ReceiptNo>, NoMemory>
    ensures { IfOk result (λ receipts. receipts.items ≡ in_receipt_order journal.now.receipts) }
{
    let mut receipts = Vec::with_capacity(alloc, journal.len() as usize)?;
    for index in 0..journal.len() {
        receipts.push(ReceiptNo::new(index + 1).unwrap())?;
    }
    Ok(receipts)
}
