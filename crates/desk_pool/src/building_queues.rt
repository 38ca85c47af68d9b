//! The queues of a journal's folios, built from its docket.
ghost use Rattle.std.specs.Prelude.{◌≡◌, ◌==◌, ℕ, if◌then◌else◌, map, IfOk, OnOk};
ghost use Rattle.std.specs.BTreeMap.{IsOrdered};
ghost use Rattle.std.specs.Ordering.{nat_cmp};
ghost use Rattle.conflict_queue.specs.Dockets.{docket_of};
ghost use Rattle.desk_pool.specs.FolioQueues.{queue_of};
ghost use Rattle.desk_pool.specs.inner.AllQueues.{AreAllQueues};
ghost use Rattle.desk_pool.specs.inner.QueuesBuilt.{as_entry, items_at, with_item, with_item_at};

use crate::folio_queues::FolioQueue;
use act_model::Journal;
use conflict_queue::Docket;
use gb_base::{FolioId, Key, NoMemory, ReceiptNo};
use std::alloc::Global;
use std::collections::BTreeMap;

/// The queue of each folio that an item of the journal touches, ascending by folio. May run out of
/// memory (NoMemory).
pub(crate) fn build_queues(
    alloc: Global,
    journal: &Journal,
    docket: &Docket,
) -> Result<Vec<FolioQueue>, NoMemory>
    requires { docket.now ≡ docket_of journal.now.receipts }
    ensures { IfOk result (λ queues. AreAllQueues journal.now.receipts queues.items) }
{
    let items = items_by_folio(alloc, journal, docket)?;
    list_queues(alloc, items)
}

/// The items that touch each folio.
fn items_by_folio(
    alloc: Global,
    journal: &Journal,
    docket: &Docket,
) -> Result<BTreeMap<FolioId, Vec<ReceiptNo>>, NoMemory>
    requires { docket.now ≡ docket_of journal.now.receipts }
    ensures { IfOk result (λ items. (folio : ℕ) → items_at items folio ≡ queue_of journal.now.receipts folio) }
{
    let mut items = BTreeMap::new(alloc);
    for index in 0..journal.len() {
        let item = ReceiptNo::new(index + 1).unwrap();
        push_all(alloc, &mut items, docket.keys(item), item)?;
    }
    Ok(items)
}

/// Puts an item at the end of the queue of each folio of these keys. Keys of one folio that stand
/// together, as those of a sale, are looked up once.
fn push_all(
    alloc: Global,
    items: &mut BTreeMap<FolioId, Vec<ReceiptNo>>,
    keys: &[Key],
    item: ReceiptNo,
) -> Result<(), NoMemory>
    ensures { OnOk result ((folio : ℕ) → items_at items.new folio ≡ with_item_at keys.now folio item (items_at items.old folio)) }
{
    // The number of the folio of the last key; 0 before the first.
    let mut last = 0;
    for key in keys {
        let folio = key.folio();
        if folio.get() != last {
            push(alloc, items, folio, item)?;
            last = folio.get();
        }
    }
    Ok(())
}

/// Puts an item at the end of the folio's queue.
fn push(
    alloc: Global,
    items: &mut BTreeMap<FolioId, Vec<ReceiptNo>>,
    folio: FolioId,
    item: ReceiptNo,
) -> Result<(), NoMemory>
    ensures { OnOk result ((other : ℕ) → items_at items.new other ≡ if folio == other then with_item item (items_at items.old folio) else items_at items.old other) }
{
    match items.get_mut(&folio) {
        Some(queue) => push_once(queue, item),
        None => {
            let mut queue = Vec::new(alloc);
            push_once(&mut queue, item)?;
            items.insert(folio, queue)?;
            Ok(())
        }
    }
}

/// Puts an item at the end of the queue, unless it is the last of it already.
fn push_once(queue: &mut Vec<ReceiptNo>, item: ReceiptNo) -> Result<(), NoMemory>
    ensures { OnOk result (queue.new.items ≡ with_item item queue.old.items) }
{
    match queue.last() {
        Some(last) if *last == item => Ok(()),
        _ => {
            queue.push(item)?;
            Ok(())
        }
    }
}

/// These queues as a list, ascending by folio.
fn list_queues(
    alloc: Global,
    mut items: BTreeMap<FolioId, Vec<ReceiptNo>>,
) -> Result<Vec<FolioQueue>, NoMemory>
    ensures value { IfOk result (λ queues. map as_entry queues.items ≡ items.entries) }
    ensures ordered { IsOrdered nat_cmp items }
{
    let mut queues = Vec::with_capacity(alloc, items.len())?;
    while let Some((folio, items)) = items.pop_first() {
        queues.push(FolioQueue { folio, items })?;
    }
    Ok(queues)
}
