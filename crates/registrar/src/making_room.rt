//! The room that the keys of an item keep for what it brings.
//! Why so: docs/DECISIONS.md, "Room is kept at each key before an item is settled".
ghost use Rattle.std.specs.Prelude.{◌≡◌, ◌||◌, ◌+◌, ◌≤◌, length, Contains, IsTrue, OnOk, option_and_then};
ghost use Rattle.gb_base.specs.declared.keys.Key.{Key};
ghost use Rattle.folio_sections.specs.Held.{WidensBy, entries_at, is_given, is_held, room_at};
ghost use Rattle.act_model.specs.Receiving.{item_at};
ghost use Rattle.conflict_queue.specs.ItemKeys.{keys_of_item};
ghost use Rattle.registrar.specs.Rooms.{HasItsScratch, most_brought};
ghost use Rattle.registrar.specs.inner.Computed.{folio_computed};

use crate::Scratch;
use act_model::{Item, Journal};
use folio_line::{FolioReading, count_exchanges, rights_filed};
use folio_sections::MapParts;
use gb_base::{FolioId, Key, NoMemory, ReceiptNo};
use std::alloc::Global;

/// The most entries that an item brings at one key, official notices apart.
const MOST_BROUGHT: usize = 3;

/// Holds the keys of an item, and keeps room at each of them for what it may bring: three entries,
/// and an official notice for each filing that waits there. Room for as many entries as stand there is
/// enough for these notices, since each such filing has an entry there; and so a key that grows is
/// moved seldom. No key is lost or has less room than before, and no other key is added, also where
/// no memory is found.
pub(crate) fn make_room(parts: &mut MapParts, keys: &[Key]) -> Result<(), NoMemory>
    ensures entries { entries_at parts.new ≡ entries_at parts.old }
    ensures held { OnOk result ((k : Key) → is_held parts.new k ≡ (is_held parts.old k || is_given keys.now k)) }
    ensures widens { WidensBy (is_given keys.now) parts.old parts.new }
    ensures room { OnOk result ((k : Key) → Contains keys.now k → length (entries_at parts.new k) + most_brought ≤ room_at parts.new k) }
    ensures kept { (k : Key) → room_at parts.old k ≤ room_at parts.new k }
{
    for key in keys {
        parts.hold_with_room(key, MOST_BROUGHT)?;
    }
    Ok(())
}

/// Keeps the room in a scratch that an item needs to compute a lowest bid: for the rights of the
/// folio in which it calls to bid or awards, and for the exchanges that they are in. Other items
/// need none.
pub(crate) fn make_scratch(
    alloc: Global,
    scratch: &mut Scratch,
    parts: &MapParts,
    journal: &Journal,
    item: ReceiptNo,
) -> Result<(), NoMemory>
    requires held { (k : Key) → Contains (keys_of_item journal.now.receipts item) k → IsTrue (is_held parts.now k) }
    ensures { OnOk result (HasItsScratch journal.now.receipts item (entries_at parts.now) scratch.new) }
{
    match folio_computed(journal, item) {
        Some(folio) => {
            let reading = FolioReading {
                parts,
                folio,
                before: None,
            };
            let rights = rights_filed(journal, Some(item), folio);
            let exchanges = count_exchanges(&reading, rights)?;
            scratch.reserve(alloc, rights.len(), exchanges)
        }
        None => Ok(()),
    }
}

/// The folio in whose sale an item computes the lowest bid: it calls to bid there, or awards.
fn folio_computed(journal: &Journal, item: ReceiptNo) -> Option<FolioId>
    ensures { result ≡ option_and_then folio_computed (item_at journal.now.receipts item) }
{
    match &journal.get(item)?.item {
        Item::OpenBids { folio, .. } => Some(*folio),
        Item::Award { folio, .. } => Some(*folio),
        _ => None,
    }
}
