//! The room that is kept at each key of a journal.
ghost use Rattle.std.specs.Prelude.{◌≡◌, ◌||◌, ◌++◌, ◌+◌, ◌*◌, ◌≤◌, if◌then◌else◌, is_some, IfOk, OnOk};
ghost use Rattle.act_model.specs.Limits.{most_receipts};
ghost use Rattle.gb_base.specs.Keys.{key_cmp, same_key};
ghost use Rattle.gb_base.specs.declared.keys.Key.{Key};
ghost use Rattle.std.specs.BTreeMap.{get};
ghost use Rattle.conflict_queue.specs.Dockets.{docket_of};
ghost use Rattle.desk_pool.specs.FolioQueues.{is_key_of, queue_of};
ghost use Rattle.desk_pool.specs.RoundRooms.{room_for, room_for_item};
ghost use Rattle.desk_pool.specs.inner.AllQueues.{AreAllQueues};
ghost use Rattle.desk_pool.specs.inner.KeyRooms.{AreRooms, room_in};
ghost use Rattle.desk_pool.specs.inner.RoomsCounted.{is_listed, keys_with_room, room_if, room_of_folio, rooms_of_items, sum_at};

use crate::folio_parts::KeyRoom;
use crate::folio_queues::FolioQueue;
use act_model::{Item, Journal, is_a_journal};
use conflict_queue::Docket;
use gb_base::{FolioId, Key, NoMemory, ReceiptNo};
use std::alloc::Global;
use std::collections::BTreeMap;

/// The room that the journal's items keep at each of their keys; no other key is in it. `queues` are
/// those of all folios that the journal touches. May run out of memory (NoMemory).
///
/// The map is asked once for each key, and not at each touch: what the items touch in a folio is
/// listed and sorted, so that the same keys stand together.
pub(crate) fn count_rooms(
    alloc: Global,
    journal: &Journal,
    docket: &Docket,
    queues: &[FolioQueue],
) -> Result<BTreeMap<Key, usize>, NoMemory>
    requires docket { docket.now ≡ docket_of journal.now.receipts }
    requires queues { AreAllQueues journal.now.receipts queues.now }
    ensures { IfOk result (AreRooms journal.now.receipts) }
{
    is_a_journal(journal);
    let mut rooms = BTreeMap::new(alloc);
    // One list serves all folios.
    let mut touched = Vec::new(alloc);
    for queue in queues {
        add_folio(&mut rooms, &mut touched, journal, docket, queue)?;
    }
    Ok(rooms)
}

/// Keeps the room of the folio at each of its keys. What stands in `touched` does not matter.
fn add_folio(
    rooms: &mut BTreeMap<Key, usize>,
    touched: &mut Vec<KeyRoom>,
    journal: &Journal,
    docket: &Docket,
    queue: &FolioQueue,
) -> Result<(), NoMemory>
    requires docket { docket.now ≡ docket_of journal.now.receipts }
    requires own { queue.now.items.items ≡ queue_of journal.now.receipts queue.now.folio }
    requires few { (k : Key) → room_in rooms.old k + room_of_folio journal.now.receipts queue.now.folio k ≤ 4 * most_receipts }
    ensures room { OnOk result ((k : Key) → room_in rooms.new k ≡ room_in rooms.old k + room_of_folio journal.now.receipts queue.now.folio k) }
    ensures keys { OnOk result ((k : Key) → is_some (get key_cmp rooms.new k) ≡ (is_some (get key_cmp rooms.old k) || is_key_of journal.now.receipts queue.now.folio k)) }
{
    touched.clear();
    list_items(touched, journal, docket, queue)?;
    touched.sort_unstable_by_key(|one: &KeyRoom| one.key);
    add_sums(rooms, touched.as_slice())
}

/// Puts the keys of the folio that its items touch at the end of this list, each with its item's room.
fn list_items(
    touched: &mut Vec<KeyRoom>,
    journal: &Journal,
    docket: &Docket,
    queue: &FolioQueue,
) -> Result<(), NoMemory>
    requires docket { docket.now ≡ docket_of journal.now.receipts }
    requires own { queue.now.items.items ≡ queue_of journal.now.receipts queue.now.folio }
    ensures { OnOk result (touched.new.items ≡ touched.old.items ++ rooms_of_items journal.now.receipts queue.now.folio queue.now.items.items) }
{
    for item in &queue.items {
        let room = room_for(journal, *item);
        list_keys(touched, docket.keys(*item), queue.folio, room)?;
    }
    Ok(())
}

/// Puts those of the keys that are of the folio at the end of this list, each with so much room.
fn list_keys(
    touched: &mut Vec<KeyRoom>,
    keys: &[Key],
    folio: FolioId,
    room: usize,
) -> Result<(), NoMemory>
    ensures { OnOk result (touched.new.items ≡ touched.old.items ++ keys_with_room keys.now folio room) }
{
    for key in keys {
        if key.folio() == folio {
            touched.push(KeyRoom { key: *key, room })?;
        }
    }
    Ok(())
}

/// Adds to the room at each key the sum of its rooms in the list.
fn add_sums(rooms: &mut BTreeMap<Key, usize>, touched: &[KeyRoom]) -> Result<(), NoMemory>
    requires few { (k : Key) → room_in rooms.old k + sum_at touched.now k ≤ 4 * most_receipts }
    ensures room { OnOk result ((k : Key) → room_in rooms.new k ≡ room_in rooms.old k + sum_at touched.now k) }
    ensures keys { OnOk result ((k : Key) → is_some (get key_cmp rooms.new k) ≡ (is_some (get key_cmp rooms.old k) || is_listed touched.now k)) }
{
    match touched.split_first() {
        Some((first, rest)) => add_from(rooms, first.key, first.room, rest),
        None => Ok(()),
    }
}

/// Adds to the room at each key the sum of its rooms in a list, of which this is the first key with its room.
fn add_from(
    rooms: &mut BTreeMap<Key, usize>,
    first: Key,
    room: usize,
    rest: &[KeyRoom],
) -> Result<(), NoMemory>
    requires few { (k : Key) → room_in rooms.old k + room_if first room k + sum_at rest.now k ≤ 4 * most_receipts }
    ensures room { OnOk result ((k : Key) → room_in rooms.new k ≡ room_in rooms.old k + room_if first room k + sum_at rest.now k) }
    ensures keys { OnOk result ((k : Key) → is_some (get key_cmp rooms.new k) ≡ (is_some (get key_cmp rooms.old k) || (same_key first k || is_listed rest.now k))) }
{
    let mut key = first;
    // The room of the latest keys of the list, which are all `key`.
    let mut sum = room;
    for next in rest {
        if next.key != key {
            add(rooms, &key, sum)?;
            key = next.key;
            sum = 0;
        }
        sum += next.room;
    }
    add(rooms, &key, sum)
}

/// Keeps so much room more at a key.
fn add(rooms: &mut BTreeMap<Key, usize>, key: &Key, room: usize) -> Result<(), NoMemory>
    requires few { room_in rooms.old key.now + room ≤ 4 * most_receipts }
    ensures room { OnOk result ((k : Key) → room_in rooms.new k ≡ if same_key key.now k then room_in rooms.old k + room else room_in rooms.old k) }
    ensures keys { OnOk result ((k : Key) → is_some (get key_cmp rooms.new k) ≡ (is_some (get key_cmp rooms.old k) || same_key key.now k)) }
{
    // The key is new, since the touches of its folio stand together; no clause says so, so the room of
    // one that is there is added to.
    if let Some(before) = rooms.insert(*key, room)? {
        rooms.insert(*key, before + room)?;
    }
    Ok(())
}

/// The room that is kept at a key; 0 where none is.
pub(crate) fn room_at(rooms: &BTreeMap<Key, usize>, key: &Key) -> usize
    ensures { result ≡ room_in rooms.now key.now }
{
    match rooms.get(key) {
        Some(room) => *room,
        None => 0,
    }
}

/// The room that an item keeps at each key that it touches.
fn room_for(journal: &Journal, item: ReceiptNo) -> usize
    ensures { result ≡ room_for journal.now.receipts item }
{
    match journal.get(item) {
        Some(receipt) => room_for_item(&receipt.item),
        None => 0,
    }
}

/// The room that an item keeps at each key that it touches: three entries of a filing and an official
/// notice, three of a cure, one of any other item.
fn room_for_item(item: &Item) -> usize
    ensures { result ≡ room_for_item item.now }
{
    match item {
        Item::Filing(_) => 4,
        Item::Cure { .. } => 3,
        _ => 1,
    }
}
