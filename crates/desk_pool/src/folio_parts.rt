//! Empty parts with room, at the keys of a journal or of one of its folios.
ghost use Rattle.std.specs.Prelude.{◌≡◌, ◌==◌, ◌≤◌, [], map, All, IfOk};
ghost use Rattle.std.specs.BTreeMap.{IsOrdered};
ghost use Rattle.std.specs.BTreeMap.Range.{IsLeBy};
ghost use Rattle.gb_base.specs.Keys.{folio_of_key, key_cmp};
ghost use Rattle.gb_base.specs.declared.keys.Key.{Key};
ghost use Rattle.desk_pool.specs.inner.PartsPrepared.{ArePartsFor, room_of_entry};
ghost use Rattle.folio_sections.specs.Held.{entries_at, is_given, is_held, room_at};
ghost use Rattle.folio_sections.specs.inner.RightsInKeys.{entries_from_to};

use folio_sections::MapParts;
use gb_base::{FolioId, Key, NoMemory};
use std::alloc::Global;
use std::collections::BTreeMap;

/// A key, and the room that is kept there.
#[derive(Drop)]
pub(crate) struct KeyRoom {
    pub key: Key,
    pub room: usize,
}

/// Empty parts at those of the keys that are of the folio. May run out of memory (NoMemory).
pub(crate) fn parts_for_folio(
    alloc: Global,
    rooms: &BTreeMap<Key, usize>,
    folio: FolioId,
) -> Result<MapParts, NoMemory>
    ensures { IfOk result (ArePartsFor rooms.now (λ k. folio_of_key k == folio)) }
{
    let keys = rooms_between(alloc, rooms, Key::Title(folio), Key::Case(folio))?;
    parts_at(alloc, keys.as_slice())
}

/// All keys with their rooms, ascending. May run out of memory (NoMemory).
pub(crate) fn list_rooms(
    alloc: Global,
    rooms: &BTreeMap<Key, usize>,
) -> Result<Vec<KeyRoom>, NoMemory>
    ensures value { IfOk result (λ keys. keys.items ≡ map room_of_entry rooms.now.entries) }
    ensures ordered { IsOrdered key_cmp rooms.now }
{
    rooms
        .iter()
        .map(|(key, room)| key_room(key, room))
        .collect(alloc)
}

/// The keys with their rooms, from the first to the last of these two keys.
fn rooms_between(
    alloc: Global,
    rooms: &BTreeMap<Key, usize>,
    first: Key,
    last: Key,
) -> Result<Vec<KeyRoom>, NoMemory>
    requires { IsLeBy key_cmp first last }
    ensures value { IfOk result (λ keys. keys.items ≡ map room_of_entry (entries_from_to first last rooms.now.entries)) }
    ensures ordered { IsOrdered key_cmp rooms.now }
{
    rooms
        .range(first..=last)
        .map(|(key, room)| key_room(key, room))
        .collect(alloc)
}

/// A key with its room.
fn key_room(key: &Key, room: &usize) -> KeyRoom
    ensures { result ≡ room_of_entry (key.now, room.now) }
{
    KeyRoom {
        key: *key,
        room: *room,
    }
}

/// Empty parts at these keys, with their room. May run out of memory (NoMemory).
fn parts_at(alloc: Global, keys: &[KeyRoom]) -> Result<MapParts, NoMemory>
    ensures held { IfOk result (λ parts. (k : Key) → is_held parts k ≡ is_given (map (λ r. r.key) keys.now) k) }
    ensures empty { IfOk result (λ parts. (k : Key) → entries_at parts k ≡ []) }
    ensures room { IfOk result (λ parts. All (λ r. r.room ≤ room_at parts r.key) keys.now) }
{
    let mut parts = MapParts::new(alloc, &[])?;
    for wanted in keys {
        parts.hold(wanted.key)?;
        parts.reserve(wanted.key, wanted.room)?;
    }
    Ok(parts)
}

/// Empty parts at these keys, without room. May run out of memory (NoMemory).
pub(crate) fn parts_without_room(alloc: Global, keys: &[KeyRoom]) -> Result<MapParts, NoMemory>
    ensures held { IfOk result (λ parts. (k : Key) → is_held parts k ≡ is_given (map (λ r. r.key) keys.now) k) }
    ensures empty { IfOk result (λ parts. (k : Key) → entries_at parts k ≡ []) }
{
    let mut parts = MapParts::new(alloc, &[])?;
    for wanted in keys {
        parts.hold(wanted.key)?;
    }
    Ok(parts)
}
