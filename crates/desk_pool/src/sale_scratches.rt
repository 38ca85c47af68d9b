//! The scratches in which the lowest bids of sales are computed.
ghost use Rattle.std.specs.Prelude.{◌≡◌, ◌*◌, ◌≤◌, true, length, sum_by, IfOk, OnOk};
ghost use Rattle.gb_base.specs.declared.keys.Key.{Key};
ghost use Rattle.gb_base.specs.declared.keys.Key.TheVariants.{Right};
ghost use Rattle.act_model.specs.Limits.{most_creations, most_receipts};
ghost use Rattle.desk_pool.specs.FolioStates.{HasAllScratch, scratch_of};
ghost use Rattle.desk_pool.specs.Preparing.{ServesEachItem};
ghost use Rattle.desk_pool.specs.inner.KeyRooms.{AreRooms, room_in};
ghost use Rattle.desk_pool.specs.inner.PartsPrepared.{AreRoomsAt};
ghost use Rattle.desk_pool.specs.inner.ScratchesPrepared.{IsNoSmaller, ServesAt};

use crate::folio_parts::KeyRoom;
use crate::key_rooms::room_at;
use act_model::{Journal, is_a_journal};
use folio_line::rights_filed;
use gb_base::{FolioId, Key, NoMemory, RightId};
use kept_registers::laws::empty_register_is_kept;
use registrar::Scratch;
use std::alloc::Global;
use std::collections::BTreeMap;

/// A scratch for each item of the journal, of which these are all keys. May run out of memory (NoMemory).
pub(crate) fn scratch_for_all(
    alloc: Global,
    journal: &Journal,
    rooms: &BTreeMap<Key, usize>,
    keys: &[KeyRoom],
) -> Result<Scratch, NoMemory>
    requires rooms { AreRooms journal.now.receipts rooms.now }
    requires keys { AreRoomsAt rooms.now (λ k. true) keys.now }
    ensures { IfOk result (ServesEachItem journal.now.receipts) }
{
    let mut scratch = Scratch::with_room(alloc, 0, 0)?;
    for wanted in keys {
        reserve_at(alloc, &mut scratch, journal, rooms, &wanted.key)?;
    }
    Ok(scratch)
}

/// A scratch for the items that touch a folio: for its rights where it has a sale, and None where it
/// has none, since one without room takes memory all the same. May run out of memory (NoMemory).
pub(crate) fn scratch_for_folio(
    alloc: Global,
    journal: &Journal,
    rooms: &BTreeMap<Key, usize>,
    folio: FolioId,
) -> Result<Option<Scratch>, NoMemory>
    requires rooms { AreRooms journal.now.receipts rooms.now }
    ensures { IfOk result (λ scratch. HasAllScratch journal.now.receipts folio (scratch_of scratch)) }
{
    let case = Key::Case(folio);
    if !rooms.contains_key(&case) {
        return Ok(None);
    }
    let mut scratch = Scratch::with_room(alloc, 0, 0)?;
    reserve_at(alloc, &mut scratch, journal, rooms, &case)?;
    Ok(Some(scratch))
}

/// Keeps the room in a scratch that the key's sale needs, where it is the key of one: for the rights of its folio,
/// and for the exchanges by which they may rise.
fn reserve_at(
    alloc: Global,
    scratch: &mut Scratch,
    journal: &Journal,
    rooms: &BTreeMap<Key, usize>,
    key: &Key,
) -> Result<(), NoMemory>
    requires rooms { AreRooms journal.now.receipts rooms.now }
    ensures served { OnOk result (ServesAt journal.now.receipts key.now scratch.new) }
    ensures kept { OnOk result (IsNoSmaller scratch.old scratch.new) }
{
    match key {
        Key::Case(folio) => {
            empty_register_is_kept();
            is_a_journal(journal);
            let rights = rights_filed(journal, None, *folio);
            let exchanges = exchange_room(rooms, *folio, rights);
            scratch.reserve(alloc, rights.len(), exchanges)
        }
        _ => Ok(()),
    }
}

/// The room that is kept at these rights of a folio: at most so many exchanges stand there.
fn exchange_room(rooms: &BTreeMap<Key, usize>, folio: FolioId, rights: &[RightId]) -> usize
    requires few { (k : Key) → room_in rooms.now k ≤ 4 * most_receipts }
    requires rights { length rights.now ≤ most_creations }
    ensures { result ≡ sum_by (λ right. room_in rooms.now (Right folio right)) rights.now }
{
    let mut room = 0;
    for right in rights {
        room += room_at(rooms, &Key::Right(folio, *right));
    }
    room
}
