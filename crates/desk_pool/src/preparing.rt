//! What a journal is settled in, made beforehand.
ghost use Rattle.std.specs.Prelude.{◌≡◌, filter_map, length, IfOk};
ghost use Rattle.desk_pool.specs.Preparing.{HasFrame};
ghost use Rattle.desk_pool.specs.inner.FoliosInRow.{AreInPlaces};
ghost use Rattle.desk_pool.specs.inner.KeyRooms.{AreRooms};
ghost use Rattle.desk_pool.specs.inner.TitlesListed.{titled_folio};

use crate::folio_parts::{KeyRoom, list_rooms, parts_for_folio, parts_without_room};
use crate::folio_queues::FolioQueue;
use crate::locked_folios::LockedFolio;
use crate::marked_folios::MarkedFolio;
use crate::marks::Mark;
use crate::register_frames::RegisterFrame;
use crate::sale_scratches::{scratch_for_all, scratch_for_folio};
use act_model::{Journal, JournalName, is_a_journal};
use gb_base::{FolioId, Key, NoMemory};
use registrar::Verdict;
use std::alloc::Global;
use std::collections::BTreeMap;

/// What the parts of all folios are put together in: parts at all keys, without room, since those of
/// the folios bring theirs, and what else a register needs; `rooms` is the room at each of the
/// journal's keys. May run out of memory (NoMemory).
pub(crate) fn prepare_frame(
    alloc: Global,
    journal: &Journal,
    rooms: &BTreeMap<Key, usize>,
) -> Result<RegisterFrame, NoMemory>
    requires { AreRooms journal.now.receipts rooms.now }
    ensures { IfOk result (HasFrame journal.now.receipts) }
{
    let keys = list_rooms(alloc, rooms)?;
    Ok(RegisterFrame {
        alloc,
        parts: parts_without_room(alloc, keys.as_slice())?,
        scratch: scratch_for_all(alloc, journal, rooms, keys.as_slice())?,
        verdicts: no_verdicts(alloc, journal.len() as usize)?,
        folios: titled_folios(alloc, keys.as_slice())?,
    })
}

/// The folios of the journal's queues, in their order, each with its mark; `rooms` is the room at each
/// of the journal's keys. May run out of memory (NoMemory).
pub(crate) fn mark_folios<N: JournalName>(
    alloc: Global,
    journal: &Journal,
    rooms: &BTreeMap<Key, usize>,
    queues: &[FolioQueue],
) -> Result<Vec<Option<MarkedFolio<N>>>, NoMemory>
    requires named { journal.now.receipts ≡ N.receipts }
    requires rooms { AreRooms journal.now.receipts rooms.now }
    ensures { IfOk result (λ places. AreInPlaces queues.now places.items) }
{
    let mut places = Vec::with_capacity(alloc, queues.len())?;
    for queue in queues {
        places.push(Some(MarkedFolio {
            folio: unsettled_folio(alloc, journal, rooms, queue.folio)?,
            mark: Mark::new(),
        }))?;
    }
    Ok(places)
}

/// What lies behind the lock of a folio of which no item is settled.
fn unsettled_folio<N: JournalName>(
    alloc: Global,
    journal: &Journal,
    rooms: &BTreeMap<Key, usize>,
    folio: FolioId,
) -> Result<LockedFolio<N>, NoMemory>
    requires named { journal.now.receipts ≡ N.receipts }
    requires rooms { AreRooms journal.now.receipts rooms.now }
    ensures { IfOk result (λ locked. locked.folio ≡ folio) }
{
    is_a_journal(journal);
    let parts = parts_for_folio(alloc, rooms, folio)?;
    let scratch = scratch_for_folio(alloc, journal, rooms, folio)?;
    Ok(LockedFolio::new(folio, parts, scratch))
}

/// A list of so many verdicts, which say nothing yet.
pub(crate) fn no_verdicts(alloc: Global, count: usize) -> Result<Vec<Verdict>, NoMemory>
    ensures { IfOk result (λ verdicts. length verdicts.items ≡ count) }
{
    let mut verdicts = Vec::with_capacity(alloc, count)?;
    for _item in 0..count {
        verdicts.push(Verdict::NotPending)?;
    }
    Ok(verdicts)
}

/// The folios whose title is among these keys, in their order.
fn titled_folios(alloc: Global, keys: &[KeyRoom]) -> Result<Vec<FolioId>, NoMemory>
    ensures { IfOk result (λ folios. folios.items ≡ filter_map (λ r. titled_folio r.key) keys.now) }
{
    keys.iter()
        .filter_map(|wanted| titled_folio(&wanted.key))
        .collect(alloc)
}

/// The folio of a title; None where the key is of no title.
fn titled_folio(key: &Key) -> Option<FolioId>
    ensures { result ≡ titled_folio key.now }
{
    match key {
        Key::Title(folio) => Some(*folio),
        _ => None,
    }
}
