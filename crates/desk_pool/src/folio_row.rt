//! The folios of a journal, side by side.
ghost use Rattle.std.specs.Prelude.{◌≡◌, ◌≤◌, [], IsTrue, length, vec_capacity};
ghost use Rattle.desk_pool.specs.Preparing.{HasFrame, HasPlaces};
ghost use Rattle.desk_pool.specs.inner.AllQueues.{AreAllQueues};
ghost use Rattle.desk_pool.specs.inner.FoliosBack.{AreAllKeys, StandsSettled};
ghost use Rattle.desk_pool.specs.inner.FoliosInRow.{AreInPlaces};
ghost use Rattle.desk_pool.specs.inner.KeyRooms.{AreRooms};

use crate::folio_parts::{KeyRoom, list_rooms};
use crate::folio_queues::FolioQueue;
use crate::marked_folios::MarkedFolio;
use crate::preparing::mark_folios;
use crate::register_frames::RegisterFrame;
use crate::taking_over::take_all_over;
use crate::taking_parts::take_parts;
use act_model::{Journal, JournalName};
use folio_sections::MapParts;
use gb_base::{Key, NoMemory};
use std::alloc::Global;
use std::collections::BTreeMap;

/// The folios of the named journal, each at the place of its queue.
#[derive(Drop)]
pub(crate) struct FolioRow<N: JournalName> {
    /// The items of each folio, the folios ascending.
    pub queues: Vec<FolioQueue>,
    /// The folios; None while one is behind its lock.
    pub places: Vec<Option<MarkedFolio<N>>>,
    /// All keys that the items touch, each once.
    pub keys: Vec<KeyRoom>,
    /// Empty, with room for the parts of all folios: so none is needed when they are taken from their
    /// places.
    pub back: Vec<MapParts>,
    pub ghost queues_are: { AreAllQueues N.receipts queues.items },
    pub ghost keys_are: { AreAllKeys N.receipts keys.items },
    pub ghost in_places: { AreInPlaces queues.items places.items },
    pub ghost none_back: { back.items ≡ [] },
    pub ghost room: { length queues.items ≤ vec_capacity back },
}

impl<N: JournalName> FolioRow<N> {
    /// The folios of the journal with these queues and rooms; none of their items is
    /// settled. May run out of memory (NoMemory).
    pub fn prepare(
        alloc: Global,
        journal: &Journal,
        queues: Vec<FolioQueue>,
        rooms: &BTreeMap<Key, usize>,
    ) -> Result<FolioRow<N>, NoMemory>
        requires named { journal.now.receipts ≡ N.receipts }
        requires queues { AreAllQueues journal.now.receipts queues.items }
        requires rooms { AreRooms journal.now.receipts rooms.now }
    {
        Ok(FolioRow {
            places: mark_folios(alloc, journal, rooms, queues.as_slice())?,
            keys: list_rooms(alloc, rooms)?,
            back: Vec::with_capacity(alloc, queues.len())?,
            queues,
        })
    }

    /// Puts what stands in the parts of all folios into the frame, with their room, and says whether all
    /// items are settled: what stands in the frame is then what the one registrar leaves.
    pub fn put_into(self, frame: &mut RegisterFrame) -> bool
        requires { HasFrame N.receipts frame.old }
        ensures places { HasPlaces N.receipts frame.new }
        ensures settled { IsTrue result → StandsSettled N.receipts frame.new.parts }
    {
        let FolioRow {
            queues,
            mut places,
            keys,
            mut back,
            ..
        } = self;
        let settled = take_parts(places.as_mut_slice(), queues.as_slice(), &mut back);
        take_all_over::<N>(
            &mut frame.parts,
            back.as_mut_slice(),
            queues.as_slice(),
            keys.as_slice(),
        );
        settled
    }
}
