//! The parts of the folios are taken from their places.
ghost use Rattle.std.specs.Prelude.{◌≡◌, ◌≤◌, IsTrue, [], length, vec_capacity};
ghost use Rattle.desk_pool.specs.FolioQueues.{AreQueues};
ghost use Rattle.desk_pool.specs.inner.FoliosBack.{AllBack, AreSettled};
ghost use Rattle.desk_pool.specs.inner.FoliosInRow.{AreInPlaces};

use crate::folio_queues::FolioQueue;
use crate::marked_folios::MarkedFolio;
use act_model::JournalName;
use folio_sections::MapParts;

/// Takes the parts of the folios from their places into this list, in the order of their queues,
/// and says whether all items of each folio are settled.
pub(crate) fn take_parts<N: JournalName>(
    places: &mut [Option<MarkedFolio<N>>],
    queues: &[FolioQueue],
    back: &mut Vec<MapParts>,
) -> bool
    requires queues { AreQueues N.receipts queues.now }
    requires in_places { AreInPlaces queues.now places.old }
    requires none { back.old.items ≡ [] }
    requires room { length queues.now ≤ vec_capacity back.old }
    ensures back { AllBack N.receipts queues.now back.new.items }
    ensures settled { IsTrue result → AreSettled N.receipts back.new.items }
{
    let mut settled = true;
    for place in 0..queues.len() {
        if let Some(marked) = places[place].take() {
            settled = marked.folio.is_done(queues[place].items.as_slice()) && settled;
            back.push_reserved(marked.folio.into_parts());
        }
    }
    settled
}
