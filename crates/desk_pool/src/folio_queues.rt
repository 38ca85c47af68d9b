//! The items of each folio, in the order of their receipts.
ghost use Rattle.std.specs.Prelude.{◌≡◌, ◌<◌, AllPairs, IfSome, IsSome, IsTrue, Some, length, option_map, slice_get};
ghost use Rattle.desk_pool.specs.inner.AllQueues.{is_queued};

use gb_base::{FolioId, ReceiptNo};

/// A folio, and the items that touch it, ascending.
#[derive(Drop)]
pub(crate) struct FolioQueue {
    pub folio: FolioId,
    pub items: Vec<ReceiptNo>,
}

/// Where the folio stands among these, which are ascending; None where it is not among them.
pub(crate) fn place_of(queues: &[FolioQueue], folio: FolioId) -> Option<usize>
    ensures within { IfSome result (λ place. place < length queues.now) }
    ensures there { IfSome result (λ place. option_map (λ q. q.folio) (slice_get queues.now place) ≡ Some folio) }
    ensures found { AllPairs (λ q later. q.folio < later.folio) queues.now → IsTrue (is_queued queues.now folio) → IsSome result }
{
    let place = queues.partition_point(|queue| queue.folio < folio);
    match queues.get(place) {
        Some(queue) if queue.folio == folio => Some(place),
        _ => None,
    }
}
