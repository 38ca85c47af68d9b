//! What the desks of a round share.
ghost use Rattle.std.specs.Prelude.{◌≡◌};
ghost use Rattle.conflict_queue.specs.Dockets.{docket_of};
ghost use Rattle.desk_pool.specs.FolioQueues.{AreQueues};

use crate::boards::Board;
use crate::folio_queues::FolioQueue;
use crate::marked_folios::{PlacedFolio, RowName};
use act_model::{Journal, JournalName};
use conflict_queue::Docket;
use std::sync::{Condvar, Mutex};

/// The journal, the keys of its items, the queue of each folio, the folios, each behind its lock,
/// and the board. All of it is of the named journal.
#[derive(Drop)]
pub(crate) struct SharedRound<'a, N: JournalName, W: RowName> {
    pub journal: &'a Journal,
    pub docket: &'a Docket,
    pub queues: &'a [FolioQueue],
    /// Each at the place of its queue. No clause says so here: whoever locks one checks whether it is the
    /// folio that is meant.
    pub folios: &'a [Mutex<PlacedFolio<N, W>>],
    pub board: &'a Mutex<Board<N>>,
    /// An item was put back, so that others may be ready.
    pub moved: &'a Condvar,
    pub ghost named: { journal.now.receipts ≡ N.receipts },
    pub ghost docket_is: { docket.now ≡ docket_of N.receipts },
    pub ghost queues_are: { AreQueues N.receipts queues.now },
}
