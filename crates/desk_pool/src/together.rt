//! Desks that work beside one another.
ghost use Rattle.std.specs.Prelude.{◌≡◌, ◌<◌, IfSome, length};
ghost use Rattle.conflict_queue.specs.Dockets.{docket_of};
ghost use Rattle.desk_pool.specs.FolioQueues.{AreQueues};
ghost use Rattle.desk_pool.specs.inner.Boards.{AreVerdicts};
ghost use Rattle.desk_pool.specs.inner.FoliosInRow.{AreInRow};

use crate::boards::Board;
use crate::desks::work;
use crate::folio_queues::FolioQueue;
use crate::locking::{put_back, put_behind_locks};
use crate::marked_folios::{MarkedFolio, PlacedFolio, RowName};
use crate::seats::Seat;
use crate::shared_rounds::SharedRound;
use act_model::{Journal, JournalName};
use bumpalo::Bump;
use conflict_queue::Docket;
use gb_outside::DeskGate;
use registrar::Verdict;
use std::alloc::Global;
use std::sync::{Condvar, Mutex, Wait};
use std::thread;
use std::thread::Threads;

/// Puts the folios of the named row behind locks that lie in the arena, lets a desk work at each
/// seat until no item is left, and puts the folios back. What desks enter stands in the folios; the
/// verdicts come back where each is said. Where the arena has no room, no desk works.
pub(crate) fn settle_together<
    N: JournalName + Send + Sync,
    W: RowName + Send + Sync,
    R: Threads + Wait + Sync,
    G: DeskGate,
>(
    rt: &R,
    gate: &G,
    journal: &Journal,
    docket: &Docket,
    queues: &[FolioQueue],
    places: &mut [Option<MarkedFolio<N>>],
    board: Board<N>,
    seats: &mut [Seat],
    arena: &Bump<Global>,
) -> Option<Vec<Verdict>>
    requires named { journal.now.receipts ≡ N.receipts }
    requires docket { docket.now ≡ docket_of N.receipts }
    requires queues { AreQueues N.receipts queues.now }
    requires seats { 0 < length seats.old }
    requires row { AreInRow W.RowName.row places.old }
    ensures row { AreInRow W.RowName.row places.new }
    ensures verdicts { IfSome result (λ verdicts. AreVerdicts N.receipts verdicts.items) }
{
    let Ok(locks) = put_behind_locks::<N, W>(arena, places) else {
        return None;
    };
    let verdicts = settle_behind_locks(
        rt,
        gate,
        journal,
        docket,
        queues,
        locks.as_slice(),
        board,
        seats,
    );
    put_back(locks, places);
    verdicts
}

/// Lets a desk work at each seat, in a thread of its own where one can be had.
fn settle_behind_locks<
    N: JournalName + Send + Sync,
    W: RowName + Send + Sync,
    R: Threads + Wait + Sync,
    G: DeskGate,
>(
    rt: &R,
    gate: &G,
    journal: &Journal,
    docket: &Docket,
    queues: &[FolioQueue],
    folios: &[Mutex<PlacedFolio<N, W>>],
    board: Board<N>,
    seats: &mut [Seat],
) -> Option<Vec<Verdict>>
    requires named { journal.now.receipts ≡ N.receipts }
    requires docket { docket.now ≡ docket_of N.receipts }
    requires queues { AreQueues N.receipts queues.now }
    requires seats { 0 < length seats.old }
    ensures { IfSome result (λ verdicts. AreVerdicts N.receipts verdicts.items) }
{
    let board = Mutex::new(board);
    let moved = Condvar::new();
    let round = SharedRound {
        journal,
        docket,
        queues,
        folios,
        board: &board,
        moved: &moved,
    };
    work_at_all(rt, &round, gate, seats);
    board.into_inner().into_verdicts()
}

/// Lets a desk work at each seat.
fn work_at_all<
    N: JournalName + Send + Sync,
    W: RowName + Send + Sync,
    R: Threads + Wait + Sync,
    G: DeskGate,
>(rt: &R, round: &SharedRound<'_, N, W>, gate: &G, seats: &mut [Seat])
    requires { 0 < length seats.old }
{
    let desks = seats.len();
    thread::for_each_mut(rt, seats, desks, &|_, seat| work(rt, round, gate, seat));
}
