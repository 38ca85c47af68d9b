//! Desks that are ready to work, and what they leave.
ghost use Rattle.std.specs.Prelude.{◌≡◌, ◌≤◌, IfOk, IfSome, length};
ghost use Rattle.conflict_queue.specs.Dockets.{docket_of};
ghost use Rattle.desk_pool.specs.inner.Boards.{AreVerdicts};
ghost use Rattle.desk_pool.specs.inner.Counted.{IsCounted};

use crate::boards::Board;
use crate::counted::Counted;
use crate::folio_row::FolioRow;
use crate::marked_folios::PlacedFolio;
use crate::seats::Seat;
use crate::together::settle_together;
use act_model::{Journal, JournalName};
use bumpalo::Bump;
use conflict_queue::Docket;
use gb_base::{NoMemory, ReceiptNo};
use gb_outside::DeskGate;
use registrar::Verdict;
use std::alloc::Global;
use std::marker::Brand;
use std::mem;
use std::sync::{Mutex, Wait};
use std::thread::Threads;

/// All that desks settle the items of the named journal in: from here on they need no memory.
#[derive(Drop)]
pub(crate) struct ReadyDesks<N: JournalName> {
    pub docket: Docket,
    pub row: FolioRow<N>,
    /// Room for the locks of all folios.
    pub arena: Bump<Global>,
    pub board: Board<N>,
    /// What each desk works with.
    pub seats: Vec<Seat>,
    pub ghost docket_is: { docket ≡ docket_of N.receipts },
}

/// What desks leave.
#[derive(Drop)]
pub(crate) struct Worked<N: JournalName> {
    /// The verdicts, where each is said.
    pub verdicts: Option<Vec<Verdict>>,
    pub row: FolioRow<N>,
}

impl<N: JournalName> ReadyDesks<N> {
    /// So many desks, ready for the journal that was counted here and whose items these are.
    /// May run out of memory (NoMemory).
    pub fn prepare(
        alloc: Global,
        journal: &Journal,
        counted: Counted,
        items: &[ReceiptNo],
        desks: usize,
    ) -> Result<ReadyDesks<N>, NoMemory>
        requires named { journal.now.receipts ≡ N.receipts }
        requires counted { IsCounted journal.now.receipts counted }
        ensures { IfOk result (λ ready. length ready.seats.items ≡ desks) }
    {
        let Counted {
            docket,
            queues,
            rooms,
        } = counted;
        let board = Board::new(alloc, &docket, queues.as_slice(), items)?;
        let arena = arena_for::<N>(alloc, queues.len())?;
        Ok(ReadyDesks {
            docket,
            row: FolioRow::prepare(alloc, journal, queues, &rooms)?,
            arena,
            board,
            seats: list_seats(alloc, desks)?,
        })
    }
}

impl<N: JournalName + Send + Sync> ReadyDesks<N> {
    /// Lets so many of the desks work until no item is left.
    pub fn work<R: Threads + Wait + Sync, G: DeskGate>(
        self,
        rt: &R,
        journal: &Journal,
        desks: usize,
        gate: &G,
    ) -> Worked<N>
        requires named { journal.now.receipts ≡ N.receipts }
        requires desks { (1 ≤ desks) × (desks ≤ length self.seats.items) }
        ensures { IfSome result.verdicts (λ verdicts. AreVerdicts N.receipts verdicts.items) }
    {
        let ReadyDesks {
            docket,
            row,
            arena,
            board,
            mut seats,
            ..
        } = self;
        let FolioRow {
            queues,
            mut places,
            keys,
            back,
            ..
        } = row;
        let verdicts = settle_together::<N, Brand, R, G>(
            rt,
            gate,
            journal,
            &docket,
            queues.as_slice(),
            places.as_mut_slice(),
            board,
            &mut seats[..desks],
            &arena,
        );
        Worked {
            verdicts,
            row: FolioRow {
                queues,
                places,
                keys,
                back,
            },
        }
    }
}

/// How many of the desks have something to do in so many folios: one at least.
pub(crate) fn desks_wanted(desks: u16, folios: usize) -> usize
    requires { 1 ≤ desks }
    ensures least { 1 ≤ result }
    ensures most { result ≤ desks }
{
    (desks as usize).min(folios.max(1))
}

/// An arena with room for the locks of so many folios, so that locking takes no memory. May run out of
/// memory (NoMemory).
fn arena_for<N: JournalName>(alloc: Global, folios: usize) -> Result<Bump<Global>, NoMemory> {
    let lock = mem::size_of::<Mutex<PlacedFolio<N, Brand>>>();
    let arena = Bump::try_with_capacity(alloc, folios.saturating_mul(lock))?;
    arena.set_allocation_limit(Some(arena.allocated_bytes()));
    Ok(arena)
}

/// What each of so many desks works with.
fn list_seats(alloc: Global, desks: usize) -> Result<Vec<Seat>, NoMemory>
    ensures { IfOk result (λ seats. length seats.items ≡ desks) }
{
    let mut seats = Vec::with_capacity(alloc, desks)?;
    for _seat in 0..desks {
        seats.push(Seat::new(alloc)?)?;
    }
    Ok(seats)
}
