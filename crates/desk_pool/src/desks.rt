//! A desk at work: it takes items that are ready, and settles each under the locks of its folios.
//! Why so: docs/DECISIONS.md, "A folio's items are settled in the order of receipts".
ghost use Rattle.std.specs.Prelude.{◌≡◌, ◌⊎◌, ◌<◌, ◌≤◌, [], Some, IfSome, All, length};
ghost use Rattle.gb_base.specs.Keys.{folio_of_key};
ghost use Rattle.conflict_queue.specs.Dockets.{keys_touched};
ghost use Rattle.conflict_queue.specs.ItemKeys.{keys_of_item};
ghost use Rattle.desk_pool.specs.FolioQueues.{queue_of};
ghost use Rattle.registrar.specs.RegisterState.{verdict_among};
ghost use Rattle.registrar.specs.Settling.{registrar};

use crate::boards::Board;
use crate::folio_queues::place_of;
use crate::locked_folios::LockedFolio;
use crate::marked_folios::RowName;
use crate::nowhere::settle_nowhere;
use crate::pairs::FolioPair;
use crate::seats::Seat;
use crate::shared_rounds::SharedRound;
use crate::touched_folios::{TouchedFolios, folios_touched};
use act_model::JournalName;
use gb_base::{FolioId, Key, ReceiptNo};
use gb_outside::DeskGate;
use registrar::{Scratch, Verdict};
use std::sync::{MutexGuard, Wait};

/// Settles items until none is left: while others have items in hand after which more may be ready, it
/// waits.
pub(crate) fn work<N: JournalName, W: RowName, R: Wait, G: DeskGate>(
    rt: &R,
    round: &SharedRound<'_, N, W>,
    gate: &G,
    seat: &mut Seat,
) {
    let mut next = begin(rt, round);
    for _ in rt.forever() {
        let Some(item) = next else {
            break;
        };
        let verdict = settle(rt, round, gate, seat, item);
        next = go_on(rt, round, item, verdict);
    }
}

/// The first item of a desk.
fn begin<N: JournalName, W: RowName, R: Wait>(
    rt: &R,
    round: &SharedRound<'_, N, W>,
) -> Option<ReceiptNo> {
    let board = round.board.lock(rt);
    take_next(rt, round, board)
}

/// Puts an item back, and takes the next one.
fn go_on<N: JournalName, W: RowName, R: Wait>(
    rt: &R,
    round: &SharedRound<'_, N, W>,
    item: ReceiptNo,
    verdict: Option<Verdict>,
) -> Option<ReceiptNo>
    requires { IfSome verdict (λ verdict. verdict_among (registrar N.receipts).verdicts item ≡ Some verdict) }
{
    let keys = keys_of(round, item).unwrap_or(&[]);
    let mut board = round.board.lock(rt);
    board.put(round.queues, keys, item, verdict);
    take_next(rt, round, board)
}

/// The next item, once one is ready; None once none is left. Whoever takes one wakes those who wait,
/// where more are ready, and whoever finds none left wakes them too.
fn take_next<'a, N: JournalName, W: RowName, R: Wait>(
    rt: &R,
    round: &SharedRound<'a, N, W>,
    mut board: MutexGuard<'a, Board<N>>,
) -> Option<ReceiptNo> {
    if board.must_wait() {
        board.begin_waiting();
        board = round.moved.wait_while(rt, board, |board| board.must_wait());
        board.end_waiting();
    }
    let next = board.take();
    if board.wakes_others() {
        round.moved.notify_all();
    }
    next
}

/// The keys of an item; None where the journal has no such item.
fn keys_of<'a, N: JournalName, W: RowName>(
    round: &SharedRound<'a, N, W>,
    item: ReceiptNo,
) -> Option<&'a [Key]>
    ensures received { IfSome result (λ keys. item ≤ length N.receipts) }
    ensures keys { IfSome result (λ keys. keys.now ≡ keys_touched N.receipts item) }
{
    if item.get() as usize > round.docket.len() {
        return None;
    }
    Some(round.docket.keys(item))
}

/// Settles an item under the locks of its folios, one or two of them, the lower number first.
/// None where its turn has not come.
fn settle<N: JournalName, W: RowName, R: Wait, G: DeskGate>(
    rt: &R,
    round: &SharedRound<'_, N, W>,
    gate: &G,
    seat: &mut Seat,
    item: ReceiptNo,
) -> Option<Verdict>
    ensures { IfSome result (λ verdict. verdict_among (registrar N.receipts).verdicts item ≡ Some verdict) }
{
    if item.get() > round.journal.len() {
        return None;
    }
    match folios_touched(round.docket, round.journal, item) {
        TouchedFolios::Nowhere => Some(settle_here(round, gate, seat, item)),
        TouchedFolios::One(folio) => settle_in_one(rt, round, gate, &mut seat.scratch, item, folio),
        TouchedFolios::Two(first, second) => {
            settle_in_two(
                rt,
                round,
                gate,
                &mut seat.pair,
                &mut seat.scratch,
                item,
                first,
                second,
            )
        }
    }
}

/// Settles an item that touches no key, and so no folio.
fn settle_here<N: JournalName, W: RowName, G: DeskGate>(
    round: &SharedRound<'_, N, W>,
    gate: &G,
    seat: &mut Seat,
    item: ReceiptNo,
) -> Verdict
    requires received { item ≤ length N.receipts }
    requires none { keys_of_item N.receipts item ≡ [] }
    ensures { verdict_among (registrar N.receipts).verdicts item ≡ Some result }
{
    gate.at(item);
    settle_nowhere(&mut seat.nothing, &mut seat.scratch, round.journal, item)
}

/// Settles an item of one folio alone, in `spare` where the folio has no scratch; None where its turn has not come.
fn settle_in_one<N: JournalName, W: RowName, R: Wait, G: DeskGate>(
    rt: &R,
    round: &SharedRound<'_, N, W>,
    gate: &G,
    spare: &mut Scratch,
    item: ReceiptNo,
    folio: FolioId,
) -> Option<Verdict>
    requires own { All (λ k. folio_of_key k ≡ folio) (keys_of_item N.receipts item) }
    ensures { IfSome result (λ verdict. verdict_among (registrar N.receipts).verdicts item ≡ Some verdict) }
{
    let place = place_of(round.queues, folio)?;
    let queue = queue_at(round, place, folio)?;
    let mut locked = round.folios.get(place)?.lock(rt);
    gate.at(item);
    let here = &mut locked.marked.folio;
    if here.folio() != folio {
        return None;
    }
    here.settle(spare, round.journal, queue, item)
}

/// Settles an item that touches two folios; None where its turn has not come.
fn settle_in_two<N: JournalName, W: RowName, R: Wait, G: DeskGate>(
    rt: &R,
    round: &SharedRound<'_, N, W>,
    gate: &G,
    pair: &mut FolioPair,
    spare: &mut Scratch,
    item: ReceiptNo,
    first: FolioId,
    second: FolioId,
) -> Option<Verdict>
    requires in_order { first < second }
    requires own { All (λ k. (folio_of_key k ≡ first) ⊎ (folio_of_key k ≡ second)) (keys_of_item N.receipts item) }
    ensures { IfSome result (λ verdict. verdict_among (registrar N.receipts).verdicts item ≡ Some verdict) }
{
    let first_place = place_of(round.queues, first)?;
    let first_queue = queue_at(round, first_place, first)?;
    let second_place = place_of(round.queues, second)?;
    let second_queue = queue_at(round, second_place, second)?;
    let mut first_lock = round.folios.get(first_place)?.lock(rt);
    let mut second_lock = round.folios.get(second_place)?.lock(rt);
    gate.at(item);
    let here = &mut first_lock.marked.folio;
    let there = &mut second_lock.marked.folio;
    if here.folio() != first || there.folio() != second {
        return None;
    }
    LockedFolio::settle_both(
        here,
        there,
        pair,
        spare,
        round.journal,
        first_queue,
        second_queue,
        item,
    )
}

/// The items of the folio whose queue stands at this place; None where another's does.
fn queue_at<'a, N: JournalName, W: RowName>(
    round: &SharedRound<'a, N, W>,
    place: usize,
    folio: FolioId,
) -> Option<&'a [ReceiptNo]>
    ensures { IfSome result (λ queue. queue.now ≡ queue_of N.receipts folio) }
{
    let queue = round.queues.get(place)?;
    if queue.folio != folio {
        return None;
    }
    Some(queue.items.as_slice())
}
