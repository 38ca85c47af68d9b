//! The board that hands out the items whose turn has come.
//! Why so: docs/DECISIONS.md, "The board is trusted for nothing".
ghost use Rattle.std.specs.Prelude.{◌≡◌, ◌==◌, ◌&&◌, Some, IfSome, is_some, length};
ghost use Rattle.std.specs.List.{list_all};
ghost use Rattle.desk_pool.specs.inner.Boards.{AreVerdicts};
ghost use Rattle.registrar.specs.RegisterState.{verdict_among};
ghost use Rattle.registrar.specs.Settling.{registrar};

use crate::folio_queues::{FolioQueue, place_of};
use crate::preparing::no_verdicts;
use act_model::JournalName;
use conflict_queue::Docket;
use gb_base::{FolioId, Key, NoMemory, ReceiptNo};
use registrar::Verdict;
use std::alloc::Global;
use std::marker::{Model, PhantomData};

/// What desks share beside the folios: the items that are ready, and what became of those that are
/// settled. Each verdict that it says is the one registrar's of the named journal. Of what it hands
/// out no clause speaks: a desk finds in the folio whether an item's turn has come.
#[derive(Drop)]
pub(crate) struct Board<N: JournalName> {
    verdicts: Vec<Verdict>,
    /// Whether the verdict of each item is said.
    said: Vec<bool>,
    /// The items whose turn has come in all their folios, and that no desk has taken.
    ready: Vec<ReceiptNo>,
    /// For each item, in how many folios its turn is still to come.
    waits: Vec<u8>,
    /// For each folio, how many of its items are settled.
    settled: Vec<usize>,
    /// How many items desks have in hand.
    in_hand: usize,
    /// How many desks wait.
    waiting: usize,
    of: PhantomData<N>,
}

impl<N: JournalName> Model for Board<N> {
    ghost use Rattle.desk_pool.specs.inner.Boards.{AreSaid, BoardState};

    ghost Value = { BoardState };

    ghost view = { λ a. record { verdicts = a.verdicts.items; said = a.said.items } };

    ghost invariant = { λ a. AreSaid N.receipts a.verdicts.items a.said.items };
}

impl<N: JournalName> Board<N> {
    /// The board of a journal, on which nothing is said yet; these are the journal's items. Those that touch
    /// no key are ready, and so is the first of each folio, as far as its other folio lets it. May run out
    /// of memory (NoMemory).
    pub fn new(
        alloc: Global,
        docket: &Docket,
        queues: &[FolioQueue],
        items: &[ReceiptNo],
    ) -> Result<Board<N>, NoMemory> {
        let mut board = Board {
            verdicts: no_verdicts(alloc, items.len())?,
            said: vec![in alloc; false; items.len()]?,
            ready: Vec::with_capacity(alloc, items.len())?,
            waits: count_folios(alloc, docket, items)?,
            settled: vec![in alloc; 0; queues.len()]?,
            in_hand: 0,
            waiting: 0,
            of: PhantomData,
        };
        board.begin_nowhere(items);
        board.begin_in(queues);
        Ok(board)
    }

    /// The items that touch no folio are ready.
    fn begin_nowhere(&mut self, items: &[ReceiptNo]) {
        for item in items {
            if self.waits.get(item.get() as usize - 1) == Some(&0) {
                self.push_ready(*item);
            }
        }
    }

    /// The turn of the first item of each folio comes.
    fn begin_in(&mut self, queues: &[FolioQueue]) {
        for queue in queues {
            if let Some(item) = queue.items.first() {
                self.comes(*item);
            }
        }
    }

    /// The verdicts, where each is said: then they are those of the one registrar.
    pub fn into_verdicts(self) -> Option<Vec<Verdict>>
        ensures all_said { is_some result ≡ (length self.said == length self.verdicts && list_all (λ one. one) self.said) }
        ensures verdicts { IfSome result (λ verdicts. AreVerdicts N.receipts verdicts.items) }
    {
        if self.said.len() != self.verdicts.len() || !are_all_said(self.said.as_slice()) {
            return None;
        }
        Some(self.verdicts)
    }

    /// Whether a desk that asks for an item has to wait: none is ready, and others have items in
    /// hand after which some may be.
    pub fn must_wait(&self) -> bool {
        self.ready.is_empty() && self.in_hand > 0
    }

    /// Whether desks wait that no longer have to.
    pub fn wakes_others(&self) -> bool {
        self.waiting > 0 && !self.must_wait()
    }

    /// A desk begins to wait.
    pub fn begin_waiting(&mut self) {
        self.waiting = self.waiting.saturating_add(1);
    }

    /// A desk waits no longer.
    pub fn end_waiting(&mut self) {
        self.waiting = self.waiting.saturating_sub(1);
    }

    /// Hands out an item that is ready: the one that became ready last, as it is at the end of a list.
    /// Which one a desk takes changes nothing.
    pub fn take(&mut self) -> Option<ReceiptNo> {
        let item = self.ready.pop()?;
        self.in_hand = self.in_hand.saturating_add(1);
        Some(item)
    }

    /// Takes an item back that a desk had in hand. Where it is settled its verdict is said, and the
    /// turn of the next item comes in each of its folios. `keys` are the keys of the item.
    pub fn put(
        &mut self,
        queues: &[FolioQueue],
        keys: &[Key],
        item: ReceiptNo,
        verdict: Option<Verdict>,
    )
        requires { IfSome verdict (λ verdict. verdict_among (registrar N.receipts).verdicts item ≡ Some verdict) }
    {
        self.in_hand = self.in_hand.saturating_sub(1);
        if let Some(verdict) = verdict {
            self.say(item, verdict);
            self.next_in_each(queues, keys);
        }
    }

    /// Says what became of an item.
    fn say(&mut self, item: ReceiptNo, verdict: Verdict)
        requires { verdict_among (registrar N.receipts).verdicts item ≡ Some verdict }
    {
        let index = item.get() as usize - 1;
        if index < self.verdicts.len() && index < self.said.len() {
            self.verdicts[index] = verdict;
            self.said[index] = true;
        }
    }

    /// The next item's turn comes in each folio of these keys, which are those of one or two folios.
    fn next_in_each(&mut self, queues: &[FolioQueue], keys: &[Key]) {
        if let (Some(first), Some(last)) = (keys.first(), keys.last()) {
            let folio = first.folio();
            let other = last.folio();
            self.next_in(queues, folio);
            if other != folio {
                self.next_in(queues, other);
            }
        }
    }

    /// The turn of the folio's next item comes.
    fn next_in(&mut self, queues: &[FolioQueue], folio: FolioId) {
        let Some(place) = place_of(queues, folio) else {
            return;
        };
        let Some(settled) = self.settled.get_mut(place) else {
            return;
        };
        *settled = settled.saturating_add(1);
        let next = *settled;
        if let Some(item) = queues[place].items.get(next) {
            self.comes(*item);
        }
    }

    /// The item's turn comes in one more of its folios; with the last of them it is ready.
    fn comes(&mut self, item: ReceiptNo) {
        let Some(waits) = self.waits.get_mut(item.get() as usize - 1) else {
            return;
        };
        *waits = waits.saturating_sub(1);
        if *waits == 0 {
            self.push_ready(item);
        }
    }

    /// The item is ready.
    fn push_ready(&mut self, item: ReceiptNo) {
        if self.ready.len() < self.ready.capacity() {
            self.ready.push_reserved(item);
        }
    }
}

/// Whether the verdict of each item is said.
fn are_all_said(said: &[bool]) -> bool
    ensures { result ≡ list_all (λ one. one) said.now }
{
    said.iter().all(|one| *one)
}

/// For each of these items, how many folios it touches.
fn count_folios(alloc: Global, docket: &Docket, items: &[ReceiptNo]) -> Result<Vec<u8>, NoMemory> {
    let mut counts = Vec::with_capacity(alloc, items.len())?;
    for item in items {
        counts.push(folio_count(docket, *item))?;
    }
    Ok(counts)
}

/// How many folios an item touches: none, one or two.
fn folio_count(docket: &Docket, item: ReceiptNo) -> u8 {
    if item.get() as usize > docket.len() {
        return 0;
    }
    let keys = docket.keys(item);
    match (keys.first(), keys.last()) {
        (Some(first), Some(last)) if first.folio() != last.folio() => 2,
        (Some(_), _) => 1,
        (None, _) => 0,
    }
}
