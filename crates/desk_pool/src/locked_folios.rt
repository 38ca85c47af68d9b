//! A folio, as it lies behind its lock and stands in its row.
//! Why so: docs/DECISIONS.md, "A folio's items are settled in the order of receipts".
ghost use Rattle.std.specs.Prelude.{◌≡◌, ◌⊎◌, ◌+◌, ◌<◌, ◌==◌, ◌&&◌, Some, IfSome, IfNone, IsTrue, is_some, length, All};
ghost use Rattle.gb_base.specs.Keys.{folio_of_key};
ghost use Rattle.gb_base.specs.declared.keys.Key.{Key};
ghost use Rattle.conflict_queue.specs.ItemKeys.{keys_of_item};
ghost use Rattle.desk_pool.specs.FolioQueues.{is_key_of, is_next, queue_of};
ghost use Rattle.desk_pool.specs.FolioStates.{HasAllRoom, IsBehindLock, scratch_of};
ghost use Rattle.folio_sections.specs.Entries.{at};
ghost use Rattle.folio_sections.specs.Held.{entries_at, is_held, room_at};
ghost use Rattle.registrar.specs.RegisterState.{verdict_among};
ghost use Rattle.registrar.specs.Settling.{registrar};

use crate::folio_scratches::step_in_own;
use crate::pairs::FolioPair;
use act_model::{Journal, JournalName};
use folio_sections::MapParts;
use gb_base::{FolioId, ReceiptNo};
use kept_registers::laws::empty_register_is_kept;
use registrar::{Scratch, Verdict};
use std::marker::{Model, PhantomData};

/// A folio of a journal. Whenever its lock is free, its parts say what the one registrar of the named
/// journal leaves there after the last of the folio's items that are settled: so a desk that
/// settles an item out of turn, leaves an entry out or makes one up has no value to put back.
#[derive(Drop)]
pub(crate) struct LockedFolio<N: JournalName> {
    folio: FolioId,
    /// How many of the folio's items are settled.
    taken: usize,
    parts: MapParts,
    /// The scratch in which its lowest bids are computed; None where no item of the journal computes
    /// one there, and then the desk's scratch is used.
    scratch: Option<Scratch>,
    of: PhantomData<N>,
}

impl<N: JournalName> Model for LockedFolio<N> {
    ghost use Rattle.desk_pool.specs.FolioStates.{FolioState, IsBehindLock, scratch_of};

    ghost Value = { FolioState };

    ghost view = { λ a. record { folio = a.folio; taken = a.taken; parts = a.parts; scratch = scratch_of a.scratch } };

    ghost invariant = { λ a. IsBehindLock N.receipts (record { folio = a.folio; taken = a.taken; parts = a.parts; scratch = scratch_of a.scratch }) };
}

impl<N: JournalName> LockedFolio<N> {
    /// A folio of which no item is settled.
    pub fn new(folio: FolioId, parts: MapParts, scratch: Option<Scratch>) -> LockedFolio<N>
        requires { IsBehindLock N.receipts (record { folio = folio; taken = 0; parts = parts; scratch = scratch_of scratch }) }
        ensures { result ≡ record { folio = folio; taken = 0; parts = parts; scratch = scratch_of scratch } }
    {
        LockedFolio {
            folio,
            taken: 0,
            parts,
            scratch,
            of: PhantomData,
        }
    }

    /// The folio.
    pub fn folio(&self) -> FolioId
        ensures { result ≡ self.now.folio }
    {
        self.folio
    }

    /// How many of the folio's items are settled once this one is; None where it is not the folio's
    /// next. `queue` are the items of the folio.
    fn count_with(&self, queue: &[ReceiptNo], item: ReceiptNo) -> Option<usize>
        ensures next { is_some result ≡ is_next queue.now self.now.taken item }
        ensures count { IfSome result (λ n. n ≡ self.now.taken + 1) }
    {
        if queue.get(self.taken) == Some(&item) {
            Some(self.taken + 1)
        } else {
            None
        }
    }

    /// Settles an item that touches this folio alone, where it is the folio's next; else nothing
    /// changes. `queue` are the items of the folio. The step is made in the spare scratch where the
    /// folio has none of its own.
    pub fn settle(
        &mut self,
        spare: &mut Scratch,
        journal: &Journal,
        queue: &[ReceiptNo],
        item: ReceiptNo,
    ) -> Option<Verdict>
        requires named { journal.now.receipts ≡ N.receipts }
        requires queue { queue.now ≡ queue_of N.receipts self.old.folio }
        requires own { All (λ k. folio_of_key k ≡ self.old.folio) (keys_of_item N.receipts item) }
        ensures verdict { IfSome result (λ verdict. verdict_among (registrar N.receipts).verdicts item ≡ Some verdict) }
        ensures next { is_some result ≡ is_next queue.now self.old.taken item }
        ensures folio { self.new.folio ≡ self.old.folio }
        ensures taken { IfSome result (λ verdict. self.new.taken ≡ self.old.taken + 1) }
        ensures unchanged { IfNone result (self.new ≡ self.old) }
        ensures spare { spare.new ≡ spare.old }
    {
        empty_register_is_kept();
        let taken = self.count_with(queue, item)?;
        let verdict = step_in_own(&mut self.parts, &mut self.scratch, spare, journal, item);
        self.taken = taken;
        Some(verdict)
    }

    /// Settles an item that touches these two folios and no other, where it is the next of both;
    /// else nothing changes. The first has the lower number: in that order a desk locks them. The
    /// queues are the items of the first and of the second. The parts of both are moved into `pair`
    /// for the step, and back. It is made in the first folio's scratch, or in the spare one where
    /// that folio has none.
    pub fn settle_both(
        first: &mut LockedFolio<N>,
        second: &mut LockedFolio<N>,
        pair: &mut FolioPair,
        spare: &mut Scratch,
        journal: &Journal,
        first_queue: &[ReceiptNo],
        second_queue: &[ReceiptNo],
        item: ReceiptNo,
    ) -> Option<Verdict>
        requires named { journal.now.receipts ≡ N.receipts }
        requires first_queue { first_queue.now ≡ queue_of N.receipts first.old.folio }
        requires second_queue { second_queue.now ≡ queue_of N.receipts second.old.folio }
        requires in_order { first.old.folio < second.old.folio }
        requires own { All (λ k. (folio_of_key k ≡ first.old.folio) ⊎ (folio_of_key k ≡ second.old.folio)) (keys_of_item N.receipts item) }
        ensures verdict { IfSome result (λ verdict. verdict_among (registrar N.receipts).verdicts item ≡ Some verdict) }
        ensures next { is_some result ≡ (is_next first_queue.now first.old.taken item && is_next second_queue.now second.old.taken item) }
        ensures first_folio { first.new.folio ≡ first.old.folio }
        ensures second_folio { second.new.folio ≡ second.old.folio }
        ensures first_taken { IfSome result (λ verdict. first.new.taken ≡ first.old.taken + 1) }
        ensures second_taken { IfSome result (λ verdict. second.new.taken ≡ second.old.taken + 1) }
        ensures unchanged { IfNone result ((first.new ≡ first.old) × (second.new ≡ second.old)) }
        ensures pair { pair.new ≡ pair.old }
        ensures spare { spare.new ≡ spare.old }
    {
        empty_register_is_kept();
        let first_taken = first.count_with(first_queue, item)?;
        let second_taken = second.count_with(second_queue, item)?;
        pair.swap(&mut first.parts, &mut second.parts);
        let verdict = step_in_own(pair, &mut first.scratch, spare, journal, item);
        pair.swap(&mut first.parts, &mut second.parts);
        first.taken = first_taken;
        second.taken = second_taken;
        Some(verdict)
    }

    /// Whether all items of the folio are settled: `queue` are these. Its parts then say what the one
    /// registrar leaves there.
    pub fn is_done(&self, queue: &[ReceiptNo]) -> bool
        ensures value { result ≡ (self.now.taken == length queue.now) }
        ensures whole { IsTrue result → queue.now ≡ queue_of N.receipts self.now.folio
            → (k : Key) → IsTrue (is_held self.now.parts k) → entries_at self.now.parts k ≡ at (registrar N.receipts).entries k }
    {
        empty_register_is_kept();
        self.taken == queue.len()
    }

    /// The parts: at the folio's keys, and with room for all that the journal's items enter there.
    pub fn into_parts(self) -> MapParts
        ensures value { result ≡ self.parts }
        ensures held { (k : Key) → is_held result k ≡ is_key_of N.receipts self.folio k }
        ensures room { HasAllRoom N.receipts (is_held result) (entries_at result) (room_at result) }
    {
        self.parts
    }
}
