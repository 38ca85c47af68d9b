//! The journal of the office.
//! Why so: docs/DECISIONS.md, "Room is kept for one item".
ghost use Rattle.std.specs.Prelude.{◌≡◌, None, Some, ◌⊎◌, ◌≤◌, ◌+◌, ◌-◌, ◌*◌, true, false, [], option_map, position, length, drop, IsTrue, IsOk, IsSome, OnOk, OnErr, IfSome};
ghost use Rattle.std.specs.Option.{option_copied};
ghost use Rattle.act_model.specs.Receiving.{answer_again, stamp_after, IsJournal};
ghost use Rattle.gb_base.specs.RightNo.{same_right};
ghost use Rattle.act_model.specs.Limits.{most_receipts};
ghost use Rattle.act_model.specs.inner.CreationOrder.{Rises};
ghost use Rattle.act_model.specs.inner.Index.{IsIndexOf, IsIndexed};

use crate::cure_documents::CureDocuments;
use crate::filings::folio_of_right;
use crate::item_indexes::ItemIndexes;
use crate::{Added, Item, Receipt};
use gb_base::{Day, FolioId, NoMemory, Person, ReceiptNo, RightId, Stamp};
use std::alloc::Global;
use std::collections::BTreeMap;
use std::marker::Model;

/// How many creating acts a folio has at most, whatever became of their filings.
pub const MOST_CREATIONS: usize = 256;

/// The receipts of the office, numbered from 1 (GBO § 13): at most 200,000, no two of the same
/// sender and reference, with stamps that never fall. In contracts it is the list of its receipts,
/// and the item for whose receipt room is kept.
///
/// ```
/// let mut journal = Journal::new(alloc);
/// if well_formed(&item) {
///     // Sender 1 calls the item 5.
///     match journal.add(stamp, 1, 5, &item) {
///         Added::Accepted(n) => assert!(journal.find(1, 5) == Some(n)),
///         Added::Repeated(_) | Added::Differs(_) => {}
///         Added::Full | Added::Memory => {}
///     }
/// }
/// ```
#[derive(Drop)]
pub struct Journal {
    receipts: Vec<Receipt>,
    /// The numbers of the first `indexed` receipts by sender and reference. A map takes memory
    /// for each new key, so it may lag by the last receipt until the next call that may take memory.
    numbers: BTreeMap<(u32, u64), ReceiptNo>,
    indexed: usize,
    /// What follows from what the receipts say. These indexes take a receipt into room that is kept,
    /// without memory, so they never lag.
    indexes: ItemIndexes,
    /// The item for whose receipt there is room in all of these. Where there is one, no index lags.
    ready_for: Option<Item>,
}

impl Model for Journal {
    ghost use Rattle.std.specs.Prelude.{vec_len, vec_capacity};
    ghost use Rattle.act_model.specs.JournalState.{JournalState};
    ghost use Rattle.act_model.specs.Receiving.{IsJournal};
    ghost use Rattle.act_model.specs.inner.Index.{IsIndexed};
    ghost use Rattle.act_model.specs.inner.ItemIndexes.{AreIndexesOf, IsReady};

    ghost Value = { JournalState };

    ghost view = { λ a. record { receipts = a.receipts.items; ready_for = a.ready_for } };

    ghost invariant = { λ a. IsJournal a.receipts.items × IsIndexed a.numbers a.indexed a.receipts.items × AreIndexesOf a.indexes a.receipts.items × IsReady a.ready_for a.indexes a.indexed (vec_len a.receipts) (vec_capacity a.receipts) };
}

impl Journal {
    ghost use Rattle.act_model.specs.Receiving.{answer_by, answer_to, day_of, journal_with, number_from, number_of, receipt_at, is_accepted, IsJournal};
    ghost use Rattle.act_model.specs.Creations.{creating_rank, creations_in};
    ghost use Rattle.act_model.specs.Cures.{cures_of};
    ghost use Rattle.act_model.specs.Filings.{filings_of};
    ghost use Rattle.act_model.specs.inner.CureDocuments.{AreDocumentsOf};
    ghost use Rattle.act_model.specs.JournalState.{has_room};
    ghost use Rattle.gb_base.specs.DayMinute.{IsStampDay};
    ghost use Rattle.gb_base.specs.Limits.{last_stamp_day};
    ghost use Rattle.act_model.specs.WellFormed.{well_formed};

    /// The most receipts that a journal holds.
    pub const MAX: usize = 200_000;

    /// The empty journal.
    pub fn new(alloc: Global) -> Journal
        ensures { result.receipts ≡ [] }
    {
        Journal {
            receipts: Vec::new(alloc),
            numbers: BTreeMap::new(alloc),
            indexed: 0,
            indexes: ItemIndexes::new(alloc),
            ready_for: None,
        }
    }

    /// The number of receipts.
    pub fn len(&self) -> u32
        ensures value { result ≡ length self.now.receipts }
        ensures limit { length self.now.receipts ≤ most_receipts }
        ensures journal { IsJournal self.now.receipts }
    {
        self.receipts.len() as u32
    }

    /// All receipts, in the order of their numbers.
    pub fn receipts(&self) -> &[Receipt]
        ensures value { result.now ≡ self.now.receipts }
        ensures journal { IsJournal self.now.receipts }
    {
        self.receipts.as_slice()
    }

    /// Receipt n; None above the last one.
    pub fn get(&self, n: ReceiptNo) -> Option<&Receipt>
        ensures value { option_copied result ≡ receipt_at self.now.receipts n }
        ensures well { IfSome result (λ receipt. IsTrue (well_formed receipt.now.item)) }
    {
        self.receipts.as_slice().get(n.get() as usize - 1)
    }

    /// The stamp day of receipt n; day 0 above the last one.
    pub fn day_of(&self, n: ReceiptNo) -> Day
        ensures value { result ≡ day_of self.now.receipts n }
        ensures last { result ≤ last_stamp_day }
        ensures stamp_day { IsSome (receipt_at self.now.receipts n) → IsStampDay result }
    {
        match self.get(n) {
            Some(receipt) => receipt.stamp.day(),
            None => Day::new(0).unwrap(),
        }
    }

    /// The number of the receipt of this sender and reference; None where there is none.
    pub fn find(&self, sender: u32, reference: u64) -> Option<ReceiptNo>
        ensures { result ≡ number_of sender reference self.now.receipts }
    {
        match self.numbers.get(&(sender, reference)) {
            Some(n) => Some(*n),
            None => self.find_waiting(sender, reference),
        }
    }

    /// The number of the last receipt, where it is of this sender and reference: the index may lag
    /// by it.
    fn find_waiting(&self, sender: u32, reference: u64) -> Option<ReceiptNo>
        ensures { result ≡ number_from (length self.now.receipts) sender reference (drop (length self.now.receipts - 1) self.now.receipts) }
    {
        match self.receipts.as_slice().last() {
            Some(last) if last.sender == sender && last.reference == reference => {
                ReceiptNo::new(self.len())
            }
            _ => None,
        }
    }

    /// The numbers of the cures of filing n that come after it, ascending.
    pub fn cures_of(&self, n: ReceiptNo) -> &[ReceiptNo]
        ensures { result.now ≡ cures_of self.now.receipts n }
    {
        self.indexes.cures_of(n)
    }

    /// The creating acts of the folio, by receipt and act, whatever became of them.
    pub fn creations_in(&self, folio: FolioId) -> &[RightId]
        ensures value { result.now ≡ creations_in self.now.receipts folio }
        ensures few { length result.now ≤ 8 * most_receipts }
    {
        self.indexes.creations_in(folio)
    }

    /// The numbers of the filings of the applicant, ascending.
    pub fn filings_of(&self, applicant: Person) -> &[ReceiptNo]
        ensures { result.now ≡ filings_of self.now.receipts applicant }
    {
        self.indexes.filings_of(applicant)
    }

    /// What cures bring for earlier filings.
    pub(crate) fn cure_documents(&self) -> &CureDocuments
        ensures { AreDocumentsOf result.now self.now.receipts }
    {
        self.indexes.documents()
    }

    /// The number, from 1, of the right's creating act among all creating acts of its folio; None
    /// where the journal has no such act.
    pub fn creating_rank(&self, right: RightId) -> Option<u32>
        ensures { result ≡ creating_rank self.now.receipts right }
    {
        let folio = folio_of_right(self, right)?;
        rank_among(self.creations_in(folio), right)
    }

    /// The stamp that a receipt gets after the last one: the last one's where that is later.
    pub fn next_stamp(&self, stamp: Stamp) -> Stamp
        ensures { result ≡ stamp_after self.now.receipts stamp }
    {
        match self.receipts.as_slice().last() {
            Some(last) if stamp < last.stamp => last.stamp,
            _ => stamp,
        }
    }

    /// Keeps room for one receipt of this item: the next `add`, if it is of the same item, does not
    /// answer `Memory`. Room that was kept for another item is given up. Where no memory is found
    /// the journal is unchanged.
    pub fn reserve_one(&mut self, item: &Item) -> Result<(), NoMemory>
        ensures receipts { self.new.receipts ≡ self.old.receipts }
        ensures room { OnOk result (IsTrue (has_room self.new item.now)) }
        ensures unchanged { OnErr result (self.new ≡ self.old) }
        ensures succeeds { IsTrue (has_room self.old item.now) → IsOk result }
    {
        if self.is_ready_for(item) {
            return Ok(());
        }
        index_waiting(&mut self.numbers, self.indexed, self.receipts.as_slice())?;
        self.indexed = self.receipts.len();
        self.receipts.reserve(1)?;
        let n = ReceiptNo::new(self.len() + 1).unwrap();
        self.indexes.reserve(n, item)?;
        self.ready_for = Some(item.copy());
        Ok(())
    }

    /// Whether room is kept for a receipt of this item.
    fn is_ready_for(&self, item: &Item) -> bool
        ensures { result ≡ has_room self.now item.now }
    {
        match &self.ready_for {
            Some(ready) => *ready == *item,
            None => false,
        }
    }

    /// Receives an item. One number acts once: an item whose sender and reference stand already is
    /// answered with the number under which they stand. The stamp is the last receipt's where that
    /// is later. Memory runs out (`Memory`) only where the item would be accepted and no room is
    /// kept for it; then nothing changes. An accepted item takes up the room that was kept.
    pub fn add(&mut self, stamp: Stamp, sender: u32, reference: u64, item: &Item) -> Added
        requires { IsTrue (well_formed item.now) }
        ensures answer { (result ≡ answer_to self.old.receipts sender reference item.now)
            ⊎ ((result ≡ Added.Memory) × (is_accepted (answer_to self.old.receipts sender reference item.now) ≡ true)) }
        ensures room { IsTrue (has_room self.old item.now) → result ≡ answer_to self.old.receipts sender reference item.now }
        ensures journal { self.new.receipts ≡ journal_with self.old.receipts stamp sender reference item.now result }
        ensures spent { is_accepted result ≡ true → self.new.ready_for ≡ None }
        ensures unchanged { is_accepted result ≡ false → self.new ≡ self.old }
    {
        match self.find(sender, reference) {
            Some(n) => answer_again(self.get(n), n, item),
            None => self.add_new(stamp, sender, reference, item),
        }
    }

    /// Receives an item whose sender and reference do not stand yet.
    fn add_new(&mut self, stamp: Stamp, sender: u32, reference: u64, item: &Item) -> Added
        requires well { IsTrue (well_formed item.now) }
        requires unknown { number_of sender reference self.old.receipts ≡ None }
        ensures answer { (result ≡ answer_by self.old.receipts item.now None)
            ⊎ ((result ≡ Added.Memory) × (is_accepted (answer_by self.old.receipts item.now None) ≡ true)) }
        ensures room { IsTrue (has_room self.old item.now) → result ≡ answer_by self.old.receipts item.now None }
        ensures journal { self.new.receipts ≡ journal_with self.old.receipts stamp sender reference item.now result }
        ensures spent { is_accepted result ≡ true → self.new.ready_for ≡ None }
        ensures unchanged { is_accepted result ≡ false → self.new ≡ self.old }
    {
        let count = self.receipts.len();
        if count >= Journal::MAX {
            return Added::Full;
        }
        let n = ReceiptNo::new(count as u32 + 1).unwrap();
        if self.reserve_one(item).is_err() {
            return Added::Memory;
        }
        let stamp = self.next_stamp(stamp);
        self.indexes.add(n, item);
        let item = take_kept(&mut self.ready_for, item);
        self.receipts.push_reserved(Receipt {
            stamp,
            sender,
            reference,
            item,
        });
        Added::Accepted(n)
    }
}

/// Takes the copy of this item with which its room was kept, so that the item is not copied again.
fn take_kept(ready_for: &mut Option<Item>, item: &Item) -> Item
    requires { ready_for.old ≡ Some item.now }
    ensures item { result ≡ item.now }
    ensures spent { ready_for.new ≡ None }
{
    ready_for.take().unwrap()
}

/// Brings the last receipt into the index, if the index lags by it.
fn index_waiting(
    numbers: &mut BTreeMap<(u32, u64), ReceiptNo>,
    indexed: usize,
    receipts: &[Receipt],
) -> Result<(), NoMemory>
    requires journal { IsJournal receipts.now }
    requires index { IsIndexed numbers.old indexed receipts.now }
    ensures all { OnOk result (IsIndexOf numbers.new receipts.now) }
    ensures as_before { OnErr result (IsIndexed numbers.new indexed receipts.now) }
{
    match receipts.get(indexed) {
        Some(waiting) => {
            let n = ReceiptNo::new(indexed as u32 + 1).unwrap();
            numbers.insert((waiting.sender, waiting.reference), n)?;
            Ok(())
        }
        None => Ok(()),
    }
}

/// The number of the right, from 1, in a list that ascends; None where the list does not have it.
fn rank_among(rights: &[RightId], right: RightId) -> Option<u32>
    requires rising { Rises 0 0 rights.now }
    requires few { length rights.now ≤ 8 * most_receipts }
    ensures { result ≡ option_map (λ i. i + 1) (position (same_right right) rights.now) }
{
    match rights.binary_search(&right) {
        Ok(i) => Some(i as u32 + 1),
        Err(_) => None,
    }
}

/// The answer to an item whose sender and reference stand in receipt n.
fn answer_again(receipt: Option<&Receipt>, n: ReceiptNo, item: &Item) -> Added
    ensures { result ≡ answer_again item.now n (option_copied receipt.entry) }
{
    match receipt {
        Some(receipt) if receipt.item == *item => Added::Repeated(n),
        _ => Added::Differs(n),
    }
}

/// Does nothing. Whoever calls it knows what a journal is.
pub fn is_a_journal(journal: &Journal)
    ensures journal { IsJournal journal.now.receipts }
    ensures limit { length journal.now.receipts ≤ most_receipts }
{
    journal.len();
}

/// Takes any type whose values threads may hand on and share.
fn is_shared<T: Send + Sync>() {}

/// Threads may hand on a journal, and several may read one at the same time.
fn journals_are_shared() {
    is_shared::<Journal>();
}
