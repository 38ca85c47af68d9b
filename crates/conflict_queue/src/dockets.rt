//! The docket of a journal.
ghost use Rattle.std.specs.Prelude.{◌≡◌, ◌≤◌, ◌-◌, ◌++◌, ◌∷◌, [], map, length, OnOk, IfSome};
ghost use Rattle.std.specs.List.{range_with_len};
ghost use Rattle.conflict_queue.specs.Dockets.{keys_touched};
ghost use Rattle.conflict_queue.specs.ItemKeys.{keys_of_named};
ghost use Rattle.act_model.specs.SaleKeys.{keys_of_sale};
ghost use Rattle.conflict_queue.specs.inner.Sales.{AreSales, IsAhead, TouchesSame};

mod key_lists;
mod queues;

use crate::dockets::key_lists::KeyLists;
use crate::dockets::queues::{last_below, push_all, queue_at};
use crate::touched::{item_at, touches};
use act_model::{Journal, Subject, earlier_rights, filing_at};
use gb_base::{FolioId, Key, NoMemory, ReceiptNo};
use std::alloc::Global;
use std::collections::BTreeMap;
use std::marker::Model;

/// The keys of each item of a journal, and at each key the queue of the items that touch it: of two
/// that touch one key the earlier is to be settled first (GBO § 17). In contracts it is the keys of each item.
///
/// ```
/// let docket = Docket::build(alloc, &journal)?;
/// for key in docket.keys(item) {
///     // The item waits for this one: the last before it that touches the key.
///     let before: Option<ReceiptNo> = docket.previous(item, *key);
/// }
/// ```
#[derive(Drop)]
pub struct Docket {
    keys: KeyLists,
    queues: BTreeMap<Key, Vec<ReceiptNo>>,
}

impl Model for Docket {
    ghost use Rattle.std.specs.Prelude.{List};
    ghost use Rattle.gb_base.specs.declared.keys.Key.{Key};
    ghost use Rattle.conflict_queue.specs.inner.Queues.{AreQueuesOf};

    ghost Value = { List (List Key) };

    ghost view = { λ a. a.keys };

    ghost invariant = { λ a. AreQueuesOf a.queues a.keys };
}

impl Docket {
    ghost use Rattle.std.specs.Prelude.{◌≡◌, ◌-◌, ◌≤◌, List, Some, length, slice_get, IfOk};
    ghost use Rattle.act_model.specs.declared.receipts.Receipt.{Receipt};
    ghost use Rattle.conflict_queue.specs.Dockets.{docket_of, keys_touched, previous, previous_in};

    /// The docket of the journal. It may run out of memory (NoMemory).
    pub fn build(alloc: Global, journal: &Journal) -> Result<Docket, NoMemory>
        ensures docket { IfOk result (λ docket. docket ≡ docket_of journal.now.receipts) }
        ensures len { IfOk result (λ docket. length docket ≡ length journal.now.receipts) }
    {
        let mut keys = KeyLists::new(alloc);
        let mut sales = BTreeMap::new(alloc);
        let mut queues = BTreeMap::new(alloc);
        for index in 0..journal.len() {
            let item = ReceiptNo::new(index + 1).unwrap();
            add_keys(alloc, &mut keys, &mut sales, journal, item)?;
            push_all(alloc, &mut queues, keys.get(index as usize), item)?;
        }
        Ok(Docket { keys, queues })
    }

    /// The number of items.
    pub fn len(&self) -> usize
        ensures { result ≡ length self.now }
    {
        self.keys.len()
    }

    /// The keys that item i touches, in ascending order, each once. It takes no memory and cannot
    /// fail.
    pub fn keys(&self, i: ReceiptNo) -> &[Key]
        requires { i ≤ length self.now }
        ensures value { slice_get self.now (i - 1) ≡ Some result.now }
        ensures touched { (journal : List Receipt) → self.now ≡ docket_of journal → result.now ≡ keys_touched journal i }
    {
        self.keys.get(i.get() as usize - 1)
    }

    /// The greatest item below item i that touches the key; None where there is none. It takes no
    /// memory and cannot fail.
    pub fn previous(&self, i: ReceiptNo, key: Key) -> Option<ReceiptNo>
        requires { i ≤ length self.now }
        ensures value { result ≡ previous_in self.now i key }
        ensures touched { (journal : List Receipt) → self.now ≡ docket_of journal → result ≡ previous journal i key }
    {
        last_below(queue_at(&self.queues, key), i)
    }
}

/// Adds the keys of the next item.
fn add_keys(
    alloc: Global,
    keys: &mut KeyLists,
    sales: &mut BTreeMap<u32, ReceiptNo>,
    journal: &Journal,
    item: ReceiptNo,
) -> Result<(), NoMemory>
    requires received { item ≤ length journal.now.receipts }
    requires so_far { keys.old ≡ map (keys_touched journal.now.receipts) (range_with_len 1 (item - 1)) }
    requires sales { AreSales journal.now.receipts (item - 1) sales.old }
    ensures keys { OnOk result (keys.new ≡ keys.old ++ keys_touched journal.now.receipts item ∷ []) }
    ensures sales { OnOk result (AreSales journal.now.receipts item sales.new) }
{
    push_keys(alloc, keys, sales, journal, item)?;
    note_sale(sales, journal, item)
}

/// Adds the keys of the next item. Where an earlier item at hand touches these keys too, both share
/// one list.
fn push_keys(
    alloc: Global,
    keys: &mut KeyLists,
    sales: &BTreeMap<u32, ReceiptNo>,
    journal: &Journal,
    item: ReceiptNo,
) -> Result<(), NoMemory>
    requires received { item ≤ length journal.now.receipts }
    requires so_far { keys.old ≡ map (keys_touched journal.now.receipts) (range_with_len 1 (item - 1)) }
    requires sales { AreSales journal.now.receipts (item - 1) sales.now }
    ensures { OnOk result (keys.new ≡ keys.old ++ keys_touched journal.now.receipts item ∷ []) }
{
    match touched_alike(keys, sales, journal, item) {
        Some(earlier) => keys.share(earlier.get() as usize - 1),
        None => keys.push(touches(alloc, journal, item)?),
    }
}

/// An earlier item that touches the same keys, where one is at hand: the filing that the item
/// names, or the last item of the sale, unless the sale has more rights since.
fn touched_alike(
    keys: &KeyLists,
    sales: &BTreeMap<u32, ReceiptNo>,
    journal: &Journal,
    item: ReceiptNo,
) -> Option<ReceiptNo>
    requires received { item ≤ length journal.now.receipts }
    requires so_far { keys.now ≡ map (keys_touched journal.now.receipts) (range_with_len 1 (item - 1)) }
    requires sales { AreSales journal.now.receipts (item - 1) sales.now }
    ensures { IfSome result (λ j. TouchesSame journal.now.receipts item j) }
{
    match item_at(journal, item).subject() {
        Subject::Filing(filing) => earlier_filing(journal, item, filing),
        Subject::Sale(folio) => last_of_sale(keys, sales, journal, item, folio),
        Subject::Itself | Subject::Claims(_) => None,
    }
}

/// The filing that item n names, where it is a filing before item n.
fn earlier_filing(journal: &Journal, n: ReceiptNo, filing: ReceiptNo) -> Option<ReceiptNo>
    ensures { IfSome result (λ m. IsAhead journal.now.receipts n m (keys_of_named journal.now.receipts n filing)) }
{
    if filing >= n {
        return None;
    }
    filing_at(journal, filing)?;
    Some(filing)
}

/// The last item that touched all keys of a sale of the folio, where it touches as many rights as
/// item n finds.
fn last_of_sale(
    keys: &KeyLists,
    sales: &BTreeMap<u32, ReceiptNo>,
    journal: &Journal,
    n: ReceiptNo,
    folio: FolioId,
) -> Option<ReceiptNo>
    requires so_far { keys.now ≡ map (keys_touched journal.now.receipts) (range_with_len 1 (n - 1)) }
    requires sales { AreSales journal.now.receipts (n - 1) sales.now }
    ensures { IfSome result (λ j. IsAhead journal.now.receipts n j (keys_of_sale journal.now.receipts n folio)) }
{
    let last = *sales.get(&folio.get())?;
    let touched = keys.get(last.get() as usize - 1).len();
    // Besides its rights, an item of a sale touches the title and the sale itself.
    if touched != earlier_rights(journal, n, folio).len() + 2 {
        return None;
    }
    Some(last)
}

/// Notes the item as the last one of a sale, where it touches all keys of one.
fn note_sale(
    sales: &mut BTreeMap<u32, ReceiptNo>,
    journal: &Journal,
    item: ReceiptNo,
) -> Result<(), NoMemory>
    requires received { item ≤ length journal.now.receipts }
    requires sales { AreSales journal.now.receipts (item - 1) sales.old }
    ensures { OnOk result (AreSales journal.now.receipts item sales.new) }
{
    if let Subject::Sale(folio) = item_at(journal, item).subject() {
        sales.insert(folio.get(), item)?;
    }
    Ok(())
}

/// Takes any type whose values threads may hand on and share.
fn is_shared<T: Send + Sync>() {}

/// Threads may hand on a docket, and several may read one at the same time.
fn dockets_are_shared() {
    is_shared::<Docket>();
}
