//! The keys that an item touches.
ghost use Rattle.std.specs.Prelude.{◌≡◌, ◌≤◌, Some, length, option_map, IfOk};
ghost use Rattle.act_model.specs.Receiving.{receipt_at};
ghost use Rattle.act_model.specs.Touches.{in_key_order};
ghost use Rattle.conflict_queue.specs.Dockets.{keys_touched};
ghost use Rattle.conflict_queue.specs.ItemKeys.{keys_by_item, keys_by_subject, keys_of_named};
ghost use Rattle.act_model.specs.SaleKeys.{keys_of_sale};

use act_model::{Item, Journal, Subject, earlier_rights, filing_keys};
use gb_base::{FolioId, Key, NoMemory, ReceiptNo};
use std::alloc::Global;

/// The keys that item n touches, in ascending order, each once (GBO § 17). They follow from the
/// receipts up to it alone. This may run out of memory (NoMemory).
pub fn touches(alloc: Global, journal: &Journal, n: ReceiptNo) -> Result<Vec<Key>, NoMemory>
    requires { n ≤ length journal.now.receipts }
    ensures { IfOk result (λ keys. keys.items ≡ keys_touched journal.now.receipts n) }
{
    keys_by_item(alloc, journal, n, item_at(journal, n))
}

/// What receipt n holds.
pub(crate) fn item_at(journal: &Journal, n: ReceiptNo) -> &Item
    requires { n ≤ length journal.now.receipts }
    ensures { option_map (λ r. r.item) (receipt_at journal.now.receipts n) ≡ Some result.now }
{
    &journal.receipts()[n.get() as usize - 1].item
}

/// The keys of item n, where `item` is this item.
fn keys_by_item(
    alloc: Global,
    journal: &Journal,
    n: ReceiptNo,
    item: &Item,
) -> Result<Vec<Key>, NoMemory>
    ensures { IfOk result (λ keys. keys.items ≡ in_key_order (keys_by_item journal.now.receipts n item.now)) }
{
    keys_by_subject(alloc, journal, n, item.subject())
}

/// The keys of item n, which is about this.
fn keys_by_subject(
    alloc: Global,
    journal: &Journal,
    n: ReceiptNo,
    subject: Subject,
) -> Result<Vec<Key>, NoMemory>
    ensures { IfOk result (λ keys. keys.items ≡ in_key_order (keys_by_subject journal.now.receipts n subject)) }
{
    match subject {
        Subject::Itself => Vec::from_slice(alloc, filing_keys(journal, n).as_slice()),
        Subject::Filing(filing) => keys_of_named(alloc, journal, n, filing),
        Subject::Sale(folio) => keys_of_sale(alloc, journal, n, folio),
        Subject::Claims(folio) => Vec::from_slice(alloc, &[Key::Case(folio)]),
    }
}

/// The keys of the filing that item n names; none where that is not before item n.
fn keys_of_named(
    alloc: Global,
    journal: &Journal,
    n: ReceiptNo,
    filing: ReceiptNo,
) -> Result<Vec<Key>, NoMemory>
    ensures { IfOk result (λ keys. keys.items ≡ in_key_order (keys_of_named journal.now.receipts n filing)) }
{
    if filing < n {
        Vec::from_slice(alloc, filing_keys(journal, filing).as_slice())
    } else {
        Ok(Vec::new(alloc))
    }
}

/// The keys of a forced sale of the folio, as item n finds them: the title, the rights, the sale.
fn keys_of_sale(
    alloc: Global,
    journal: &Journal,
    n: ReceiptNo,
    folio: FolioId,
) -> Result<Vec<Key>, NoMemory>
    ensures { IfOk result (λ keys. keys.items ≡ in_key_order (keys_of_sale journal.now.receipts n folio)) }
{
    let rights = earlier_rights(journal, n, folio);
    let mut keys = Vec::with_capacity(alloc, rights.len() + 2)?;
    keys.push_reserved(Key::Title(folio));
    for right in rights {
        keys.push_reserved(Key::Right(folio, *right));
    }
    keys.push_reserved(Key::Case(folio));
    Ok(keys)
}
