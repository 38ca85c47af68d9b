//! Which journals one desk settles, however many there are.
//! Why so: docs/DECISIONS.md, "Which journals one desk settles".

use act_model::{Item, Journal, Receipt, Subject};
use gb_base::FolioId;

/// With more acts than this for each receipt, on average, one desk settles: the room for a round then
/// takes longer to make than other desks save.
const MANY_ACTS: usize = 4;

/// Whether one desk settles the journal: there is no other; or all items are of one folio, so that
/// the others would wait for it; or the items have many acts, whose keys need much room beforehand.
pub(crate) fn is_for_one_desk(journal: &Journal, desks: u16) -> bool {
    desks == 1 || names_one_folio(journal.receipts()) || has_many_acts(journal.receipts())
}

/// Whether there are more than so many acts for each of these receipts.
fn has_many_acts(receipts: &[Receipt]) -> bool {
    let mut acts: usize = 0;
    for receipt in receipts {
        acts = acts.saturating_add(count_acts(&receipt.item));
    }
    acts > receipts.len().saturating_mul(MANY_ACTS)
}

/// How many acts an item has; an item that is no filing has none.
fn count_acts(item: &Item) -> usize {
    match item {
        Item::Filing(filing) => filing.acts.list().len(),
        _ => 0,
    }
}

/// Whether all that these receipts name, in each of their acts, is one folio.
fn names_one_folio(receipts: &[Receipt]) -> bool {
    match first_named(receipts) {
        Some(only) => receipts
            .iter()
            .all(|receipt| names_no_other(&receipt.item, only)),
        None => true,
    }
}

/// The folio that these receipts name first.
fn first_named(receipts: &[Receipt]) -> Option<FolioId> {
    for receipt in receipts {
        let named = folio_named(&receipt.item);
        if named.is_some() {
            return named;
        }
    }
    None
}

/// The folio that an item names, or its first act; None of an item that names a filing, which is of the
/// folio of that filing.
fn folio_named(item: &Item) -> Option<FolioId> {
    match item {
        Item::Filing(filing) => match filing.acts.list().first() {
            Some(act) => Some(act.folio()),
            None => None,
        },
        _ => match item.subject() {
            Subject::Sale(folio) | Subject::Claims(folio) => Some(folio),
            Subject::Itself | Subject::Filing(_) => None,
        },
    }
}

/// Whether neither an item nor one of its acts names another folio than this one.
fn names_no_other(item: &Item, only: FolioId) -> bool {
    match item {
        Item::Filing(filing) => filing.acts.list().iter().all(|act| act.folio() == only),
        _ => item.named_filing().is_some() || folio_named(item) == Some(only),
    }
}
