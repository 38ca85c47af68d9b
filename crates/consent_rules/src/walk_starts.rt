//! Where the second walk over those who wait at a right begins. This is for speed alone: the walks
//! come round to all who wait, so no clause says which filing is found.
ghost use Rattle.std.specs.Prelude.{◌≤◌};

use crate::lacks::Lack;
use act_model::{Doc, Item, Journal};
use folio_sections::RightPart;
use gb_base::ReceiptNo;

/// A filing before this one that waits at the right. It is one of the last person who has such a
/// filing, among those who consent in the item with which the filing is judged. Where nobody has
/// one, it is this filing itself.
pub fn start(journal: &Journal, before: ReceiptNo, part: &RightPart, lack: &Lack) -> ReceiptNo
    ensures { result ≤ before }
{
    match filing_of_last(journal, before, part, lack) {
        // It is before this one in any case; the lower one is taken for the clause.
        Some(filing) => lower(filing, before),
        None => before,
    }
}

/// The lower one of two numbers.
fn lower(a: ReceiptNo, b: ReceiptNo) -> ReceiptNo
    ensures { result ≤ b }
{
    if a < b { a } else { b }
}

/// The filing that waits of the last person who has one, among those who consent to the act in the
/// item with which the filing is judged.
fn filing_of_last(
    journal: &Journal,
    before: ReceiptNo,
    part: &RightPart,
    lack: &Lack,
) -> Option<ReceiptNo> {
    let (Lack::Consent(matter, act) | Lack::Form(matter, act)) = lack;
    let receipt = matter.journal.get(matter.item)?;
    docs_in(&receipt.item)
        .iter()
        .filter_map(|doc| waiting_filing(doc, *act, journal, before, part))
        .last()
}

/// The documents of a filing or a cure; none of another item.
fn docs_in(item: &Item) -> &[Doc] {
    match item {
        Item::Filing(filing) => filing.docs.list(),
        Item::Cure { docs, .. } => docs.list(),
        _ => &[],
    }
}

/// A filing that waits of the person who consents to the act in this document; None where there is
/// none.
fn waiting_filing(
    doc: &Doc,
    number: u8,
    journal: &Journal,
    before: ReceiptNo,
    part: &RightPart,
) -> Option<ReceiptNo> {
    match doc {
        Doc::Consent { act, person, .. } if *act == number => {
            last_or_first(journal.filings_of(*person), before, part)
        }
        _ => None,
    }
}

/// Of these filings before this one, the last where it waits at the right, else the first where it
/// does. Most persons have one filing, or file elsewhere only before it or only after it.
fn last_or_first(filings: &[ReceiptNo], before: ReceiptNo, part: &RightPart) -> Option<ReceiptNo> {
    let below = filings.partition_point(|filing| *filing < before);
    match &filings[..below] {
        [.., last] if part.pending(*last).is_some() => Some(*last),
        [first, ..] if part.pending(*first).is_some() => Some(*first),
        _ => None,
    }
}
