//! Filings of the journal, their acts, and the rights that these create.
ghost use Rattle.std.specs.Prelude.{◌≡◌, ◌≤◌, IsTrue, IfSome};
ghost use Rattle.std.specs.Option.{option_copied};
ghost use Rattle.gb_base.specs.Limits.{most_acts};
ghost use Rattle.act_model.specs.Creations.{folio_of_right};
ghost use Rattle.act_model.specs.WellFormed.{is_filing, well_formed};
ghost use Rattle.act_model.specs.Touches.{applicant_of, filing_in, filing_at, acts_of, act_at, created_in, created_before, new_right};

use crate::{Act, Filing, Item, Journal, RightSpec};
use gb_base::{FolioId, Person, ReceiptNo, RightId};

/// Filing m; None where receipt m is no filing.
pub fn filing_at(journal: &Journal, m: ReceiptNo) -> Option<&Filing>
    ensures value { option_copied result ≡ filing_at journal.now.receipts m }
    ensures well { IfSome result (λ filing. IsTrue (is_filing filing.now)) }
{
    match journal.get(m) {
        Some(receipt) => filing_in(&receipt.item),
        None => None,
    }
}

/// The filing that the item is.
fn filing_in(item: &Item) -> Option<&Filing>
    requires { IsTrue (well_formed item.now) }
    ensures value { option_copied result ≡ filing_in item.now }
    ensures well { IfSome result (λ filing. IsTrue (is_filing filing.now)) }
{
    match item {
        Item::Filing(filing) => Some(filing),
        _ => None,
    }
}

/// The acts of filing m; none where receipt m is no filing.
pub(crate) fn acts_of(journal: &Journal, m: ReceiptNo) -> &[Act]
    ensures { result.now ≡ acts_of journal.now.receipts m }
{
    match filing_at(journal, m) {
        Some(filing) => filing.acts.list(),
        None => &[],
    }
}

/// Act a of the filing, from 1; None above the last one.
pub(crate) fn act_at(filing: &Filing, a: u8) -> Option<&Act>
    requires { 1 ≤ a }
    ensures { option_copied result ≡ act_at filing.now a }
{
    filing.acts.list().get(a as usize - 1)
}

/// The right that act a of filing m creates, where it creates one.
pub fn new_right(m: ReceiptNo, a: u8) -> RightId
    requires from_one { 1 ≤ a }
    requires to_eight { a ≤ most_acts }
    ensures { result ≡ new_right m a }
{
    RightId::new(m, a).unwrap()
}

/// The folio in which the journal has the creating act of this right; None where it has none.
pub(crate) fn folio_of_right(journal: &Journal, right: RightId) -> Option<FolioId>
    ensures { result ≡ folio_of_right journal.now.receipts right }
{
    let filing = filing_at(journal, right.receipt())?;
    let act = act_at(filing, right.act())?;
    if act.right_created().is_some() {
        Some(act.folio())
    } else {
        None
    }
}

/// The right of this number as a filing before filing m creates it in this folio; None where none
/// does.
pub(crate) fn created_before(
    journal: &Journal,
    m: ReceiptNo,
    folio: FolioId,
    right: RightId,
) -> Option<RightSpec>
    ensures { result ≡ created_before journal.now.receipts m folio right }
{
    if right.receipt() >= m {
        return None;
    }
    let filing = filing_at(journal, right.receipt())?;
    let act = act_at(filing, right.act())?;
    created_in(folio, act)
}

/// The right that an act creates in this folio.
fn created_in(folio: FolioId, act: &Act) -> Option<RightSpec>
    ensures { result ≡ created_in folio act.now }
{
    if act.folio() == folio {
        act.right_created()
    } else {
        None
    }
}

/// The applicant of filing n; None where receipt n is no filing.
pub fn applicant_of(journal: &Journal, n: ReceiptNo) -> Option<Person>
    ensures { result ≡ applicant_of journal.now.receipts n }
{
    match filing_at(journal, n) {
        Some(filing) => Some(filing.applicant),
        None => None,
    }
}
