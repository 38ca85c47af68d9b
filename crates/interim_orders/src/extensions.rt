//! The extension of a deadline that is not over (GBO § 18(1)).
//! Why so: docs/DECISIONS.md, "Whether a filing waits is read at its first key".
ghost use Rattle.std.specs.Prelude.{◌≡◌, ◌≤◌, ◌<◌, ℕ, length, Contains, IsTrue, Some};
ghost use Rattle.gb_base.specs.declared.keys.Key.{Key};
ghost use Rattle.act_model.specs.Limits.{most_extension_days};
ghost use Rattle.act_model.specs.Receiving.{item_at};
ghost use Rattle.act_model.specs.Touches.{keys_of_filing};
ghost use Rattle.act_model.specs.WellFormed.{well_formed};
ghost use Rattle.act_model.specs.declared.items.Item.TheVariants.{Extend};
ghost use Rattle.folio_sections.specs.Adding.{AddsList, HasRoom};
ghost use Rattle.interim_orders.specs.Extensions.{answer_by_item, answer_to_extension, extended, extension_brought, extension_by, extension_by_item, extension_by_receipt};
ghost use Rattle.interim_orders.specs.declared.states.FilingState.TheVariants.{Pending};

use crate::answers::Extension;
use crate::orders::wait_until;
use crate::states::{FilingState, state};
use act_model::{Item, Journal};
use folio_sections::Parts;
use gb_base::{Day, ReceiptNo, deadline_after};

/// Answers an extension. Where the deadline of the filing that it names is not over, and the one that
/// is wanted is later, the filing waits until that one (GBO § 18(1)). It takes no memory and cannot
/// fail.
pub fn extend<P: Parts>(parts: &mut P, journal: &Journal, item: ReceiptNo) -> Extension
    requires received { item ≤ length journal.now.receipts }
    requires held { (m days : ℕ) → item_at journal.now.receipts item ≡ Some (Extend m days) → m < item
        → (k : Key) → Contains (keys_of_filing journal.now.receipts m) k → IsTrue (P.holds parts.old k) }
    requires room { HasRoom (P.room parts.old) (extension_by_receipt journal.now.receipts item (P.at parts.old)) }
    ensures answer { result ≡ answer_to_extension journal.now.receipts item (P.at parts.old) }
    ensures added { AddsList (P.at parts.old) (P.at parts.new) (P.room parts.old) (P.room parts.new) (extension_by_receipt journal.now.receipts item (P.at parts.old)) }
    ensures held { P.holds parts.new ≡ P.holds parts.old }
{
    match journal.get(item) {
        Some(receipt) => extend_by(parts, journal, item, &receipt.item),
        None => Extension::NotPending,
    }
}

/// Answers this item as an extension.
fn extend_by<P: Parts>(
    parts: &mut P,
    journal: &Journal,
    item: ReceiptNo,
    stated: &Item,
) -> Extension
    requires received { item ≤ length journal.now.receipts }
    requires well { IsTrue (well_formed stated.now) }
    requires held { (m days : ℕ) → stated.now ≡ Extend m days → m < item
        → (k : Key) → Contains (keys_of_filing journal.now.receipts m) k → IsTrue (P.holds parts.old k) }
    requires room { HasRoom (P.room parts.old) (extension_by_item journal.now.receipts item (P.at parts.old) stated.now) }
    ensures answer { result ≡ answer_by_item journal.now.receipts item (P.at parts.old) stated.now }
    ensures added { AddsList (P.at parts.old) (P.at parts.new) (P.room parts.old) (P.room parts.new) (extension_by_item journal.now.receipts item (P.at parts.old) stated.now) }
    ensures held { P.holds parts.new ≡ P.holds parts.old }
{
    match stated {
        Item::Extend { filing, days } => extend_to(parts, journal, item, *filing, *days),
        _ => Extension::NotPending,
    }
}

/// Answers the extension of the deadline of this filing to so many days after the item.
fn extend_to<P: Parts>(
    parts: &mut P,
    journal: &Journal,
    item: ReceiptNo,
    filing: ReceiptNo,
    days: u16,
) -> Extension
    requires received { item ≤ length journal.now.receipts }
    requires few { days ≤ most_extension_days }
    requires held { filing < item → (k : Key) → Contains (keys_of_filing journal.now.receipts filing) k → IsTrue (P.holds parts.old k) }
    requires room { HasRoom (P.room parts.old) (extension_brought journal.now.receipts filing days item (P.at parts.old)) }
    ensures answer { result ≡ extended journal.now.receipts filing days item (P.at parts.old) }
    ensures added { AddsList (P.at parts.old) (P.at parts.new) (P.room parts.old) (P.room parts.new) (extension_brought journal.now.receipts filing days item (P.at parts.old)) }
    ensures held { P.holds parts.new ≡ P.holds parts.old }
{
    let day = journal.day_of(item);
    let later = deadline_after(day, days);
    let answer = extension_by(day, later, state(parts, journal, item, filing));
    match &answer {
        Extension::Extended(until) => wait_until(parts, journal, item, filing, *until),
        Extension::TooLate(_) => {}
        Extension::NotLater(_) => {}
        Extension::NotPending => {}
    }
    answer
}

/// The answer on this day to who wants a later deadline: the one that stands must not be over.
fn extension_by(day: Day, later: Day, state: FilingState) -> Extension
    ensures { result ≡ extension_by day later state }
{
    match state {
        FilingState::Pending { until } => extension_of(day, later, until),
        FilingState::NotPending => Extension::NotPending,
    }
}

/// The answer on this day to who wants a later deadline for a filing that waits until the last of
/// these days.
fn extension_of(day: Day, later: Day, until: Day) -> Extension
    ensures { result ≡ extension_by day later (Pending until) }
{
    if until < day {
        Extension::TooLate(until)
    } else if until < later {
        Extension::Extended(later)
    } else {
        Extension::NotLater(until)
    }
}
