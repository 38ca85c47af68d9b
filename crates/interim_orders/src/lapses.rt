//! The lapse of a filing that still waits after its deadline (GBO § 18(1)).
ghost use Rattle.std.specs.Prelude.{◌≡◌, ◌≤◌, ◌<◌, ℕ, length, Contains, IsTrue, Some};
ghost use Rattle.gb_base.specs.declared.keys.Key.{Key};
ghost use Rattle.act_model.specs.Receiving.{day_of};
ghost use Rattle.act_model.specs.Touches.{keys_of_filing};
ghost use Rattle.folio_sections.specs.Adding.{AddsList, HasRoom};
ghost use Rattle.interim_orders.specs.Lapses.{brought_by_lapse, lapse_at, lapse_brought, lapse_by, lapse_in, lapsed};
ghost use Rattle.interim_orders.specs.Orders.{end_brought, state_of};
ghost use Rattle.interim_orders.specs.declared.states.FilingState.TheVariants.{Pending};

use crate::answers::Lapse;
use crate::orders::close_order;
use crate::states::{FilingState, state};
use act_model::{Item, Journal};
use folio_sections::Parts;
use gb_base::{Day, ReceiptNo};

/// Answers a lapse. Where the deadline is over, it ends the waiting of the filing that the lapse
/// names (GBO § 18(1)). It takes no memory and cannot fail.
pub fn lapse<P: Parts>(parts: &mut P, journal: &Journal, item: ReceiptNo) -> Lapse
    requires received { item ≤ length journal.now.receipts }
    requires held { (m : ℕ) → lapse_at journal.now.receipts item ≡ Some m → m < item
        → (k : Key) → Contains (keys_of_filing journal.now.receipts m) k → IsTrue (P.holds parts.old k) }
    requires room { HasRoom (P.room parts.old) (lapse_brought journal.now.receipts item (P.at parts.old)) }
    ensures answer { result ≡ lapsed journal.now.receipts item (P.at parts.old) }
    ensures added { AddsList (P.at parts.old) (P.at parts.new) (P.room parts.old) (P.room parts.new) (lapse_brought journal.now.receipts item (P.at parts.old)) }
    ensures held { P.holds parts.new ≡ P.holds parts.old }
{
    match lapse_at(journal, item) {
        Some(filing) => lapse_of(parts, journal, item, filing),
        None => Lapse::NotPending,
    }
}

/// The filing whose lapse an item states; None where it is another item.
fn lapse_at(journal: &Journal, item: ReceiptNo) -> Option<ReceiptNo>
    ensures { result ≡ lapse_at journal.now.receipts item }
{
    match journal.get(item) {
        Some(receipt) => lapse_in(&receipt.item),
        None => None,
    }
}

/// The filing whose lapse the item states.
fn lapse_in(item: &Item) -> Option<ReceiptNo>
    ensures { result ≡ lapse_in item.now }
{
    match item {
        Item::Lapse { filing } => Some(*filing),
        _ => None,
    }
}

/// Answers the lapse of this filing.
fn lapse_of<P: Parts>(parts: &mut P, journal: &Journal, item: ReceiptNo, filing: ReceiptNo) -> Lapse
    requires received { item ≤ length journal.now.receipts }
    requires held { filing < item → (k : Key) → Contains (keys_of_filing journal.now.receipts filing) k → IsTrue (P.holds parts.old k) }
    requires room { HasRoom (P.room parts.old) (brought_by_lapse (end_brought journal.now.receipts filing item)
        (lapse_by (day_of journal.now.receipts item) (state_of journal.now.receipts filing item (P.at parts.old)))) }
    ensures answer { result ≡ lapse_by (day_of journal.now.receipts item) (state_of journal.now.receipts filing item (P.at parts.old)) }
    ensures added { AddsList (P.at parts.old) (P.at parts.new) (P.room parts.old) (P.room parts.new)
        (brought_by_lapse (end_brought journal.now.receipts filing item)
        (lapse_by (day_of journal.now.receipts item) (state_of journal.now.receipts filing item (P.at parts.old)))) }
    ensures held { P.holds parts.new ≡ P.holds parts.old }
{
    let answer = lapse_by(journal.day_of(item), state(parts, journal, item, filing));
    match &answer {
        Lapse::Rejected => close_order(parts, journal, item, filing),
        Lapse::TooEarly(_) => {}
        Lapse::NotPending => {}
    }
    answer
}

/// The answer to a lapse on this day: the deadline has to be over.
fn lapse_by(day: Day, state: FilingState) -> Lapse
    ensures { result ≡ lapse_by day state }
{
    match state {
        FilingState::Pending { until } => lapse_until(day, until),
        FilingState::NotPending => Lapse::NotPending,
    }
}

/// The answer to a lapse on this day of a filing that waits until the other day: it is rejected only
/// after that one.
fn lapse_until(day: Day, until: Day) -> Lapse
    ensures { result ≡ lapse_by day (Pending until) }
{
    if until < day {
        Lapse::Rejected
    } else {
        Lapse::TooEarly(until)
    }
}
