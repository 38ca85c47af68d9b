//! Interim orders, a later deadline of one, and their end.
ghost use Rattle.std.specs.Prelude.{◌≡◌, ◌≤◌, length, Contains, IsSome, IsTrue};
ghost use Rattle.gb_base.specs.declared.keys.Key.{Key};
ghost use Rattle.act_model.specs.Touches.{filing_at, keys_of_filing};
ghost use Rattle.folio_sections.specs.Adding.{AddsList, HasRoom};
ghost use Rattle.interim_orders.specs.Orders.{deadline_of, end_brought, order_brought, waiting_brought};
ghost use Rattle.interim_orders.specs.inner.Marks.{mark, marks};

use act_model::{Journal, filing_keys};
use folio_sections::{Parts, What, add, entry_by};
use gb_base::{Day, ReceiptNo, deadline};

/// Sets a filing with curable defects to wait at each of its keys (GBO § 18(1)), and says until
/// when: for 30 days, and on to the next Monday where the last is a Saturday or Sunday (BGB § 193).
/// It takes no memory and cannot fail.
pub fn open_order<P: Parts>(parts: &mut P, journal: &Journal, filing: ReceiptNo) -> Day
    requires filing { IsSome (filing_at journal.now.receipts filing) }
    requires held { (k : Key) → Contains (keys_of_filing journal.now.receipts filing) k → IsTrue (P.holds parts.old k) }
    requires room { HasRoom (P.room parts.old) (order_brought journal.now.receipts filing) }
    ensures deadline { result ≡ deadline_of journal.now.receipts filing }
    ensures added { AddsList (P.at parts.old) (P.at parts.new) (P.room parts.old) (P.room parts.new) (order_brought journal.now.receipts filing) }
    ensures held { P.holds parts.new ≡ P.holds parts.old }
{
    let until = deadline(journal.day_of(filing));
    enter_waiting(parts, journal, filing, filing, Some(until));
    until
}

/// Sets a filing to wait until this day at each of its keys, whether it waits already or not.
pub(crate) fn wait_until<P: Parts>(
    parts: &mut P,
    journal: &Journal,
    item: ReceiptNo,
    filing: ReceiptNo,
    until: Day,
)
    requires received { item ≤ length journal.now.receipts }
    requires held { (k : Key) → Contains (keys_of_filing journal.now.receipts filing) k → IsTrue (P.holds parts.old k) }
    requires room { HasRoom (P.room parts.old) (waiting_brought journal.now.receipts filing item until) }
    ensures added { AddsList (P.at parts.old) (P.at parts.new) (P.room parts.old) (P.room parts.new) (waiting_brought journal.now.receipts filing item until) }
    ensures held { P.holds parts.new ≡ P.holds parts.old }
{
    enter_waiting(parts, journal, item, filing, Some(until));
}

/// Ends the waiting of a filing at each of its keys (GBO § 18(1)). It takes no memory and cannot
/// fail.
pub fn close_order<P: Parts>(parts: &mut P, journal: &Journal, item: ReceiptNo, filing: ReceiptNo)
    requires received { item ≤ length journal.now.receipts }
    requires held { (k : Key) → Contains (keys_of_filing journal.now.receipts filing) k → IsTrue (P.holds parts.old k) }
    requires room { HasRoom (P.room parts.old) (end_brought journal.now.receipts filing item) }
    ensures added { AddsList (P.at parts.old) (P.at parts.new) (P.room parts.old) (P.room parts.new) (end_brought journal.now.receipts filing item) }
    ensures held { P.holds parts.new ≡ P.holds parts.old }
{
    enter_waiting(parts, journal, item, filing, None);
}

/// Enters at each key of a filing that it waits until this day, or that it waits no longer where
/// there is no day.
fn enter_waiting<P: Parts>(
    parts: &mut P,
    journal: &Journal,
    item: ReceiptNo,
    filing: ReceiptNo,
    until: Option<Day>,
)
    requires received { item ≤ length journal.now.receipts }
    requires held { (k : Key) → Contains (keys_of_filing journal.now.receipts filing) k → IsTrue (P.holds parts.old k) }
    requires room { HasRoom (P.room parts.old) (marks journal.now.receipts filing item until) }
    ensures added { AddsList (P.at parts.old) (P.at parts.new) (P.room parts.old) (P.room parts.new) (marks journal.now.receipts filing item until) }
    ensures held { P.holds parts.new ≡ P.holds parts.old }
{
    let keys = filing_keys(journal, filing);
    for key in keys.as_slice() {
        add(parts, entry_by(journal, item, *key, mark(filing, &until)));
    }
}

/// The content that sets a filing to wait until this day, or ends its waiting where there is no day.
fn mark(filing: ReceiptNo, until: &Option<Day>) -> What
    ensures { result ≡ mark filing until.now }
{
    match until {
        Some(until) => What::Pending {
            filing,
            until: *until,
        },
        None => What::Settled { filing },
    }
}
