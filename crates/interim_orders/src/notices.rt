//! Official notices, which keep the places of filings that wait (GBO § 18(2)).
ghost use Rattle.std.specs.Prelude.{◌≡◌, ◌≤◌, length, Contains, IsTrue};
ghost use Rattle.gb_base.specs.declared.keys.Key.{Key};
ghost use Rattle.act_model.specs.Touches.{keys_of_filing};
ghost use Rattle.folio_sections.specs.Adding.{AddsList, HasRoom};
ghost use Rattle.interim_orders.specs.Notices.{notices_at, notices_brought};

use act_model::{Journal, filing_keys};
use folio_sections::{Parts, What, add, entry_by, next_unnoticed_at};
use gb_base::{Key, ReceiptNo};

/// Enters, at each key of a filing that this item enters, the official notice of each earlier filing
/// that waits there without one (GBO § 18(2)). It takes no memory and cannot fail.
pub fn enter_notices<P: Parts>(parts: &mut P, journal: &Journal, item: ReceiptNo, filing: ReceiptNo)
    requires received { item ≤ length journal.now.receipts }
    requires held { (k : Key) → Contains (keys_of_filing journal.now.receipts filing) k → IsTrue (P.holds parts.old k) }
    requires room { HasRoom (P.room parts.old) (notices_brought journal.now.receipts filing item (P.at parts.old)) }
    ensures added { AddsList (P.at parts.old) (P.at parts.new) (P.room parts.old) (P.room parts.new) (notices_brought journal.now.receipts filing item (P.at parts.old)) }
    ensures held { P.holds parts.new ≡ P.holds parts.old }
{
    let keys = filing_keys(journal, filing);
    for key in keys.as_slice() {
        enter_notices_at(parts, journal, item, filing, *key);
    }
}

/// Enters the official notices at one key, in ascending order of their filings.
fn enter_notices_at<P: Parts>(
    parts: &mut P,
    journal: &Journal,
    item: ReceiptNo,
    filing: ReceiptNo,
    key: Key,
)
    requires received { item ≤ length journal.now.receipts }
    requires held { IsTrue (P.holds parts.old key) }
    requires room { HasRoom (P.room parts.old) (notices_at journal.now.receipts filing item (P.at parts.old) key) }
    ensures added { AddsList (P.at parts.old) (P.at parts.new) (P.room parts.old) (P.room parts.new) (notices_at journal.now.receipts filing item (P.at parts.old) key) }
    ensures held { P.holds parts.new ≡ P.holds parts.old }
{
    let mut after = None;
    while let Some(waiting) = next_unnoticed_at(parts, &key, after, filing) {
        let what = What::Notice { filing: waiting };
        add(parts, entry_by(journal, item, key, what));
        after = Some(waiting);
    }
}
