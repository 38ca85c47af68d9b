//! Whether a filing waits for cures.
//! Why so: docs/DECISIONS.md, "Whether a filing waits is read at its first key".
ghost use Rattle.std.specs.Prelude.{◌≡◌, ◌<◌, Contains, IsTrue};
ghost use Rattle.gb_base.specs.declared.keys.Key.{Key};
ghost use Rattle.act_model.specs.Touches.{keys_of_filing};
ghost use Rattle.interim_orders.specs.Orders.{state_by, state_of, waits_until};

use act_model::{Journal, filing_keys};
use folio_sections::{Parts, pending_at};
use gb_base::{Day, ReceiptNo};

/// Whether a filing waits for cures (GBO § 18).
#[derive(Clone, Copy, Debug, PartialEq, Eq)]
pub enum FilingState {
    /// It waits until this day, and after it too until a cure or a lapse ends its waiting.
    Pending { until: Day },
    /// It does not wait.
    NotPending,
}

/// The state of a filing as an item finds it (GBO § 18). Only an earlier filing can be pending.
pub fn state<P: Parts>(
    parts: &P,
    journal: &Journal,
    item: ReceiptNo,
    filing: ReceiptNo,
) -> FilingState
    requires held { filing < item → (k : Key) → Contains (keys_of_filing journal.now.receipts filing) k → IsTrue (P.holds parts.now k) }
    ensures value { result ≡ state_of journal.now.receipts filing item (P.at parts.now) }
{
    if filing < item {
        state_by(waits_until(parts, journal, filing))
    } else {
        FilingState::NotPending
    }
}

/// The state of a filing that waits until this day, or of one that does not wait.
fn state_by(until: Option<Day>) -> FilingState
    ensures { result ≡ state_by until }
{
    match until {
        Some(until) => FilingState::Pending { until },
        None => FilingState::NotPending,
    }
}

/// The day until which a filing waits at its first key.
fn waits_until<P: Parts>(parts: &P, journal: &Journal, filing: ReceiptNo) -> Option<Day>
    requires { (k : Key) → Contains (keys_of_filing journal.now.receipts filing) k → IsTrue (P.holds parts.now k) }
    ensures { result ≡ waits_until journal.now.receipts filing (P.at parts.now) }
{
    match filing_keys(journal, filing).as_slice().first() {
        Some(key) => pending_at(parts, key, filing),
        None => None,
    }
}
