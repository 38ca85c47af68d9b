//! The filings that wait at a key.
ghost use Rattle.std.specs.Prelude.{◌≡◌, ◌<◌, ◌≤◌, ℕ, IfOk, OnOk, map};
ghost use Rattle.std.specs.BTreeMap.{get, IsOrdered};
ghost use Rattle.std.specs.Ordering.{nat_cmp};
ghost use Rattle.folio_sections.specs.HeldRights.{last_number};
ghost use Rattle.folio_sections.specs.Waiting.{pending, until_by};
ghost use Rattle.folio_extract.specs.WaitingFilings.{waiting_filings};
ghost use Rattle.folio_extract.specs.inner.Waits.{AreReceipts, notice_by, first_notice, with_notice};

use folio_sections::{Entry, What};
use gb_base::{Day, NoMemory, ReceiptNo};
use std::alloc::Global;
use std::collections::BTreeMap;

/// A filing that waits at a key (GBO § 18).
#[derive(Clone, Copy, Debug)]
pub struct WaitingFiling {
    pub filing: ReceiptNo,
    /// Its deadline, as extended last: up to this day a lapse is too early.
    pub until: Day,
    /// The day of its official notice there, if it has one.
    pub notice: Option<Day>,
}

/// The filings that wait at a key with these entries, ascending. It looks at each entry twice,
/// however many wait.
pub(crate) fn waiting_filings(
    alloc: Global,
    entries: &[Entry],
) -> Result<Vec<WaitingFiling>, NoMemory>
    ensures { IfOk result (λ filings. filings.items ≡ waiting_filings entries.now) }
{
    let waiting = deadlines(alloc, entries)?;
    let notices = days_of_notice(alloc, entries)?;
    with_notices(alloc, &waiting, &notices)
}

/// The deadline of each filing that waits.
fn deadlines(alloc: Global, entries: &[Entry]) -> Result<BTreeMap<ReceiptNo, Day>, NoMemory>
    ensures value { IfOk result (λ days. (n : ℕ) → get nat_cmp days n ≡ pending n entries.now) }
    ensures receipts { IfOk result (λ days. AreReceipts (get nat_cmp days)) }
{
    let mut days = BTreeMap::new(alloc);
    for entry in entries {
        note_waiting(&mut days, &entry.what)?;
    }
    Ok(days)
}

/// Notes what a content says of a filing that waits.
fn note_waiting(days: &mut BTreeMap<ReceiptNo, Day>, what: &What) -> Result<(), NoMemory>
    ensures value { OnOk result ((n : ℕ) → get nat_cmp days.new n ≡ until_by n (get nat_cmp days.old n) what.now) }
    ensures receipts { AreReceipts (get nat_cmp days.old) → OnOk result (AreReceipts (get nat_cmp days.new)) }
{
    match what {
        What::Pending { filing, until } => {
            // So nothing waits under a number that no receipt has.
            prove!(number_of(*filing) > 0);
            days.insert(*filing, *until)?;
        }
        What::Settled { filing } => {
            days.remove(filing);
        }
        _ => {}
    }
    Ok(())
}

/// The number of a receipt, with the bounds that its type gives it.
fn number_of(receipt: ReceiptNo) -> u32
    ensures value { result ≡ receipt }
    ensures from_one { 0 < receipt }
    ensures to_last { receipt ≤ last_number }
{
    receipt.get()
}

/// The day of the first official notice of each filing that has one.
fn days_of_notice(alloc: Global, entries: &[Entry]) -> Result<BTreeMap<ReceiptNo, Day>, NoMemory>
    ensures { IfOk result (λ days. (n : ℕ) → get nat_cmp days n ≡ first_notice n entries.now) }
{
    let mut days = BTreeMap::new(alloc);
    for entry in entries {
        note_notice(&mut days, entry)?;
    }
    Ok(days)
}

/// Notes the official notice that an entry is, where none of its filing was noted before.
fn note_notice(days: &mut BTreeMap<ReceiptNo, Day>, entry: &Entry) -> Result<(), NoMemory>
    ensures { OnOk result ((n : ℕ) → get nat_cmp days.new n ≡ notice_by n (get nat_cmp days.old n) entry.now) }
{
    if let What::Notice { filing } = &entry.what {
        if !days.contains_key(filing) {
            days.insert(*filing, entry.day)?;
        }
    }
    Ok(())
}

/// These filings that wait, each with its official notice.
fn with_notices(
    alloc: Global,
    waiting: &BTreeMap<ReceiptNo, Day>,
    notices: &BTreeMap<ReceiptNo, Day>,
) -> Result<Vec<WaitingFiling>, NoMemory>
    ensures items { IfOk result (λ filings. filings.items ≡ map (with_notice (get nat_cmp notices.now)) waiting.now.entries) }
    ensures ordered { IsOrdered nat_cmp waiting.now }
{
    waiting
        .iter()
        .map(|(filing, until)| with_notice(notices, filing, until))
        .collect(alloc)
}

/// A filing that waits until this day, with its official notice.
fn with_notice(notices: &BTreeMap<ReceiptNo, Day>, filing: &ReceiptNo, until: &Day) -> WaitingFiling
    ensures { result ≡ with_notice (get nat_cmp notices.now) (filing.now, until.now) }
{
    WaitingFiling {
        filing: *filing,
        until: *until,
        notice: notices.get(filing).copied(),
    }
}
