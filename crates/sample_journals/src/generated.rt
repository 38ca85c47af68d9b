//! The generated journal.
ghost use Rattle.std.specs.Prelude.{◌≡◌, ◌+◌, ◌≤◌, [], ◌∷◌, ◌++◌, IsTrue, IfOk, OnOk, map};
ghost use Rattle.std.specs.List.{range_with_len};
ghost use Rattle.act_model.specs.Limits.{most_receipts};
ghost use Rattle.act_model.specs.WellFormed.{well_formed};
ghost use Rattle.sample_journals.specs.Sample.{opening_receipt, receipt_of, sample, stamp_of_receipt};
ghost use Rattle.sample_journals.specs.Turns.{first_notes};
ghost use Rattle.sample_journals.specs.inner.FirstReceipts.{AreFirst};

use crate::filings::opening;
use crate::folio_notes::{FolioNotes, add_folio};
use crate::generators::Generator;
use crate::sales::day_of_receipt;
use act_model::{Added, Item, Journal};
use gb_base::{FolioId, NoMemory, ReceiptNo, Stamp};
use std::alloc::Global;

/// The generated journal of this seed, with so many receipts, from 1 to 200,000: a large journal
/// of valid items. It opens a folio for each 16 of them, and one more; each further receipt is an
/// item in a folio that is drawn. The generator goes on as if each item were entered, and some are
/// not.
pub fn sample_journal(alloc: Global, seed: u64, size: u32) -> Result<Journal, NoMemory>
    requires some { 1 ≤ size }
    requires few { size ≤ most_receipts }
    ensures journal { IfOk result (λ journal. journal.receipts ≡ sample seed size) }
{
    let mut journal = Journal::new(alloc);
    let count = 1 + size / 16;
    let folios = open_folios(alloc, &mut journal, count)?;
    let mut generator = Generator::new(seed, folios);
    for n in count..size {
        let k = ReceiptNo::new(n + 1).unwrap();
        let item = generator.next_item(k);
        receive(&mut journal, k, &item)?;
    }
    Ok(journal)
}

/// Opens so many folios, and gives what is kept of each.
fn open_folios(
    alloc: Global,
    journal: &mut Journal,
    count: u32,
) -> Result<Vec<FolioNotes>, NoMemory>
    requires few { count ≤ most_receipts }
    requires empty { journal.old.receipts ≡ [] }
    ensures receipts { OnOk result (journal.new.receipts ≡ map opening_receipt (range_with_len 1 count)) }
    ensures first { OnOk result (AreFirst (count + 1) journal.new.receipts) }
    ensures folios { IfOk result (λ folios. folios.items ≡ map first_notes (range_with_len 1 count)) }
{
    let mut folios = Vec::with_capacity(alloc, count as usize)?;
    for n in 0..count {
        let folio = FolioId::new(n + 1).unwrap();
        receive(journal, ReceiptNo::new(n + 1).unwrap(), &opening(folio))?;
        add_folio(&mut folios, folio)?;
    }
    Ok(folios)
}

/// Receives the item of receipt k, which sender 1 calls k.
fn receive(journal: &mut Journal, k: ReceiptNo, item: &Item) -> Result<(), NoMemory>
    requires few { k ≤ most_receipts }
    requires first { AreFirst k journal.old.receipts }
    requires well { IsTrue (well_formed item.now) }
    ensures receipts { OnOk result (journal.new.receipts ≡ journal.old.receipts ++ receipt_of k item.now ∷ []) }
    ensures first { OnOk result (AreFirst (k + 1) journal.new.receipts) }
{
    let stamp = stamp_of_receipt(k);
    journal.reserve_one(item)?;
    match journal.add(stamp, 1, u64::from(k.get()), item) {
        Added::Accepted(_) => Ok(()),
        _ => unreachable!(),
    }
}

/// When receipt k comes in: one a minute, from eight o'clock on.
fn stamp_of_receipt(k: ReceiptNo) -> Stamp
    requires { k ≤ most_receipts }
    ensures { result ≡ stamp_of_receipt k }
{
    Stamp::new(day_of_receipt(k.get()), 480 + (k.get() % 64) as u16).unwrap()
}
