//! One step of a registrar: an item settled on parts that stand for a register.
ghost use Rattle.std.specs.Prelude.{◌≡◌, List, ◌≤◌, ◌<◌, Some, length, All, Contains, IsTrue};
ghost use Rattle.gb_base.specs.declared.keys.Key.{Key};
ghost use Rattle.act_model.specs.Receiving.{IsJournal, receipt_at};
ghost use Rattle.folio_sections.specs.Adding.{AddsList};
ghost use Rattle.folio_sections.specs.Entries.{with_entries};
ghost use Rattle.kept_registers.specs.Kept.{Kept};
ghost use Rattle.folio_sections.specs.declared.entries.Entry.{Entry};
ghost use Rattle.registrar.specs.Brings.{brings};
ghost use Rattle.conflict_queue.specs.ItemKeys.{keys_of_item};
ghost use Rattle.registrar.specs.Rooms.{HasItsRoom, HasItsScratch};
ghost use Rattle.kept_registers.specs.Standing.{StandsFor};
ghost use Rattle.registrar.specs.StandingAwards.{StandsForKeptAwards};

use crate::settling::settle;
use crate::{Scratch, Verdict};
use act_model::{Journal, Receipt};
use folio_sections::Parts;
use gb_base::ReceiptNo;

/// Settles an item on parts that stand for a kept register that keeps its awards, where all that
/// stands at the item's keys is by earlier items (GBO § 17). It adds what the item brings, which is
/// the same on each kept register that the parts stand for; no other key changes. The parts then
/// stand for each of these registers with what the item brings to it, and again for a kept one that
/// keeps its awards. It takes no memory and cannot fail.
pub fn step<P: Parts>(
    parts: &mut P,
    scratch: &mut Scratch,
    journal: &Journal,
    item: ReceiptNo,
) -> Verdict
    requires received { item ≤ length journal.now.receipts }
    requires held { (k : Key) → Contains (keys_of_item journal.now.receipts item) k → IsTrue (P.holds parts.old k) }
    requires room { HasItsRoom journal.now.receipts item (P.at parts.old) (P.room parts.old) }
    requires scratch { HasItsScratch journal.now.receipts item (P.at parts.old) scratch.old }
    requires kept { StandsForKeptAwards journal.now.receipts (P.holds parts.old) (P.at parts.old) }
    requires earlier { (k : Key) → Contains (keys_of_item journal.now.receipts item) k → All (λ e. e.receipt < item) (P.at parts.old k) }
    ensures verdict { (register : Key → List Entry) → StandsFor (P.holds parts.old) (P.at parts.old) register → Kept journal.now.receipts register
        → result ≡ (brings journal.now.receipts item register).verdict }
    ensures added { (register : Key → List Entry) → StandsFor (P.holds parts.old) (P.at parts.old) register → Kept journal.now.receipts register
        → AddsList (P.at parts.old) (P.at parts.new) (P.room parts.old) (P.room parts.new) (brings journal.now.receipts item register).entries }
    ensures others { (k : Key) → (Contains (keys_of_item journal.now.receipts item) k → ⊥) → P.at parts.new k ≡ P.at parts.old k }
    ensures held { P.holds parts.new ≡ P.holds parts.old }
    ensures stands { (register : Key → List Entry) → StandsFor (P.holds parts.old) (P.at parts.old) register → Kept journal.now.receipts register
        → StandsFor (P.holds parts.new) (P.at parts.new) (with_entries register (brings journal.now.receipts item register).entries) }
    ensures kept { StandsForKeptAwards journal.now.receipts (P.holds parts.new) (P.at parts.new) }
    ensures scratch { scratch.new ≡ scratch.old }
{
    let receipt = receipt_of(journal, item);
    settle(parts, scratch, journal, item, &receipt.item)
}

/// The receipt of this number; besides, the list is a journal.
pub(crate) fn receipt_of(journal: &Journal, item: ReceiptNo) -> &Receipt
    requires { item ≤ length journal.now.receipts }
    ensures value { receipt_at journal.now.receipts item ≡ Some result.now }
    ensures journal { IsJournal journal.now.receipts }
{
    &journal.receipts()[item.get() as usize - 1]
}
