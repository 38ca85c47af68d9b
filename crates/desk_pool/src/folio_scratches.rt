//! The scratch in which an item computes a lowest bid under the locks of its folios.
//! Why so: docs/DECISIONS.md, "A scratch stands with its folio".
ghost use Rattle.std.specs.Prelude.{◌≡◌, List, ◌≤◌, ◌<◌, length, All, Contains, IsTrue};
ghost use Rattle.gb_base.specs.declared.keys.Key.{Key};
ghost use Rattle.folio_sections.specs.Adding.{AddsList};
ghost use Rattle.folio_sections.specs.Entries.{with_entries};
ghost use Rattle.kept_registers.specs.Kept.{Kept};
ghost use Rattle.folio_sections.specs.declared.entries.Entry.{Entry};
ghost use Rattle.registrar.specs.Brings.{brings};
ghost use Rattle.conflict_queue.specs.ItemKeys.{keys_of_item};
ghost use Rattle.registrar.specs.Rooms.{HasItsRoom, HasItsScratch};
ghost use Rattle.kept_registers.specs.Standing.{StandsFor};
ghost use Rattle.registrar.specs.StandingAwards.{StandsForKeptAwards};
ghost use Rattle.desk_pool.specs.FolioStates.{scratch_of};

use act_model::Journal;
use folio_sections::Parts;
use gb_base::ReceiptNo;
use registrar::{Scratch, Verdict, step};

/// The step of the one registrar (`step` of registrar), in the folio's own scratch. Where the folio
/// has none, none of its items computes a lowest bid, and the step is made in the spare scratch,
/// whatever its room is.
pub(crate) fn step_in_own<P: Parts>(
    parts: &mut P,
    own: &mut Option<Scratch>,
    spare: &mut Scratch,
    journal: &Journal,
    item: ReceiptNo,
) -> Verdict
    requires received { item ≤ length journal.now.receipts }
    requires held { (k : Key) → Contains (keys_of_item journal.now.receipts item) k → IsTrue (P.holds parts.old k) }
    requires room { HasItsRoom journal.now.receipts item (P.at parts.old) (P.room parts.old) }
    requires scratch { HasItsScratch journal.now.receipts item (P.at parts.old) (scratch_of own.old) }
    requires kept { StandsForKeptAwards journal.now.receipts (P.holds parts.old) (P.at parts.old) }
    requires earlier { (k : Key) → Contains (keys_of_item journal.now.receipts item) k → All (λ e. e.receipt < item) (P.at parts.old k) }
    ensures verdict { (register : Key → List Entry) → StandsFor (P.holds parts.old) (P.at parts.old) register → Kept journal.now.receipts register
        → result ≡ (brings journal.now.receipts item register).verdict }
    ensures added { (register : Key → List Entry) → StandsFor (P.holds parts.old) (P.at parts.old) register → Kept journal.now.receipts register
        → AddsList (P.at parts.old) (P.at parts.new) (P.room parts.old) (P.room parts.new) (brings journal.now.receipts item register).entries }
    ensures others { (k : Key) → (Contains (keys_of_item journal.now.receipts item) k → ⊥) → P.at parts.new k ≡ P.at parts.old k }
    ensures held { P.holds parts.new ≡ P.holds parts.old }
    ensures stands { (register : Key → List Entry) → StandsFor (P.holds parts.old) (P.at parts.old) register → Kept journal.now.receipts register
        → StandsFor (P.holds parts.new) (P.at parts.new) (with_entries register (brings journal.now.receipts item register).entries) }
    ensures kept { StandsForKeptAwards journal.now.receipts (P.holds parts.new) (P.at parts.new) }
    ensures own { own.new ≡ own.old }
    ensures spare { spare.new ≡ spare.old }
{
    match own {
        Some(scratch) => step(parts, scratch, journal, item),
        None => step(parts, spare, journal, item),
    }
}
