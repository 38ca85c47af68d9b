//! The rights that the journal has filed in a folio: all that were ever entered are among them.
//! Why so: docs/DECISIONS.md, "A line is read as it stood before a receipt".
ghost use Rattle.std.specs.Prelude.{◌≡◌, List};
ghost use Rattle.gb_base.specs.declared.keys.Key.{Key};
ghost use Rattle.folio_sections.specs.declared.entries.Entry.{Entry};
ghost use Rattle.kept_registers.specs.Kept.{Kept};
ghost use Rattle.folio_line.specs.AllRights.{AreAllRights, rights_filed};
ghost use Rattle.folio_line.specs.FolioReading.{read_at};

use act_model::{Journal, earlier_rights, first_rights};
use gb_base::{FolioId, ReceiptNo, RightId};

/// The rights of the first creating acts of the folio; where a receipt is given, those of filings
/// before it. In a kept register all rights that were entered in the folio, before that receipt, are
/// among them. Takes no memory.
pub fn rights_filed(journal: &Journal, before: Option<ReceiptNo>, folio: FolioId) -> &[RightId]
    ensures value { result.now ≡ rights_filed before journal.now.receipts folio }
    ensures all { (at : Key → List Entry) → Kept journal.now.receipts at → AreAllRights result.now (read_at before at) folio }
{
    match before {
        Some(receipt) => earlier_rights(journal, receipt, folio),
        None => first_rights(journal, folio),
    }
}
