//! An item that touches no key: it waits for nobody, and enters nothing.
ghost use Rattle.std.specs.Prelude.{◌≡◌, ◌≤◌, [], Some, length};
ghost use Rattle.conflict_queue.specs.ItemKeys.{keys_of_item};
ghost use Rattle.registrar.specs.RegisterState.{verdict_among};
ghost use Rattle.registrar.specs.Settling.{registrar};

use act_model::{Journal, is_a_journal};
use folio_sections::MapParts;
use gb_base::ReceiptNo;
use kept_registers::laws::empty_register_is_kept;
use registrar::{Scratch, Verdict, step};

/// Settles an item that touches no key, on parts that hold nothing.
pub(crate) fn settle_nowhere(
    nothing: &mut MapParts,
    scratch: &mut Scratch,
    journal: &Journal,
    item: ReceiptNo,
) -> Verdict
    requires received { item ≤ length journal.now.receipts }
    requires none { keys_of_item journal.now.receipts item ≡ [] }
    requires nothing { nothing.old ≡ [] }
    ensures verdict { verdict_among (registrar journal.now.receipts).verdicts item ≡ Some result }
    ensures nothing { nothing.new ≡ [] }
    ensures scratch { scratch.new ≡ scratch.old }
{
    empty_register_is_kept();
    is_a_journal(journal);
    // The item has a number from 1 on.
    let number = item.get();
    prove!(0 < number);
    step(nothing, scratch, journal, item)
}
