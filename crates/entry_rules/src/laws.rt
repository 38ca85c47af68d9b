//! What holds of all that is entered.
ghost use Rattle.std.specs.Prelude.{◌≡◌, ◌≤◌, ℕ, Bool, List, Contains, IsTrue};
ghost use Rattle.gb_base.specs.declared.keys.Key.{Key};
ghost use Rattle.act_model.specs.Receiving.{IsJournal};
ghost use Rattle.act_model.specs.Touches.{keys_of_filing};
ghost use Rattle.act_model.specs.declared.receipts.Receipt.{Receipt};
ghost use Rattle.folio_sections.specs.Adding.{HasRoom};
ghost use Rattle.entry_rules.specs.Entering.{entered};
ghost use Rattle.folio_sections.specs.declared.entries.Entry.{Entry};
ghost use Rattle.entry_rules.specs.Limits.{most_entered};

use crate::MOST_ENTERED;

/// Where the parts of a filing's keys are held, with room for `MOST_ENTERED` entries each, there is
/// room for all that its entry brings.
pub fn room_for_entry()
    ensures limit { MOST_ENTERED ≡ most_entered }
    ensures room { (journal : List Receipt) (m i : ℕ) (at : Key → List Entry) (holds : Key → Bool) (room : Key → ℕ) → IsJournal journal
        → ((k : Key) → Contains (keys_of_filing journal m) k → IsTrue (holds k)) → ((k : Key) → IsTrue (holds k) → most_entered ≤ room k)
        → HasRoom room (entered journal m i at) }
{}
