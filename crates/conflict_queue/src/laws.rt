//! What holds of the keys of all items, and of the orders in which they may be settled.
ghost use Rattle.std.specs.Prelude.{◌≡◌, ◌≤◌, ◌++◌, ℕ, List, length};
ghost use Rattle.act_model.specs.declared.receipts.Receipt.{Receipt};
ghost use Rattle.conflict_queue.specs.ItemKeys.{keys_of_item};
ghost use Rattle.conflict_queue.specs.Schedules.{in_receipt_order, IsPermitted};

/// An item's keys follow from the receipts up to it alone.
pub fn item_keys_stay()
    ensures same { (journal more : List Receipt) (i : ℕ) → i ≤ length journal → keys_of_item (journal ++ more) i ≡ keys_of_item journal i }
{}

/// The items of a journal may be settled in the order of their receipts (GBO § 17).
pub fn receipts_in_turn()
    ensures permitted { (journal : List Receipt) → IsPermitted journal (in_receipt_order journal) }
{}
