//! What holds of the orders in which desks take items, and of the room that a round keeps.
ghost use Rattle.std.specs.Prelude.{◌≡◌, ◌⊎◌, ◌↔◌, ◌+◌, ◌-◌, ◌<◌, ◌≤◌, ◌∷◌, ◌++◌, ℕ, false, true, List, Some, length, sum_by, Contains};
ghost use Rattle.gb_base.specs.Keys.{folio_of_key};
ghost use Rattle.gb_base.specs.declared.keys.Key.{Key};
ghost use Rattle.gb_base.specs.declared.keys.Key.TheVariants.{Right};
ghost use Rattle.act_model.specs.Receiving.{IsJournal};
ghost use Rattle.act_model.specs.SaleKeys.{earlier_rights};
ghost use Rattle.act_model.specs.declared.receipts.Receipt.{Receipt};
ghost use Rattle.conflict_queue.specs.Dockets.{has_key, previous};
ghost use Rattle.conflict_queue.specs.ItemKeys.{keys_of_item};
ghost use Rattle.conflict_queue.specs.Schedules.{Conflicts, IsPermitted};
ghost use Rattle.desk_pool.specs.FolioQueues.{is_next, last_taken, queue_of};
ghost use Rattle.desk_pool.specs.RoundRooms.{room_of_first};
ghost use Rattle.desk_pool.specs.Turns.{WaitsInTurn};
ghost use Rattle.folio_line.specs.FolioLine.{all_rises};
ghost use Rattle.folio_sections.specs.Entries.{at};
ghost use Rattle.registrar.specs.HasSettled.{settled_first};
ghost use Rattle.registrar.specs.Rooms.{room_wanted};

use kept_registers::laws::empty_register_is_kept;

/// Whoever lets each item wait for the item before it at each of its keys takes exactly the permitted
/// orders (GBO § 17).
pub fn waiting_in_turn()
    ensures just { (journal : List Receipt) (order : List ℕ) → IsPermitted journal order ↔ WaitsInTurn journal order }
{}

/// Whoever settles an item that is the next of a folio finds the item settled that was before it at
/// each of its keys there (GBO § 17).
pub fn next_items_have_their_turn()
    ensures settled { (journal : List Receipt) (folio taken i p : ℕ) (k : Key) → is_next (queue_of journal folio) taken i ≡ true → folio_of_key k ≡ folio
        → Contains (keys_of_item journal i) k → previous journal i k ≡ Some p → p ≤ last_taken (queue_of journal folio) taken }
{}

/// Two neighbours in a permitted order that have no key in common may change places (GBO § 17).
pub fn neighbours_may_change_places()
    ensures turned { (journal : List Receipt) (before after : List ℕ) (i j : ℕ) → IsPermitted journal (before ++ i ∷ j ∷ after)
        → (Conflicts journal i j → ⊥) → IsPermitted journal (before ++ j ∷ i ∷ after) }
{}

/// An item touches two folios at most: where two of its keys are of different folios, any other is of
/// one of these two.
pub fn items_touch_few_folios()
    ensures few { (journal : List Receipt) (i : ℕ) (j k l : Key) → IsJournal journal → Contains (keys_of_item journal i) j → Contains (keys_of_item journal i) k → Contains (keys_of_item journal i) l
        → (folio_of_key j ≡ folio_of_key k → ⊥) → (folio_of_key l ≡ folio_of_key j) ⊎ (folio_of_key l ≡ folio_of_key k) }
{}

/// What stands at a key stays until the next item that touches it is settled.
pub fn nothing_between()
    ensures stays { (journal : List Receipt) (n m : ℕ) (k : Key) → IsJournal journal → n ≤ m
        → ((i : ℕ) → n < i → i ≤ m → has_key k (keys_of_item journal i) ≡ false)
        → at (settled_first journal m).entries k ≡ at (settled_first journal n).entries k }
{
    empty_register_is_kept();
}

/// The room that the items up to one keep at its keys is enough for what the one registrar enters there,
/// and for what the item needs besides.
pub fn rooms_suffice()
    ensures room { (journal : List Receipt) (i : ℕ) (k : Key) → IsJournal journal → 1 ≤ i → i ≤ length journal → Contains (keys_of_item journal i) k
        → length (at (settled_first journal (i - 1)).entries k) + room_wanted journal i (at (settled_first journal (i - 1)).entries k) ≤ room_of_first journal i k }
    ensures exchanges { (journal : List Receipt) (i folio : ℕ) → IsJournal journal
        → length (all_rises (at (settled_first journal (i - 1)).entries) folio (earlier_rights journal i folio))
        ≤ sum_by (λ right. room_of_first journal (i - 1) (Right folio right)) (earlier_rights journal i folio) }
    ensures grows { (journal : List Receipt) (n m : ℕ) (k : Key) → n ≤ m → room_of_first journal n k ≤ room_of_first journal m k }
{
    empty_register_is_kept();
}
