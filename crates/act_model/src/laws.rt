//! What holds of all keys, of all items and of all creating acts.
ghost use Rattle.std.specs.Prelude.{◌≡◌, ◌↔◌, ◌≤◌, ◌++◌, ℕ, IsTrue, List, Contains, is_some, length};
ghost use Rattle.std.specs.List.Sorted.{IsStrictlySortedBy};
ghost use Rattle.gb_base.specs.Keys.{key_cmp};
ghost use Rattle.gb_base.specs.declared.keys.Key.{Key};
ghost use Rattle.act_model.specs.declared.items.Item.{Item};
ghost use Rattle.act_model.specs.declared.receipts.Receipt.{Receipt};
ghost use Rattle.gb_base.specs.RightNo.{RightNo};
ghost use Rattle.act_model.specs.Creations.{creating_rank, folio_of_right};
ghost use Rattle.act_model.specs.Same.{same_item};
ghost use Rattle.act_model.specs.Touches.{in_key_order, keys_of_filing};

/// Keys can be put in ascending order, each once.
pub fn key_order()
    ensures ascending { (keys : List Key) → IsStrictlySortedBy key_cmp (in_key_order keys) }
    ensures members { (keys : List Key) (k : Key) → Contains (in_key_order keys) k ↔ Contains keys k }
{}

/// Keys can be put in ascending order, each once, in one way only.
pub fn one_key_order()
    ensures { (keys others : List Key) → IsStrictlySortedBy key_cmp keys → IsStrictlySortedBy key_cmp others
        → ((k : Key) → Contains keys k ↔ Contains others k) → keys ≡ others }
{}

/// A filing's keys follow from the receipts up to it alone.
pub fn keys_stay()
    ensures { (journal more : List Receipt) (m : ℕ) → m ≤ length journal → keys_of_filing (journal ++ more) m ≡ keys_of_filing journal m }
{}

/// `==` of two items is whether they are equal.
pub fn equal_items()
    ensures { (a b : Item) → IsTrue (same_item a b) ↔ (a ≡ b) }
{}

/// A right has a creating rank just where the journal has its creating act.
pub fn creating_acts_have_ranks()
    ensures { (journal : List Receipt) (right : RightNo) → is_some (creating_rank journal right) ≡ is_some (folio_of_right journal right) }
{}
