//! What holds of registers.
ghost use Rattle.std.specs.Prelude.{◌≡◌, ◌≤◌, ℕ, List, [], AllPairs, Some};
ghost use Rattle.gb_base.specs.RightNo.{RightNo};
ghost use Rattle.gb_base.specs.declared.keys.Key.{Key};
ghost use Rattle.gb_base.specs.declared.keys.Key.TheVariants.{Right};
ghost use Rattle.act_model.specs.Receiving.{IsJournal};
ghost use Rattle.act_model.specs.declared.receipts.Receipt.{Receipt};
ghost use Rattle.kept_registers.specs.Kept.{Kept};
ghost use Rattle.kept_registers.specs.KeptRights.{StandsAtItsPlace};
ghost use Rattle.folio_sections.specs.Places.{places};
ghost use Rattle.kept_registers.specs.Ranks.{is_ahead, is_filed_ahead, ranked};
ghost use Rattle.folio_sections.specs.Rights.{created};
ghost use Rattle.folio_sections.specs.declared.entries.Created.{Created};
ghost use Rattle.folio_sections.specs.declared.entries.Entry.{Entry};

/// The empty register is a kept one (`Kept`).
pub fn empty_register_is_kept()
    ensures kept { (journal : List Receipt) → Kept journal (λ _. []) }
{}

/// In every kept register rights stand in the order of their filings and groups, whether they are
/// live or not: the one that is ahead by places and days is the one of the earlier filing, or of
/// the smaller group in one filing (BGB § 879, GBO § 45).
pub fn kept_order()
    ensures order { (journal : List Receipt) (at : Key → List Entry) (folio : ℕ) (x y : RightNo) (a b : Created)
        → IsJournal journal → Kept journal at → created (at (Right folio x)) ≡ Some a → created (at (Right folio y)) ≡ Some b
        → is_ahead (places journal at folio) (ranked x a) (ranked y b) ≡ is_filed_ahead (ranked x a) (ranked y b) }
{}

/// In every kept register the days of the places at a title never fall.
pub fn place_days()
    ensures days { (journal : List Receipt) (at : Key → List Entry) (folio : ℕ) → IsJournal journal → Kept journal at
        → AllPairs (λ p later. p.day ≤ later.day) (places journal at folio) }
{}

/// In every kept register a right as it was entered (its day, what it stands behind, and whether it
/// shares its group) is as the places at the title and the journal have it. So what an extract
/// prints of a right agrees with what its rank is read from.
pub fn rights_stand_at_their_places()
    ensures in_place { (journal : List Receipt) (at : Key → List Entry) (folio : ℕ) (right : RightNo) (made : Created) → Kept journal at
        → created (at (Right folio right)) ≡ Some made → StandsAtItsPlace journal (places journal at folio) right made }
{}
