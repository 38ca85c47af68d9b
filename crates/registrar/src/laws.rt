//! What holds of the settling of all journals.
ghost use Rattle.std.specs.Prelude.{◌≡◌, ◌+◌, ◌-◌, ◌∷◌, ◌<◌, ◌≤◌, ◌++◌, ◌&&◌, ℕ, nat_le, List, [], None, Some, All, Contains, is_some, length, option_map};
ghost use Rattle.gb_base.specs.RightNo.{RightNo};
ghost use Rattle.gb_base.specs.declared.keys.Key.{Key};
ghost use Rattle.gb_base.specs.declared.keys.Key.TheVariants.{Right};
ghost use Rattle.act_model.specs.Documents.{documents};
ghost use Rattle.act_model.specs.Receiving.{IsJournal, receipt_at};
ghost use Rattle.act_model.specs.Touches.{filing_at};
ghost use Rattle.act_model.specs.declared.documents.Doc.{Doc};
ghost use Rattle.act_model.specs.declared.items.Filing.{Filing};
ghost use Rattle.act_model.specs.declared.items.Item.TheVariants.{Cure};
ghost use Rattle.act_model.specs.declared.receipts.Receipt.{Receipt};
ghost use Rattle.consent_rules.specs.Judging.{defects, rejection};
ghost use Rattle.folio_sections.specs.Entries.{at, with_entries};
ghost use Rattle.kept_registers.specs.Kept.{Kept};
ghost use Rattle.folio_sections.specs.Places.{places};
ghost use Rattle.kept_registers.specs.Ranks.{is_ahead, is_filed_ahead, ranked};
ghost use Rattle.folio_sections.specs.Rights.{live_right};
ghost use Rattle.folio_sections.specs.declared.entries.Created.{Created};
ghost use Rattle.folio_sections.specs.declared.entries.Entry.{Entry};
ghost use Rattle.interim_orders.specs.Orders.{end_brought, state_of};
ghost use Rattle.interim_orders.specs.declared.states.FilingState.TheVariants.{Pending};
ghost use Rattle.registrar.specs.Brings.{brings};
ghost use Rattle.registrar.specs.Enters.{enters};
ghost use Rattle.conflict_queue.specs.ItemKeys.{keys_of_item};
ghost use Rattle.conflict_queue.specs.Schedules.{IsPermitted};
ghost use Rattle.registrar.specs.HasSettled.{HasSettled, settled_first};
ghost use Rattle.registrar.specs.KeptAwards.{AwardsKept};
ghost use Rattle.registrar.specs.KeptDistributions.{DistributionsKept, IsDistributed};
ghost use Rattle.registrar.specs.NamesUpTo.{AllNameUpTo};
ghost use Rattle.registrar.specs.RegisterState.{RegisterState, verdict_among};
ghost use Rattle.registrar.specs.Settling.{registrar, settled_in_order};
ghost use Rattle.registrar.specs.declared.verdicts.Verdict.TheVariants as verdict;
ghost use Rattle.registrar.specs.declared.verdicts.Verdict.TheVariants.{Cured, Entered};

use kept_registers::laws::empty_register_is_kept;

/// A filing that nothing speaks against is entered. Where no ground for rejection and no defect
/// holds of it, its own item enters it; and where it waits, a cure with which none holds enters it
/// and ends its waiting (GBO § 18). This is so on any register, kept or not.
pub fn fit_filings_are_entered()
    ensures at_once { (journal : List Receipt) (m : ℕ) (f : Filing) (register : Key → List Entry) → filing_at journal m ≡ Some f
        → rejection journal m f (documents journal m f m) register ≡ None → defects journal m f (documents journal m f m) register ≡ []
        → brings journal m register ≡ record { entries = enters journal m m register; verdict = Entered } }
    ensures by_cure { (journal : List Receipt) (m i until : ℕ) (f : Filing) (docs : List Doc) (register : Key → List Entry) → filing_at journal m ≡ Some f
        → option_map (λ r. r.item) (receipt_at journal i) ≡ Some (Cure m docs) → state_of journal m i register ≡ Pending until
        → rejection journal m f (documents journal m f i) register ≡ None → defects journal m f (documents journal m f i) register ≡ []
        → brings journal i register ≡ record { entries = enters journal m i register ++ end_brought journal m i; verdict = Cured } }
{}

/// What an item brings leaves a kept register kept, where all that stands at the item's keys is by
/// earlier items.
pub fn items_keep()
    ensures kept { (journal : List Receipt) (i : ℕ) (register : Key → List Entry) → IsJournal journal → Kept journal register
        → ((k : Key) → Contains (keys_of_item journal i) k → All (λ e. e.receipt < i) (register k))
        → Kept journal (with_entries register (brings journal i register).entries) }
{}

/// What an item brings to a register that keeps its awards leaves one that does: each award came
/// after a call, at no less than the part in cash of the lowest bid as it found the sale, and no case
/// goes on after its award (ZVG §§ 66, 81, 90, 91).
pub fn awards_stay()
    ensures awards { (journal : List Receipt) (i : ℕ) (register : Key → List Entry) → IsJournal journal → Kept journal register → AwardsKept journal register
        → ((k : Key) → Contains (keys_of_item journal i) k → All (λ e. e.receipt < i) (register k))
        → AwardsKept journal (with_entries register (brings journal i register).entries) }
{}

/// So the one registrar leaves a kept register of every journal.
pub fn registers_are_kept()
    ensures kept { (journal : List Receipt) → IsJournal journal → Kept journal (at (registrar journal).entries) }
{
    empty_register_is_kept();
}

/// After the first items of a journal, however many, that register keeps its awards, too.
pub fn registers_keep_awards()
    ensures awards { (journal : List Receipt) (n : ℕ) → IsJournal journal → AwardsKept journal (at (settled_first journal n).entries) }
{
    empty_register_is_kept();
}

/// Each distribution of the one registrar's register stands by its item in a case with a call, and
/// its money covers the part in cash of the lowest bid (ZVG §§ 49, 105); and a verdict that says so
/// is of such a one, with that money.
pub fn distributions_are_covered()
    ensures kept { (journal : List Receipt) (n : ℕ) → IsJournal journal → DistributionsKept journal (at (settled_first journal n).entries) }
    ensures verdicts { (journal : List Receipt) (n m cents : ℕ) → IsJournal journal → verdict_among (settled_first journal n).verdicts m ≡ Some (verdict.Distributed cents)
        → (folio : ℕ) × IsDistributed journal (at (settled_first journal n).entries) folio m cents }
{
    empty_register_is_kept();
}

/// The one registrar answers each receipt of a journal once, under its number, and no other number.
pub fn verdicts_are_numbered()
    ensures count { (journal : List Receipt) → length (registrar journal).verdicts ≡ length journal }
    ensures numbered { (journal : List Receipt) (n : ℕ) → is_some (verdict_among (registrar journal).verdicts n) ≡ (nat_le 1 n && nat_le n (length journal)) }
{}

/// An item looks at its own keys alone: it brings the same to kept registers that agree at them,
/// where all that stands there is by earlier items.
pub fn locality()
    ensures same { (journal : List Receipt) (i : ℕ) (register other : Key → List Entry) → IsJournal journal → Kept journal register → Kept journal other
        → ((k : Key) → Contains (keys_of_item journal i) k → All (λ e. e.receipt < i) (register k))
        → ((k : Key) → Contains (keys_of_item journal i) k → other k ≡ register k)
        → brings journal i other ≡ brings journal i register }
{}

/// An item writes at its own keys alone: each entry that it brings to a kept register stands at a
/// key that it touches.
pub fn frame()
    ensures own { (journal : List Receipt) (i : ℕ) (register : Key → List Entry) → IsJournal journal → Kept journal register
        → All (λ e. Contains (keys_of_item journal i) e.key) (brings journal i register).entries }
{}

/// Each front of a permitted order leaves a kept register that keeps its awards; in it all that
/// stands at the keys of the next item is by earlier ones (GBO § 17).
pub fn permitted_runs()
    ensures kept { (journal : List Receipt) (before after : List ℕ) → IsJournal journal → IsPermitted journal (before ++ after)
        → Kept journal (at (settled_in_order journal before).entries) }
    ensures awards { (journal : List Receipt) (before after : List ℕ) → IsJournal journal → IsPermitted journal (before ++ after)
        → AwardsKept journal (at (settled_in_order journal before).entries) }
    ensures earlier { (journal : List Receipt) (before after : List ℕ) (i : ℕ) (k : Key) → IsJournal journal → IsPermitted journal (before ++ i ∷ after)
        → Contains (keys_of_item journal i) k → All (λ e. e.receipt < i) (at (settled_in_order journal before).entries k) }
{
    empty_register_is_kept();
}

/// In whatever permitted order the items are settled, each brings what it brings to the one
/// registrar, who settles them as they came in: so the entries at each key are the same, in the same
/// order, and each item has the same verdict (GBO § 17).
pub fn schedules()
    ensures brought { (journal : List Receipt) (before after : List ℕ) (i : ℕ) → IsJournal journal → IsPermitted journal (before ++ i ∷ after)
        → brings journal i (at (settled_in_order journal before).entries) ≡ brings journal i (at (settled_first journal (i - 1)).entries) }
    ensures entries { (journal : List Receipt) (order : List ℕ) (k : Key) → IsJournal journal → IsPermitted journal order
        → at (settled_in_order journal order).entries k ≡ at (registrar journal).entries k }
    ensures verdicts { (journal : List Receipt) (order : List ℕ) (n : ℕ) → IsJournal journal → IsPermitted journal order
        → verdict_among (settled_in_order journal order).verdicts n ≡ verdict_among (registrar journal).verdicts n }
{
    empty_register_is_kept();
}

/// What an item brings follows from the receipts up to it: later receipts change nothing of it, on a
/// register that names no later ones, such as the register after the first items of a journal. So one
/// that has settled these items has settled them of each longer journal that begins with them.
pub fn later_receipts_change_nothing()
    ensures named { (journal : List Receipt) (n : ℕ) → AllNameUpTo n (at (settled_first journal n).entries) }
    ensures brings { (journal more : List Receipt) (i : ℕ) (register : Key → List Entry) → i ≤ length journal → AllNameUpTo (length journal) register
        → brings (journal ++ more) i register ≡ brings journal i register }
    ensures settled { (journal more : List Receipt) (register : RegisterState) → length register.verdicts ≤ length journal → HasSettled journal register
        → HasSettled (journal ++ more) register }
{}

/// In the register of each journal the live rights of a folio stand in the order of their filings
/// and groups, by their places and days (BGB § 879, GBO § 45).
pub fn rank_order()
    ensures order { (journal : List Receipt) (folio : ℕ) (x y : RightNo) (a b : Created) → IsJournal journal
        → live_right (at (registrar journal).entries (Right folio x)) ≡ Some a → live_right (at (registrar journal).entries (Right folio y)) ≡ Some b
        → is_ahead (places journal (at (registrar journal).entries) folio) (ranked x a) (ranked y b) ≡ is_filed_ahead (ranked x a) (ranked y b) }
{
    empty_register_is_kept();
}
