//! Laws of the journal's file.
//! Why so: docs/DECISIONS.md, "A file's standing is said as not none".
ghost use Rattle.std.specs.Prelude.{◌≡◌, ◌<◌, ◌≤◌, ℕ, List, All, map, take};
ghost use Rattle.act_model.specs.declared.receipts.Receipt.{Receipt};
ghost use Rattle.journal_disk.specs.Layout.{the_heading, file_limit};
ghost use Rattle.journal_disk.specs.Standing.{Standing};
ghost use Rattle.receipt_journal.specs.Standing.{IsKeepable, HasBookStanding, StandsForJournal};
ghost use Rattle.receipt_journal.specs.Receiving.{file_size};
ghost use Rattle.receipt_journal.specs.Repeating.{unstamped, after_all};

/// No file of bytes is without a standing, and none has two. So each answer of an opening comes only
/// where no other one could. An unmade file and a made one without frames stand for the same.
pub fn one_standing()
    ensures some { (file : List ℕ) → All (λ byte. byte < 256) file → ((standing : Standing (List Receipt)) → HasBookStanding file standing → ⊥) → ⊥ }
    ensures only_one { (file : List ℕ) (a b : Standing (List Receipt)) → HasBookStanding file a → HasBookStanding file b → a ≡ b }
    ensures journal { (file : List ℕ) (a b : List Receipt) → StandsForJournal file a → StandsForJournal file b → a ≡ b }
{}

/// The file of a journal never passes its limit: 200,000 spellings of at most 522 bytes take less.
/// So an item that the journal accepts has room on the disk.
pub fn all_have_room()
    ensures { (journal : List Receipt) → IsKeepable journal → file_size the_heading journal ≤ file_limit }
{}

/// An input that came in up to any item may come in again whole: the journal then has the items that it
/// has where the input came in once, under the same senders, references and numbers. Only the stamps may
/// differ, with which `front`, `whole` and `once` have the same items. This holds of full journals too.
pub fn again()
    ensures { (journal front whole once : List Receipt) (k : ℕ)
        → map unstamped front ≡ take k (map unstamped once)
        → map unstamped whole ≡ map unstamped once
        → map unstamped (after_all (after_all journal front) whole) ≡ map unstamped (after_all journal once) }
{}
