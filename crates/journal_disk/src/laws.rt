//! Laws of the journal file.
ghost use Rattle.std.specs.Prelude.{◌≡◌, ◌<◌, ℕ, List, All};
ghost use Rattle.journal_disk.specs.Layout.{the_heading, IsBad, HasStanding, StandsFor};
ghost use Rattle.journal_disk.specs.Standing.{Standing};

/// Each file has a standing, and only one. So each answer of an opening comes only where no other
/// one could. An unmade file and a made one without frames stand for the same, and the frames
/// before a bad gate are known too.
pub fn one_standing()
    ensures some { (file : List ℕ) → All (λ byte. byte < 256) file → (standing : Standing (List (List ℕ))) × HasStanding the_heading file standing }
    ensures only_one { (file : List ℕ) (a b : Standing (List (List ℕ))) → HasStanding the_heading file a → HasStanding the_heading file b → a ≡ b }
    ensures frames { (file : List ℕ) (a b : List (List ℕ)) → StandsFor the_heading file a → StandsFor the_heading file b → a ≡ b }
    ensures ahead { (file : List ℕ) (a b : List (List ℕ)) → IsBad the_heading file a → IsBad the_heading file b → a ≡ b }
{}
