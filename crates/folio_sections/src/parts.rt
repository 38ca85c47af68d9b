//! What the rules read and write of a register: the parts that they are lent.
ghost use Rattle.std.specs.Prelude.{◌≡◌};

use crate::{CasePart, Entry, RightPart, TitlePart};
use gb_base::{FolioId, RightId};

/// The parts of a register at some keys.
pub trait Parts {
    ghost use Rattle.std.specs.Prelude.{ℕ, Bool, List, ◌≤◌, IsTrue, is_some, IfSome};
    ghost use Rattle.gb_base.specs.declared.keys.Key.{Key};
    ghost use Rattle.gb_base.specs.declared.keys.Key.TheVariants.{Title, Right, Case};
    ghost use Rattle.folio_sections.specs.declared.entries.Entry.{Entry};
    ghost use Rattle.folio_sections.specs.Adding.{Adds};

    /// Whether the part of a key is among them.
    ghost holds: { Self → Key → Bool };

    /// The entries at a key.
    ghost at: { Self → Key → List Entry };

    /// How many more entries a key has room for.
    ghost room: { Self → Key → ℕ };

    /// The part at the title of a folio; None where it is not among them.
    fn title(&self, folio: FolioId) -> Option<&TitlePart>
        ensures some { is_some result ≡ holds self.now (Title folio) }
        ensures key { IfSome result (λ part. part.now.key ≡ Title folio) }
        ensures value { IfSome result (λ part. part.now.entries ≡ at self.now (Title folio)) };

    /// The part at a right of a folio; None where it is not among them.
    fn right(&self, folio: FolioId, right: RightId) -> Option<&RightPart>
        ensures some { is_some result ≡ holds self.now (Right folio right) }
        ensures key { IfSome result (λ part. part.now.key ≡ Right folio right) }
        ensures value { IfSome result (λ part. part.now.entries ≡ at self.now (Right folio right)) };

    /// The part at the forced sale of a folio; None where it is not among them.
    fn case(&self, folio: FolioId) -> Option<&CasePart>
        ensures some { is_some result ≡ holds self.now (Case folio) }
        ensures key { IfSome result (λ part. part.now.key ≡ Case folio) }
        ensures value { IfSome result (λ part. part.now.entries ≡ at self.now (Case folio)) };

    /// Adds an entry at the end of its key's part. It takes no memory and cannot fail.
    fn append(&mut self, entry: Entry)
        requires held { IsTrue (holds self.old entry.key) }
        requires room { 1 ≤ room self.old entry.key }
        ensures added { Adds (at self.old) (at self.new) (room self.old) (room self.new) entry }
        ensures held { holds self.new ≡ holds self.old };
}
