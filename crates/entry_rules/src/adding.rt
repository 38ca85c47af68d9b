//! Entries that are added to the parts of a register.
ghost use Rattle.std.specs.Prelude.{◌≡◌, ◌≤◌, [], ◌∷◌, length, IsTrue};
ghost use Rattle.folio_sections.specs.Adding.{AddsList, HasRoom};
ghost use Rattle.folio_sections.specs.Entries.{entry_by};

use act_model::Matter;
use folio_sections::{Entry, Parts, What, add, entry_by};
use gb_base::Key;

/// An entry by the item that enters the filing.
pub fn entry(matter: &Matter, key: Key, what: What) -> Entry
    requires { matter.now.item ≤ length matter.now.journal.now.receipts }
    ensures { result ≡ entry_by matter.now.journal.now.receipts matter.now.item key what }
{
    entry_by(matter.journal, matter.item, key, what)
}

/// Adds two entries, the first and then the second.
pub fn add_both<P: Parts>(parts: &mut P, first: Entry, second: Entry)
    requires first_held { IsTrue (P.holds parts.old first.key) }
    requires second_held { IsTrue (P.holds parts.old second.key) }
    requires room { HasRoom (P.room parts.old) (first ∷ second ∷ []) }
    ensures added { AddsList (P.at parts.old) (P.at parts.new) (P.room parts.old) (P.room parts.new) (first ∷ second ∷ []) }
    ensures held { P.holds parts.new ≡ P.holds parts.old }
{
    add(parts, first);
    add(parts, second);
}
