//! Entries that an item adds to the parts of a register.
ghost use Rattle.std.specs.Prelude.{◌≡◌, ◌≤◌, [], ◌∷◌, length, IsTrue};
ghost use Rattle.folio_sections.specs.Adding.{AddsList, HasRoom};
ghost use Rattle.folio_sections.specs.Entries.{entry_by};

use crate::{Entry, Parts, What};
use act_model::Journal;
use gb_base::{Key, ReceiptNo};

/// An entry by an item, on its stamp day.
pub fn entry_by(journal: &Journal, item: ReceiptNo, key: Key, what: What) -> Entry
    requires { item ≤ length journal.now.receipts }
    ensures { result ≡ entry_by journal.now.receipts item key what }
{
    Entry {
        receipt: item,
        day: journal.day_of(item),
        key,
        what,
    }
}

/// Adds an entry at the end of its key's part, by `Parts::append`. Its clauses speak of a list of
/// entries, as rules need it that add several; here the list has this entry alone.
pub fn add<P: Parts>(parts: &mut P, entry: Entry)
    requires held { IsTrue (P.holds parts.old entry.key) }
    requires room { HasRoom (P.room parts.old) (entry ∷ []) }
    ensures added { AddsList (P.at parts.old) (P.at parts.new) (P.room parts.old) (P.room parts.new) (entry ∷ []) }
    ensures held { P.holds parts.new ≡ P.holds parts.old }
{
    parts.append(entry);
}
