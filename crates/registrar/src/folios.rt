//! The list of a register's open folios.
ghost use Rattle.std.specs.Prelude.{◌≡◌, ◌↔◌, ◌<◌, ◌≤◌, ◌+◌, ◌++◌, ℕ, length, filter, filter_map, vec_len, vec_capacity, AllPairs, Contains, IfOk};
ghost use Rattle.gb_base.specs.declared.keys.Key.TheVariants.{Title};
ghost use Rattle.folio_sections.specs.Held.{entries_at};
ghost use Rattle.folio_sections.specs.Titles.{is_open};
ghost use Rattle.registrar.specs.inner.Listed.{closed_folio_of_title};

use folio_sections::MapParts;
use gb_base::{FolioId, Key, NoMemory};
use std::alloc::Global;

/// The folios whose titles are among these keys and not open.
pub(crate) fn closed_folios(
    alloc: Global,
    parts: &MapParts,
    keys: &[Key],
) -> Result<Vec<FolioId>, NoMemory>
    ensures { IfOk result (λ folios. folios.items ≡ filter_map (closed_folio_of_title (entries_at parts.now)) keys.now) }
{
    keys.iter()
        .filter_map(|key| closed_folio_of_title(parts, key))
        .collect(alloc)
}

/// The folio whose title has this key, where it is not open.
fn closed_folio_of_title(parts: &MapParts, key: &Key) -> Option<FolioId>
    ensures { result ≡ closed_folio_of_title (entries_at parts.now) key.now }
{
    match key {
        Key::Title(folio) if !parts.is_open(*folio) => Some(*folio),
        _ => None,
    }
}

/// Lists those of these folios that are open, after the others. It takes no memory.
pub(crate) fn list_open(list: &mut Vec<FolioId>, parts: &MapParts, folios: &[FolioId])
    requires room { vec_len list.old + length folios.now ≤ vec_capacity list.old }
    ensures { list.new.items ≡ list.old.items ++ filter (λ folio. is_open (entries_at parts.now (Title folio))) folios.now }
{
    for folio in folios {
        if parts.is_open(*folio) {
            list.push_reserved(*folio);
        }
    }
}

/// Puts folios into ascending order, each once.
pub(crate) fn put_in_order(folios: &mut Vec<FolioId>)
    ensures ascending { AllPairs (λ folio later. folio < later) folios.new.items }
    ensures members { (folio : ℕ) → Contains folios.new.items folio ↔ Contains folios.old.items folio }
{
    folios.sort_unstable();
    folios.dedup();
}
