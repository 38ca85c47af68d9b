//! The open ones among folios.
ghost use Rattle.std.specs.Prelude.{◌≡◌, filter};
ghost use Rattle.gb_base.specs.declared.keys.Key.TheVariants.{Title};
ghost use Rattle.folio_sections.specs.Held.{entries_at};
ghost use Rattle.folio_sections.specs.Titles.{is_open};

use folio_sections::MapParts;
use gb_base::FolioId;

/// Keeps those of these folios that are open, in their order.
pub(crate) fn keep_open(folios: &mut Vec<FolioId>, parts: &MapParts)
    ensures { folios.new.items ≡ filter (λ folio. is_open (entries_at parts.now (Title folio))) folios.old.items }
{
    folios.retain(|folio| parts.is_open(*folio));
}
