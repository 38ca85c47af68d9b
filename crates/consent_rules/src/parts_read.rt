//! What is read from the parts at an act's keys.
ghost use Rattle.std.specs.Prelude.{◌≡◌, IsTrue};
ghost use Rattle.gb_base.specs.declared.keys.Key.TheVariants.{Title, Right};
ghost use Rattle.consent_rules.specs.Judging.{lives};
ghost use Rattle.consent_rules.specs.Persons.{stands_in_division_three};
ghost use Rattle.folio_sections.specs.Rights.{live_right};

use folio_sections::{Created, Parts, RightPart, TitlePart};
use gb_base::{FolioId, RightId};

/// The part at a title that is held.
pub fn title_part<P: Parts>(parts: &P, folio: FolioId) -> &TitlePart
    requires held { IsTrue (P.holds parts.now (Title folio)) }
    ensures { result.now.entries ≡ P.at parts.now (Title folio) }
{
    parts.title(folio).unwrap()
}

/// The part at a right that is held.
pub fn right_part<P: Parts>(parts: &P, folio: FolioId, right: RightId) -> &RightPart
    requires held { IsTrue (P.holds parts.now (Right folio right)) }
    ensures { result.now.entries ≡ P.at parts.now (Right folio right) }
{
    parts.right(folio, right).unwrap()
}

/// The right as it was created, where it is live.
pub fn live_right(part: &RightPart) -> Option<Created>
    ensures { result ≡ live_right part.now.entries }
{
    if part.live() { part.created() } else { None }
}

/// Whether the right is live.
pub fn lives<P: Parts>(parts: &P, folio: FolioId, right: RightId) -> bool
    requires held { IsTrue (P.holds parts.now (Right folio right)) }
    ensures { result ≡ lives (P.at parts.now) folio right }
{
    right_part(parts, folio, right).live()
}

/// Whether the right is live, and of division III.
pub fn stands_in_division_three<P: Parts>(parts: &P, folio: FolioId, right: RightId) -> bool
    requires held { IsTrue (P.holds parts.now (Right folio right)) }
    ensures { result ≡ stands_in_division_three (P.at parts.now) folio right }
{
    match live_right(right_part(parts, folio, right)) {
        Some(made) => made.spec.kind.is_in_division_three(),
        None => false,
    }
}
