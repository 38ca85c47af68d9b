//! What stands in a folio of a register; nothing where the register does not hold the part.
ghost use Rattle.std.specs.Prelude.{◌≡◌, ◌&&◌, IfOk, is_none};
ghost use Rattle.gb_base.specs.declared.keys.Key.TheVariants.{Case, Title};
ghost use Rattle.folio_sections.specs.Cases.{award, is_running};
ghost use Rattle.folio_sections.specs.Held.{entries_at};
ghost use Rattle.folio_line.specs.FolioLine.{IsLineOf};
ghost use Rattle.folio_sections.specs.Titles.{inventory, owners};

use act_model::{Inventory, Owners};
use folio_line::{FolioLine, FolioReading, held_line};
use folio_sections::{Entry, Parts};
use gb_base::{FolioId, NoMemory};
use registrar::Register;
use std::alloc::Global;

/// The parcel of the folio.
#[tactic(auto, using(folio_line::specs::inner::NotHeld::not_held))]
pub(crate) fn inventory_of(register: &Register, folio: FolioId) -> Option<Inventory>
    ensures { result ≡ inventory (entries_at register.now.parts (Title folio)) }
{
    match register.title(folio) {
        Some(title) => title.inventory(),
        None => None,
    }
}

/// The owners of the folio.
#[tactic(auto, using(folio_line::specs::inner::NotHeld::not_held))]
pub(crate) fn owners_of(register: &Register, folio: FolioId) -> Option<Owners>
    ensures { result ≡ owners (entries_at register.now.parts (Title folio)) }
{
    match register.title(folio) {
        Some(title) => title.owners(),
        None => None,
    }
}

/// The entries at the title of the folio.
#[tactic(auto, using(folio_line::specs::inner::NotHeld::not_held))]
pub(crate) fn title_entries(register: &Register, folio: FolioId) -> &[Entry]
    ensures { result.now ≡ entries_at register.now.parts (Title folio) }
{
    match register.title(folio) {
        Some(title) => title.entries(),
        None => &[],
    }
}

/// The entries at the forced sale of the folio.
#[tactic(auto, using(folio_line::specs::inner::NotHeld::not_held))]
pub(crate) fn case_entries(register: &Register, folio: FolioId) -> &[Entry]
    ensures { result.now ≡ entries_at register.now.parts (Case folio) }
{
    match register.case(folio) {
        Some(case) => case.entries(),
        None => &[],
    }
}

/// Whether a forced sale of the folio runs and no award stands in it (ZVG § 19).
#[tactic(auto, using(folio_line::specs::inner::NotHeld::not_held))]
pub(crate) fn has_sale_note(register: &Register, folio: FolioId) -> bool
    ensures { result ≡ is_running (entries_at register.now.parts (Case folio)) && is_none (award (entries_at register.now.parts (Case folio))) }
{
    match register.case(folio) {
        Some(case) => case.awaits_award(),
        None => false,
    }
}

/// The line of the folio. May run out of memory (NoMemory) for its lists.
pub(crate) fn line_of(
    alloc: Global,
    register: &Register,
    folio: FolioId,
) -> Result<FolioLine, NoMemory>
    ensures { IfOk result (λ line. IsLineOf (entries_at register.now.parts) folio line) }
{
    let reading = FolioReading {
        parts: register,
        folio,
        before: None,
    };
    held_line(alloc, &reading)
}
