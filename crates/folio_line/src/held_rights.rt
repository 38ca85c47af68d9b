//! Parts that know which rights of a folio are among them.
ghost use Rattle.std.specs.Prelude.{◌≡◌, IfOk};

use folio_sections::{MapParts, Parts};
use gb_base::{FolioId, NoMemory, RightId};
use std::alloc::Global;

/// Parts that know which rights of a folio are among them. `Parts` alone are asked for one key after
/// another; but a line is made of all rights of its folio, and no rule could try each number that a
/// right may have.
pub trait HeldRights: Parts {
    ghost use Rattle.std.specs.Prelude.{◌≡◌, false, [], IfOk};
    ghost use Rattle.gb_base.specs.declared.keys.Key.{Key};
    ghost use Rattle.folio_sections.specs.HeldRights.{held_rights};

    /// The rights of a folio whose parts are held, by receipt and act. May run out of memory for the
    /// list (`NoMemory`).
    fn rights_in(&self, alloc: Global, folio: FolioId) -> Result<Vec<RightId>, NoMemory>
        ensures rights { IfOk result (λ rights. rights.items ≡ held_rights (Self.holds self.now) folio) };

    /// Nothing stands where no part is held.
    ghost unheld_is_empty: { (parts : Self) (k : Key) → Self.holds parts k ≡ false → Self.at parts k ≡ [] };
}

impl HeldRights for MapParts {
    ghost use Rattle.folio_line.specs.inner.NotHeld.{not_held};

    fn rights_in(&self, alloc: Global, folio: FolioId) -> Result<Vec<RightId>, NoMemory> {
        MapParts::rights_in(self, alloc, folio)
    }

    ghost unheld_is_empty = { not_held };
}
