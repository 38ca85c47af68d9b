//! What the generator keeps of a folio.
ghost use Rattle.std.specs.Prelude.{◌≡◌, ◌∷◌, ◌++◌, [], OnOk};
ghost use Rattle.sample_journals.specs.Turns.{first_notes};

use gb_base::{FolioId, NoMemory, Person, ReceiptNo, RightId};

/// A right that the generator has created in a folio.
#[derive(Clone, Copy, Debug)]
pub(crate) struct KnownRight {
    pub right: RightId,
    pub holder: Person,
}

/// The steps of a forced sale, in their order.
#[derive(Clone, Copy, Debug)]
pub(crate) enum SaleStep {
    Seizure,
    Call,
    Award,
    Distribution,
}

/// What the generator keeps of a folio. It does not know what becomes of its items.
#[derive(Debug, Drop)]
pub(crate) struct FolioNotes {
    pub owner: Person,
    /// The two newest rights that are not cancelled. There is a second one only where there is a
    /// newest.
    pub newest: Option<KnownRight>,
    pub second: Option<KnownRight>,
    /// The filing whose consent was in plain form, and that no cure has followed yet.
    pub uncertified: Option<ReceiptNo>,
    /// The step of a forced sale that is next.
    pub next: SaleStep,
}

/// Adds what is kept of a folio at first: its owner has its number.
pub(crate) fn add_folio(folios: &mut Vec<FolioNotes>, folio: FolioId) -> Result<(), NoMemory>
    ensures { OnOk result (folios.new.items ≡ folios.old.items ++ first_notes folio ∷ []) }
{
    let owner = Person::new(folio.get()).unwrap();
    folios.push(FolioNotes {
        owner,
        newest: None,
        second: None,
        uncertified: None,
        next: SaleStep::Seizure,
    })?;
    Ok(())
}
