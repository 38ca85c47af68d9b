//! Rights as acts describe them.
ghost use Rattle.std.specs.Prelude.{◌≡◌};

use gb_base::{Cents, Person};

/// The kinds of rights. Division II of a folio holds the first two, division III the last two.
#[derive(Clone, Copy, Debug, PartialEq, Eq)]
pub enum RightKind {
    /// A limited personal easement (BGB § 1090).
    PersonalEasement,
    /// A usufruct (BGB § 1030).
    Usufruct,
    /// A mortgage (BGB § 1113), with its interest in hundredths of a percent a year.
    Mortgage { rate_bp: u16 },
    /// A land charge (BGB § 1191), with its interest in hundredths of a percent a year.
    LandCharge { rate_bp: u16 },
}

impl RightKind {
    ghost use Rattle.act_model.specs.Acts.{is_in_division_three};

    /// Whether division III of the folio holds the right; division II holds the others.
    pub fn is_in_division_three(self) -> bool
        ensures { result ≡ is_in_division_three self }
    {
        match self {
            RightKind::PersonalEasement => false,
            RightKind::Usufruct => false,
            RightKind::Mortgage { .. } => true,
            RightKind::LandCharge { .. } => true,
        }
    }
}

/// A right as an act describes it.
#[derive(Clone, Copy, Debug, PartialEq, Eq)]
pub struct RightSpec {
    pub kind: RightKind,
    /// The capital; for a right of division II the highest replacement value (BGB § 882).
    pub capital: Cents,
    /// Whose right it is.
    pub holder: Person,
    /// Rights of one filing and folio with the same group have equal rank, a smaller group is
    /// ahead (GBO § 45(3)); from 1 to 8.
    pub group: u8,
}
