//! What the seizures and registrations of a forced sale say.
use gb_base::{Cents, Day, Person, RightId};

/// What a seizure rests on (ZVG § 10).
#[derive(Clone, Copy, Debug, PartialEq, Eq)]
pub enum Basis {
    /// A personal creditor's claim, of class 5.
    Personal { creditor: Person, claim: Cents },
    /// A mortgage or land charge in the folio.
    FromRight { right: RightId },
}

/// A registration for the forced sale (ZVG §§ 37, 45).
#[derive(Clone, Copy, Debug, PartialEq, Eq)]
pub enum Registration {
    /// An advance for keeping up the land, of class 1.
    Advance {
        person: Person,
        amount: Cents,
    },
    /// A public charge, of class 3, or of class 7 where it is older.
    PublicCharge {
        person: Person,
        amount: Cents,
        due: Day,
    },
    /// Interest of a right in arrears, from a day up to but not including another.
    Arrears {
        right: RightId,
        from: Day,
        until: Day,
    },
}
