//! What the items of a case say that runs in a forced sale.

use act_model::{Basis, Registration};
use gb_base::{Cents, Day, Person, RightId};

/// A seizure (ZVG § 20).
#[derive(Clone, Copy, Debug)]
pub(crate) struct Seizure {
    pub basis: Basis,
    /// The day on which it was served on the owner (ZVG §§ 43(2), 44(2)).
    pub served: Day,
}

/// A seizure from right 1.1, which fills the unused slots of a bounded list.
impl Default for Seizure {
    fn default() -> Seizure {
        Seizure {
            basis: Basis::FromRight {
                right: RightId::default(),
            },
            served: Day::new(0).unwrap(),
        }
    }
}

/// A registration (ZVG § 37).
#[derive(Clone, Copy, Debug)]
pub(crate) struct Registered {
    /// Whether it came after the call to bid (ZVG § 110).
    pub late: bool,
    pub what: Registration,
}

/// An advance of nothing by person 1, which fills the unused slots of a bounded list.
impl Default for Registered {
    fn default() -> Registered {
        Registered {
            late: false,
            what: Registration::Advance {
                person: Person::default(),
                amount: Cents::new(0).unwrap(),
            },
        }
    }
}
