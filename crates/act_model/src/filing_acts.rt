//! Acts, and lists of them.
ghost use Rattle.std.specs.Prelude.{◌≡◌, ◌≤◌, length};

use crate::{Inventory, Owners, RightSpec};
use arrayvec::ArrayVec;
use gb_base::{Cents, FolioId, Person, RightId};
use std::marker::Model;

/// What a filing applies for, in one folio.
#[derive(Clone, Debug, Drop, PartialEq)]
pub enum Act {
    /// A folio is opened for a parcel (GBO § 3).
    Open {
        folio: FolioId,
        inventory: Inventory,
        owners: Owners,
    },
    /// The land goes to new owners (BGB §§ 873, 925).
    Transfer {
        folio: FolioId,
        owners: Owners,
    },
    /// A right is created (BGB § 873), perhaps under the reservation of a better rank for a later
    /// right of up to this capital (BGB § 881).
    Create {
        folio: FolioId,
        spec: RightSpec,
        reserve: Option<Cents>,
    },
    /// A priority notice for a right is entered (BGB § 883).
    NoticeFor {
        folio: FolioId,
        spec: RightSpec,
    },
    /// The right of a priority notice is entered in the notice's place (BGB § 883(3)).
    Convert {
        folio: FolioId,
        right: RightId,
    },
    /// A right goes to a new holder (BGB § 873).
    Assign {
        folio: FolioId,
        right: RightId,
        holder: Person,
    },
    /// A right is cancelled (BGB § 875).
    Cancel {
        folio: FolioId,
        right: RightId,
    },
    /// One right recedes in rank behind another (BGB § 880).
    Exchange {
        folio: FolioId,
        recede: RightId,
        rise: RightId,
    },
    /// A right is created in the rank that another right's reservation keeps (BGB § 881).
    Exercise {
        folio: FolioId,
        behind: RightId,
        spec: RightSpec,
    },
}

impl Act {
    ghost use Rattle.act_model.specs.Acts.{folio_of, right_created};

    /// The folio that the act is in.
    pub fn folio(&self) -> FolioId
        ensures { result ≡ folio_of self.now }
    {
        match self {
            Act::Open { folio, .. } => *folio,
            Act::Transfer { folio, .. } => *folio,
            Act::Create { folio, .. } => *folio,
            Act::NoticeFor { folio, .. } => *folio,
            Act::Convert { folio, .. } => *folio,
            Act::Assign { folio, .. } => *folio,
            Act::Cancel { folio, .. } => *folio,
            Act::Exchange { folio, .. } => *folio,
            Act::Exercise { folio, .. } => *folio,
        }
    }

    /// The right that the act creates; None where it creates none.
    pub fn right_created(&self) -> Option<RightSpec>
        ensures { result ≡ right_created self.now }
    {
        match self {
            Act::Create { spec, .. } => Some(*spec),
            Act::NoticeFor { spec, .. } => Some(*spec),
            Act::Exercise { spec, .. } => Some(*spec),
            Act::Open { .. } => None,
            Act::Transfer { .. } => None,
            Act::Convert { .. } => None,
            Act::Assign { .. } => None,
            Act::Cancel { .. } => None,
            Act::Exchange { .. } => None,
        }
    }
}

/// A cancellation of right 1.1 in folio 1, which fills the unused places of a bounded list.
impl Default for Act {
    fn default() -> Act {
        Act::Cancel {
            folio: FolioId::default(),
            right: RightId::default(),
        }
    }
}

/// The acts of a filing, at most eight.
#[derive(Clone, Debug, Drop)]
pub struct Acts {
    list: ArrayVec<Act, 8>,
}

impl Model for Acts {
    ghost use Rattle.std.specs.Prelude.{List, ◌≤◌, length};
    ghost use Rattle.gb_base.specs.Limits.{most_acts};
    ghost use Rattle.act_model.specs.declared.filing_acts.Act.{Act};

    ghost Value = { List Act };

    ghost view = { λ a. a.list.items };

    ghost invariant = { λ a. length a.list.items ≤ most_acts };
}

/// Lists of the same acts in the same order are equal.
impl PartialEq for Acts {
    ghost use Rattle.std.specs.Cmp.Lexicographic.{pointwise, lists_per};
    ghost use Rattle.act_model.specs.contracts.filing_acts.ActPartialEq.TheImpl.Laws.{laws-law};

    ghost eq = { pointwise ⟦<Act as PartialEq>⟧.eq };

    ghost laws = { lists_per laws-law };

    fn eq(&self, other: &Acts) -> bool {
        self.list() == other.list()
    }
}

impl Acts {
    ghost use Rattle.gb_base.specs.Limits.{most_acts};

    /// These acts.
    pub fn new(list: ArrayVec<Act, 8>) -> Acts
        ensures { result ≡ list.items }
    {
        Acts { list }
    }

    /// The acts in their order.
    pub fn list(&self) -> &[Act]
        ensures value { result.now ≡ self.now }
        ensures at_most_eight { length self.now ≤ most_acts }
    {
        self.list.as_slice()
    }
}
