//! Filings and the other items.
//! Why so: docs/DECISIONS.md, "`clone` answers a `Result`, `copy` does not".
use crate::{Acts, Basis, Docs, Registration};
use gb_base::{Cents, Day, FolioId, Person, ReceiptNo};

/// An application for entries (GBO § 13).
#[derive(Clone, Debug, Drop, PartialEq)]
pub struct Filing {
    /// Who applies.
    pub applicant: Person,
    /// Whether the application is under a condition (GBO § 16).
    pub conditional: bool,
    pub acts: Acts,
    pub docs: Docs,
}

/// What a receipt holds.
#[derive(Clone, Debug, Drop, PartialEq)]
pub enum Item {
    /// An application.
    Filing(Filing),
    /// Further documents for a pending filing (GBO § 18).
    Cure {
        filing: ReceiptNo,
        docs: Docs,
    },
    /// A pending filing is to be rejected, since its deadline has passed (GBO § 18).
    Lapse {
        filing: ReceiptNo,
    },
    /// The land is seized for a creditor (ZVG § 20); `served` is the day on which the debtor was
    /// served.
    Seize {
        folio: FolioId,
        basis: Basis,
        served: Day,
    },
    /// A registration for the forced sale (ZVG § 37).
    Register {
        folio: FolioId,
        what: Registration,
    },
    /// The call to bid, with the costs of the sale (ZVG § 66).
    OpenBids {
        folio: FolioId,
        costs: Cents,
    },
    /// The award to a bidder (ZVG § 81).
    Award {
        folio: FolioId,
        buyer: Person,
        bid: Cents,
    },
    /// The proceeds are distributed (ZVG § 105).
    Distribute {
        folio: FolioId,
    },
    /// The deadline of a pending filing is to be extended, to so many days after this item (GBO
    /// § 18).
    Extend {
        filing: ReceiptNo,
        days: u16,
    },
}

/// What an item is about.
#[derive(Clone, Copy, Debug)]
pub enum Subject {
    /// The item is a filing itself.
    Itself,
    /// The filing that the item names.
    Filing(ReceiptNo),
    /// A forced sale of the folio, with its title and its rights.
    Sale(FolioId),
    /// The claims of a forced sale of the folio alone.
    Claims(FolioId),
}

impl Item {
    ghost use Rattle.std.specs.Prelude.{◌≡◌};
    ghost use Rattle.act_model.specs.Subjects.{named_filing, subject_of};

    /// What the item is about.
    pub fn subject(&self) -> Subject
        ensures { result ≡ subject_of self.now }
    {
        match self {
            Item::Filing(_) => Subject::Itself,
            Item::Cure { filing, .. } | Item::Lapse { filing } | Item::Extend { filing, .. } => {
                Subject::Filing(*filing)
            }
            Item::Register { folio, .. } => Subject::Claims(*folio),
            Item::Seize { folio, .. }
            | Item::OpenBids { folio, .. }
            | Item::Award { folio, .. }
            | Item::Distribute { folio } => Subject::Sale(*folio),
        }
    }

    /// The filing that the item names; None where it is a filing itself, or of a forced sale.
    pub fn named_filing(&self) -> Option<ReceiptNo>
        ensures { result ≡ named_filing self.now }
    {
        match self.subject() {
            Subject::Filing(filing) => Some(filing),
            Subject::Itself | Subject::Sale(_) | Subject::Claims(_) => None,
        }
    }

    /// A copy. Unlike `clone` of most types it takes no memory, and cannot fail.
    pub fn copy(&self) -> Item
        ensures { result ≡ self.now }
    {
        self.clone().unwrap()
    }
}
