//! The register's entries, each by an item at a key.
//! Why so: docs/DECISIONS.md, "Some names stay that a newcomer stumbles over".
use act_model::{Inventory, Owners, RightSpec};
use gb_base::{Cents, Day, Key, Person, ReceiptNo, RightId};

/// Whether a right is entered, or only a priority notice for it (BGB § 883).
#[derive(Clone, Copy, Debug, PartialEq, Eq)]
pub enum RightForm {
    /// The right itself.
    Full,
    /// A priority notice for the right.
    Notice,
}

/// A right as it was entered.
#[derive(Clone, Copy, Debug, PartialEq, Eq)]
pub struct Created {
    pub spec: RightSpec,
    pub form: RightForm,
    /// Up to which capital a later right may be entered ahead of this one (BGB § 881).
    pub reserve: Option<Cents>,
    /// The right whose reservation this one took up.
    pub ahead_of: Option<RightId>,
    /// The day of the entry that gives the right its place (BGB § 879).
    pub placed: Day,
    /// The filing of the last earlier place of the other division on that day (GBO § 45(2)).
    pub behind: Option<ReceiptNo>,
    /// Whether another creating act of the filing and folio has the same group (GBO § 45(1), (3)).
    pub equal: bool,
}

/// What an entry says.
#[derive(Clone, Debug, Drop)]
pub enum What {
    /// At a title: the folio is open, with this parcel and these owners (GBO § 3).
    Opened {
        inventory: Inventory,
        owners: Owners,
    },
    /// At a title: the land has new owners (BGB § 925).
    Owner {
        owners: Owners,
    },
    /// At a title: the award makes the buyer the owner (ZVG § 90).
    AwardOwner {
        buyer: Person,
    },
    /// At a title: a filing has its place, for rights of division II, of division III or of both
    /// (BGB § 879).
    Placed {
        filing: ReceiptNo,
        second: bool,
        third: bool,
    },
    /// A filing waits for cures until this day; of several, the last counts (GBO § 18).
    Pending {
        filing: ReceiptNo,
        until: Day,
    },
    /// An official notice keeps the place of a filing that waits (GBO § 18(2)).
    Notice {
        filing: ReceiptNo,
    },
    /// A filing waits no longer.
    Settled {
        filing: ReceiptNo,
    },
    /// At a right: it stands.
    Created(Created),
    /// At a right: the right of a priority notice is entered (BGB § 883(3)).
    Converted,
    /// At a right: it has a new holder (BGB § 873).
    Holder {
        person: Person,
    },
    /// At a right: it is cancelled, as expired by law or by consent (BGB § 875, GBO § 22).
    Cancelled {
        expired: bool,
    },
    /// At both rights: one recedes in rank behind the other by this act of the filing (BGB § 880).
    Exchanged {
        recede: RightId,
        rise: RightId,
        act: u8,
    },
    /// At a right: its reservation is spent by this right (BGB § 881).
    Exercised {
        by: RightId,
    },
    /// At a right: it remains after an award with this capital (ZVG § 52).
    Remains {
        capital: Cents,
    },
    /// At a right: it expires by an award (ZVG § 91).
    Expired,
    /// At a forced sale: the land is seized (ZVG § 20).
    Seized,
    /// At a forced sale: a claim is registered (ZVG § 37).
    Registered,
    /// At a forced sale: the call to bid, with the costs (ZVG § 66).
    Bids {
        costs: Cents,
    },
    /// At a forced sale: the award (ZVG § 81).
    Awarded {
        buyer: Person,
        bid: Cents,
    },
    /// At a forced sale: the proceeds are distributed (ZVG § 105).
    Distributed,
}

/// An entry of the register.
#[derive(Clone, Debug, Drop)]
pub struct Entry {
    /// The item that brought the entry about.
    pub receipt: ReceiptNo,
    /// The stamp day of that item.
    pub day: Day,
    pub key: Key,
    pub what: What,
}
