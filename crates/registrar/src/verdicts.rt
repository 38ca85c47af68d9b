//! What becomes of an item.
use consent_rules::Defects;
use gb_base::{Day, Section};

/// What becomes of an item.
#[derive(Clone, Debug, Drop)]
pub enum Verdict {
    /// The filing is entered (GBO § 44).
    Entered,
    /// The filing is rejected, or the extension or the item of a forced sale is refused, under this
    /// section (GBO § 18).
    Rejected(Section),
    /// The filing waits for cures of these defects; after this day a lapse ends its waiting (GBO
    /// § 18).
    Interim { until: Day, defects: Defects },
    /// By this cure the filing that it names is entered.
    Cured,
    /// The filing that the cure names is rejected under this section.
    CureRejected(Section),
    /// The filing that the cure names waits on, for cures of these defects.
    StillOpen(Defects),
    /// The filing that the lapse names is rejected, since its deadline is over (GBO § 18).
    Lapsed,
    /// The deadline of the filing that the lapse names is not over: this day is the last of it.
    TooEarly(Day),
    /// The filing that the extension names waits until this day (GBO § 18).
    Extended { until: Day },
    /// The deadline of the filing that the extension names is over: this day was the last of it.
    TooLate(Day),
    /// The item names no earlier filing that waits.
    NotPending,
    /// The land is seized (ZVG § 20).
    Seized,
    /// The claim is registered (ZVG § 37).
    Registered,
    /// Bidders are called: the lowest bid, and the part of it that is paid in cash, in cents (ZVG
    /// §§ 44, 49, 66).
    Lowest { total: u64, cash: u64 },
    /// The land is awarded (ZVG § 81).
    Awarded,
    /// The bid is below the part of the lowest bid that is paid in cash, in cents (ZVG §§ 44, 49).
    BidTooLow { bid: u64, cash: u64 },
    /// The proceeds are distributed: so much money, in cents, which is the bid of the award with its
    /// interest (ZVG §§ 49, 105).
    Distributed { money: u64 },
}
