//! The lowest bid (ZVG §§ 44, 49).
ghost use Rattle.std.specs.Prelude.{◌≡◌, ◌+◌, ◌*◌, ◌<◌, ◌≤◌, OnOk, length, sum_by};
ghost use Rattle.std.specs.Result.{result_ok};
ghost use Rattle.gb_base.specs.Limits.{most_sum};
ghost use Rattle.auction_classes.specs.LowestBid.{bid_by, cents_ahead, lowest_bid};

use crate::covers::cover_of_base;
use crate::remaining::remaining_in_all;
use crate::{ClaimItem, Claims};
use rank_slots::Slots;

/// The lowest bid that is let in, in cents.
#[derive(Clone, Copy, Debug, PartialEq, Eq)]
pub struct Lowest {
    /// The costs, the timely claims of classes 1 and 3, and the cover of the base (ZVG § 44(1)).
    pub total: u64,
    /// The part of it that is paid in cash: without what remains of rights (ZVG §§ 49, 52).
    pub cash: u64,
    /// The part of the base's cover that lies on the line of class 4.
    pub cover: u64,
}

/// No seizure is served: none of a personal creditor was in time, and none in time is from a right
/// that still stands (ZVG § 43).
#[derive(Clone, Copy, Debug, PartialEq, Eq)]
pub struct NoServedCreditor;

impl Claims {
    /// The lowest bid. Takes no memory. NoServedCreditor where no seizure is served; else the slots
    /// are filled with the line of class 4.
    pub fn lowest_bid(&self, slots: &mut Slots) -> Result<Lowest, NoServedCreditor>
        requires places { length self.now.claimed.line_four.places ≤ slots.old.place_room }
        requires swaps { length self.now.claimed.line_four.swaps ≤ slots.old.swap_room }
        ensures value { result_ok result ≡ lowest_bid self.now.claimed }
        ensures filled { OnOk result (slots.new.filled ≡ self.now.claimed.line_four) }
        ensures place_room { slots.new.place_room ≡ slots.old.place_room }
        ensures swap_room { slots.new.swap_room ≡ slots.old.swap_room }
        ensures memory { slots.new.capacity ≡ slots.old.capacity }
    {
        self.fill_line(slots, 4);
        match cover_of_base(slots, &self.lists.seizures) {
            Some(cover) => Ok(self.bid_by(slots, cover)),
            None => Err(NoServedCreditor),
        }
    }

    /// The lowest bid with this cover of the base.
    fn bid_by(&self, slots: &Slots, cover: u64) -> Lowest
        requires filled { slots.now.filled ≡ self.now.claimed.line_four }
        requires bound { cover < 2 * most_sum }
        ensures { result ≡ bid_by self.now.claimed cover }
    {
        let on_line = cover.min(slots.length());
        let total = self.costs + (ahead_of_rights(&self.lists.items) + cover);
        let remaining = remaining_in_all(slots, on_line, &self.lists.rights);
        Lowest {
            total,
            cash: u128::from(total).saturating_sub(remaining) as u64,
            cover: on_line,
        }
    }
}

/// What the timely claims of classes 1 and 3 come to, in cents.
pub(crate) fn ahead_of_rights(items: &[ClaimItem]) -> u64
    requires { sum_by cents_ahead items.now < most_sum }
    ensures { result ≡ sum_by cents_ahead items.now }
{
    let mut cents = 0;
    for claim in items {
        cents += cents_ahead(claim);
    }
    cents
}

/// The cents of a claim that is timely and of class 1 or 3; 0 of any other.
fn cents_ahead(claim: &ClaimItem) -> u64
    ensures { result ≡ cents_ahead claim.now }
{
    if !claim.late && (claim.class == 1 || claim.class == 3) {
        claim.capital
    } else {
        0
    }
}
