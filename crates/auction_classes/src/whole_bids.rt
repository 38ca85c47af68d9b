//! The lowest bid where each seizure that is served is a personal creditor's (ZVG §§ 44, 49): the
//! cover is then the whole line of class 4 and what was seized for before the base, so that each
//! right of the class gets its whole claim, whatever exchanges there are.
//! Why so: docs/DECISIONS.md, "A call to bid of personal creditors reads no exchange".
ghost use Rattle.std.specs.Prelude.{◌≡◌, ◌<◌, ◌≤◌, All, IfSome, sum_by};
ghost use Rattle.std.specs.Result.{result_ok};
ghost use Rattle.gb_base.specs.Limits.{most_sum};
ghost use Rattle.auction_classes.specs.LowestBid.{cents_ahead, personal_amount};
ghost use Rattle.auction_classes.specs.inner.LinesRead.{HasLowInterest};
ghost use Rattle.auction_classes.specs.inner.WholeBids.{HaveWholeBid, before_served, capital_in_four, claim_in_four, whole_bid, whole_bid_by};

use crate::claim_lists::ClaimLists;
use crate::covers::personal_amount;
use crate::lowest_bids::ahead_of_rights;
use crate::rights_found::RightFound;
use crate::{ClaimItem, Lowest, NoServedCreditor, SeizedFor};

impl ClaimLists {
    /// The lowest bid by these lists, with so much of costs. NoServedCreditor where no seizure is
    /// served. Takes no memory.
    pub fn whole_bid(&self, costs: u64) -> Result<Lowest, NoServedCreditor>
        requires costs { costs < most_sum }
        requires sums { HaveWholeBid self.now }
        ensures { result_ok result ≡ whole_bid costs self.now.items.items self.now.seizures.items self.now.found.items }
    {
        match before_served(&self.seizures) {
            Some(before) => Ok(whole_bid_by(costs, &self.items, &self.found, before)),
            None => Err(NoServedCreditor),
        }
    }
}

/// The lowest bid where personal creditors seized for so much before the base.
fn whole_bid_by(costs: u64, items: &[ClaimItem], found: &[RightFound], before: u64) -> Lowest
    requires costs { costs < most_sum }
    requires ahead { sum_by cents_ahead items.now < most_sum }
    requires four { sum_by claim_in_four found.now < most_sum }
    requires interest { All HasLowInterest found.now }
    requires before { before < most_sum }
    ensures { result ≡ whole_bid_by costs items.now found.now before }
{
    let on_line = claimed_in_four(found);
    let total = costs + (ahead_of_rights(items) + (on_line + before));
    Lowest {
        total,
        cash: total.saturating_sub(capital_in_all(found)),
        cover: on_line,
    }
}

/// What personal creditors seized for before the first of these seizures that is served, in cents;
/// None where none is served. Covers never fall from one personal creditor's seizure to the next, so
/// that first one is the base (ZVG § 44(2)).
fn before_served(seizures: &[SeizedFor]) -> Option<u64>
    requires { sum_by (λ z. personal_amount z.basis) seizures.now < most_sum }
    ensures value { result ≡ before_served 0 seizures.now }
    ensures bound { IfSome result (λ before. before < most_sum) }
{
    let mut before = 0;
    for seizure in seizures {
        if seizure.served {
            return Some(before);
        }
        before += personal_amount(seizure.basis);
    }
    None
}

/// What those of these rights that are of class 4 claim, in cents.
fn claimed_in_four(found: &[RightFound]) -> u64
    requires sum { sum_by claim_in_four found.now < most_sum }
    requires interest { All HasLowInterest found.now }
    ensures value { result ≡ sum_by claim_in_four found.now }
    ensures bound { result < most_sum }
{
    let mut cents = 0;
    for right in found {
        cents += claim_in_four(right);
    }
    cents
}

/// What a right of class 4 claims, interest and capital; 0 where it is of class 6.
fn claim_in_four(right: &RightFound) -> u64
    requires { HasLowInterest right.now }
    ensures { result ≡ claim_in_four right.now }
{
    if right.class == 4 {
        right.interest + right.capital.get()
    } else {
        0
    }
}

/// The capital of those of these rights that are of class 4, in cents: that is what remains of them.
fn capital_in_all(found: &[RightFound]) -> u64
    requires { sum_by capital_in_four found.now < most_sum }
    ensures { result ≡ sum_by capital_in_four found.now }
{
    let mut cents = 0;
    for right in found {
        cents += capital_in_four(right);
    }
    cents
}

/// The capital of a right of class 4; 0 where it is of class 6.
fn capital_in_four(right: &RightFound) -> u64
    ensures { result ≡ capital_in_four right.now }
{
    if right.class == 4 {
        right.capital.get()
    } else {
        0
    }
}
