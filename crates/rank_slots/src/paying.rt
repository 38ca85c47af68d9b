//! What a right gets of a sum that is paid along the line.
ghost use Rattle.std.specs.Prelude.{◌≡◌, ◌<◌, ◌≤◌, true, All, length, map, sum_by};
ghost use Rattle.std.specs.List.{list_any};
ghost use Rattle.rank_slots.specs.CanFill.{CanFill, CanKnot, StandsAlone};
ghost use Rattle.rank_slots.specs.Groups.{is_of, keeps_place};
ghost use Rattle.gb_base.specs.Limits.{most_sum};
ghost use Rattle.rank_slots.specs.Limits.{most_places};
ghost use Rattle.rank_slots.specs.Payments.{claim_of, knot_of, share_in_group, pay, pay_exercised, pay_reserved, line_pay};

use crate::groups::{group_of, places_ahead};
use crate::pieces::cents_within;
use crate::place_numbers::lone_number;
use crate::places::MOST_PLACES;
use crate::{Knot, Place, Slots};
use arrayvec::ArrayVec;
use gb_base::{RightId, share};

impl Slots {
    /// How many of the first t cents the right gets. One of a group gets its share of the group's
    /// cents; the reserved right of a knot gets what it would get, knots left aside, of a sum that
    /// is smaller by the exercised one's claim, and the exercised one the rest of what both would
    /// get (BGB § 881(4)). Takes no memory.
    ///
    /// ```
    /// // With A, B and C as in `Slots::fill`.
    /// assert_eq!(slots.pay(c, 100), 80);
    /// assert_eq!(slots.pay(a, 100), 20);
    /// assert_eq!(slots.pay(b, 100), 0);
    /// ```
    pub fn pay(&self, right: RightId, t: u64) -> u64
        requires kept { keeps_place self.now.filled.places right ≡ true }
        ensures value { result ≡ pay self.now.filled right t }
    {
        match self.knot_of(right) {
            None => self.line_pay(right, t),
            Some(knot) if knot.reserved == right => self.pay_reserved(knot, t),
            Some(knot) => self.pay_exercised(knot, t),
        }
    }

    /// What the reserved right of a knot gets.
    fn pay_reserved(&self, knot: Knot, t: u64) -> u64
        requires { CanKnot self.now.filled.places self.now.filled.swaps knot }
        ensures { result ≡ pay_reserved self.now.filled knot t }
    {
        let without = t.saturating_sub(self.claim_of(knot.exercised));
        self.line_pay(knot.reserved, without)
    }

    /// What the exercised right of a knot gets.
    fn pay_exercised(&self, knot: Knot, t: u64) -> u64
        requires fits { CanFill self.now.filled }
        requires knot { CanKnot self.now.filled.places self.now.filled.swaps knot }
        ensures { result ≡ pay_exercised self.now.filled knot t }
    {
        self.line_pay(knot.reserved, t) + self.line_pay(knot.exercised, t)
            - self.pay_reserved(knot, t)
    }

    /// The knot that ties this right, if one does. Takes no memory.
    pub fn knot_of(&self, right: RightId) -> Option<Knot>
        ensures value { result ≡ knot_of self.now.filled.knots right }
        ensures fits { CanFill self.now.filled }
    {
        self.knots
            .iter()
            .find(|knot| knot.reserved == right || knot.exercised == right)
            .copied()
    }

    /// The claim of this right, in cents; 0 where it has no place. Takes no memory.
    pub fn claim_of(&self, right: RightId) -> u64
        ensures value { result ≡ claim_of self.now.filled.places right }
        ensures bound { result < most_sum }
    {
        match self.places.iter().find(|place| place.right == right) {
            Some(place) => place.claim,
            None => 0,
        }
    }

    /// How many of the first t cents the right gets, knots left aside. For one that stands alone
    /// its own pieces are walked, else those of the line.
    fn line_pay(&self, right: RightId, t: u64) -> u64
        requires { keeps_place self.now.filled.places right ≡ true }
        ensures value { result ≡ line_pay self.now.filled right t }
        ensures bound { StandsAlone self.now.filled.places right → result < most_sum }
    {
        match lone_number(&self.places, right) {
            Some(number) => self.chains.cents_within(number, t),
            None => self.pay_in_group(right, t),
        }
    }

    /// How many of the first t cents a right gets that may share its group with others, knots left
    /// aside.
    fn pay_in_group(&self, right: RightId, t: u64) -> u64
        requires { keeps_place self.now.filled.places right ≡ true }
        ensures value { result ≡ line_pay self.now.filled right t }
        ensures bound { StandsAlone self.now.filled.places right → result < most_sum }
    {
        let group = group_of(&self.places, right);
        share_in_group(group, right, cents_within(&self.pieces, group, t))
    }
}

/// What a right gets of the cents of its group.
fn share_in_group(group: &[Place], right: RightId, cents: u64) -> u64
    requires there { list_any (is_of right) group.now ≡ true }
    requires few { length group.now ≤ most_places }
    requires claims { All (λ p. 1 ≤ p.claim) group.now }
    requires sum { sum_by (λ p. p.claim) group.now < most_sum }
    ensures { result ≡ share_in_group group.now right cents }
{
    match group {
        [_] => cents,
        _ => share(cents, &claims_of(group), places_ahead(group, right)),
    }
}

/// The claims of these places.
fn claims_of(group: &[Place]) -> ArrayVec<u64, MOST_PLACES>
    requires { length group.now ≤ most_places }
    ensures { result.items ≡ map (λ p. p.claim) group.now }
{
    let mut claims = ArrayVec::new();
    for place in group {
        claims.push(place.claim);
    }
    claims
}
