//! From which sum on a right gets something.
ghost use Rattle.std.specs.Prelude.{◌≡◌, ◌*◌, ◌<◌, true};
ghost use Rattle.rank_slots.specs.Filled.{line};
ghost use Rattle.rank_slots.specs.Groups.{group_of, keeps_place};
ghost use Rattle.gb_base.specs.Limits.{most_sum};
ghost use Rattle.rank_slots.specs.Payments.{cents_ahead, reaches_end, threshold};

use crate::Slots;
use crate::groups::group_of;
use crate::pieces::{cents_ahead, reaches_end};
use gb_base::RightId;

impl Slots {
    /// The greatest sum, in cents, up to which the right gets nothing; for one of a group how many
    /// cents stand ahead of the group. Takes no memory.
    ///
    /// ```
    /// // With A, B and C as in `Slots::fill`.
    /// assert_eq!(slots.threshold(c), 0);
    /// assert_eq!(slots.threshold(a), 80);
    /// assert_eq!(slots.threshold(b), 100);
    /// ```
    pub fn threshold(&self, right: RightId) -> u64
        requires kept { keeps_place self.now.filled.places right ≡ true }
        ensures value { result ≡ threshold self.now.filled right }
        ensures bound { result < 2 * most_sum }
    {
        match self.knot_of(right) {
            None => self.cents_ahead(right),
            Some(knot) if knot.reserved == right => {
                self.cents_ahead(right) + self.claim_of(knot.exercised)
            }
            Some(knot) => self.cents_ahead(knot.reserved),
        }
    }

    /// Whether the first t cents reach the last cent of the right. Takes no memory.
    ///
    /// ```
    /// // With A, B and C as in `Slots::fill`.
    /// assert!(slots.reaches_end(c, 80));
    /// assert!(!slots.reaches_end(b, 149));
    /// ```
    pub fn reaches_end(&self, right: RightId, t: u64) -> bool
        ensures { result ≡ reaches_end self.now.filled right t }
    {
        reaches_end(&self.pieces, right, t)
    }

    /// How many cents stand ahead of the right's group.
    fn cents_ahead(&self, right: RightId) -> u64
        ensures value { result ≡ cents_ahead (group_of self.now.filled.places right) (line self.now.filled) }
        ensures bound { result < most_sum }
    {
        cents_ahead(&self.pieces, group_of(&self.places, right))
    }
}
