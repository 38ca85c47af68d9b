//! Which of two rights stands ahead.
ghost use Rattle.std.specs.Prelude.{◌≡◌, true};
ghost use Rattle.rank_slots.specs.Groups.{keeps_place};
ghost use Rattle.rank_slots.specs.Relations.{is_exercised_over, last_between, relation, relation_by, swaps_both};

use crate::groups::{group_of, holds, is_listed_ahead};
use crate::{Knot, Place, Slots, Swap};
use gb_base::RightId;

/// How one right stands to another.
#[derive(Clone, Copy, Debug, PartialEq, Eq)]
pub enum Relation {
    Ahead,
    Behind,
    Equal,
}

impl Slots {
    /// How right x stands to right y: an exercised right ahead of the one that reserved its rank
    /// (BGB § 881), else as their last exchange puts it (BGB § 880), else as group and place do
    /// (BGB § 879). A right is equal to itself. Takes no memory.
    ///
    /// ```
    /// // With A, B and C as in `Slots::fill`.
    /// assert_eq!(slots.relation(c, a), Relation::Ahead);
    /// assert_eq!(slots.relation(b, c), Relation::Ahead);
    /// assert_eq!(slots.relation(b, a), Relation::Behind);
    /// ```
    pub fn relation(&self, x: RightId, y: RightId) -> Relation
        requires x { keeps_place self.now.filled.places x ≡ true }
        requires y { keeps_place self.now.filled.places y ≡ true }
        ensures value { result ≡ relation self.now.filled x y }
    {
        if x == y {
            Relation::Equal
        } else if is_exercised_over(&self.knots, x, y) {
            Relation::Ahead
        } else if is_exercised_over(&self.knots, y, x) {
            Relation::Behind
        } else {
            relation_by(last_between(&self.swaps, x, y), &self.places, x, y)
        }
    }
}

/// Whether right x was exercised in a knot with the reserved right y.
fn is_exercised_over(knots: &[Knot], x: RightId, y: RightId) -> bool
    ensures { result ≡ is_exercised_over knots.now x y }
{
    knots
        .iter()
        .any(|knot| knot.exercised == x && knot.reserved == y)
}

/// The last exchange of just these two.
fn last_between(swaps: &[Swap], x: RightId, y: RightId) -> Option<Swap>
    ensures { result ≡ last_between x y swaps.now }
{
    let mut last = None;
    for swap in swaps {
        if swaps_both(x, y, *swap) {
            last = Some(*swap);
        }
    }
    last
}

/// Whether the exchange is of just these two.
fn swaps_both(x: RightId, y: RightId, swap: Swap) -> bool
    ensures { result ≡ swaps_both x y swap }
{
    (swap.recede == x && swap.rise == y) || (swap.recede == y && swap.rise == x)
}

/// How two rights stand that no knot ties.
fn relation_by(last: Option<Swap>, places: &[Place], x: RightId, y: RightId) -> Relation
    ensures { result ≡ relation_by last places.now x y }
{
    match last {
        Some(swap) if swap.rise == x => Relation::Ahead,
        Some(_) => Relation::Behind,
        None if holds(group_of(places, x), y) => Relation::Equal,
        None if is_listed_ahead(places, x, y) => Relation::Ahead,
        None => Relation::Behind,
    }
}
