//! Lines for the tests.
ghost use Rattle.std.specs.Prelude.{◌≡◌, ◌≤◌, true};
ghost use Rattle.rank_slots.specs.Groups.{keeps_place};

use crate::fitting::{can_fill, keeps_place};
use gb_base::RightId;
use rank_slots::{Knot, Place, Relation, Slots, Swap};
use std::alloc::Global;
use std::process::Abort;

/// The right that act 1 of receipt n creates.
pub fn right(n: u32) -> RightId
    requires { 1 ≤ n }
{
    test_items::right(n, 1)
}

/// The place of right n, in a group of its own.
pub fn place(n: u32, claim: u64) -> Place
    requires { 1 ≤ n }
{
    Place {
        right: right(n),
        claim,
        with_previous: false,
        dropped: false,
    }
}

/// The place of right n, in one group with the place before.
pub fn joined(n: u32, claim: u64) -> Place
    requires { 1 ≤ n }
{
    Place {
        with_previous: true,
        ..place(n, claim)
    }
}

/// Right `recede` recedes behind right `rise`.
pub fn swap(recede: u32, rise: u32) -> Swap
    requires recede { 1 ≤ recede }
    requires rise { 1 ≤ rise }
{
    Swap {
        recede: right(recede),
        rise: right(rise),
    }
}

/// Right `exercised` was entered in the rank that right `reserved` leaves it.
pub fn knot(reserved: u32, exercised: u32) -> Knot
    requires reserved { 1 ≤ reserved }
    requires exercised { 1 ≤ exercised }
{
    Knot {
        reserved: right(reserved),
        exercised: right(exercised),
    }
}

/// The line of these places. Ends the test where they make none.
pub fn filled(
    rt: &impl Abort,
    alloc: Global,
    places: &[Place],
    swaps: &[Swap],
    knots: &[Knot],
) -> Slots {
    assert!(rt; can_fill(places, swaps, knots));
    let mut slots = Slots::with_room(alloc, places.len(), swaps.len()).expect(rt, "memory");
    slots.fill(places, swaps, knots);
    slots
}

// ---- what the rights of a line get

/// Whether the right has a place in the line that is not dropped.
fn has_place(slots: &Slots, right: RightId) -> bool
    ensures { result ≡ true → keeps_place slots.now.filled.places right ≡ true }
{
    keeps_place(slots.group(right), right)
}

/// What the right gets of t cents.
pub fn paid(rt: &impl Abort, slots: &Slots, right: RightId, t: u64) -> u64 {
    assert!(rt; has_place(slots, right));
    slots.pay(right, t)
}

/// Up to which sum the right gets nothing.
pub fn threshold(rt: &impl Abort, slots: &Slots, right: RightId) -> u64 {
    assert!(rt; has_place(slots, right));
    slots.threshold(right)
}

/// How right x stands to right y.
pub fn relation(rt: &impl Abort, slots: &Slots, x: RightId, y: RightId) -> Relation {
    assert!(rt; has_place(slots, x));
    assert!(rt; has_place(slots, y));
    slots.relation(x, y)
}
