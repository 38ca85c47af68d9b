//! The number of a right's place, which is how many stand ahead of it.
//! Why so: docs/DECISIONS.md, "A place is looked for where its receipt would stand".
ghost use Rattle.std.specs.Prelude.{◌≡◌, ◌<◌, ◌≤◌, false, IfSome, drop, length, take};
ghost use Rattle.std.specs.List.{IsDistinct, position_or_len};
ghost use Rattle.gb_base.specs.RightNo.{same_right};
ghost use Rattle.rank_slots.specs.Groups.{group_of, is_of, joins};

use crate::Place;
use crate::groups::places_ahead;
use gb_base::RightId;

/// The number of the right's place; where it has none, the number of all places. Places in the
/// order of their receipts, as those of a folio, are searched; others are walked one by one.
pub(crate) fn number_of(places: &[Place], right: RightId) -> usize
    requires distinct { IsDistinct (λ p q. same_right p.right q.right) places.now }
    ensures value { result ≡ position_or_len (is_of right) places.now }
    ensures within { result ≤ length places.now }
{
    let first = places.partition_point(|place| place.right.receipt() < right.receipt());
    let number = first + places_ahead(&places[first..], right);
    if number < places.len() {
        number
    } else {
        places_ahead(places, right)
    }
}

/// The number of the right's place, where it is seen to be alone in its group; else None, as where
/// the right has no place. The clauses say what holds of a number, and none says that each lone
/// right gets one: with None the caller goes the long way.
pub(crate) fn lone_number(places: &[Place], right: RightId) -> Option<usize>
    requires distinct { IsDistinct (λ p q. same_right p.right q.right) places.now }
    requires first { joins places.now ≡ false }
    ensures within { IfSome result (λ n. n < length places.now) }
    ensures value { IfSome result (λ n. n ≡ position_or_len (is_of right) places.now) }
    ensures group { IfSome result (λ n. group_of places.now right ≡ take 1 (drop n places.now)) }
{
    let number = number_of(places, right);
    if number < places.len() && !joins(&places[number..]) && !joins(&places[number + 1..]) {
        Some(number)
    } else {
        None
    }
}

/// Whether the first of these places joins the one before it.
fn joins(places: &[Place]) -> bool
    ensures { result ≡ joins places.now }
{
    match places {
        [] => false,
        [first, ..] => first.with_previous,
    }
}
