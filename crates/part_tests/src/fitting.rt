//! Whether a line can be filled with these places, exchanges and knots.
ghost use Rattle.std.specs.Prelude.{◌≡◌, ◌==◌, ◌<◌, ◌||◌, ◌≤◌, true, false, All, length, sum_by};
ghost use Rattle.std.specs.List.{IsDistinct, list_any};
ghost use Rattle.gb_base.specs.Limits.{most_sum};
ghost use Rattle.gb_base.specs.RightNo.{same_right};
ghost use Rattle.rank_slots.specs.CanFill.{ArePlaces, CanFill, CanKnot, CanSwap, CanTie, StandsAlone, is_swapped, knotted};
ghost use Rattle.rank_slots.specs.Groups.{group_of, is_of, joins, keeps_place};

use gb_base::RightId;
use rank_slots::{Knot, Place, Swap, group_of, is_listed_ahead};

/// The most places of a line.
const MOST_PLACES: usize = 256;

/// Sums of cents stay below this.
pub const MOST_SUM: u64 = 1_000_000_000_000_000_000;

/// Whether a line can be filled with these.
pub fn can_fill(places: &[Place], swaps: &[Swap], knots: &[Knot]) -> bool
    ensures { result ≡ true → CanFill (record { places = places.now; swaps = swaps.now; knots = knots.now }) }
{
    are_places(places)
        && can_swap_all(places, swaps)
        && can_knot_all(places, swaps, knots)
        && are_tied_once(knots)
}

// ---- places

/// Whether these can be the places of a line.
fn are_places(places: &[Place]) -> bool
    ensures { result ≡ true → ArePlaces places.now }
{
    places.len() <= MOST_PLACES
        && are_distinct(places)
        && first_begins(places)
        && dropped_stand_alone(places)
        && have_claims(places)
        && claims_fit(places)
}

/// Whether each place is of another right.
fn are_distinct(places: &[Place]) -> bool
    ensures { result ≡ true → IsDistinct (λ p q. same_right p.right q.right) places.now }
{
    match places.split_first() {
        None => true,
        Some((first, rest)) => !holds(rest, first.right) && are_distinct(rest),
    }
}

/// Whether one of these places is the right's.
fn holds(places: &[Place], right: RightId) -> bool
    ensures { result ≡ list_any (is_of right) places.now }
{
    places.iter().any(|place| place.right == right)
}

/// Whether no place joins one before the first.
fn first_begins(places: &[Place]) -> bool
    ensures { result ≡ true → joins places.now ≡ false }
{
    match places {
        [first, ..] => !first.with_previous,
        [] => true,
    }
}

/// Whether no dropped right has others in its group.
fn dropped_stand_alone(places: &[Place]) -> bool
    ensures { result ≡ true → All (λ p. p.dropped ≡ true → StandsAlone places.now p.right) places.now }
{
    places.iter().all(|place| !place.dropped || stands_alone(places, place.right))
}

/// Whether the right is the only one of its group.
fn stands_alone(places: &[Place], right: RightId) -> bool
    ensures { result ≡ (length (group_of places.now right) == 1) }
{
    group_of(places, right).len() == 1
}

/// Whether each place has a claim.
fn have_claims(places: &[Place]) -> bool
    ensures { result ≡ true → All (λ p. 1 ≤ p.claim) places.now }
{
    places.iter().all(|place| 1 <= place.claim)
}

/// Whether the claims together are below the bound of sums.
fn claims_fit(places: &[Place]) -> bool
    ensures { result ≡ true → sum_by (λ p. p.claim) places.now < most_sum }
{
    let mut sum = 0;
    for place in places {
        if MOST_SUM - sum <= place.claim {
            return false;
        }
        sum += place.claim;
    }
    true
}

// ---- exchanges and knots

/// Whether each of the exchanges can be made.
fn can_swap_all(places: &[Place], swaps: &[Swap]) -> bool
    ensures { result ≡ true → All (CanSwap places.now) swaps.now }
{
    swaps.iter().all(|swap| can_swap(places, *swap))
}

/// Whether both rights of the exchange stand alone.
fn can_swap(places: &[Place], swap: Swap) -> bool
    ensures { result ≡ true → CanSwap places.now swap }
{
    stands_alone(places, swap.recede) && stands_alone(places, swap.rise)
}

/// Whether each of the knots can be tied.
fn can_knot_all(places: &[Place], swaps: &[Swap], knots: &[Knot]) -> bool
    ensures { result ≡ true → All (CanKnot places.now swaps.now) knots.now }
{
    knots.iter().all(|knot| can_knot(places, swaps, *knot))
}

/// Whether both rights can be tied, the reserved one ahead of the exercised one.
fn can_knot(places: &[Place], swaps: &[Swap], knot: Knot) -> bool
    ensures { result ≡ true → CanKnot places.now swaps.now knot }
{
    can_tie(places, swaps, knot.reserved)
        && can_tie(places, swaps, knot.exercised)
        && is_listed_ahead(places, knot.reserved, knot.exercised)
}

/// Whether the right stands alone, keeps its place, and is in no exchange.
fn can_tie(places: &[Place], swaps: &[Swap], right: RightId) -> bool
    ensures { result ≡ true → CanTie places.now swaps.now right }
{
    stands_alone(places, right) && keeps_place(places, right) && !is_swapped(swaps, right)
}

/// Whether the right has a place that is not dropped.
pub fn keeps_place(places: &[Place], right: RightId) -> bool
    ensures { result ≡ keeps_place places.now right }
{
    places
        .iter()
        .any(|place| place.right == right && !place.dropped)
}

/// Whether the right is in one of these exchanges.
fn is_swapped(swaps: &[Swap], right: RightId) -> bool
    ensures { result ≡ is_swapped swaps.now right }
{
    swaps
        .iter()
        .any(|swap| swap.recede == right || swap.rise == right)
}

/// Whether no right is in two knots.
fn are_tied_once(knots: &[Knot]) -> bool
    ensures { result ≡ true → IsDistinct same_right (knotted knots.now) }
{
    match knots.split_first() {
        None => true,
        Some((first, rest)) => {
            first.reserved != first.exercised
                && !are_tied(rest, first.reserved)
                && !are_tied(rest, first.exercised)
                && are_tied_once(rest)
        }
    }
}

/// Whether one of these knots ties the right.
fn are_tied(knots: &[Knot], right: RightId) -> bool
    ensures { result ≡ list_any (λ k. same_right right k.reserved || same_right right k.exercised) knots.now }
{
    knots
        .iter()
        .any(|knot| right == knot.reserved || right == knot.exercised)
}
