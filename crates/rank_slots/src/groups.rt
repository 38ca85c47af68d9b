//! The groups of equal rank among the places of a line (GBO § 45(1), (3)).
ghost use Rattle.std.specs.Prelude.{◌≡◌, ◌≤◌, length};
ghost use Rattle.std.specs.List.{list_any, position_or_len, prefix_len};
ghost use Rattle.rank_slots.specs.Groups.{group_of, is_listed_ahead, is_of};

use crate::Place;
use gb_base::RightId;

/// The group of a right; empty where the right has no place here.
pub fn group_of(places: &[Place], right: RightId) -> &[Place]
    ensures { result.now ≡ group_of places.now right }
{
    let mut rest = places;
    while let Some((_, behind)) = rest.split_first() {
        let (group, others) = rest.split_at(1 + joining(behind));
        if holds(group, right) {
            return group;
        }
        rest = others;
    }
    &[]
}

/// How many places at the front join the one before them.
fn joining(places: &[Place]) -> usize
    ensures value { result ≡ prefix_len (λ p. p.with_previous) places.now }
    ensures within { result ≤ length places.now }
{
    places
        .iter()
        .take_while(|place| place.with_previous)
        .count()
}

/// Whether one of these places is the right's.
pub(crate) fn holds(group: &[Place], right: RightId) -> bool
    ensures { result ≡ list_any (is_of right) group.now }
{
    group.iter().any(|place| place.right == right)
}

/// How many places stand ahead of the right's first one.
pub(crate) fn places_ahead(places: &[Place], right: RightId) -> usize
    ensures value { result ≡ position_or_len (is_of right) places.now }
    ensures within { result ≤ length places.now }
{
    places
        .iter()
        .take_while(|place| place.right != right)
        .count()
}

/// Whether right x has a place ahead of right y's.
pub fn is_listed_ahead(places: &[Place], x: RightId, y: RightId) -> bool
    ensures { result ≡ is_listed_ahead places.now x y }
{
    holds(&places[..places_ahead(places, y)], x)
}
