//! A line is kept from one fill to the next, where the next goes on from it.
//! Why so: docs/DECISIONS.md, "A line is kept where the next fill goes on from it".
ghost use Rattle.std.specs.Prelude.{◌≡◌, ◌++◌, ◌+◌, ◌≤◌, true, All, IfSome, length, vec_capacity};
ghost use Rattle.rank_slots.specs.CanFill.{ArePlaces, CanSwap};
ghost use Rattle.rank_slots.specs.inner.SpanLists.{lists_of};
ghost use Rattle.rank_slots.specs.inner.Spans.{AreMadeOf, AreToGoOn};

use crate::spans::Spans;
use crate::{Piece, Place, Swap};

impl Spans {
    /// Makes the line of these places after these exchanges, with its spans in order, from the line
    /// that stands, which is that of the last ones. Neighbours are joined by way of these pieces.
    pub fn make_of(
        &mut self,
        pieces: &mut Vec<Piece>,
        last_places: &[Place],
        last_swaps: &[Swap],
        places: &[Place],
        swaps: &[Swap],
    )
        requires last { AreMadeOf (lists_of self.old) last_places.now last_swaps.now }
        requires places { ArePlaces places.now }
        requires swaps { All (CanSwap places.now) swaps.now }
        requires room { length places.now + length swaps.now ≤ vec_capacity self.old.spans }
        requires link_room { length places.now + length swaps.now ≤ vec_capacity self.old.links }
        requires head_room { length places.now ≤ vec_capacity self.old.heads }
        requires piece_room { length places.now + length swaps.now ≤ vec_capacity pieces.old }
        ensures made { AreMadeOf (lists_of self.new) places.now swaps.now }
        ensures capacity { vec_capacity self.new.spans ≡ vec_capacity self.old.spans }
        ensures link_capacity { vec_capacity self.new.links ≡ vec_capacity self.old.links }
        ensures head_capacity { vec_capacity self.new.heads ≡ vec_capacity self.old.heads }
        ensures piece_capacity { vec_capacity pieces.new ≡ vec_capacity pieces.old }
    {
        let further = self.keep_or_cut(last_places, last_swaps, places, swaps);
        // A line that is kept, or cut from places, has its spans in order.
        if further.is_empty() {
            return;
        }
        self.exchange_all(pieces, places, further);
        self.join_neighbours(pieces, places);
    }

    /// Keeps the line that stands where these places and exchanges go on from it, and else cuts the
    /// places again. Gives the exchanges that are left to make.
    fn keep_or_cut<'a>(
        &mut self,
        last_places: &[Place],
        last_swaps: &[Swap],
        places: &[Place],
        swaps: &'a [Swap],
    ) -> &'a [Swap]
        requires last { AreMadeOf (lists_of self.old) last_places.now last_swaps.now }
        requires places { ArePlaces places.now }
        requires swaps { All (CanSwap places.now) swaps.now }
        requires room { length places.now ≤ vec_capacity self.old.spans }
        requires link_room { length places.now ≤ vec_capacity self.old.links }
        requires head_room { length places.now ≤ vec_capacity self.old.heads }
        ensures left { AreToGoOn (lists_of self.new) places.now result.now swaps.now }
        ensures capacity { vec_capacity self.new.spans ≡ vec_capacity self.old.spans }
        ensures link_capacity { vec_capacity self.new.links ≡ vec_capacity self.old.links }
        ensures head_capacity { vec_capacity self.new.heads ≡ vec_capacity self.old.heads }
    {
        match further(last_places, last_swaps, places, swaps) {
            Some(further) => further,
            None => {
                self.cut(places);
                swaps
            }
        }
    }
}

/// The exchanges that follow the last ones, where the places are the last ones and the exchanges
/// begin with the last ones. No clause says that this is always seen; if not, the line is rebuilt.
fn further<'a>(
    last_places: &[Place],
    last_swaps: &[Swap],
    places: &[Place],
    swaps: &'a [Swap],
) -> Option<&'a [Swap]>
    ensures places { IfSome result (λ further. last_places.now ≡ places.now) }
    ensures swaps { IfSome result (λ further. swaps.now ≡ last_swaps.now ++ further.now) }
{
    if are_same(last_places, places) {
        behind(last_swaps, swaps)
    } else {
        None
    }
}

/// Whether these are seen to be the same places.
fn are_same(last: &[Place], places: &[Place]) -> bool
    ensures { result ≡ true → last.now ≡ places.now }
{
    last == places
}

/// The exchanges that follow the last ones, where they are seen to begin with these.
fn behind<'a>(last: &[Swap], swaps: &'a [Swap]) -> Option<&'a [Swap]>
    ensures { IfSome result (λ further. swaps.now ≡ last.now ++ further.now) }
{
    swaps.strip_prefix(last)
}
