//! Exchanges on a line in spans, each in the time that the spans of its two rights take.
//! Why so: docs/DECISIONS.md, "An exchange walks the spans of its two rights".
ghost use Rattle.std.specs.Prelude.{◌≡◌, ◌+◌, ◌<◌, ◌≤◌, All, List, false, length, vec_capacity};
ghost use Rattle.std.specs.List.{IsDistinct, position_or_len};
ghost use Rattle.gb_base.specs.RightNo.{RightNo, same_right};
ghost use Rattle.rank_slots.specs.CanFill.{ArePlaces, CanSwap, StandsAlone};
ghost use Rattle.rank_slots.specs.CentLine.{exchange_all};
ghost use Rattle.rank_slots.specs.Groups.{is_of};
ghost use Rattle.rank_slots.specs.declared.spans.Span.{Span};
ghost use Rattle.rank_slots.specs.inner.SpanLists.{lists_of};
ghost use Rattle.rank_slots.specs.inner.Spans.{AreCut, StandFor, exchange_spans};

use crate::spans::Spans;
use crate::{Piece, Place, Swap, place_numbers};
use gb_base::RightId;

impl Spans {
    /// Makes these exchanges on the line that stands, one after the other. There is room for one
    /// more span for each. Now and then neighbours are joined, by way of these pieces.
    pub fn exchange_all(&mut self, pieces: &mut Vec<Piece>, places: &[Place], swaps: &[Swap])
        requires places { ArePlaces places.now }
        requires swaps { All (CanSwap places.now) swaps.now }
        requires stand { (line : List RightNo) × StandFor (lists_of self.old) places.now line }
        requires room { length self.old.spans.items + length swaps.now ≤ vec_capacity self.old.spans }
        requires link_room { length self.old.spans.items + length swaps.now ≤ vec_capacity self.old.links }
        requires head_room { length places.now ≤ vec_capacity self.old.heads }
        requires piece_room { length self.old.spans.items + length swaps.now ≤ vec_capacity pieces.old }
        ensures stand { (line : List RightNo) → StandFor (lists_of self.old) places.now line → StandFor (lists_of self.new) places.now (exchange_all line swaps.now) }
        ensures few { length self.new.spans.items ≤ length self.old.spans.items + length swaps.now }
        ensures capacity { vec_capacity self.new.spans ≡ vec_capacity self.old.spans }
        ensures link_capacity { vec_capacity self.new.links ≡ vec_capacity self.old.links }
        ensures head_capacity { vec_capacity self.new.heads ≡ vec_capacity self.old.heads }
        ensures piece_capacity { vec_capacity pieces.new ≡ vec_capacity pieces.old }
    {
        let mut left = self.spans.len();
        for swap in swaps {
            left = self.join_in_turn(left, pieces, places);
            self.exchange(places, swap);
        }
    }

    /// Makes an exchange; that of a right with itself changes nothing.
    fn exchange(&mut self, places: &[Place], swap: &Swap)
        requires places { ArePlaces places.now }
        requires swap { CanSwap places.now swap.now }
        requires cut { (row : List Span) × AreCut (lists_of self.old) places.now row }
        requires as_many { length self.old.links.items ≡ length self.old.spans.items }
        requires as_many_heads { length self.old.heads.items ≡ length places.now }
        requires room { length self.old.spans.items < vec_capacity self.old.spans }
        requires link_room { length self.old.spans.items < vec_capacity self.old.links }
        ensures cut { (row : List Span) → AreCut (lists_of self.old) places.now row → AreCut (lists_of self.new) places.now (exchange_spans row swap.now) }
        ensures few { length self.new.spans.items ≤ length self.old.spans.items + 1 }
        ensures capacity { vec_capacity self.new.spans ≡ vec_capacity self.old.spans }
        ensures link_capacity { vec_capacity self.new.links ≡ vec_capacity self.old.links }
        ensures head_capacity { vec_capacity self.new.heads ≡ vec_capacity self.old.heads }
    {
        if swap.recede != swap.rise {
            self.exchange_two(places, swap);
        }
    }

    /// Makes an exchange of two rights that differ.
    fn exchange_two(&mut self, places: &[Place], swap: &Swap)
        requires places { ArePlaces places.now }
        requires swap { CanSwap places.now swap.now }
        requires two { same_right swap.now.recede swap.now.rise ≡ false }
        requires cut { (row : List Span) × AreCut (lists_of self.old) places.now row }
        requires as_many { length self.old.links.items ≡ length self.old.spans.items }
        requires as_many_heads { length self.old.heads.items ≡ length places.now }
        requires room { length self.old.spans.items < vec_capacity self.old.spans }
        requires link_room { length self.old.spans.items < vec_capacity self.old.links }
        ensures cut { (row : List Span) → AreCut (lists_of self.old) places.now row → AreCut (lists_of self.new) places.now (exchange_spans row swap.now) }
        ensures few { length self.new.spans.items ≤ length self.old.spans.items + 1 }
        ensures capacity { vec_capacity self.new.spans ≡ vec_capacity self.old.spans }
        ensures link_capacity { vec_capacity self.new.links ≡ vec_capacity self.old.links }
        ensures head_capacity { vec_capacity self.new.heads ≡ vec_capacity self.old.heads }
    {
        let recede = number_of(places, swap.recede);
        let rise = number_of(places, swap.rise);
        let joined = self.join(recede, rise);
        self.heads[recede] = None;
        self.heads[rise] = None;
        let cents = places[rise].claim;
        self.deal(joined, swap, recede, rise, cents);
    }
}

/// The number of the right's place.
fn number_of(places: &[Place], right: RightId) -> usize
    requires distinct { IsDistinct (λ p q. same_right p.right q.right) places.now }
    requires alone { StandsAlone places.now right }
    ensures value { result ≡ position_or_len (is_of right) places.now }
    ensures within { result < length places.now }
{
    place_numbers::number_of(places, right)
}
