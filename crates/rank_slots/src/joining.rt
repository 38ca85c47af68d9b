//! Neighbouring spans of one right are joined, so that a line has few more spans than pieces.
//! Why so: docs/DECISIONS.md, "An exchange walks the spans of its two rights".
ghost use Rattle.std.specs.Prelude.{◌≡◌, [], ◌<◌, ◌≤◌, All, List, None, length, replicate, sum_by, true, vec_capacity};
ghost use Rattle.std.specs.List.{list_any};
ghost use Rattle.gb_base.specs.Limits.{most_sum};
ghost use Rattle.rank_slots.specs.CanFill.{ArePlaces};
ghost use Rattle.rank_slots.specs.Groups.{is_of};
ghost use Rattle.rank_slots.specs.declared.spans.Span.{Span};
ghost use Rattle.rank_slots.specs.inner.SpanLists.{lists_of};
ghost use Rattle.rank_slots.specs.inner.Spans.{AreChained, AreCut, StandFor, StandInOrder, line_of_spans, spans_of};

use crate::cutting::write_line;
use crate::place_numbers::number_of;
use crate::spans::{Span, Spans};
use crate::{Piece, Place};

impl Spans {
    /// Joins neighbours where no exchange is left before the next joining; `left` counts these
    /// down. Says how many are left after the exchange that comes next. After as many exchanges
    /// as there were spans there are twice as many spans at most.
    pub fn join_in_turn(&mut self, left: usize, pieces: &mut Vec<Piece>, places: &[Place]) -> usize
        requires places { ArePlaces places.now }
        requires cut { (row : List Span) × AreCut (lists_of self.old) places.now row }
        requires room { length self.old.spans.items ≤ vec_capacity pieces.old }
        requires link_room { length self.old.spans.items ≤ vec_capacity self.old.links }
        requires head_room { length places.now ≤ vec_capacity self.old.heads }
        ensures cut { (row : List Span) → AreCut (lists_of self.old) places.now row → StandFor (lists_of self.new) places.now (line_of_spans row) }
        ensures few { length self.new.spans.items ≤ length self.old.spans.items }
        ensures capacity { vec_capacity self.new.spans ≡ vec_capacity self.old.spans }
        ensures link_capacity { vec_capacity self.new.links ≡ vec_capacity self.old.links }
        ensures head_capacity { vec_capacity self.new.heads ≡ vec_capacity self.old.heads }
        ensures piece_capacity { vec_capacity pieces.new ≡ vec_capacity pieces.old }
    {
        if left > 0 {
            return left - 1;
        }
        self.join_neighbours(pieces, places);
        self.spans.len()
    }

    /// Joins all neighbours of one right, by way of these pieces, and leaves the spans in the order of
    /// the line.
    pub fn join_neighbours(&mut self, pieces: &mut Vec<Piece>, places: &[Place])
        requires places { ArePlaces places.now }
        requires cut { (row : List Span) × AreCut (lists_of self.old) places.now row }
        requires room { length self.old.spans.items ≤ vec_capacity pieces.old }
        requires link_room { length self.old.spans.items ≤ vec_capacity self.old.links }
        requires head_room { length places.now ≤ vec_capacity self.old.heads }
        ensures cut { (row : List Span) → AreCut (lists_of self.old) places.now row → StandInOrder (lists_of self.new) places.now (line_of_spans row) }
        ensures few { length self.new.spans.items ≤ length self.old.spans.items }
        ensures capacity { vec_capacity self.new.spans ≡ vec_capacity self.old.spans }
        ensures link_capacity { vec_capacity self.new.links ≡ vec_capacity self.old.links }
        ensures head_capacity { vec_capacity self.new.heads ≡ vec_capacity self.old.heads }
        ensures piece_capacity { vec_capacity pieces.new ≡ vec_capacity pieces.old }
    {
        self.sort();
        write_line(pieces, &self.spans, &[]);
        self.cut_again(pieces, places);
    }

    /// Cuts the line again, into these pieces, with a chain of those of each place.
    pub fn cut_again(&mut self, pieces: &[Piece], places: &[Place])
        requires places { ArePlaces places.now }
        requires owned { All (λ p. list_any (is_of p.right) places.now ≡ true) pieces.now }
        requires sum { sum_by (λ p. p.cents) pieces.now < most_sum }
        requires room { length pieces.now ≤ vec_capacity self.old.spans }
        requires link_room { length pieces.now ≤ vec_capacity self.old.links }
        requires head_room { length places.now ≤ vec_capacity self.old.heads }
        ensures spans { self.new.spans.items ≡ spans_of 0 pieces.now }
        ensures chains { AreChained (lists_of self.new) places.now }
        ensures as_many { length self.new.spans.items ≡ length pieces.now }
        ensures as_many_links { length self.new.links.items ≡ length self.new.spans.items }
        ensures as_many_heads { length self.new.heads.items ≡ length places.now }
        ensures capacity { vec_capacity self.new.spans ≡ vec_capacity self.old.spans }
        ensures link_capacity { vec_capacity self.new.links ≡ vec_capacity self.old.links }
        ensures head_capacity { vec_capacity self.new.heads ≡ vec_capacity self.old.heads }
    {
        self.clear(places);
        let mut from = 0;
        for piece in pieces {
            let place = number_of(places, piece.right);
            self.push(
                place,
                Span {
                    from,
                    cents: piece.cents,
                    right: piece.right,
                },
            );
            from += piece.cents;
        }
    }

    /// Takes all spans out, and leaves an empty chain for each place.
    fn clear(&mut self, places: &[Place])
        requires head_room { length places.now ≤ vec_capacity self.old.heads }
        ensures spans { self.new.spans.items ≡ [] }
        ensures links { self.new.links.items ≡ [] }
        ensures heads { self.new.heads.items ≡ replicate (length places.now) None }
        ensures capacity { vec_capacity self.new.spans ≡ vec_capacity self.old.spans }
        ensures link_capacity { vec_capacity self.new.links ≡ vec_capacity self.old.links }
        ensures head_capacity { vec_capacity self.new.heads ≡ vec_capacity self.old.heads }
    {
        self.spans.clear();
        self.links.clear();
        self.heads.clear();
        for _place in places {
            self.heads.push_reserved(None);
        }
    }
}
