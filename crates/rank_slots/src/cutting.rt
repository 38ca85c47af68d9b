//! How a line is cut into spans, and written from them.
ghost use Rattle.std.specs.Prelude.{◌≡◌, ◌<◌, ◌≤◌, List, filter, length, not, sum_by, vec_capacity};
ghost use Rattle.std.specs.List.{list_any};
ghost use Rattle.gb_base.specs.Limits.{most_sum};
ghost use Rattle.rank_slots.specs.CanFill.{ArePlaces};
ghost use Rattle.rank_slots.specs.CentLine.{is_dropped, written};
ghost use Rattle.rank_slots.specs.declared.places.Place.{Place};
ghost use Rattle.rank_slots.specs.declared.spans.Span.{Span};
ghost use Rattle.rank_slots.specs.inner.Pieces.{AreJoined, line_of};
ghost use Rattle.rank_slots.specs.inner.SpanLists.{lists_of};
ghost use Rattle.rank_slots.specs.inner.Spans.{AreCut, StandInOrder, line_of_spans};

use crate::pieces::add_cents;
use crate::spans::{Span, Spans};
use crate::{Piece, Place};
use gb_base::RightId;

impl Spans {
    /// Cuts the line of these claims into a span for each place, in order.
    pub fn cut(&mut self, places: &[Place])
        requires places { ArePlaces places.now }
        requires room { length places.now ≤ vec_capacity self.old.spans }
        requires link_room { length places.now ≤ vec_capacity self.old.links }
        requires head_room { length places.now ≤ vec_capacity self.old.heads }
        ensures cut { StandInOrder (lists_of self.new) places.now (written places.now) }
        ensures few { length self.new.spans.items ≡ length places.now }
        ensures capacity { vec_capacity self.new.spans ≡ vec_capacity self.old.spans }
        ensures link_capacity { vec_capacity self.new.links ≡ vec_capacity self.old.links }
        ensures head_capacity { vec_capacity self.new.heads ≡ vec_capacity self.old.heads }
    {
        self.spans.clear();
        self.links.clear();
        self.heads.clear();
        let mut from = 0;
        for place in places {
            self.heads.push_reserved(Some(self.spans.len()));
            self.links.push_reserved(None);
            self.spans.push_reserved(Span {
                from,
                cents: place.claim,
                right: place.right,
            });
            from += place.claim;
        }
    }

    /// Puts the spans in their order on the line; after it the chains must not be read.
    pub fn sort(&mut self)
        ensures row { (places : List Place) (row : List Span) → AreCut (lists_of self.old) places row → self.new.spans.items ≡ row }
        ensures len { length self.new.spans.items ≡ length self.old.spans.items }
        ensures capacity { vec_capacity self.new.spans ≡ vec_capacity self.old.spans }
        ensures link_capacity { vec_capacity self.new.links ≡ vec_capacity self.old.links }
        ensures head_capacity { vec_capacity self.new.heads ≡ vec_capacity self.old.heads }
    {
        self.spans.sort_unstable_by_key(|span: &Span| span.from);
    }
}

/// Writes the line of these spans, without the cents of dropped places, in place of what stands
/// there.
pub(crate) fn write_line(pieces: &mut Vec<Piece>, spans: &[Span], places: &[Place])
    requires room { length spans.now ≤ vec_capacity pieces.old }
    requires sum { sum_by (λ x. x.cents) spans.now < most_sum }
    ensures line { line_of pieces.new.items ≡ filter (λ c. not (is_dropped places.now c)) (line_of_spans spans.now) }
    ensures joined { AreJoined pieces.new.items }
    ensures few { length pieces.new.items ≤ length spans.now }
    ensures sum { sum_by (λ p. p.cents) pieces.new.items < most_sum }
    ensures capacity { vec_capacity pieces.new ≡ vec_capacity pieces.old }
{
    pieces.clear();
    let any = any_is_dropped(places);
    for span in spans {
        if stays(places, any, span.right) {
            add_cents(pieces, span.right, span.cents);
        }
    }
}

/// Whether any place is dropped. Where none is, as on most lines, no span's place is looked up.
fn any_is_dropped(places: &[Place]) -> bool
    ensures { result ≡ list_any (λ p. p.dropped) places.now }
{
    places.iter().any(|place| place.dropped)
}

/// Whether the cents of a right stay on the line; `any` says whether any place is dropped.
fn stays(places: &[Place], any: bool, right: RightId) -> bool
    requires { any ≡ list_any (λ p. p.dropped) places.now }
    ensures { result ≡ not (is_dropped places.now right) }
{
    !(any && is_dropped(places, right))
}

/// Whether the right's place is dropped.
fn is_dropped(places: &[Place], right: RightId) -> bool
    ensures { result ≡ is_dropped places.now right }
{
    places
        .iter()
        .any(|place| place.right == right && place.dropped)
}
