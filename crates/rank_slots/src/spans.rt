//! The spans of a line, with a chain of those of each place; in no order while exchanges are made.
//! Why so: docs/DECISIONS.md, "An exchange walks the spans of its two rights".
ghost use Rattle.std.specs.Prelude.{◌≡◌, ◌++◌, ◌∷◌, [], ◌+◌, ◌<◌, ◌≤◌, IfOk, List, length, slice_set, sum_by, vec_capacity};
ghost use Rattle.gb_base.specs.Limits.{most_sum};
ghost use Rattle.rank_slots.specs.declared.spans.Span.{Span};
ghost use Rattle.rank_slots.specs.inner.Spans.{Begins, CanBeWalked, back_of, begins_ahead, cents_within, front_of, later_first, link_at};

use gb_base::{NoMemory, RightId};
use std::alloc::Global;

/// Neighbouring cents of a line that are one right's.
#[derive(Clone, Copy, Debug)]
pub(crate) struct Span {
    /// How many cents stand ahead of it.
    pub from: u64,
    /// How many, from 1.
    pub cents: u64,
    pub right: RightId,
}

impl Span {
    /// The first cents, as this right's.
    pub fn front(&self, cents: u64, right: RightId) -> Span
        ensures { result ≡ front_of self.now cents right }
    {
        Span {
            from: self.from,
            cents,
            right,
        }
    }

    /// The cents behind these, as this right's.
    pub fn back(&self, cents: u64, right: RightId) -> Span
        requires bounded { self.now.from + self.now.cents < most_sum }
        requires within { cents ≤ self.now.cents }
        ensures { result ≡ back_of self.now cents right }
    {
        Span {
            from: self.from + cents,
            cents: self.cents - cents,
            right,
        }
    }
}

/// A line in spans. Those of a place are a chain, the last one first.
#[derive(Debug, Drop)]
pub(crate) struct Spans {
    /// The spans: in no order while exchanges are made, in that of the line once they are joined.
    pub spans: Vec<Span>,
    /// For each span the number of the next one of its chain.
    pub links: Vec<Option<usize>>,
    /// For each place the number of the first span of its chain.
    pub heads: Vec<Option<usize>>,
}

impl Spans {
    /// No spans, with room for so many of so many places.
    pub fn with_room(alloc: Global, spans: usize, places: usize) -> Result<Spans, NoMemory>
        ensures spans { IfOk result (λ made. made.spans.items ≡ []) }
        ensures links { IfOk result (λ made. made.links.items ≡ []) }
        ensures heads { IfOk result (λ made. made.heads.items ≡ []) }
        ensures room { IfOk result (λ made. spans ≤ vec_capacity made.spans) }
        ensures link_room { IfOk result (λ made. spans ≤ vec_capacity made.links) }
        ensures head_room { IfOk result (λ made. places ≤ vec_capacity made.heads) }
    {
        Ok(Spans {
            spans: Vec::with_capacity(alloc, spans)?,
            links: Vec::with_capacity(alloc, spans)?,
            heads: Vec::with_capacity(alloc, places)?,
        })
    }

    /// Puts a span at this number, as the first of the place's chain.
    pub fn put(&mut self, place: usize, number: usize, span: Span)
        requires number { number < length self.old.spans.items }
        requires linked { number < length self.old.links.items }
        requires place { place < length self.old.heads.items }
        ensures spans { self.new.spans.items ≡ slice_set self.old.spans.items number span }
        ensures links { self.new.links.items ≡ slice_set self.old.links.items number (link_at self.old.heads.items place) }
        ensures heads { self.new.heads.items ≡ slice_set self.old.heads.items place (Some number) }
        ensures span_capacity { vec_capacity self.new.spans ≡ vec_capacity self.old.spans }
        ensures link_capacity { vec_capacity self.new.links ≡ vec_capacity self.old.links }
        ensures head_capacity { vec_capacity self.new.heads ≡ vec_capacity self.old.heads }
    {
        self.spans[number] = span;
        self.links[number] = self.heads[place];
        self.heads[place] = Some(number);
    }

    /// Adds a span, as the first of the place's chain.
    pub fn push(&mut self, place: usize, span: Span)
        requires room { length self.old.spans.items < vec_capacity self.old.spans }
        requires link_room { length self.old.links.items < vec_capacity self.old.links }
        requires place { place < length self.old.heads.items }
        ensures spans { self.new.spans.items ≡ self.old.spans.items ++ span ∷ [] }
        ensures links { self.new.links.items ≡ self.old.links.items ++ link_at self.old.heads.items place ∷ [] }
        ensures heads { self.new.heads.items ≡ slice_set self.old.heads.items place (Some (length self.old.spans.items)) }
        ensures span_capacity { vec_capacity self.new.spans ≡ vec_capacity self.old.spans }
        ensures link_capacity { vec_capacity self.new.links ≡ vec_capacity self.old.links }
        ensures head_capacity { vec_capacity self.new.heads ≡ vec_capacity self.old.heads }
    {
        let number = self.spans.len();
        self.spans.push_reserved(span);
        self.links.push_reserved(self.heads[place]);
        self.heads[place] = Some(number);
    }

    /// How many of the first t cents of the line the spans of the place have.
    pub fn cents_within(&self, place: usize, t: u64) -> u64
        requires place { place < length self.now.heads.items }
        requires as_many { length self.now.links.items ≡ length self.now.spans.items }
        requires walk { (xs : List Span) × CanBeWalked self.now.spans.items self.now.links.items (link_at self.now.heads.items place) xs }
        ensures value { (xs : List Span) → CanBeWalked self.now.spans.items self.now.links.items (link_at self.now.heads.items place) xs → result ≡ sum_by (cents_within t) xs }
        ensures bound { result < most_sum }
    {
        let mut cents = 0;
        let mut next = self.heads[place];
        while let Some(number) = next {
            let span = self.spans[number];
            cents += span.cents.min(t.saturating_sub(span.from));
            next = self.links[number];
        }
        cents
    }

    /// These two chains, first the one whose first span stands further behind on the line.
    pub fn later_first(
        &self,
        first: Option<usize>,
        second: Option<usize>,
    ) -> (Option<usize>, Option<usize>)
        requires first { Begins self.now.spans.items first }
        requires second { Begins self.now.spans.items second }
        ensures { result ≡ later_first self.now.spans.items first second }
    {
        if self.begins_ahead(first, second) {
            (second, first)
        } else {
            (first, second)
        }
    }

    /// Whether the first span of the first chain stands ahead of that of the second on the line, or
    /// only the first chain is empty.
    fn begins_ahead(&self, first: Option<usize>, second: Option<usize>) -> bool
        requires first { Begins self.now.spans.items first }
        requires second { Begins self.now.spans.items second }
        ensures { result ≡ begins_ahead self.now.spans.items first second }
    {
        match (first, second) {
            (_, None) => false,
            (None, Some(_)) => true,
            (Some(number), Some(other)) => self.spans[number].from < self.spans[other].from,
        }
    }
}
