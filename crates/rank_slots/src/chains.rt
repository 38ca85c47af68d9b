//! An exchange of two rights: their chains are joined, and dealt out again.
ghost use Rattle.std.specs.Prelude.{◌≡◌, ◌≢◌, ◌+◌, ◌-◌, ◌<◌, ◌≤◌, Bool, List, None, Option, ℕ, false, length, true, vec_capacity};
ghost use Rattle.std.specs.List.{AllByRecursion};
ghost use Rattle.rank_slots.specs.declared.spans.Span.{Span};
ghost use Rattle.rank_slots.specs.inner.SpanJoins.{AreToJoin};
ghost use Rattle.rank_slots.specs.inner.SpanDeals.{IsDealt, IsToDeal};
ghost use Rattle.rank_slots.specs.inner.SpanLists.{lists_of};
ghost use Rattle.rank_slots.specs.inner.Spans.{Linked, link_at, span_at, span_dealt};
ghost use Rattle.gb_base.specs.Limits.{most_sum};
ghost use Rattle.gb_base.specs.RightNo.{same_right};

use crate::Swap;
use crate::spans::Spans;

impl Spans {
    /// Joins the chains of two places into one, which begins with the span that stands first on the
    /// line; after it the chains of the two places must not be read.
    pub fn join(&mut self, one: usize, other: usize) -> Option<usize>
        requires one { one < length self.old.heads.items }
        requires other { other < length self.old.heads.items }
        requires as_many { length self.old.links.items ≡ length self.old.spans.items }
        requires chains { (whole : List Span) × AreToJoin self.old.spans.items self.old.links.items (link_at self.old.heads.items one) (link_at self.old.heads.items other) None whole }
        ensures joined { (whole : List Span)
            → AreToJoin self.old.spans.items self.old.links.items (link_at self.old.heads.items one) (link_at self.old.heads.items other) None whole
            → Linked self.new.spans.items self.new.links.items result whole }
        ensures thirds { (whole : List Span) (test : Span → Bool) (head : Option ℕ) (xs : List Span)
            → AreToJoin self.old.spans.items self.old.links.items (link_at self.old.heads.items one) (link_at self.old.heads.items other) None whole
            → AllByRecursion (λ x. test x ≡ true) whole → AllByRecursion (λ x. test x ≡ false) xs
            → Linked self.old.spans.items self.old.links.items head xs → Linked self.new.spans.items self.new.links.items head xs }
        ensures spans { self.new.spans ≡ self.old.spans }
        ensures heads { self.new.heads ≡ self.old.heads }
        ensures as_many { length self.new.links.items ≡ length self.old.links.items }
        ensures capacity { vec_capacity self.new.links ≡ vec_capacity self.old.links }
    {
        let mut first = self.heads[one];
        let mut second = self.heads[other];
        let mut joined = None;
        'spans: loop {
            let (later, behind) = self.later_first(first, second);
            let Some(number) = later else {
                return joined;
            };
            first = self.links[number];
            second = behind;
            self.links[number] = joined;
            joined = Some(number);
        }
    }

    /// Deals a joined chain out to two places that have no chain: the first cents to the rising
    /// right, and all others to the receding one.
    pub fn deal(
        &mut self,
        joined: Option<usize>,
        swap: &Swap,
        recede: usize,
        rise: usize,
        cents: u64,
    )
        requires recede { recede < length self.old.heads.items }
        requires rise { rise < length self.old.heads.items }
        requires two { recede ≢ rise }
        requires differ { same_right swap.now.recede swap.now.rise ≡ false }
        requires recede_none { link_at self.old.heads.items recede ≡ None }
        requires rise_none { link_at self.old.heads.items rise ≡ None }
        requires as_many { length self.old.links.items ≡ length self.old.spans.items }
        requires room { length self.old.spans.items < vec_capacity self.old.spans }
        requires link_room { length self.old.spans.items < vec_capacity self.old.links }
        requires chain { (whole : List Span) × IsToDeal (lists_of self.old) joined whole }
        ensures dealt { (whole : List Span) → IsToDeal (lists_of self.old) joined whole
            → IsDealt (lists_of self.new) swap.now recede rise (length self.old.spans.items) cents whole }
        ensures thirds { (whole : List Span) (test : Span → Bool) (head : Option ℕ) (xs : List Span) → IsToDeal (lists_of self.old) joined whole
            → AllByRecursion (λ x. test x ≡ true) whole → AllByRecursion (λ x. test x ≡ false) xs
            → Linked self.old.spans.items self.old.links.items head xs → Linked self.new.spans.items self.new.links.items head xs }
        ensures heads { (place : ℕ) → place ≢ recede → place ≢ rise → link_at self.new.heads.items place ≡ link_at self.old.heads.items place }
        ensures few { length self.new.spans.items ≤ length self.old.spans.items + 1 }
        ensures as_many { length self.new.links.items ≡ length self.new.spans.items }
        ensures as_many_heads { length self.new.heads.items ≡ length self.old.heads.items }
        ensures capacity { vec_capacity self.new.spans ≡ vec_capacity self.old.spans }
        ensures link_capacity { vec_capacity self.new.links ≡ vec_capacity self.old.links }
        ensures head_capacity { vec_capacity self.new.heads ≡ vec_capacity self.old.heads }
    {
        let mut left = cents;
        let mut next = joined;
        while let Some(number) = next {
            next = self.links[number];
            left = self.deal_span(swap, recede, rise, number, left);
        }
    }

    /// Deals one span out, and says how many cents are left to rise after it.
    fn deal_span(
        &mut self,
        swap: &Swap,
        recede: usize,
        rise: usize,
        number: usize,
        left: u64,
    ) -> u64
        requires number { number < length self.old.spans.items }
        requires recede { recede < length self.old.heads.items }
        requires rise { rise < length self.old.heads.items }
        requires as_many { length self.old.links.items ≡ length self.old.spans.items }
        requires room { 0 < left → length self.old.spans.items < vec_capacity self.old.spans }
        requires link_room { 0 < left → length self.old.spans.items < vec_capacity self.old.links }
        requires bounded { (span_at self.old.spans.items number).from + (span_at self.old.spans.items number).cents < most_sum }
        ensures left { result ≡ left - (span_at self.old.spans.items number).cents }
        ensures lists { lists_of self.new ≡ span_dealt (lists_of self.old) swap.now recede rise number left }
        ensures few { length self.new.spans.items ≤ length self.old.spans.items + 1 }
        ensures unsplit { left ≡ 0 → length self.new.spans.items ≡ length self.old.spans.items }
        ensures unsplit_yet { 0 < result → length self.new.spans.items ≡ length self.old.spans.items }
        ensures as_many { length self.new.links.items ≡ length self.new.spans.items }
        ensures as_many_heads { length self.new.heads.items ≡ length self.old.heads.items }
        ensures capacity { vec_capacity self.new.spans ≡ vec_capacity self.old.spans }
        ensures link_capacity { vec_capacity self.new.links ≡ vec_capacity self.old.links }
        ensures head_capacity { vec_capacity self.new.heads ≡ vec_capacity self.old.heads }
    {
        let span = self.spans[number];
        if left == 0 {
            self.put(recede, number, span.front(span.cents, swap.recede));
            0
        } else if span.cents <= left {
            self.put(rise, number, span.front(span.cents, swap.rise));
            left - span.cents
        } else {
            self.put(rise, number, span.front(left, swap.rise));
            self.push(recede, span.back(left, swap.recede));
            0
        }
    }
}
