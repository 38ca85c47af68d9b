//! The slots of a line.
//! Why so: docs/DECISIONS.md, "`Slots` has one call more than it needs to pay".
ghost use Rattle.std.specs.Prelude.{◌≡◌, ◌<◌, ◌≤◌, All, IfOk, length, sum_by};
ghost use Rattle.rank_slots.specs.CanFill.{CanFill};
ghost use Rattle.rank_slots.specs.CentLine.{pieces_of};
ghost use Rattle.rank_slots.specs.Filled.{empty, line};
ghost use Rattle.rank_slots.specs.Groups.{group_of};
ghost use Rattle.gb_base.specs.Limits.{most_sum};

use crate::cutting::write_line;
use crate::groups::group_of;
use crate::pieces::total;
use crate::place_numbers::lone_number;
use crate::spans::Spans;
use crate::{Knot, Piece, Place, Swap};
use gb_base::{NoMemory, RightId, copy_into};
use std::alloc::{AllocError, Global};
use std::marker::Model;

/// The cent line of a list of places, in pieces: the claims stand one behind the other, so that a
/// sum is paid along it. In contracts it is what it was filled with, what it has room for, and how
/// much memory its lists have.
#[derive(Debug, Drop)]
pub struct Slots {
    place_room: usize,
    swap_room: usize,
    pub(crate) places: Vec<Place>,
    pub(crate) swaps: Vec<Swap>,
    pub(crate) knots: Vec<Knot>,
    /// The pieces of the line.
    pub(crate) pieces: Vec<Piece>,
    /// The line before dropped places are taken out; the next fill may go on from it.
    pub(crate) spans: Spans,
    /// The pieces, with a chain of those of each place.
    pub(crate) chains: Spans,
}

impl Model for Slots {
    ghost use Rattle.std.specs.Prelude.{◌+◌, vec_capacity};
    ghost use Rattle.rank_slots.specs.Filled.{SlotsState};
    ghost use Rattle.rank_slots.specs.inner.Slots.{HasRoom, HasSpanRoom, IsFilled};
    ghost use Rattle.rank_slots.specs.inner.SpanLists.{lists_of};
    ghost use Rattle.rank_slots.specs.inner.Spans.{AreChainedPieces, AreMadeOf};

    ghost Value = { SlotsState };

    ghost view = { λ a. record {
      place_room = a.place_room;
      swap_room = a.swap_room;
      filled = record { places = a.places.items; swaps = a.swaps.items; knots = a.knots.items };
      capacity = vec_capacity a.places + vec_capacity a.swaps + vec_capacity a.knots + vec_capacity a.pieces + vec_capacity a.spans.spans + vec_capacity a.spans.links + vec_capacity a.spans.heads + vec_capacity a.chains.spans + vec_capacity a.chains.links + vec_capacity a.chains.heads;
    } };

    ghost invariant = { λ a.
        IsFilled (record { places = a.places.items; swaps = a.swaps.items; knots = a.knots.items }) a.pieces.items
        × HasRoom a.place_room a.swap_room (vec_capacity a.places) (vec_capacity a.swaps) (vec_capacity a.knots) (vec_capacity a.pieces)
        × HasSpanRoom a.place_room a.swap_room (vec_capacity a.spans.spans) (vec_capacity a.spans.links) (vec_capacity a.spans.heads)
        × HasSpanRoom a.place_room a.swap_room (vec_capacity a.chains.spans) (vec_capacity a.chains.links) (vec_capacity a.chains.heads)
        × AreMadeOf (lists_of a.spans) a.places.items a.swaps.items
        × AreChainedPieces (lists_of a.chains) a.places.items a.pieces.items };
}

impl Slots {
    /// An empty line, with room for so many places and so many exchanges among them. May run out of
    /// memory (`NoMemory`); no other call of a line takes any.
    ///
    /// ```
    /// let mut slots = Slots::with_room(rt.alloc(), 3, 1)?;
    /// ```
    pub fn with_room(alloc: Global, places: usize, swaps: usize) -> Result<Slots, NoMemory>
        ensures places { IfOk result (λ slots. places ≤ slots.place_room) }
        ensures swaps { IfOk result (λ slots. swaps ≤ slots.swap_room) }
        ensures filled { IfOk result (λ slots. slots.filled ≡ empty) }
    {
        let pieces = places.checked_add(swaps).ok_or(AllocError)?;
        Ok(Slots {
            place_room: places,
            swap_room: swaps,
            places: Vec::with_capacity(alloc, places)?,
            swaps: Vec::with_capacity(alloc, swaps)?,
            knots: Vec::with_capacity(alloc, places)?,
            pieces: Vec::with_capacity(alloc, pieces)?,
            spans: Spans::with_room(alloc, pieces, places)?,
            chains: Spans::with_room(alloc, pieces, places)?,
        })
    }

    /// Fills the line in place of what stood there: with the claims of the places in order, these
    /// exchanges in turn and these exercised reservations. Takes no memory.
    ///
    /// ```
    /// // A has a claim of 100 cents, B of 50 and C of 80, each in a group of its own.
    /// let places = [place(a, 100), place(b, 50), place(c, 80)];
    /// // A recedes, and C rises.
    /// slots.fill(&places, &[Swap { recede: a, rise: c }], &[]);
    /// ```
    pub fn fill(&mut self, places: &[Place], swaps: &[Swap], knots: &[Knot])
        requires places { length places.now ≤ self.old.place_room }
        requires swaps { length swaps.now ≤ self.old.swap_room }
        requires fits { CanFill (record { places = places.now; swaps = swaps.now; knots = knots.now }) }
        ensures filled { self.new.filled ≡ record { places = places.now; swaps = swaps.now; knots = knots.now } }
        ensures place_room { self.new.place_room ≡ self.old.place_room }
        ensures swap_room { self.new.swap_room ≡ self.old.swap_room }
        ensures memory { self.new.capacity ≡ self.old.capacity }
    {
        self.spans
            .make_of(&mut self.pieces, &self.places, &self.swaps, places, swaps);
        copy_into(&mut self.places, places);
        copy_into(&mut self.swaps, swaps);
        copy_into(&mut self.knots, knots);
        write_line(&mut self.pieces, &self.spans.spans, places);
        self.chains.cut_again(&self.pieces, places);
    }

    /// How many cents the line has. Takes no memory.
    ///
    /// ```
    /// // With A, B and C as in `fill`.
    /// assert_eq!(slots.length(), 230);
    /// ```
    pub fn length(&self) -> u64
        ensures value { result ≡ length (line self.now.filled) }
        ensures bound { result < most_sum }
    {
        total(&self.pieces)
    }

    /// The places of equal rank with this right's, itself among them, in order; none where it has
    /// no place here. Takes no memory.
    ///
    /// ```
    /// // With A, B and C as in `fill`.
    /// assert_eq!(slots.group(b), &[place(b, 50)]);
    /// ```
    pub fn group(&self, right: RightId) -> &[Place]
        ensures value { result.now ≡ group_of self.now.filled.places right }
    {
        match lone_number(&self.places, right) {
            Some(number) => &self.places[number..number + 1],
            None => group_of(&self.places, right),
        }
    }

    /// The pieces of the line, in order. The cents of a group stand as the whole claims of its
    /// members, in their order. Takes no memory.
    ///
    /// ```
    /// // With A, B and C as in `fill`: C has the first 80 of the cents that were A's, and A those
    /// // that were C's.
    /// assert_eq!(slots.pieces(), &[piece(c, 80), piece(a, 20), piece(b, 50), piece(a, 80)]);
    /// ```
    pub fn pieces(&self) -> &[Piece]
        ensures value { result.now ≡ pieces_of (line self.now.filled) }
        ensures some { All (λ p. 1 ≤ p.cents) result.now }
        ensures sum { sum_by (λ p. p.cents) result.now < most_sum }
    {
        &self.pieces
    }
}
