//! A right as it stood before a receipt.
ghost use Rattle.std.specs.Prelude.{◌≡◌, ◌≤◌, length, take};
ghost use Rattle.folio_sections.specs.Rights.{capital, created, entered_on, holder, is_full, is_live};
ghost use Rattle.folio_sections.specs.inner.States.{IsRightState};

use crate::right_state::RightState;
use crate::{Created, Entry, RightPart};
use gb_base::{Cents, Day, Person};
use std::marker::Model;

/// The first entries at a right. In contracts it is the list of these entries.
#[derive(Drop)]
pub struct RightFront<'a> {
    part: &'a RightPart,
    /// How many of the part's entries it has.
    len: usize,
}

impl<'a> Model for RightFront<'a> {
    ghost use Rattle.std.specs.Prelude.{List, ◌≤◌, length, take};
    ghost use Rattle.folio_sections.specs.declared.entries.Entry.{Entry};

    ghost Value = { List Entry };

    ghost view = { λ a. take a.len a.part.now.entries };

    ghost invariant = { λ a. a.len ≤ length a.part.now.entries };
}

impl<'a> RightFront<'a> {
    /// The first so many entries of a part.
    pub(crate) fn new(part: &'a RightPart, len: usize) -> RightFront<'a>
        requires { len ≤ length part.now.entries }
        ensures { result ≡ take len part.now.entries }
    {
        RightFront { part, len }
    }

    /// The entries, in order.
    pub fn entries(&self) -> &'a [Entry]
        ensures { result.now ≡ self.now }
    {
        &self.part.entries()[..self.len]
    }

    /// Whether the right was live (BGB § 875, ZVG § 91): created, and neither cancelled nor expired
    /// since.
    pub fn live(&self) -> bool
        ensures { result ≡ is_live self.now }
    {
        self.state().live
    }

    /// The right as it was created (BGB § 873); None where it was not yet.
    pub fn created(&self) -> Option<Created>
        ensures { result ≡ created self.now }
    {
        self.state().created
    }

    /// The day on which the right was entered (BGB § 873); None where it was not yet.
    pub fn entered_on(&self) -> Option<Day>
        ensures { result ≡ entered_on self.now }
    {
        self.state().entered
    }

    /// Whether the right itself was entered, and not only a priority notice for it (BGB § 883).
    pub fn full(&self) -> bool
        ensures { result ≡ is_full self.now }
    {
        self.state().full()
    }

    /// The holder: the last new one, else that of the creation (BGB § 873); None where there was
    /// neither.
    pub fn holder(&self) -> Option<Person>
        ensures { result ≡ holder self.now }
    {
        self.part.holder_ahead(self.len)
    }

    /// The capital: the one that the last award left, else that of the creation (ZVG § 52); None
    /// where there was neither.
    pub fn capital(&self) -> Option<Cents>
        ensures { result ≡ capital self.now }
    {
        self.state().capital()
    }

    /// What is read from the entries. Where these are all entries of the part, it is the state that
    /// the part keeps; else it is what the part says of its first so many.
    fn state(&self) -> RightState
        ensures { IsRightState result self.now }
    {
        if self.len == self.part.entries().len() {
            *self.part.state()
        } else {
            self.part.state_ahead(self.len)
        }
    }
}
