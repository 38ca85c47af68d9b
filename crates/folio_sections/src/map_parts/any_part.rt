//! A part of any kind, so that one list holds all of them.
ghost use Rattle.std.specs.Prelude.{◌≡◌, ◌+◌, ◌≤◌, [], ◌∷◌, ◌++◌, IsOk, OnOk, OnErr, IfSome, is_some, length};
ghost use Rattle.folio_sections.specs.Limits.{most_at_a_key};
ghost use Rattle.folio_sections.specs.inner.Kinds.{is_title, is_right, is_case};

use crate::{CasePart, Entry, RightPart, TitlePart};
use gb_base::{Key, NoMemory};
use std::alloc::Global;
use std::marker::Model;

/// A part of the kind that its key says.
#[derive(Drop)]
pub struct AnyPart {
    kind: Kind,
}

#[derive(Drop)]
enum Kind {
    Title(TitlePart),
    Right(RightPart),
    Case(CasePart),
}

impl Model for AnyPart {
    ghost use Rattle.std.specs.Prelude.{IsTrue};
    ghost use Rattle.folio_sections.specs.PartState.{PartState};
    ghost use Rattle.folio_sections.specs.inner.Kinds.{state_of, fits_key};

    ghost Value = { PartState };

    ghost view = { λ a. state_of a.kind };

    ghost invariant = { λ a. IsTrue (fits_key a.kind) };
}

impl AnyPart {
    /// The empty part at a key.
    pub fn new(alloc: Global, key: Key) -> AnyPart
        ensures key { result.key ≡ key }
        ensures empty { result.entries ≡ [] }
    {
        match key {
            Key::Title(_) => AnyPart {
                kind: Kind::Title(TitlePart::new(alloc, key)),
            },
            Key::Right(_, _) => AnyPart {
                kind: Kind::Right(RightPart::new(alloc, key)),
            },
            Key::Case(_) => AnyPart {
                kind: Kind::Case(CasePart::new(alloc, key)),
            },
        }
    }

    /// Keeps room for n entries more.
    pub fn reserve(&mut self, n: usize) -> Result<(), NoMemory>
        ensures key { self.new.key ≡ self.old.key }
        ensures entries { self.new.entries ≡ self.old.entries }
        ensures room { OnOk result (n ≤ self.new.room) }
        ensures kept { self.old.room ≤ self.new.room }
        ensures unchanged { OnErr result (self.new ≡ self.old) }
        ensures succeeds { n ≤ self.old.room → IsOk result }
    {
        match &mut self.kind {
            Kind::Title(part) => part.reserve(n),
            Kind::Right(part) => part.reserve(n),
            Kind::Case(part) => part.reserve(n),
        }
    }

    /// Adds an entry at the end.
    pub fn append(&mut self, entry: Entry)
        requires key { entry.key ≡ self.old.key }
        requires room { 1 ≤ self.old.room }
        ensures key { self.new.key ≡ self.old.key }
        ensures entries { self.new.entries ≡ self.old.entries ++ entry ∷ [] }
        ensures room { self.new.room + 1 ≡ self.old.room }
    {
        match &mut self.kind {
            Kind::Title(part) => part.append(entry),
            Kind::Right(part) => part.append(entry),
            Kind::Case(part) => part.append(entry),
        }
    }

    /// Takes all its entries away, and its room grows by as many. It takes no memory.
    pub fn clear(&mut self)
        ensures key { self.new.key ≡ self.old.key }
        ensures entries { self.new.entries ≡ [] }
        ensures room { self.new.room ≡ self.old.room + length self.old.entries }
    {
        match &mut self.kind {
            Kind::Title(part) => part.clear(),
            Kind::Right(part) => part.clear(),
            Kind::Case(part) => part.clear(),
        }
    }

    /// How many entries it has.
    pub fn len(&self) -> usize
        ensures value { result ≡ length self.now.entries }
        ensures most { result ≤ most_at_a_key }
    {
        match &self.kind {
            Kind::Title(part) => part.entries().len(),
            Kind::Right(part) => part.entries().len(),
            Kind::Case(part) => part.entries().len(),
        }
    }

    /// The part of a title; None where the key is of another kind.
    pub fn as_title(&self) -> Option<&TitlePart>
        ensures some { is_some result ≡ is_title self.now.key }
        ensures value { IfSome result (λ part. part.now ≡ self.now) }
    {
        match &self.kind {
            Kind::Title(part) => Some(part),
            _ => None,
        }
    }

    /// The part of a right; None where the key is of another kind.
    pub fn as_right(&self) -> Option<&RightPart>
        ensures some { is_some result ≡ is_right self.now.key }
        ensures value { IfSome result (λ part. part.now ≡ self.now) }
    {
        match &self.kind {
            Kind::Right(part) => Some(part),
            _ => None,
        }
    }

    /// The part of a forced sale; None where the key is of another kind.
    pub fn as_case(&self) -> Option<&CasePart>
        ensures some { is_some result ≡ is_case self.now.key }
        ensures value { IfSome result (λ part. part.now ≡ self.now) }
    {
        match &self.kind {
            Kind::Case(part) => Some(part),
            _ => None,
        }
    }
}
