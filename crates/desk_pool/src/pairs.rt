//! The parts of two folios that one item touches, read and written as one.
//! Why so: docs/DECISIONS.md, "The parts of two folios are moved into a pair for a step".
ghost use Rattle.std.specs.Prelude.{◌≡◌, false, IfOk};
ghost use Rattle.folio_sections.specs.Held.{is_held};
ghost use Rattle.desk_pool.specs.inner.FolioPairs.{AreApart, either_holds};
ghost use Rattle.gb_base.specs.declared.keys.Key.{Key};

use folio_sections::{CasePart, Entry, MapParts, Parts, RightPart, TitlePart, is_held};
use gb_base::{FolioId, NoMemory, RightId};
use std::alloc::Global;
use std::marker::Model;
use std::mem;

/// The parts of two folios, of which the first has the lower number. So a step, which keeps what
/// both hold together, keeps what each of them holds.
#[derive(Drop)]
pub(crate) struct FolioPair {
    first: MapParts,
    second: MapParts,
}

impl Model for FolioPair {
    ghost use Rattle.folio_sections.specs.Held.{is_held};
    ghost use Rattle.desk_pool.specs.inner.FolioPairs.{AreApart, PairState};

    ghost Value = { PairState };

    ghost view = { λ a. record { first = a.first; second = a.second } };

    ghost invariant = { λ a. AreApart (is_held a.first) (is_held a.second) };
}

impl FolioPair {
    /// A pair that holds no folio yet.
    pub fn new(alloc: Global) -> Result<FolioPair, NoMemory>
        ensures none { IfOk result (λ pair. (k : Key) → either_holds pair k ≡ false) }
    {
        let first = MapParts::new(alloc, &[])?;
        let second = MapParts::new(alloc, &[])?;
        Ok(FolioPair { first, second })
    }

    /// Exchanges the parts with those of two folios.
    pub fn swap(&mut self, first: &mut MapParts, second: &mut MapParts)
        requires apart { AreApart (is_held first.old) (is_held second.old) }
        ensures pair { self.new ≡ record { first = first.old; second = second.old } }
        ensures first { first.new ≡ self.old.first }
        ensures second { second.new ≡ self.old.second }
        ensures apart { AreApart (is_held first.new) (is_held second.new) }
    {
        mem::swap(&mut self.first, first);
        mem::swap(&mut self.second, second);
    }
}

impl Parts for FolioPair {
    ghost use Rattle.desk_pool.specs.inner.FolioPairs.{either_at, either_holds, either_room};

    ghost holds = { either_holds };

    ghost at = { either_at };

    ghost room = { either_room };

    fn title(&self, folio: FolioId) -> Option<&TitlePart> {
        match self.first.title(folio) {
            Some(part) => Some(part),
            None => self.second.title(folio),
        }
    }

    fn right(&self, folio: FolioId, right: RightId) -> Option<&RightPart> {
        match self.first.right(folio, right) {
            Some(part) => Some(part),
            None => self.second.right(folio, right),
        }
    }

    fn case(&self, folio: FolioId) -> Option<&CasePart> {
        match self.first.case(folio) {
            Some(part) => Some(part),
            None => self.second.case(folio),
        }
    }

    fn append(&mut self, entry: Entry) {
        if is_held(&self.first, &entry.key) {
            self.first.append(entry);
        } else {
            self.second.append(entry);
        }
    }
}
