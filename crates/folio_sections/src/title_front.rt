//! A title as it stood before a receipt.
ghost use Rattle.std.specs.Prelude.{◌≡◌, ◌≤◌, length, take};
ghost use Rattle.folio_sections.specs.Titles.{is_open, owners};

use crate::title_part::is_opening;
use crate::{Entry, TitlePart};
use act_model::Owners;
use std::marker::Model;

/// The first entries at a title. In contracts it is the list of these entries.
#[derive(Drop)]
pub struct TitleFront<'a> {
    part: &'a TitlePart,
    /// How many of the part's entries it has.
    len: usize,
}

impl<'a> Model for TitleFront<'a> {
    ghost use Rattle.std.specs.Prelude.{List, ◌≤◌, length, take};
    ghost use Rattle.folio_sections.specs.declared.entries.Entry.{Entry};

    ghost Value = { List Entry };

    ghost view = { λ a. take a.len a.part.now.entries };

    ghost invariant = { λ a. a.len ≤ length a.part.now.entries };
}

impl<'a> TitleFront<'a> {
    /// The first so many entries of a part.
    pub(crate) fn new(part: &'a TitlePart, len: usize) -> TitleFront<'a>
        requires { len ≤ length part.now.entries }
        ensures { result ≡ take len part.now.entries }
    {
        TitleFront { part, len }
    }

    /// Whether the folio was open (GBO § 3).
    pub fn is_open(&self) -> bool
        ensures { result ≡ is_open self.now }
    {
        let entries = self.part.entries();
        if self.len == entries.len() {
            self.part.is_open()
        } else {
            is_open(&entries[..self.len])
        }
    }

    /// The owners (BGB § 925, ZVG § 90); None where no entry named any.
    pub fn owners(&self) -> Option<Owners>
        ensures { result ≡ owners self.now }
    {
        self.part.owners_ahead(self.len)
    }
}

/// Whether these entries open the folio.
fn is_open(entries: &[Entry]) -> bool
    ensures { result ≡ is_open entries.now }
{
    entries.iter().any(|entry| is_opening(&entry.what))
}
