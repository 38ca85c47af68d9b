//! The generator, which draws one receipt after the other.
ghost use Rattle.std.specs.Prelude.{◌≡◌, ◌+◌, ◌≤◌, All, IsTrue, length};
ghost use Rattle.act_model.specs.Limits.{most_receipts};
ghost use Rattle.act_model.specs.WellFormed.{well_formed};

use crate::draws::Draws;
use crate::folio_notes::FolioNotes;
use crate::turns::turn;
use act_model::Item;
use gb_base::{FolioId, ReceiptNo};
use std::marker::Model;

/// The state of the draws, and what is kept of each folio, folio 1 first.
#[derive(Debug, Drop)]
pub(crate) struct Generator {
    draws: Draws,
    folios: Vec<FolioNotes>,
}

impl Model for Generator {
    ghost use Rattle.std.specs.Prelude.{◌≤◌, vec_len};
    ghost use Rattle.act_model.specs.Limits.{most_receipts};
    ghost use Rattle.sample_journals.specs.Sample.{GeneratorState};

    ghost Value = { GeneratorState };

    ghost view = { λ a. record { state = a.draws.state; folios = a.folios.items } };

    ghost invariant = { λ a. (1 ≤ vec_len a.folios) × (vec_len a.folios ≤ most_receipts) };
}

impl Generator {
    ghost use Rattle.sample_journals.specs.Sample.{generator_after, turn_of};
    ghost use Rattle.sample_journals.specs.inner.KnownBefore.{AreBefore};

    /// The generator of a seed, with what is kept of each folio, of which there is at least one.
    pub fn new(seed: u64, folios: Vec<FolioNotes>) -> Generator
        requires some { 1 ≤ length folios.items }
        requires few { length folios.items ≤ most_receipts }
        ensures { result ≡ record { state = seed; folios = folios.items } }
    {
        let draws = Draws { state: seed };
        Generator { draws, folios }
    }

    /// The item of receipt k: its folio is drawn, then one of eleven kinds.
    pub fn next_item(&mut self, k: ReceiptNo) -> Item
        requires few { k ≤ most_receipts }
        requires before { All (AreBefore k) self.old.folios }
        ensures item { result ≡ (turn_of k self.old).item }
        ensures generator { self.new ≡ generator_after k self.old }
        ensures well { IsTrue (well_formed result) }
        ensures before { All (AreBefore (k + 1)) self.new.folios }
    {
        let index = self.draws.below(self.folios.len() as u32);
        let op = self.draws.below(11);
        let folio = FolioId::new(index + 1).unwrap();
        let notes = &mut self.folios[index as usize];
        turn(op, k, folio, notes, &mut self.draws)
    }
}
