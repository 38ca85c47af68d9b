//! What settling the items of a journal has come to, so far.
ghost use Rattle.std.specs.Prelude.{◌≡◌, ◌<◌, ◌≤◌, ◌+◌, List, [], length, AllPairs, IfOk, OnErr, OnOk};
ghost use Rattle.act_model.specs.Receiving.{IsJournal};
ghost use Rattle.act_model.specs.declared.receipts.Receipt.{Receipt};
ghost use Rattle.registrar.specs.inner.Behind.{IsBehind, Remains};

use crate::folios::{closed_folios, list_open, put_in_order};
use crate::making_room::{make_room, make_scratch};
use crate::steps::step;
use crate::{Scratch, Verdict};
use act_model::{Journal, is_a_journal};
use conflict_queue::touches;
use folio_sections::MapParts;
use gb_base::{FolioId, NoMemory, ReceiptNo};
use kept_registers::laws::empty_register_is_kept;
use std::alloc::Global;

/// What settling the items of a journal has come to.
#[derive(Drop)]
pub(crate) struct Settled {
    pub alloc: Global,
    /// The parts at the keys of the items that are settled.
    pub parts: MapParts,
    /// What became of each, in the order of receipts.
    pub verdicts: Vec<Verdict>,
    /// The open folios.
    pub folios: Vec<FolioId>,
}

impl Settled {
    /// No item is settled.
    pub fn new(alloc: Global) -> Result<Settled, NoMemory>
        ensures behind { IfOk result (λ settled. (journal : List Receipt) → IsBehind journal settled) }
        ensures none { IfOk result (λ settled. settled.verdicts.items ≡ []) }
    {
        empty_register_is_kept();
        Ok(Settled {
            alloc,
            parts: MapParts::new(alloc, &[])?,
            verdicts: Vec::new(alloc),
            folios: Vec::new(alloc),
        })
    }

    /// Settles the next item, in room that it keeps for it first. Where memory runs out nothing
    /// is settled.
    pub fn settle_next(&mut self, scratch: &mut Scratch, journal: &Journal) -> Result<(), NoMemory>
        requires more { length self.old.verdicts.items < length journal.now.receipts }
        requires behind { IsBehind journal.now.receipts self.old }
        ensures behind { OnOk result (IsBehind journal.now.receipts self.new) }
        ensures one_more { OnOk result (length self.new.verdicts.items ≡ length self.old.verdicts.items + 1) }
        ensures folios { OnOk result (length self.new.folios.items ≤ length self.old.folios.items → self.new.folios.items ≡ self.old.folios.items) }
        ensures remains { OnErr result (Remains journal.now.receipts self.old self.new) }
    {
        let item = next_number(journal, self.verdicts.len());
        let keys = touches(self.alloc, journal, item)?;
        make_room(&mut self.parts, keys.as_slice())?;
        make_scratch(self.alloc, scratch, &self.parts, journal, item)?;
        // A folio opens once: those that are closed now and open after the step are new.
        let closed = closed_folios(self.alloc, &self.parts, keys.as_slice())?;
        self.folios.reserve(closed.len())?;
        self.verdicts.reserve(1)?;
        let verdict = step(&mut self.parts, scratch, journal, item);
        self.verdicts.push_reserved(verdict);
        list_open(&mut self.folios, &self.parts, closed.as_slice());
        Ok(())
    }

    /// Settles the next item, and keeps the open folios in ascending order: they are sorted after an
    /// item that opens one.
    pub fn settle_in_order(
        &mut self,
        scratch: &mut Scratch,
        journal: &Journal,
    ) -> Result<(), NoMemory>
        requires more { length self.old.verdicts.items < length journal.now.receipts }
        requires behind { IsBehind journal.now.receipts self.old }
        requires ascending { AllPairs (λ folio later. folio < later) self.old.folios.items }
        ensures behind { OnOk result (IsBehind journal.now.receipts self.new) }
        ensures one_more { OnOk result (length self.new.verdicts.items ≡ length self.old.verdicts.items + 1) }
        ensures ascending { OnOk result (AllPairs (λ folio later. folio < later) self.new.folios.items) }
        ensures remains { OnErr result (Remains journal.now.receipts self.old self.new) }
    {
        let listed = self.folios.len();
        self.settle_next(scratch, journal)?;
        if self.folios.len() > listed {
            self.put_folios_in_order();
        }
        Ok(())
    }

    /// Puts the open folios into ascending order.
    pub fn put_folios_in_order(&mut self)
        ensures behind { (journal : List Receipt) → IsBehind journal self.old → IsBehind journal self.new }
        ensures ascending { AllPairs (λ folio later. folio < later) self.new.folios.items }
        ensures verdicts { self.new.verdicts ≡ self.old.verdicts }
    {
        put_in_order(&mut self.folios);
    }
}

/// The number of the receipt that comes after the first so many.
fn next_number(journal: &Journal, count: usize) -> ReceiptNo
    requires { count < length journal.now.receipts }
    ensures value { result ≡ count + 1 }
    ensures journal { IsJournal journal.now.receipts }
{
    is_a_journal(journal);
    ReceiptNo::new(count as u32 + 1).unwrap()
}
