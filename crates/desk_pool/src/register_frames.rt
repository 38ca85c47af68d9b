//! What a register is made in, and a journal settled in it in any permitted order.
ghost use Rattle.std.specs.Prelude.{◌<◌, ◌+◌, List, length, take};
ghost use Rattle.act_model.specs.Receiving.{IsJournal};
ghost use Rattle.act_model.specs.declared.receipts.Receipt.{Receipt};
ghost use Rattle.conflict_queue.specs.Schedules.{IsPermitted};
ghost use Rattle.desk_pool.specs.Preparing.{HasPlaces, IsPrepared};
ghost use Rattle.desk_pool.specs.inner.PreparedRuns.{HasTaken};
ghost use Rattle.desk_pool.specs.inner.TheRegister.{IsTheRegister};

use crate::open_folios::keep_open;
use act_model::{Journal, is_a_journal};
use folio_sections::MapParts;
use gb_base::{FolioId, ReceiptNo};
use kept_registers::laws::empty_register_is_kept;
use registrar::{Register, Scratch, Verdict, step};
use std::alloc::Global;

/// What a register is made in: parts at its keys, a scratch, a verdict for each item, which says
/// nothing yet, and the folios that may be open in the end (`HasFrame`). The parts have no room of
/// their own: those of the folios bring theirs (`HasPlaces`), and once nothing stands there
/// (`IsPrepared`) each item finds its room. That no memory is taken then is read in the code.
#[derive(Drop)]
pub(crate) struct RegisterFrame {
    pub alloc: Global,
    pub parts: MapParts,
    pub scratch: Scratch,
    pub verdicts: Vec<Verdict>,
    pub folios: Vec<FolioId>,
}

impl RegisterFrame {
    /// Settles all items, in this order, and leaves the register of the one registrar (GBO § 17).
    pub fn settle_in(mut self, journal: &Journal, order: &[ReceiptNo]) -> Register
        requires prepared { IsPrepared journal.now.receipts self }
        requires permitted { IsPermitted journal.now.receipts order.now }
        ensures { IsTheRegister journal.now.receipts result }
    {
        is_a_journal(journal);
        self.settle_all(journal, order);
        self.into_register(journal, order)
    }

    /// The register where all items are settled, in this order.
    pub fn into_register(mut self, journal: &Journal, order: &[ReceiptNo]) -> Register
        requires taken { HasTaken journal.now.receipts order.now self }
        requires permitted { IsPermitted journal.now.receipts order.now }
        ensures { IsTheRegister journal.now.receipts result }
    {
        empty_register_is_kept();
        is_a_journal(journal);
        keep_open(&mut self.folios, &self.parts);
        Register::of_parts(self.alloc, self.parts, self.verdicts, self.folios)
    }

    /// Settles all items, in this order.
    fn settle_all(&mut self, journal: &Journal, order: &[ReceiptNo])
        requires numbered { IsJournal journal.now.receipts }
        requires prepared { IsPrepared journal.now.receipts self.old }
        requires permitted { IsPermitted journal.now.receipts order.now }
        ensures taken { HasTaken journal.now.receipts order.now self.new }
    {
        for place in 0..order.len() {
            self.settle_at(journal, order, place);
        }
    }

    /// Settles the item at a place of the order, where those before it are settled.
    fn settle_at(&mut self, journal: &Journal, order: &[ReceiptNo], place: usize)
        requires numbered { IsJournal journal.now.receipts }
        requires permitted { IsPermitted journal.now.receipts order.now }
        requires place { place < length order.now }
        requires ahead { HasTaken journal.now.receipts (take place order.now) self.old }
        ensures taken { HasTaken journal.now.receipts (take (place + 1) order.now) self.new }
    {
        empty_register_is_kept();
        let item = order[place];
        let verdict = step(&mut self.parts, &mut self.scratch, journal, item);
        self.verdicts[item.get() as usize - 1] = verdict;
    }

    /// Takes away what stands in the parts, so that a journal for which they have the places is
    /// settled again. It takes no memory.
    pub fn reset(&mut self)
        ensures prepared { (journal : List Receipt) → HasPlaces journal self.old → IsPrepared journal self.new }
    {
        self.parts.clear();
    }
}
