//! The register that the one registrar leaves.
//! Why so: docs/DECISIONS.md, "`Register::verdict` lends its verdict".
ghost use Rattle.std.specs.Prelude.{◌≡◌, ◌-◌, ◌+◌, ◌<◌, ◌≤◌, IfOk, IsTrue, OnErr, OnOk, length, slice_get};
ghost use Rattle.std.specs.List.{enumerate_from};
ghost use Rattle.std.specs.Option.{option_copied};
ghost use Rattle.gb_base.specs.declared.keys.Key.TheVariants.{Title};
ghost use Rattle.conflict_queue.specs.ItemKeys.{keys_of_item};
ghost use Rattle.folio_sections.specs.Adding.{Adds};
ghost use Rattle.folio_sections.specs.Held.{WidensBy, entries_at, is_given, is_held, room_at};
ghost use Rattle.folio_sections.specs.HeldRights.{held_rights};
ghost use Rattle.folio_sections.specs.Titles.{is_open};
ghost use Rattle.kept_registers.specs.Kept.{Kept};
ghost use Rattle.registrar.specs.HasSettled.{HasSettled};
ghost use Rattle.registrar.specs.KeptAwards.{AwardsKept};
ghost use Rattle.registrar.specs.RegisterState.{verdict_among};
ghost use Rattle.registrar.specs.inner.Behind.{register_of};

use crate::settled::Settled;
use crate::{Scratch, Verdict};
use act_model::{Journal, is_a_journal};
use folio_line::HeldRights;
use folio_sections::{CasePart, Entry, MapParts, Parts, RightPart, TitlePart};
use gb_base::{FolioId, NoMemory, ReceiptNo, RightId};
use kept_registers::laws::empty_register_is_kept;
use std::alloc::Global;
use std::marker::Model;

/// The register after the items that are settled: its parts at their keys and at no other, what
/// became of each item, and the open folios.
#[derive(Drop)]
pub struct Register {
    settled: Settled,
}

impl Model for Register {
    ghost use Rattle.registrar.specs.RegisterState.{RegisterState};
    ghost use Rattle.registrar.specs.inner.Behind.{register_of};

    ghost Value = { RegisterState };

    ghost view = { λ a. register_of a.settled };
}

impl Register {
    /// The register of what is settled. Its caller has put the open folios in order.
    pub(crate) fn new(settled: Settled) -> Register
        ensures { result ≡ register_of settled }
    {
        Register { settled }
    }

    /// The register of parts that others have settled, of what became of each item, from the first
    /// on, and of the open folios, ascending. Whether it is that of a journal is for its caller to
    /// say.
    pub fn of_parts(
        alloc: Global,
        parts: MapParts,
        verdicts: Vec<Verdict>,
        folios: Vec<FolioId>,
    ) -> Register
        ensures parts { result.parts ≡ parts }
        ensures verdicts { result.verdicts ≡ enumerate_from 1 verdicts.items }
        ensures folios { result.folios ≡ folios.items }
    {
        Register::new(Settled {
            alloc,
            parts,
            verdicts,
            folios,
        })
    }

    /// Settles the next item of the journal, after those that are settled (GBO § 17). It keeps the
    /// room for it first: where memory runs out, nothing is settled and no entry, verdict or open
    /// folio changes. But keys of the item, and no others, may then be held besides, so such a
    /// register is to be rebuilt.
    pub fn settle_next(&mut self, scratch: &mut Scratch, journal: &Journal) -> Result<(), NoMemory>
        requires more { length self.old.verdicts < length journal.now.receipts }
        requires settled { HasSettled journal.now.receipts self.old }
        ensures settled { OnOk result (HasSettled journal.now.receipts self.new) }
        ensures one_more { OnOk result (length self.new.verdicts ≡ length self.old.verdicts + 1) }
        ensures kept { OnOk result (Kept journal.now.receipts (entries_at self.new.parts)) }
        ensures awards { OnOk result (AwardsKept journal.now.receipts (entries_at self.new.parts)) }
        ensures entries { OnErr result (entries_at self.new.parts ≡ entries_at self.old.parts) }
        ensures verdicts { OnErr result (self.new.verdicts ≡ self.old.verdicts) }
        ensures folios { OnErr result (self.new.folios ≡ self.old.folios) }
        ensures keys { OnErr result (WidensBy (is_given (keys_of_item journal.now.receipts (length self.old.verdicts + 1))) self.old.parts self.new.parts) }
    {
        empty_register_is_kept();
        is_a_journal(journal);
        self.settled.settle_in_order(scratch, journal)?;
        Ok(())
    }

    /// What became of receipt n; None where the journal that was settled has no such receipt.
    pub fn verdict(&self, n: ReceiptNo) -> Option<&Verdict>
        ensures value { option_copied result ≡ verdict_among self.now.verdicts n }
    {
        at_number(self.settled.verdicts.as_slice(), n)
    }

    /// What became of each receipt, from the first on.
    pub fn verdicts(&self) -> &[Verdict]
        ensures value { enumerate_from 1 result.now ≡ self.now.verdicts }
    {
        self.settled.verdicts.as_slice()
    }

    /// The open folios, ascending, after the items that are settled (GBO § 3): this list does not
    /// follow what is appended.
    pub fn folios(&self) -> &[FolioId]
        ensures value { result.now ≡ self.now.folios }
    {
        self.settled.folios.as_slice()
    }

    /// Whether the folio is open (GBO § 3), as its title stands.
    pub fn is_open(&self, folio: FolioId) -> bool
        ensures { result ≡ is_open (entries_at self.now.parts (Title folio)) }
    {
        self.settled.parts.is_open(folio)
    }

    /// The rights of a folio whose parts are held, by receipt and act. However many parts are
    /// held elsewhere, it looks at those of the folio's rights alone.
    pub fn rights_in(&self, alloc: Global, folio: FolioId) -> Result<Vec<RightId>, NoMemory>
        ensures rights { IfOk result (λ rights. rights.items ≡ held_rights (is_held self.now.parts) folio) }
    {
        self.settled.parts.rights_in(alloc, folio)
    }
}

/// The verdict of this number, from 1 on.
fn at_number(verdicts: &[Verdict], n: ReceiptNo) -> Option<&Verdict>
    ensures value { option_copied result ≡ slice_get verdicts.now (n - 1) }
    ensures positive { 0 < n }
{
    verdicts.get(n.get() as usize - 1)
}

impl HeldRights for Register {
    ghost use Rattle.folio_line.specs.inner.NotHeld.{not_held};

    fn rights_in(&self, alloc: Global, folio: FolioId) -> Result<Vec<RightId>, NoMemory> {
        Register::rights_in(self, alloc, folio)
    }

    ghost unheld_is_empty = { λ r. not_held r.parts };
}

impl Parts for Register {
    ghost use Rattle.folio_sections.specs.Held.{is_held, entries_at, room_at};

    ghost holds = { λ r. is_held r.parts };

    ghost at = { λ r. entries_at r.parts };

    ghost room = { λ r. room_at r.parts };

    fn title(&self, folio: FolioId) -> Option<&TitlePart> {
        self.settled.parts.title(folio)
    }

    fn right(&self, folio: FolioId, right: RightId) -> Option<&RightPart> {
        self.settled.parts.right(folio, right)
    }

    fn case(&self, folio: FolioId) -> Option<&CasePart> {
        self.settled.parts.case(folio)
    }

    /// Adds an entry at the end of its key's part; what became of each item stays, and so does the
    /// list of open folios.
    fn append(&mut self, entry: Entry)
        requires held { IsTrue (is_held self.old.parts entry.key) }
        requires room { 1 ≤ room_at self.old.parts entry.key }
        ensures added { Adds (entries_at self.old.parts) (entries_at self.new.parts) (room_at self.old.parts) (room_at self.new.parts) entry }
        ensures held { is_held self.new.parts ≡ is_held self.old.parts }
        ensures verdicts { self.new.verdicts ≡ self.old.verdicts }
        ensures folios { self.new.folios ≡ self.old.folios }
    {
        self.settled.parts.append(entry);
    }
}
