//! Settling a journal at desks, from its first item to its last.
//! Why so: docs/DECISIONS.md, "Which journals one desk settles".
ghost use Rattle.std.specs.Prelude.{◌≡◌, ◌≤◌, IfOk, length};
ghost use Rattle.gb_base.specs.declared.keys.Key.{Key};
ghost use Rattle.folio_sections.specs.Entries.{at};
ghost use Rattle.folio_sections.specs.Held.{entries_at, is_given, is_held};
ghost use Rattle.kept_registers.specs.Kept.{Kept};
ghost use Rattle.registrar.specs.HasSettled.{HasSettled, IsRegisterOf};
ghost use Rattle.registrar.specs.HeldKeys.{keys_of_first};
ghost use Rattle.registrar.specs.KeptAwards.{AwardsKept};
ghost use Rattle.registrar.specs.OpenFolios.{open_folios};
ghost use Rattle.registrar.specs.Settling.{registrar};

use crate::one_desk::is_for_one_desk;
use crate::rounds::Round;
use act_model::{Journal, JournalName};
use gb_base::{NoMemory, ReceiptNo};
use gb_outside::DeskGate;
use registrar::{Register, alone};
use std::marker::Brand;
use std::sync::Wait;
use std::thread::Threads;

/// Settles a journal at as many desks as are asked for, 1 to 64, or at one: a journal of one folio,
/// and one whose filings have many acts, is settled by one desk. Several work each in a thread of its
/// own where one can be had. `gate` is called with each item before its entries, while its desk has
/// the item's folios to itself: one desk alone has all of them, others lock them. Whatever the desks
/// do, the register is the one that `registrar::alone` gives (GBO § 17). May run out of memory
/// (NoMemory); several desks take all of it before the first item is settled, as a round does, with
/// seats for 64 desks.
pub fn settle_at_desks<R: AllocGlobal + Threads + Wait + Sync, G: DeskGate>(
    rt: &R,
    journal: &Journal,
    desks: u16,
    gate: &G,
) -> Result<Register, NoMemory>
    requires desks { (1 ≤ desks) × (desks ≤ 64) }
    ensures settled { IfOk result (HasSettled journal.now.receipts) }
    ensures whole { IfOk result (IsRegisterOf journal.now.receipts) }
    ensures entries { IfOk result (λ register. entries_at register.parts ≡ at (registrar journal.now.receipts).entries) }
    ensures verdicts { IfOk result (λ register. register.verdicts ≡ (registrar journal.now.receipts).verdicts) }
    ensures folios { IfOk result (λ register. register.folios ≡ open_folios (registrar journal.now.receipts).entries) }
    ensures held { IfOk result (λ register. (k : Key) → is_held register.parts k ≡ is_given (keys_of_first journal.now.receipts (length journal.now.receipts)) k) }
    ensures kept { IfOk result (λ register. Kept journal.now.receipts (entries_at register.parts)) }
    ensures awards { IfOk result (λ register. AwardsKept journal.now.receipts (entries_at register.parts)) }
{
    if is_for_one_desk(journal, desks) {
        // It has every folio from the start, and needs no room beforehand.
        call_with_each(journal, gate);
        return alone(rt.alloc(), journal);
    }
    settle_named::<Brand, R, G>(rt, journal, desks, gate)
}

/// Calls the gate with each item, in the order of receipts.
fn call_with_each<G: DeskGate>(journal: &Journal, gate: &G) {
    for index in 0..journal.len() {
        gate.at(ReceiptNo::new(index + 1).unwrap());
    }
}

/// Settles a journal that has a name at so many desks, by a round.
fn settle_named<N: JournalName + Send + Sync, R: AllocGlobal + Threads + Wait + Sync, G: DeskGate>(
    rt: &R,
    journal: &Journal,
    desks: u16,
    gate: &G,
) -> Result<Register, NoMemory>
    requires named { journal.now.receipts ≡ N.receipts }
    requires desks { (1 ≤ desks) × (desks ≤ 64) }
    ensures settled { IfOk result (HasSettled N.receipts) }
    ensures whole { IfOk result (IsRegisterOf N.receipts) }
    ensures entries { IfOk result (λ register. entries_at register.parts ≡ at (registrar N.receipts).entries) }
    ensures verdicts { IfOk result (λ register. register.verdicts ≡ (registrar N.receipts).verdicts) }
    ensures folios { IfOk result (λ register. register.folios ≡ open_folios (registrar N.receipts).entries) }
    ensures held { IfOk result (λ register. (k : Key) → is_held register.parts k ≡ is_given (keys_of_first N.receipts (length N.receipts)) k) }
    ensures kept { IfOk result (λ register. Kept N.receipts (entries_at register.parts)) }
    ensures awards { IfOk result (λ register. AwardsKept N.receipts (entries_at register.parts)) }
{
    let round = Round::<N>::prepare(rt.alloc(), journal)?;
    Ok(round.run(rt, desks, gate))
}
