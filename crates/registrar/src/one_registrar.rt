//! The one registrar, who settles a journal in the order of its receipts (GBO § 17).
//! Why so: docs/DECISIONS.md, "A register has the parts at the keys of the items that are settled".
ghost use Rattle.std.specs.Prelude.{◌≡◌, length, IfOk};
ghost use Rattle.gb_base.specs.declared.keys.Key.{Key};
ghost use Rattle.folio_sections.specs.Entries.{at};
ghost use Rattle.folio_sections.specs.Held.{entries_at, is_held, is_given};
ghost use Rattle.kept_registers.specs.Kept.{Kept};
ghost use Rattle.registrar.specs.HasSettled.{HasSettled, IsRegisterOf};
ghost use Rattle.registrar.specs.HeldKeys.{keys_of_first};
ghost use Rattle.registrar.specs.KeptAwards.{AwardsKept};
ghost use Rattle.registrar.specs.OpenFolios.{open_folios};
ghost use Rattle.registrar.specs.Settling.{registrar};
ghost use Rattle.registrar.specs.inner.Behind.{IsBehind};

use crate::settled::Settled;
use crate::{Register, Scratch};
use act_model::Journal;
use gb_base::NoMemory;
use std::alloc::Global;

/// The register that one registrar leaves who takes the items of a journal in the order of their
/// receipts, and what becomes of each item. It has parts at the keys of the journal's items and at
/// no other, and can go on with what the journal receives later (`Register::settle_next`).
pub fn alone(alloc: Global, journal: &Journal) -> Result<Register, NoMemory>
    ensures settled { IfOk result (HasSettled journal.now.receipts) }
    ensures whole { IfOk result (IsRegisterOf journal.now.receipts) }
    ensures entries { IfOk result (λ register. entries_at register.parts ≡ at (registrar journal.now.receipts).entries) }
    ensures verdicts { IfOk result (λ register. register.verdicts ≡ (registrar journal.now.receipts).verdicts) }
    ensures folios { IfOk result (λ register. register.folios ≡ open_folios (registrar journal.now.receipts).entries) }
    ensures held { IfOk result (λ register. (k : Key) → is_held register.parts k ≡ is_given (keys_of_first journal.now.receipts (length journal.now.receipts)) k) }
    ensures kept { IfOk result (λ register. Kept journal.now.receipts (entries_at register.parts)) }
    ensures awards { IfOk result (λ register. AwardsKept journal.now.receipts (entries_at register.parts)) }
{
    let mut settled = settle_all(alloc, journal)?;
    settled.put_folios_in_order();
    Ok(Register::new(settled))
}

/// Settles all items of a journal. Its list of open folios is in any order.
fn settle_all(alloc: Global, journal: &Journal) -> Result<Settled, NoMemory>
    ensures behind { IfOk result (IsBehind journal.now.receipts) }
    ensures all { IfOk result (λ settled. length settled.verdicts.items ≡ length journal.now.receipts) }
{
    let mut scratch = Scratch::with_room(alloc, 0, 0)?;
    let mut settled = Settled::new(alloc)?;
    while settled.verdicts.len() < journal.len() as usize {
        settled.settle_next(&mut scratch, journal)?;
    }
    Ok(settled)
}
