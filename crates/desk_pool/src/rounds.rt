//! A round: a journal whose items are settled, by desks in threads or by one registrar.
//! Why so: docs/DECISIONS.md, "Folios carry marks behind their locks".
ghost use Rattle.std.specs.Prelude.{◌≡◌, ◌↔◌, ◌≤◌, false, All, IfOk, IfSome, IsSome, length};
ghost use Rattle.gb_base.specs.declared.keys.Key.{Key};
ghost use Rattle.conflict_queue.specs.Schedules.{IsPermitted};
ghost use Rattle.folio_sections.specs.Entries.{at};
ghost use Rattle.folio_sections.specs.Held.{entries_at, is_given, is_held};
ghost use Rattle.kept_registers.specs.Kept.{Kept};
ghost use Rattle.registrar.specs.HasSettled.{HasSettled, IsRegisterOf};
ghost use Rattle.registrar.specs.HeldKeys.{keys_of_first};
ghost use Rattle.registrar.specs.KeptAwards.{AwardsKept};
ghost use Rattle.registrar.specs.OpenFolios.{open_folios};
ghost use Rattle.registrar.specs.Settling.{registrar};

use crate::counted::{count, list_receipts};
use crate::finishing::{finish, settle_in_row};
use crate::orders::is_permitted;
use crate::preparing::prepare_frame;
use crate::ready_desks::{ReadyDesks, desks_wanted};
use crate::register_frames::RegisterFrame;
use act_model::{Journal, JournalName};
use conflict_queue::laws::receipts_in_turn;
use gb_base::{NoMemory, ReceiptNo};
use gb_outside::DeskGate;
use registrar::Register;
use std::alloc::Global;
use std::marker::Model;
use std::sync::Wait;
use std::thread::Threads;

/// How many desks there are at most.
const MOST_DESKS: usize = 64;

/// All that the items of the named journal are settled in. From here on settling takes no memory and
/// cannot fail. In contracts it is the numbers of the journal's receipts.
#[derive(Drop)]
pub struct Round<'a, N: JournalName> {
    pub(crate) journal: &'a Journal,
    /// 64 desks.
    pub(crate) ready: ReadyDesks<N>,
    /// What the parts of all folios are put together in.
    pub(crate) frame: RegisterFrame,
    /// The items in the order of their receipts.
    pub(crate) receipts: Vec<ReceiptNo>,
    /// For each item, whether it stood in the order that is looked through.
    pub(crate) passed: Vec<bool>,
}

impl<'a, N: JournalName> Model for Round<'a, N> {
    ghost use Rattle.std.specs.Prelude.{List, ℕ, length};
    ghost use Rattle.desk_pool.specs.Rounds.{IsRound};

    ghost Value = { List ℕ };

    ghost view = { λ a. a.receipts.items };

    ghost invariant = { λ a. IsRound N.receipts a.journal.now.receipts a.frame (length a.ready.seats.items) a.receipts.items a.passed.items };
}

impl<'a, N: JournalName> Round<'a, N> {
    /// All that the items of the journal are settled in. May run out of memory (NoMemory).
    pub fn prepare(alloc: Global, journal: &'a Journal) -> Result<Round<'a, N>, NoMemory>
        requires { journal.now.receipts ≡ N.receipts }
    {
        let counted = count(alloc, journal)?;
        let receipts = list_receipts(alloc, journal)?;
        let frame = prepare_frame(alloc, journal, &counted.rooms)?;
        let ready = ReadyDesks::prepare(alloc, journal, counted, receipts.as_slice(), MOST_DESKS)?;
        Ok(Round {
            journal,
            ready,
            frame,
            passed: list_unpassed(alloc, receipts.len())?,
            receipts,
        })
    }

    /// Settles the journal in the order of its receipts.
    pub fn alone(self) -> Register
        ensures settled { HasSettled N.receipts result }
        ensures whole { IsRegisterOf N.receipts result }
        ensures entries { entries_at result.parts ≡ at (registrar N.receipts).entries }
        ensures verdicts { result.verdicts ≡ (registrar N.receipts).verdicts }
        ensures folios { result.folios ≡ open_folios (registrar N.receipts).entries }
        ensures held { (k : Key) → is_held result.parts k ≡ is_given (keys_of_first N.receipts (length N.receipts)) k }
        ensures kept { Kept N.receipts (entries_at result.parts) }
        ensures awards { AwardsKept N.receipts (entries_at result.parts) }
    {
        receipts_in_turn();
        let Round {
            journal,
            ready,
            frame,
            receipts,
            ..
        } = self;
        settle_in_row(journal, frame, ready.row, receipts.as_slice())
    }

    /// Settles the journal in a given order, without threads and without memory; None exactly where the
    /// order is not permitted (GBO § 17).
    pub fn in_order(self, order: &[ReceiptNo]) -> Option<Register>
        ensures permitted { IsSome result ↔ IsPermitted N.receipts order.now }
        ensures settled { IfSome result (HasSettled N.receipts) }
        ensures whole { IfSome result (IsRegisterOf N.receipts) }
        ensures entries { IfSome result (λ register. entries_at register.parts ≡ at (registrar N.receipts).entries) }
        ensures verdicts { IfSome result (λ register. register.verdicts ≡ (registrar N.receipts).verdicts) }
        ensures folios { IfSome result (λ register. register.folios ≡ open_folios (registrar N.receipts).entries) }
        ensures held { IfSome result (λ register. (k : Key) → is_held register.parts k ≡ is_given (keys_of_first N.receipts (length N.receipts)) k) }
        ensures kept { IfSome result (λ register. Kept N.receipts (entries_at register.parts)) }
        ensures awards { IfSome result (λ register. AwardsKept N.receipts (entries_at register.parts)) }
    {
        let Round {
            journal,
            ready,
            frame,
            mut passed,
            ..
        } = self;
        if !is_permitted(&ready.docket, order, passed.as_mut_slice()) {
            return None;
        }
        Some(settle_in_row(journal, frame, ready.row, order))
    }
}

impl<'a, N: JournalName + Send + Sync> Round<'a, N> {
    /// Settles the journal at so many desks, 1 to 64, each in a thread of its own where one can be
    /// had; more desks than folios would have nothing to do, so they do not begin. `gate` is called
    /// with each item while its folios are locked. Whatever the desks do, the register is that of
    /// one registrar (GBO § 17): where they leave something undone, the whole journal is settled
    /// again, and then no gate is called.
    pub fn run<R: Threads + Wait + Sync, G: DeskGate>(
        self,
        rt: &R,
        desks: u16,
        gate: &G,
    ) -> Register
        requires desks { (1 ≤ desks) × (desks ≤ 64) }
        ensures settled { HasSettled N.receipts result }
        ensures whole { IsRegisterOf N.receipts result }
        ensures entries { entries_at result.parts ≡ at (registrar N.receipts).entries }
        ensures verdicts { result.verdicts ≡ (registrar N.receipts).verdicts }
        ensures folios { result.folios ≡ open_folios (registrar N.receipts).entries }
        ensures held { (k : Key) → is_held result.parts k ≡ is_given (keys_of_first N.receipts (length N.receipts)) k }
        ensures kept { Kept N.receipts (entries_at result.parts) }
        ensures awards { AwardsKept N.receipts (entries_at result.parts) }
    {
        let Round {
            journal,
            ready,
            frame,
            receipts,
            ..
        } = self;
        let wanted = desks_wanted(desks, ready.row.queues.len());
        let worked = ready.work(rt, journal, wanted, gate);
        finish(journal, frame, worked, receipts.as_slice())
    }
}

/// A mark for each of so many items: none was seen in an order yet.
fn list_unpassed(alloc: Global, count: usize) -> Result<Vec<bool>, NoMemory>
    ensures none { IfOk result (λ passed. All (λ b. b ≡ false) passed.items) }
    ensures count { IfOk result (λ passed. length passed.items ≡ count) }
{
    vec![in alloc; false; count]
}
