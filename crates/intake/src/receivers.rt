//! What receives items: a journal in memory, whose items come with their stamps, or a book with
//! its disk and its clock.
//! Why so: docs/DECISIONS.md, "What receives has its disk and its clock, as one value".
ghost use Rattle.std.specs.Prelude.{◌≡◌, false, Some, None, IsTrue};
ghost use Rattle.gb_base.specs.DayMinute.{DayMinute};
ghost use Rattle.gb_outside.specs.Ticks.{Ticks};
ghost use Rattle.act_model.specs.WellFormed.{well_formed};
ghost use Rattle.receipt_journal.specs.Receiving.{journal_after, receiving_disk_failed, Answers};
ghost use Rattle.intake.specs.Requests.{InMemory, received};

use act_model::{Added, Item, Journal};
use gb_base::Stamp;
use gb_outside::{Clock, Disk};
use intake_requests::SenderReference;
use receipt_journal::{Book, Received};
use std::alloc::Global;

/// Receives items, each under its sender and reference once. What it keeps them in, and what stamps
/// them, is its own.
pub trait Receiver {
    ghost use Rattle.std.specs.Prelude.{◌≡◌, ℕ, Bool, true, false, List, Option, Some, IsTrue};
    ghost use Rattle.gb_base.specs.DayMinute.{DayMinute};
    ghost use Rattle.gb_outside.specs.Faults.{Counts};
    ghost use Rattle.act_model.specs.WellFormed.{well_formed};
    ghost use Rattle.receipt_journal.specs.Receiving.{receiving_disk_failed};
    ghost use Rattle.intake.specs.Receivers.{Shows, TakesItem};
    ghost use Rattle.intake.specs.Requests.{Medium, Held, reply_of};
    ghost use Rattle.intake_requests.specs.Asking.{has_no_stamp};
    ghost use Rattle.intake_requests.specs.declared.requests.Request.TheVariants.{Receive};

    /// Where the receipts are.
    ghost medium: { Medium };

    /// Whether it has a clock, which stamps the items that have no stamp of their own.
    ghost has_clock: { Bool };

    /// What it was lent, by name; this never changes.
    ghost lent: { Self → List ℕ };

    /// What it holds; None where its disk or its clock does not tell.
    ghost holds: { Self → Option Held };

    /// The stamps that its clock will still give, where the clock tells.
    ghost ticks: { Self → Option (List DayMinute) };

    /// Whether its disk has failed it.
    ghost failed: { Self → Bool };

    /// It works, and what it holds stands on its disk.
    ghost ready: { Self → Type 0 };

    /// What a read of its disk gives.
    ghost reads: { Self → List ℕ };

    /// What a stop leaves of its disk.
    ghost images: { Self → List ℕ → Type 0 };

    /// The moment of its disk.
    ghost moment: { Self → ℕ };

    /// What a stop since a moment left of its disk.
    ghost since: { Self → ℕ → List ℕ → Type 0 };

    /// The faults of its disk.
    ghost faults: { Self → ℕ };

    /// Receives an item, with its own stamp or else that of the clock. Memory may run out only where
    /// the item would be accepted, and what is held then stays.
    fn receive(
        &mut self,
        alloc: Global,
        stamp: Option<Stamp>,
        from: SenderReference,
        item: &Item,
    ) -> Received
        requires item { IsTrue (well_formed item.now) }
        requires stamp { has_clock ≡ false → has_no_stamp stamp ≡ false }
        requires ready { ready self.old }
        ensures takes { (held : Held) → holds self.old ≡ Some held
            → TakesItem reads images moment since self.old self.new held (reply_of medium held (Receive stamp from item.now)) result (holds self.new) (ticks self.new) }
        ensures opened { result ≡ Received.MustReopen → ⊥ }
        ensures works { receiving_disk_failed result ≡ true → failed self.new ≡ true }
        ensures ready { receiving_disk_failed result ≡ false → ready self.new }
        ensures lent { lent self.new ≡ lent self.old }
        ensures cause { Counts (faults self.old) (faults self.new) (receiving_disk_failed result) };

    /// A receiver that is ready shows what it holds, on its clock and in each image of its disk.
    ghost shows: { (receiver : Self) (held : Held) → ready receiver → holds receiver ≡ Some held
        → Shows (ticks receiver) (images receiver) (since receiver (moment receiver)) held };
}

impl Receiver for Journal {
    ghost use Rattle.std.specs.Prelude.{false, [], Some};
    ghost use Rattle.intake.specs.Requests.{InMemory, holding};
    ghost use Rattle.intake.specs.inner.Shown.{memory_shows};

    ghost medium = { InMemory };

    ghost has_clock = { false };

    ghost lent = { λ s. [] };

    ghost holds = { λ s. Some (holding s.receipts []) };

    ghost ticks = { λ s. Some [] };

    ghost failed = { λ s. false };

    ghost ready = { λ s. Unit {0} };

    ghost reads = { λ s. [] };

    ghost images = { λ s file. ⊥ };

    ghost moment = { λ s. 0 };

    ghost since = { λ s moment file. ⊥ };

    ghost faults = { λ s. 0 };

    ghost shows = { λ s held ready is. memory_shows s.receipts held is };

    fn receive(
        &mut self,
        _alloc: Global,
        stamp: Option<Stamp>,
        from: SenderReference,
        item: &Item,
    ) -> Received {
        let Some(stamp) = stamp else {
            unreachable!();
        };
        add_stamped(self, stamp, from, item)
    }
}

/// Receives an item with its stamp into a journal in memory.
fn add_stamped(journal: &mut Journal, stamp: Stamp, from: SenderReference, item: &Item) -> Received
    requires { IsTrue (well_formed item.now) }
    ensures answer { Answers (received InMemory journal.old.receipts stamp from.sender from.reference item.now) result }
    ensures journal { journal.new.receipts ≡ journal_after journal.old.receipts stamp from.sender from.reference item.now result }
    ensures no_disk { receiving_disk_failed result ≡ false }
    ensures opened { result ≡ Received.MustReopen → ⊥ }
{
    match journal.add(stamp, from.sender, from.reference, item) {
        Added::Accepted(n) => Received::Accepted(n),
        Added::Repeated(n) => Received::Repeated(n),
        Added::Differs(n) => Received::Differs(n),
        Added::Full => Received::Full,
        Added::Memory => Received::Memory,
    }
}

/// A book, the disk that it stands on and the clock that stamps what it receives.
#[derive(Drop)]
pub struct BookOnDisk<'a, D, C> {
    pub book: &'a mut Book,
    pub disk: &'a mut D,
    pub clock: &'a mut C,
}

impl<'a, D: Disk, C: Clock> Receiver for BookOnDisk<'a, D, C> {
    ghost use Rattle.std.specs.Prelude.{true, [], ◌∷◌};
    ghost use Rattle.intake.specs.Receivers.{held_by, IsReady};
    ghost use Rattle.intake.specs.Requests.{OnDisk};
    ghost use Rattle.intake.specs.inner.Shown.{book_shows};

    ghost medium = { OnDisk };

    ghost has_clock = { true };

    ghost lent = { λ s. s.book.ghost_name ∷ s.disk.ghost_name ∷ s.clock.ghost_name ∷ [] };

    ghost holds = { λ s. held_by D.tells (C.ticks s.clock.now) s.book.now.journal };

    ghost ticks = { λ s. C.ticks s.clock.now };

    ghost failed = { λ s. s.book.now.log.failed };

    ghost ready = { λ s. IsReady D.tells s.book.now (D.reads s.disk.now) (D.images s.disk.now) };

    ghost reads = { λ s. D.reads s.disk.now };

    ghost images = { λ s. D.images s.disk.now };

    ghost moment = { λ s. D.moment s.disk.now };

    ghost since = { λ s. D.since s.disk.now };

    ghost faults = { λ s. D.faults s.disk.now };

    ghost shows = { λ s held ready is. book_shows D.tells (C.ticks s.clock.now) s.book.now (D.reads s.disk.now) (D.images s.disk.now)
        (D.since s.disk.now (D.moment s.disk.now)) held (λ file tells left. D.only_now s.disk.now file tells left) ready is };

    fn receive(
        &mut self,
        alloc: Global,
        stamp: Option<Stamp>,
        from: SenderReference,
        item: &Item,
    ) -> Received {
        let stamp = stamp_for(self.clock, stamp);
        self.book
            .receive(alloc, self.disk, stamp, from.sender, from.reference, item)
    }
}

/// The stamp of an item: its own, or the clock's where it has none.
fn stamp_for<C: Clock>(clock: &mut C, own: Option<Stamp>) -> Stamp
    ensures own { (stamp : DayMinute) → own ≡ Some stamp → (result ≡ stamp) × (clock.new ≡ clock.old) }
    ensures ticks { own ≡ None → Ticks (C.ticks clock.old) (C.ticks clock.new) result }
{
    match own {
        Some(stamp) => stamp,
        None => clock.now(),
    }
}
