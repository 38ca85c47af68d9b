//! An item is received, with the stamp of the clock.
ghost use Rattle.std.specs.Prelude.{◌≡◌, false, Some, IsTrue};
ghost use Rattle.gb_base.specs.DayMinute.{DayMinute};
ghost use Rattle.gb_outside.specs.Faults.{Counts};
ghost use Rattle.gb_outside.specs.Ticks.{Ticks};
ghost use Rattle.act_model.specs.WellFormed.{well_formed};
ghost use Rattle.journal_disk.specs.Layout.{the_heading, IsMade};
ghost use Rattle.receipt_journal.specs.Receiving.{is_received, receiving_disk_failed};
ghost use Rattle.receipt_journal.specs.Standing.{Stands};
ghost use Rattle.intake.specs.Requests.{Held};
ghost use Rattle.connections.specs.Holding.{IsOpenOn};
ghost use Rattle.connections.specs.inner.Taking.{Receives};

use act_model::Item;
use gb_outside::{Clock, Disk};
use intake_requests::SenderReference;
use receipt_journal::Received;
use settled_book::SettledBook;
use std::alloc::Global;

/// Receives an item into a book that works. The clock is asked once, just before.
pub(crate) fn receive<D: Disk, C: Clock>(
    book: &mut SettledBook,
    alloc: Global,
    disk: &mut D,
    clock: &mut C,
    from: SenderReference,
    item: &Item,
) -> Received
    requires item { IsTrue (well_formed item.now) }
    requires works { book.old.book.log.failed ≡ false }
    requires stands { IsTrue D.tells → Stands book.old.book (D.reads disk.old) (D.images disk.old) }
    ensures receives { IsTrue D.tells → (held : Held) → C.ticks clock.old ≡ Some held.ticks → IsOpenOn book.old (D.reads disk.old) (D.images disk.old) held.journal
        → Receives D.reads D.images D.moment D.since disk.old disk.new held from item.now result book.new (C.ticks clock.new) }
    ensures opened { result ≡ Received.MustReopen → ⊥ }
    ensures failed { book.new.book.log.failed ≡ receiving_disk_failed result }
    ensures stands { IsTrue D.tells → receiving_disk_failed result ≡ false → Stands book.new.book (D.reads disk.new) (D.images disk.new) }
    ensures register { book.new.register ≡ book.old.register }
    ensures asked { (stamp : DayMinute) × Ticks (C.ticks clock.old) (C.ticks clock.new) stamp }
    ensures untouched { is_received result ≡ false → receiving_disk_failed result ≡ false → disk.new ≡ disk.old }
    ensures made { IsTrue D.tells → IsMade the_heading (D.reads disk.old) → IsMade the_heading (D.reads disk.new) }
    ensures cause { Counts (D.faults disk.old) (D.faults disk.new) (receiving_disk_failed result) }
{
    let stamp = clock.now();
    book.receive(alloc, disk, stamp, from.sender, from.reference, item)
}
