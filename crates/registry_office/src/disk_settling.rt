//! The journal of a book is settled, and the command that settles the journal of the disk.
//! Why so: docs/DECISIONS.md, "The office has no rules of its own".
ghost use Rattle.std.specs.Prelude.{◌≡◌, ◌≤◌, ℕ, List, true, false, IsTrue};
ghost use Rattle.std.specs.Io.KnownBytes.{Appends};
ghost use Rattle.gb_outside.specs.Bytes.{AppendsFront};
ghost use Rattle.gb_outside.specs.Faults.{Counts};
ghost use Rattle.act_model.specs.declared.receipts.Receipt.{Receipt};
ghost use Rattle.journal_disk.specs.Opening.{IsKept, AnswersSynced, MakesUnmade};
ghost use Rattle.receipt_journal.specs.Standing.{StandsForJournal};
ghost use Rattle.registry_office.specs.Disks.{FindsBy, IsJournalFile, KeepsGrown, LeavesMade};
ghost use Rattle.registry_office.specs.Outcomes.{report_of};
ghost use Rattle.registry_office.specs.Statuses.{read_fault, write_fault, disk_fault, door_fault, is_no_journal, is_of_writing};

use crate::reporting::write_report;
use crate::statuses::{Status, status_of_opening, status_of_writing};
use act_model::Journal;
use gb_outside::{DeskGate, Disk, Sink};
use receipt_journal::Book;
use std::sync::Wait;
use std::thread::Threads;

/// Settles a journal at so many desks, 1 to 64, and writes the report. It answers `Ok`, `WriteFault`
/// or, where nothing was written, `Memory`. The number of desks never changes what is written.
pub fn settle<R: AllocGlobal + Threads + Wait + Sync, K: Sink, G: DeskGate>(
    rt: &R,
    journal: &Journal,
    sink: &mut K,
    desks: u16,
    gate: &G,
) -> Status
    requires desks { (1 ≤ desks) × (desks ≤ 64) }
    ensures written { result ≡ Status.Ok → Appends (K.written sink.old) (K.written sink.new) (report_of journal.now.receipts) }
    ensures part { AppendsFront (K.written sink.old) (K.written sink.new) (report_of journal.now.receipts) }
    ensures unwritten { (result ≡ Status.Ok → ⊥) → write_fault result ≡ false → K.written sink.new ≡ K.written sink.old }
    ensures write { Counts (K.faults sink.old) (K.faults sink.new) (write_fault result) }
    ensures others { IsTrue (is_of_writing result) }
{
    status_of_writing(write_report(rt, journal, sink, desks, gate))
}

/// Opens the journal of the disk and settles it.
pub(crate) fn settle_disk<R: AllocGlobal + Threads + Wait + Sync, D: Disk, K: Sink, G: DeskGate>(
    rt: &R,
    disk: &mut D,
    sink: &mut K,
    desks: u16,
    gate: &G,
) -> Status
    requires desks { (1 ≤ desks) × (desks ≤ 64) }
    ensures written { IsTrue D.tells → (journal : List Receipt) → StandsForJournal (D.reads disk.old) journal → result ≡ Status.Ok
        → Appends (K.written sink.old) (K.written sink.new) (report_of journal) }
    ensures part { IsTrue D.tells → (journal : List Receipt) → StandsForJournal (D.reads disk.old) journal
        → AppendsFront (K.written sink.old) (K.written sink.new) (report_of journal) }
    ensures unwritten { (result ≡ Status.Ok → ⊥) → write_fault result ≡ false → K.written sink.new ≡ K.written sink.old }
    ensures stands_at_end { IsTrue D.tells → (journal : List Receipt) (file : List ℕ) → StandsForJournal (D.reads disk.old) journal → result ≡ Status.Ok
        → D.images disk.new file → StandsForJournal file journal }

    // Of the file nothing changes, but that an unmade one is made.
    ensures found { IsTrue D.tells → FindsBy (D.reads disk.old) result }
    ensures made { IsTrue D.tells → LeavesMade result (D.reads disk.old) (D.reads disk.new) }
    ensures made_so { IsTrue D.tells → MakesUnmade (disk_fault result) (D.reads disk.old) (D.reads disk.new) }
    ensures kept { IsTrue D.tells → IsKept (D.reads disk.old) (D.reads disk.new) }
    ensures kept_any_moment { IsTrue D.tells → AnswersSynced D.reads D.images D.moment D.since disk.old disk.new (disk_fault result) }
    ensures grown { IsTrue D.tells → (journal : List Receipt) → StandsForJournal (D.reads disk.old) journal
        → KeepsGrown D.reads D.images D.moment D.since disk.old disk.new (disk_fault result) journal journal }
    ensures unopened { IsTrue D.tells → (IsJournalFile (D.reads disk.old) → ⊥) → sink.new ≡ sink.old }
    ensures unopened_by { is_no_journal result ≡ true → sink.new ≡ sink.old }

    // Each fault has its cause.
    ensures write { Counts (K.faults sink.old) (K.faults sink.new) (write_fault result) }
    ensures disk { Counts (D.faults disk.old) (D.faults disk.new) (disk_fault result) }
    ensures no_usage { result ≡ Status.Usage → ⊥ }
    ensures no_input { (read_fault result ≡ false) × (result ≡ Status.InputTooLong → ⊥) }
    ensures no_door { door_fault result ≡ false }
{
    match Book::open(rt.alloc(), disk) {
        Ok(book) => settle(rt, book.journal(), sink, desks, gate),
        Err(fault) => status_of_opening(fault),
    }
}
