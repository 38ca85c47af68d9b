//! Lines, or the rows of a list, are received into the journal of a book.
//! Why so: docs/DECISIONS.md, "`take` may be repeated with its whole input".
//! Why so: docs/DECISIONS.md, "`take` asks that the book is durable".
ghost use Rattle.std.specs.Prelude.{◌≡◌, ◌≤◌, ◌+◌, ℕ, List, [], Some, false, length, IsTrue, IfSome};
ghost use Rattle.gb_base.specs.DayMinute.{DayMinute};
ghost use Rattle.gb_outside.specs.Faults.{Counts};
ghost use Rattle.intake.specs.Grown.{IsDurable};
ghost use Rattle.intake.specs.Intakes.{whole_of, cut_of};
ghost use Rattle.registry_office.specs.Receivings.{AllTell, SessionReceives};
ghost use Rattle.intake.specs.Requests.{holding};
ghost use Rattle.intake.specs.Sessions.{most_input, Took};
ghost use Rattle.registry_office.specs.Statuses.{read_fault, write_fault, disk_fault, is_of_session};
ghost use Rattle.intake.specs.declared.intakes.Intake.TheVariants.{Lines, OpeningList as ListFrom};

use crate::statuses::{Status, status_of};
use gb_outside::{Clock, Disk, Sink, Source};
use intake::{BookOnDisk, LineKind, answer_lines, answer_list};
use receipt_journal::Book;

/// Receives the lines of the input into the journal of a book, with the clock's stamps and a reply
/// line each. It answers `Ok`, `ReadFault`, `WriteFault`, `DiskFault`, `Memory` or `InputTooLong`.
/// A receipt is on the disk before its reply is written. It may run out of memory (`Memory`) for what it
/// reads and receives.
pub fn take<R: AllocGlobal, S: Source, K: Sink, D: Disk, C: Clock>(
    rt: &R,
    source: &mut S,
    sink: &mut K,
    book: &mut Book,
    disk: &mut D,
    clock: &mut C,
) -> Status
    requires works { book.old.log.failed ≡ false }
    requires stands { IsTrue D.tells → IsDurable book.old (D.reads disk.old) (D.images disk.old) }

    // What was received and replied to, where all tell what they hold.
    ensures session { (ticks : List DayMinute) (input : List ℕ) → AllTell D.tells (C.ticks clock.old) (S.left source.old) ticks input
        → SessionReceives (whole_of Lines) (cut_of Lines) (holding book.old.journal ticks) input (S.left source.old) (S.left source.new) (C.ticks clock.new) (K.written sink.old) (K.written sink.new) book.new.journal D.reads D.images D.moment D.since disk.old disk.new result }

    // The book stands on the disk with its journal, unless the disk failed.
    ensures works { book.new.log.failed ≡ disk_fault result }
    ensures stands { IsTrue D.tells → disk_fault result ≡ false → IsDurable book.new (D.reads disk.new) (D.images disk.new) }

    // The input is read to its end, and no more of it than one byte beyond what the office takes.
    ensures at_end { result ≡ Status.Ok → IfSome (S.left source.old) (λ _. S.left source.new ≡ Some []) }
    ensures short { (result ≡ Status.InputTooLong → ⊥) → Took (S.left source.old) (S.left source.new) (λ read. length read ≤ most_input) }
    ensures long { result ≡ Status.InputTooLong → Took (S.left source.old) (S.left source.new) (λ read. length read ≡ most_input + 1) }

    // Each fault has its cause, and a count rises with no other answer.
    ensures read { Counts (S.faults source.old) (S.faults source.new) (read_fault result) }
    ensures write { Counts (K.faults sink.old) (K.faults sink.new) (write_fault result) }
    ensures disk { Counts (D.faults disk.old) (D.faults disk.new) (disk_fault result) }
    ensures others { IsTrue (is_of_session result) }
{
    let mut receiver = BookOnDisk { book, disk, clock };
    status_of(answer_lines(rt.alloc(), LineKind::Unstamped, &mut receiver, source, sink))
}

/// Receives the rows of the opening list that the input is, as `take` does lines.
pub(crate) fn take_list<R: AllocGlobal, S: Source, K: Sink, D: Disk, C: Clock>(
    rt: &R,
    sender: u32,
    source: &mut S,
    sink: &mut K,
    book: &mut Book,
    disk: &mut D,
    clock: &mut C,
) -> Status
    requires works { book.old.log.failed ≡ false }
    requires stands { IsTrue D.tells → IsDurable book.old (D.reads disk.old) (D.images disk.old) }
    ensures session { (ticks : List DayMinute) (input : List ℕ) → AllTell D.tells (C.ticks clock.old) (S.left source.old) ticks input
        → SessionReceives (whole_of (ListFrom sender)) (cut_of (ListFrom sender)) (holding book.old.journal ticks) input (S.left source.old) (S.left source.new) (C.ticks clock.new) (K.written sink.old) (K.written sink.new) book.new.journal D.reads D.images D.moment D.since disk.old disk.new result }
    ensures works { book.new.log.failed ≡ disk_fault result }
    ensures stands { IsTrue D.tells → disk_fault result ≡ false → IsDurable book.new (D.reads disk.new) (D.images disk.new) }
    ensures at_end { result ≡ Status.Ok → IfSome (S.left source.old) (λ _. S.left source.new ≡ Some []) }
    ensures short { (result ≡ Status.InputTooLong → ⊥) → Took (S.left source.old) (S.left source.new) (λ read. length read ≤ most_input) }
    ensures long { result ≡ Status.InputTooLong → Took (S.left source.old) (S.left source.new) (λ read. length read ≡ most_input + 1) }
    ensures read { Counts (S.faults source.old) (S.faults source.new) (read_fault result) }
    ensures write { Counts (K.faults sink.old) (K.faults sink.new) (write_fault result) }
    ensures disk { Counts (D.faults disk.old) (D.faults disk.new) (disk_fault result) }
    ensures others { IsTrue (is_of_session result) }
{
    let mut receiver = BookOnDisk { book, disk, clock };
    status_of(answer_list(rt.alloc(), sender, &mut receiver, source, sink))
}
