//! The commands that receive what the input has into the journal of the disk.
ghost use Rattle.std.specs.Prelude.{◌≡◌, ◌⊎◌, ◌≤◌, ◌+◌, ◌++◌, ℕ, List, [], Some, true, false, length, take, IsTrue, IfSome};
ghost use Rattle.std.specs.Io.KnownBytes.{Appends};
ghost use Rattle.gb_base.specs.DayMinute.{DayMinute};
ghost use Rattle.gb_outside.specs.Bytes.{AppendsFront};
ghost use Rattle.gb_outside.specs.Faults.{Counts};
ghost use Rattle.journal_disk.specs.Opening.{IsKept, AnswersSynced};
ghost use Rattle.receipt_journal.specs.Standing.{StandsForJournal};
ghost use Rattle.registry_office.specs.Disks.{FindsBy, IsJournalFile, KeepsGrown, LeavesMade, WritesBehind};
ghost use Rattle.intake.specs.Grown.{GrownFrom, IsDurable};
ghost use Rattle.intake.specs.Intakes.{whole_of, cut_of};
ghost use Rattle.registry_office.specs.Receivings.{AllTell, EndsEarlyOnDisk, HasWritten, SessionReceives};
ghost use Rattle.intake.specs.Requests.{OnDisk, Held, holding, replies, held_after};
ghost use Rattle.intake.specs.Sessions.{most_input, Took};
ghost use Rattle.registry_office.specs.Statuses.{read_fault, write_fault, disk_fault, door_fault, is_no_journal, is_of_session};
ghost use Rattle.registry_office.specs.Tasks.{receiving, Told};
ghost use Rattle.intake_requests.specs.declared.requests.Request.{Request};

use crate::statuses::{Status, status_of_opening};
use crate::taking::{take, take_list};
use gb_outside::{Clock, Disk, Sink, Source};
use intake::Intake;
use receipt_journal::Book;

/// Receives what the input has into the journal of a book.
fn receive<R: AllocGlobal, S: Source, K: Sink, D: Disk, C: Clock>(
    rt: &R,
    intake: Intake,
    source: &mut S,
    sink: &mut K,
    book: &mut Book,
    disk: &mut D,
    clock: &mut C,
) -> Status
    requires works { book.old.log.failed ≡ false }
    requires stands { IsTrue D.tells → IsDurable book.old (D.reads disk.old) (D.images disk.old) }
    ensures session { (ticks : List DayMinute) (input : List ℕ) → AllTell D.tells (C.ticks clock.old) (S.left source.old) ticks input
        → SessionReceives (whole_of intake) (cut_of intake) (holding book.old.journal ticks) input (S.left source.old) (S.left source.new) (C.ticks clock.new) (K.written sink.old) (K.written sink.new) book.new.journal D.reads D.images D.moment D.since disk.old disk.new result }
    ensures stands { IsTrue D.tells → disk_fault result ≡ false → IsDurable book.new (D.reads disk.new) (D.images disk.new) }
    ensures at_end { result ≡ Status.Ok → IfSome (S.left source.old) (λ _. S.left source.new ≡ Some []) }
    ensures short { (result ≡ Status.InputTooLong → ⊥) → Took (S.left source.old) (S.left source.new) (λ read. length read ≤ most_input) }
    ensures long { result ≡ Status.InputTooLong → Took (S.left source.old) (S.left source.new) (λ read. length read ≡ most_input + 1) }
    ensures read { Counts (S.faults source.old) (S.faults source.new) (read_fault result) }
    ensures write { Counts (K.faults sink.old) (K.faults sink.new) (write_fault result) }
    ensures disk { Counts (D.faults disk.old) (D.faults disk.new) (disk_fault result) }
    ensures others { IsTrue (is_of_session result) }
{
    match intake {
        Intake::Lines => take(rt, source, sink, book, disk, clock),
        Intake::OpeningList { sender } => take_list(rt, sender, source, sink, book, disk, clock),
    }
}

/// Opens the journal of the disk, and receives what the input has into it.
pub(crate) fn receive_disk<R: AllocGlobal, S: Source, K: Sink, D: Disk, C: Clock>(
    rt: &R,
    intake: Intake,
    source: &mut S,
    sink: &mut K,
    disk: &mut D,
    clock: &mut C,
) -> Status
    ensures written { (held : Held) (input : List ℕ) → Told (receiving intake) D.tells (D.reads disk.old) (S.left source.old) (C.ticks clock.old) held input → result ≡ Status.Ok
        → Appends (K.written sink.old) (K.written sink.new) ((receiving intake).outcome held input).written }
    ensures stands_at_end { (held : Held) (input : List ℕ) (file : List ℕ) → Told (receiving intake) D.tells (D.reads disk.old) (S.left source.old) (C.ticks clock.old) held input → result ≡ Status.Ok
        → D.images disk.new file → StandsForJournal file ((receiving intake).outcome held input).journal }
    ensures ticks { (held : Held) (input : List ℕ) → Told (receiving intake) D.tells (D.reads disk.old) (S.left source.old) (C.ticks clock.old) held input → result ≡ Status.Ok
        → C.ticks clock.new ≡ Some ((receiving intake).outcome held input).ticks }
    ensures at_end { result ≡ Status.Ok → IfSome (S.left source.old) (λ _. S.left source.new ≡ Some []) }
    ensures short { (result ≡ Status.InputTooLong → ⊥) → Took (S.left source.old) (S.left source.new) (λ read. length read ≤ most_input) }
    ensures long { result ≡ Status.InputTooLong → Took (S.left source.old) (S.left source.new) (λ read. length read ≡ most_input + 1) }

    // Where it ended early, how far it came.
    ensures part { (held : Held) (input : List ℕ) → Told (receiving intake) D.tells (D.reads disk.old) (S.left source.old) (C.ticks clock.old) held input → (result ≡ Status.Ok → ⊥)
        → AppendsFront (K.written sink.old) (K.written sink.new) ((receiving intake).outcome held input).written }
    ensures early { (held : Held) (input : List ℕ) → Told (receiving intake) D.tells (D.reads disk.old) (S.left source.old) (C.ticks clock.old) held input → (result ≡ Status.Ok → ⊥)
        → Took (S.left source.old) (S.left source.new) (λ read. EndsEarlyOnDisk (whole_of intake) (cut_of intake) held read (S.left source.new) (C.ticks clock.new) (K.written sink.old) (K.written sink.new) D.reads D.images D.moment D.since disk.old disk.new result) }
    ensures cut { (held : Held) (input : List ℕ) → Told (receiving intake) D.tells (D.reads disk.old) (S.left source.old) (C.ticks clock.old) held input
        → (result ≡ Status.ReadFault) ⊎ (result ≡ Status.InputTooLong)
        → Took (S.left source.old) (S.left source.new) (λ read. Appends (K.written sink.old) (K.written sink.new) (replies OnDisk held (cut_of intake (take most_input read)))) }
    ensures cut_journal { (held : Held) (input : List ℕ) (file : List ℕ) → Told (receiving intake) D.tells (D.reads disk.old) (S.left source.old) (C.ticks clock.old) held input
        → (result ≡ Status.ReadFault) ⊎ (result ≡ Status.InputTooLong) → D.images disk.new file
        → Took (S.left source.old) (S.left source.new) (λ read. StandsForJournal file (held_after OnDisk held (cut_of intake (take most_input read))).journal) }
    ensures cut_ticks { (held : Held) (input : List ℕ) → Told (receiving intake) D.tells (D.reads disk.old) (S.left source.old) (C.ticks clock.old) held input
        → (result ≡ Status.ReadFault) ⊎ (result ≡ Status.InputTooLong)
        → Took (S.left source.old) (S.left source.new) (λ read. C.ticks clock.new ≡ Some (held_after OnDisk held (cut_of intake (take most_input read))).ticks) }

    // What a stop leaves, and which bytes are written.
    ensures acknowledged { (held : Held) (input : List ℕ) (front back : List Request) (file : List ℕ)
        → Told (receiving intake) D.tells (D.reads disk.old) (S.left source.old) (C.ticks clock.old) held input → whole_of intake input ≡ front ++ back
        → (replies OnDisk held front ≡ [] → ⊥) → HasWritten (K.written sink.old) (K.written sink.new) (replies OnDisk held front)
        → D.images disk.new file
        → GrownFrom (held_after OnDisk held front).journal ((receiving intake).outcome held input).journal file }
    ensures any_moment { (held : Held) (input : List ℕ) → Told (receiving intake) D.tells (D.reads disk.old) (S.left source.old) (C.ticks clock.old) held input
        → KeepsGrown D.reads D.images D.moment D.since disk.old disk.new (disk_fault result) held.journal ((receiving intake).outcome held input).journal }
    ensures frames { (held : Held) (input : List ℕ) → Told (receiving intake) D.tells (D.reads disk.old) (S.left source.old) (C.ticks clock.old) held input
        → WritesBehind (disk_fault result) held.journal ((receiving intake).outcome held input).journal (D.reads disk.old) (D.reads disk.new) }

    // What the file stood for; where it stood for no journal, nothing else is touched, and it stays.
    ensures found { IsTrue D.tells → FindsBy (D.reads disk.old) result }
    ensures made { IsTrue D.tells → LeavesMade result (D.reads disk.old) (D.reads disk.new) }
    ensures unopened { IsTrue D.tells → (IsJournalFile (D.reads disk.old) → ⊥) → (source.new ≡ source.old) × (sink.new ≡ sink.old) × (clock.new ≡ clock.old) }
    ensures unopened_by { is_no_journal result ≡ true → (source.new ≡ source.old) × (sink.new ≡ sink.old) × (clock.new ≡ clock.old) }
    ensures kept { IsTrue D.tells → (IsJournalFile (D.reads disk.old) → ⊥) → IsKept (D.reads disk.old) (D.reads disk.new) }
    ensures kept_any_moment { IsTrue D.tells → (IsJournalFile (D.reads disk.old) → ⊥)
        → AnswersSynced D.reads D.images D.moment D.since disk.old disk.new (disk_fault result) }

    // Each fault has its cause.
    ensures read { Counts (S.faults source.old) (S.faults source.new) (read_fault result) }
    ensures write { Counts (K.faults sink.old) (K.faults sink.new) (write_fault result) }
    ensures disk { Counts (D.faults disk.old) (D.faults disk.new) (disk_fault result) }
    ensures no_usage { result ≡ Status.Usage → ⊥ }
    ensures no_door { door_fault result ≡ false }
{
    match Book::open(rt.alloc(), disk) {
        Ok(mut book) => receive(rt, intake, source, sink, &mut book, disk, clock),
        Err(fault) => status_of_opening(fault),
    }
}
