//! The top call: the words, and the objects that stand outside.
//! Why so: docs/DECISIONS.md, "That an acknowledged receipt stays is said by requests".
//! Why so: docs/DECISIONS.md, "Memory runs out at the words, or after the first sync".
//! Why so: docs/DECISIONS.md, "That a reply goes out before the next read is said by two clauses".
ghost use Rattle.std.specs.Prelude.{◌≡◌, ◌⊎◌, ◌≤◌, ◌+◌, ◌++◌, ℕ, [], Some, None, IfSome, IsSome, IsTrue, List, length, take, true, false};
ghost use Rattle.std.specs.List.{AllZip};
ghost use Rattle.std.specs.Rc.{rc_str_bytes};
ghost use Rattle.std.specs.Io.KnownBytes.{Appends, IsAtEnd};
ghost use Rattle.gb_outside.specs.Bytes.{AppendsFront};
ghost use Rattle.gb_outside.specs.Faults.{Counts, Rose};
ghost use Rattle.journal_disk.specs.Opening.{IsKept, AnswersSynced, MakesUnmade};
ghost use Rattle.receipt_journal.specs.Standing.{StandsForJournal};
ghost use Rattle.registry_office.specs.Disks.{FindsBy, IsJournalFile, KeepsGrown, LeavesMade, WritesBehind};
ghost use Rattle.intake.specs.Grown.{GrownFrom};
ghost use Rattle.connections.specs.Doors.{AskSo, LinkRequests};
ghost use Rattle.command_words.specs.Words.{commanded};
ghost use Rattle.intake.specs.Requests.{Held, OnDisk, replies, held_after};
ghost use Rattle.intake.specs.Sessions.{most_input, Took};
ghost use Rattle.registry_office.specs.Receivings.{EndsEarlyOnDisk, HasWritten};
ghost use Rattle.registry_office.specs.Servings.{IsHeld, ServesInTurn, ServesOffice};
ghost use Rattle.registry_office.specs.Statuses.{read_fault, write_fault, disk_fault, door_fault, is_no_journal};
ghost use Rattle.registry_office.specs.Tasks.{task_by, RunBegins};
ghost use Rattle.registry_office.specs.Unread.{IsUnread};
ghost use Rattle.intake_requests.specs.declared.requests.Request.{Request};

use crate::disk_settling::settle_disk;
use crate::line_settling::settle_lines;
use crate::receiving::receive_disk;
use crate::sampling::settle_sample;
use crate::serving::serve;
use crate::statuses::{Status, status_of};
use command_words::{Command, WordsFault, read_words};
use gb_outside::{Clock, DeskGate, Disk, Listener, Sink, Source};
use std::rc::RcStr;
use std::sync::Wait;
use std::thread::Threads;

/// The office: does what the words say, over the objects that are handed in.
///
/// `ReadFault`, `WriteFault`, `DiskFault` and `DoorFault` blame one object, whose count of faults
/// rose in this call; `InputTooLong` says that more bytes came than the office takes, and
/// `NotJournal` and `BadRecord` what the disk's file stood for. It may run out of memory (`Memory`)
/// at any point. The number of desks never changes what is written.
///
/// ```
/// // The words are "settle", "--desks", "2", "--lines".
/// match run(rt, &words, &mut source, &mut sink, &mut disk, &mut clock, &mut door, &gate) {
///     // The sink has a reply for each line of the source, and then the report.
///     Status::Ok => {}
///     // It has the replies to the lines that were read whole.
///     Status::ReadFault => {}
///     status => panic!("{status:?}"),
/// }
/// ```
pub fn run<
    R: AllocGlobal + Threads + Wait + Sync,
    S: Source,
    K: Sink,
    D: Disk,
    C: Clock,
    L: Listener,
    G: DeskGate,
>(
    rt: &R,
    words: &[RcStr],
    source: &mut S,
    sink: &mut K,
    disk: &mut D,
    clock: &mut C,
    door: &mut L,
    gate: &G,
) -> Status
    ensures usage { result ≡ Status.Usage → commanded rc_str_bytes words.now ≡ None }
    ensures no_command { commanded rc_str_bytes words.now ≡ None → (result ≡ Status.Usage) ⊎ (result ≡ Status.Memory) }

    // All was read, and all was written.
    ensures written { let task = task_by rc_str_bytes words.now in
        (begun : RunBegins task D.tells (D.reads disk.old) (S.left source.old) (C.ticks clock.old))
        → result ≡ Status.Ok
        → Appends (K.written sink.old) (K.written sink.new) (task.outcome begun.held begun.input).written }
    ensures at_end { let task = task_by rc_str_bytes words.now in
        task.uses_input ≡ true → result ≡ Status.Ok
        → IfSome (S.left source.old) (λ _. S.left source.new ≡ Some []) }
    ensures ticks { let task = task_by rc_str_bytes words.now in
        (begun : RunBegins task D.tells (D.reads disk.old) (S.left source.old) (C.ticks clock.old))
        → task.receives ≡ true → result ≡ Status.Ok
        → C.ticks clock.new ≡ Some (task.outcome begun.held begun.input).ticks }
    ensures stands_at_end { let task = task_by rc_str_bytes words.now in
        (begun : RunBegins task D.tells (D.reads disk.old) (S.left source.old) (C.ticks clock.old)) (file : List ℕ)
        → task.uses_disk ≡ true → task.serves ≡ None → result ≡ Status.Ok → D.images disk.new file
        → StandsForJournal file (task.outcome begun.held begun.input).journal }

    // No more than 64 MiB are taken, unless the status says so.
    ensures short { (result ≡ Status.InputTooLong → ⊥) → Took (S.left source.old) (S.left source.new) (λ read. length read ≤ most_input) }
    ensures long { result ≡ Status.InputTooLong → Took (S.left source.old) (S.left source.new) (λ read. length read ≡ most_input + 1) }

    // On every other status a front of it was written; of the replies alone, and nothing of the report
    // or the summary, unless the sink failed. While the source is not at its end, that is a front of
    // the replies to the lines that an LF ends in what was read, of which the first 64 MiB count; all
    // of these replies, and their receipts, where the source failed or gave too much.
    ensures part { let task = task_by rc_str_bytes words.now in
        (begun : RunBegins task D.tells (D.reads disk.old) (S.left source.old) (C.ticks clock.old))
        → (result ≡ Status.Ok → ⊥)
        → AppendsFront (K.written sink.old) (K.written sink.new) (task.outcome begun.held begun.input).written }
    ensures read_part { let task = task_by rc_str_bytes words.now in
        (begun : RunBegins task D.tells (D.reads disk.old) (S.left source.old) (C.ticks clock.old))
        → task.uses_input ≡ true → (result ≡ Status.Ok → ⊥) → (IsAtEnd (S.left source.new) → ⊥)
        → Took (S.left source.old) (S.left source.new) (λ read. AppendsFront (K.written sink.old) (K.written sink.new)
        (task.replies begun.held (task.cut_requests (take most_input read)))) }
    ensures replies_alone { let task = task_by rc_str_bytes words.now in
        (begun : RunBegins task D.tells (D.reads disk.old) (S.left source.old) (C.ticks clock.old))
        → (result ≡ Status.Ok → ⊥) → write_fault result ≡ false
        → AppendsFront (K.written sink.old) (K.written sink.new) (task.replies begun.held (task.requests begun.input)) }
    ensures cut { let task = task_by rc_str_bytes words.now in
        (begun : RunBegins task D.tells (D.reads disk.old) (S.left source.old) (C.ticks clock.old))
        → (result ≡ Status.ReadFault) ⊎ (result ≡ Status.InputTooLong)
        → Took (S.left source.old) (S.left source.new) (λ read. Appends (K.written sink.old) (K.written sink.new)
        (task.replies begun.held (task.cut_requests (take most_input read)))) }
    ensures cut_journal { let task = task_by rc_str_bytes words.now in
        (begun : RunBegins task D.tells (D.reads disk.old) (S.left source.old) (C.ticks clock.old)) (file : List ℕ)
        → task.receives ≡ true → (result ≡ Status.ReadFault) ⊎ (result ≡ Status.InputTooLong) → D.images disk.new file
        → Took (S.left source.old) (S.left source.new) (λ read. StandsForJournal file (held_after OnDisk begun.held (task.cut_requests (take most_input read))).journal) }
    ensures cut_ticks { let task = task_by rc_str_bytes words.now in
        (begun : RunBegins task D.tells (D.reads disk.old) (S.left source.old) (C.ticks clock.old))
        → task.receives ≡ true → (result ≡ Status.ReadFault) ⊎ (result ≡ Status.InputTooLong)
        → Took (S.left source.old) (S.left source.new) (λ read. C.ticks clock.new ≡ Some (held_after OnDisk begun.held (task.cut_requests (take most_input read))).ticks) }

    // Where a command that receives ends early, the first requests of what was read are replied to
    // whole; at most one more was begun, the clock was asked for no other, and no other receipt came
    // to the disk at any moment.
    ensures early { let task = task_by rc_str_bytes words.now in
        (begun : RunBegins task D.tells (D.reads disk.old) (S.left source.old) (C.ticks clock.old))
        → task.receives ≡ true → (result ≡ Status.Ok → ⊥)
        → IsUnread source.old source.new sink.old sink.new disk.old disk.new clock.old clock.new door.old door.new result
        ⊎ Took (S.left source.old) (S.left source.new) (λ read. EndsEarlyOnDisk task.requests task.cut_requests begun.held read (S.left source.new) (C.ticks clock.new) (K.written sink.old) (K.written sink.new) D.reads D.images D.moment D.since disk.old disk.new result) }

    // A stop at any moment after the first sync leaves the journal that was found, followed by the first
    // of the receipts that this call receives, and their frames alone are written; each reply that stands
    // whole has its receipts in every image.
    ensures any_moment { let task = task_by rc_str_bytes words.now in
        (begun : RunBegins task D.tells (D.reads disk.old) (S.left source.old) (C.ticks clock.old))
        → task.uses_disk ≡ true → task.serves ≡ None
        → IsUnread source.old source.new sink.old sink.new disk.old disk.new clock.old clock.new door.old door.new result
        ⊎ KeepsGrown D.reads D.images D.moment D.since disk.old disk.new (disk_fault result) begun.held.journal (task.outcome begun.held begun.input).journal }
    ensures frames { let task = task_by rc_str_bytes words.now in
        (begun : RunBegins task D.tells (D.reads disk.old) (S.left source.old) (C.ticks clock.old))
        → task.receives ≡ true
        → IsUnread source.old source.new sink.old sink.new disk.old disk.new clock.old clock.new door.old door.new result
        ⊎ WritesBehind (disk_fault result) begun.held.journal (task.outcome begun.held begun.input).journal (D.reads disk.old) (D.reads disk.new) }
    ensures acknowledged { let task = task_by rc_str_bytes words.now in
        (begun : RunBegins task D.tells (D.reads disk.old) (S.left source.old) (C.ticks clock.old)) (front back : List Request) (file : List ℕ)
        → task.receives ≡ true → task.requests begun.input ≡ front ++ back
        → (replies OnDisk begun.held front ≡ [] → ⊥) → HasWritten (K.written sink.old) (K.written sink.new) (replies OnDisk begun.held front)
        → D.images disk.new file
        → GrownFrom (held_after OnDisk begun.held front).journal (task.outcome begun.held begun.input).journal file }

    // A status tells what the disk's file stood for, and an unmade one is made unless the disk failed.
    // Where the command receives nothing, no other byte changes; where the file stood for no journal, nothing else is touched.
    ensures found { let task = task_by rc_str_bytes words.now in IsTrue D.tells → task.uses_disk ≡ true → FindsBy (D.reads disk.old) result }
    ensures made { let task = task_by rc_str_bytes words.now in
        IsTrue D.tells → task.uses_disk ≡ true
        → IsUnread source.old source.new sink.old sink.new disk.old disk.new clock.old clock.new door.old door.new result
        ⊎ LeavesMade result (D.reads disk.old) (D.reads disk.new) }
    ensures made_so { let task = task_by rc_str_bytes words.now in
        IsTrue D.tells → task.uses_disk ≡ true → task.receives ≡ false → task.serves ≡ None
        → IsUnread source.old source.new sink.old sink.new disk.old disk.new clock.old clock.new door.old door.new result
        ⊎ MakesUnmade (disk_fault result) (D.reads disk.old) (D.reads disk.new) }
    ensures kept { let task = task_by rc_str_bytes words.now in
        IsTrue D.tells → task.uses_disk ≡ true → ((task.receives ≡ false) × (task.serves ≡ None)) ⊎ (IsJournalFile (D.reads disk.old) → ⊥) → IsKept (D.reads disk.old) (D.reads disk.new) }
    ensures kept_any_moment { let task = task_by rc_str_bytes words.now in
        IsTrue D.tells → task.uses_disk ≡ true → ((task.receives ≡ false) × (task.serves ≡ None)) ⊎ (IsJournalFile (D.reads disk.old) → ⊥)
        → IsUnread source.old source.new sink.old sink.new disk.old disk.new clock.old clock.new door.old door.new result
        ⊎ AnswersSynced D.reads D.images D.moment D.since disk.old disk.new (disk_fault result) }
    ensures unopened { let task = task_by rc_str_bytes words.now in
        IsTrue D.tells → task.uses_disk ≡ true → (IsJournalFile (D.reads disk.old) → ⊥)
        → (source.new ≡ source.old) × (sink.new ≡ sink.old) × (clock.new ≡ clock.old) × (door.new ≡ door.old) }
    ensures unopened_by { is_no_journal result ≡ true → (source.new ≡ source.old) × (sink.new ≡ sink.old) × (clock.new ≡ clock.old) × (door.new ≡ door.old) }

    // A command that serves answers the requests of the links that come, one link after another, each
    // from what the one before left, and hands each back. A disk that fails after its opening is
    // told to the request in which it failed, and ends nothing.
    ensures served { let task = task_by rc_str_bytes words.now in
        (most : ℕ) (held : Held) (waiting : List (List ℕ)) (asked : List LinkRequests) → task.serves ≡ Some most
        → IsTrue D.tells → IsHeld (D.reads disk.old) (C.ticks clock.old) held → L.waiting door.old ≡ Some waiting → AllZip AskSo waiting asked
        → IsUnread source.old source.new sink.old sink.new disk.old disk.new clock.old clock.new door.old door.new result
        ⊎ ServesOffice D.reads D.images D.moment D.since D.faults disk.old disk.new held most waiting asked (L.waiting door.new) (L.served door.old) (L.served door.new) (C.ticks clock.new) result }
    ensures served_in_turn { let task = task_by rc_str_bytes words.now in
        (most : ℕ) → task.serves ≡ Some most
        → IsUnread source.old source.new sink.old sink.new disk.old disk.new clock.old clock.new door.old door.new result
        ⊎ ServesInTurn L.waiting L.served L.faults L.Link.left L.Link.written L.Link.faults D.tells D.reads D.images D.faults C.ticks most door.old door.new disk.old disk.new clock.old clock.new result }
    ensures handed_back { IsSome (L.served door.old) → IsSome (L.served door.new) × (L.out door.new ≡ L.out door.old) }
    ensures disk_at_opening { disk_fault result ≡ true → Rose (D.faults disk.old) (D.faults disk.new) × (door.new ≡ door.old) }

    // What the command does not use stays as it is.
    ensures same_source { let task = task_by rc_str_bytes words.now in task.uses_input ≡ false → source.new ≡ source.old }
    ensures same_sink { let task = task_by rc_str_bytes words.now in
        (commanded rc_str_bytes words.now ≡ None) ⊎ IsSome task.serves → sink.new ≡ sink.old }
    ensures same_disk { let task = task_by rc_str_bytes words.now in task.uses_disk ≡ false → disk.new ≡ disk.old }
    ensures same_clock { let task = task_by rc_str_bytes words.now in task.receives ≡ false → task.serves ≡ None → clock.new ≡ clock.old }
    ensures same_door { let task = task_by rc_str_bytes words.now in task.serves ≡ None → door.new ≡ door.old }

    // Each fault has its cause, and a count rises with no other answer.
    ensures read { Counts (S.faults source.old) (S.faults source.new) (read_fault result) }
    ensures write { Counts (K.faults sink.old) (K.faults sink.new) (write_fault result) }
    ensures disk { let task = task_by rc_str_bytes words.now in
        task.serves ≡ None → Counts (D.faults disk.old) (D.faults disk.new) (disk_fault result) }
    ensures door { Counts (L.faults door.old) (L.faults door.new) (door_fault result) }

    // A status of an object that the command does not use never comes.
    ensures no_disk { let task = task_by rc_str_bytes words.now in
        task.uses_disk ≡ false → (disk_fault result ≡ false) × (is_no_journal result ≡ false) }
    ensures no_input { let task = task_by rc_str_bytes words.now in
        task.uses_input ≡ false → (read_fault result ≡ false) × (result ≡ Status.InputTooLong → ⊥) }
    ensures no_output { let task = task_by rc_str_bytes words.now in IsSome task.serves → write_fault result ≡ false }
    ensures no_door { let task = task_by rc_str_bytes words.now in task.serves ≡ None → door_fault result ≡ false }
{
    match read_words(rt.alloc(), words) {
        Err(WordsFault::Usage) => Status::Usage,
        Err(WordsFault::Memory) => Status::Memory,
        Ok(Command::Settle { desks }) => settle_disk(rt, disk, sink, desks, gate),
        Ok(Command::SettleLines { desks }) => {
            status_of(settle_lines(rt, source, sink, desks, gate))
        }
        Ok(Command::Receive { intake }) => receive_disk(rt, intake, source, sink, disk, clock),
        Ok(Command::Serve { desks, requests }) => {
            serve(rt, desks, requests, disk, clock, door, gate)
        }
        Ok(Command::Sample { seed, size, desks }) => {
            settle_sample(rt, seed, size, sink, desks, gate)
        }
    }
}
