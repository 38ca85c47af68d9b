//! The commands that answer requests over links: a whole door, or one connection.
//! Why so: docs/DECISIONS.md, "One connection settles as one registrar does".
ghost use Rattle.std.specs.Prelude.{◌≡◌, ◌≤◌, ℕ, List, Option, Some, None, IsSome, IsTrue, true, false};
ghost use Rattle.std.specs.List.{AllZip};
ghost use Rattle.gb_outside.specs.Faults.{Counts, Rose};
ghost use Rattle.gb_outside.specs.Images.{LeavesOnly};
ghost use Rattle.journal_disk.specs.Layout.{the_heading, IsMade};
ghost use Rattle.journal_disk.specs.Opening.{AnswersSynced, IsKept};
ghost use Rattle.intake.specs.Requests.{Held};
ghost use Rattle.registry_http.specs.RequestLists.{AreRequests};
ghost use Rattle.registry_http.specs.RequestParts.{RequestParts};
ghost use Rattle.registry_http.specs.Requests.{AtFront};
ghost use Rattle.settled_book.specs.SettledBookState.{SettledBookState};
ghost use Rattle.connections.specs.Answering.{AnswersTurn};
ghost use Rattle.connections.specs.Completeness.{Completes};
ghost use Rattle.connections.specs.Doors.{AskSo, LinkRequests};
ghost use Rattle.connections.specs.Holding.{StandsForNone};
ghost use Rattle.connections.specs.LinkOrder.{ServesInOrder, stage};
ghost use Rattle.connections.specs.Serving.{ServesLink, TakesNone, TakesTurns, is_link_fault};
ghost use Rattle.connections.specs.Tools.{tools};
ghost use Rattle.connections.specs.Turns.{turns};
ghost use Rattle.registry_office.specs.Disks.{FindsBy, IsJournalFile, LeavesMade};
ghost use Rattle.registry_office.specs.Servings.{IsHeld, ServesInTurn, ServesOffice};
ghost use Rattle.registry_office.specs.Statuses.{read_fault, write_fault, disk_fault, door_fault, is_no_journal, status_of_door};

use crate::statuses::{Status, status_of_door, status_of_opening};
use connections::{Clerk, Served};
use gb_outside::{Clock, DeskGate, Disk, Link, Listener};
use std::sync::Wait;
use std::thread::Threads;

/// Serves one connection, up to `left` replies: its requests are answered one after another, each
/// from the journal that the one before left. The disk is opened at the first request that needs it;
/// a file that stands for no journal stays as it is. One connection is settled as one registrar does;
/// nothing that is written depends on the desks and their gate, which it leaves alone.
pub fn serve_connection<R: AllocGlobal, L: Link, D: Disk, C: Clock, G: DeskGate>(
    rt: &R,
    link: &mut L,
    disk: &mut D,
    clock: &mut C,
    _desks: u16,
    _gate: &G,
    left: u32,
) -> Served
    requires desks { (1 ≤ _desks) × (_desks ≤ 64) }
    ensures serves { IsTrue D.tells → (held : Held) (input : List ℕ) (requests : List RequestParts) (end : AtFront)
        → IsHeld (D.reads disk.old) (C.ticks clock.old) held → L.left link.old ≡ Some input → AreRequests input requests end
        → ServesLink (TakesTurns D.reads D.images D.moment D.since D.faults) disk.old disk.new held (L.written link.old) (L.written link.new) (turns left requests end) result
        (IsHeld (D.reads disk.new) (C.ticks clock.new)) }
    ensures serves_none { IsTrue D.tells → StandsForNone (D.reads disk.old) → (held : Held) (input : List ℕ) (requests : List RequestParts) (end : AtFront)
        → L.left link.old ≡ Some input → AreRequests input requests end
        → ServesLink (TakesNone D.faults) disk.old disk.new held (L.written link.old) (L.written link.new) (turns left requests end) result (λ h. h ≡ held) }
    ensures complete { IsTrue D.tells → (held : Held) (input : List ℕ) (requests : List RequestParts) (end : AtFront)
        → IsHeld (D.reads disk.old) (C.ticks clock.old) held → L.left link.old ≡ Some input → AreRequests input requests end
        → (Rose (D.faults disk.old) (D.faults disk.new) → ⊥) → (Rose (L.faults link.old) (L.faults link.new) → ⊥)
        → Completes held (L.written link.old) (L.written link.new) (turns left requests end) result }
    ensures kept { IsTrue D.tells → StandsForNone (D.reads disk.old) → (D.reads disk.new ≡ D.reads disk.old) × LeavesOnly D.moment D.since disk.old disk.new (D.images disk.old) × (clock.new ≡ clock.old) }
    ensures made { IsTrue D.tells → IsMade the_heading (D.reads disk.old) → IsMade the_heading (D.reads disk.new) }
    ensures few { result.replies ≤ left }
    ensures order { (at_hand : Option SettledBookState) × ServesInOrder L.left L.written L.faults (AnswersTurn D.tells D.reads D.images D.faults C.ticks) left (stage link.old (tools disk.old None clock.old)) (stage link.new (tools disk.new at_hand clock.new)) result }
    ensures cause { Counts (L.faults link.old) (L.faults link.new) (is_link_fault result.ended) }
{
    let mut clerk = Clerk::new(rt.alloc());
    clerk.serve_link(rt.alloc(), link, disk, clock, left)
}

/// Opens the journal of the disk, settles it at so many desks, 1 to 64, and serves what comes
/// through the door, up to so many replies and as many links. The journal and its register are
/// handed from one link to the next. A link that fails, and a request in which the disk fails, end
/// nothing else.
pub(crate) fn serve<
    R: AllocGlobal + Threads + Wait + Sync,
    D: Disk,
    C: Clock,
    L: Listener,
    G: DeskGate,
>(rt: &R, desks: u16, requests: u32, disk: &mut D, clock: &mut C, door: &mut L, gate: &G) -> Status
    requires desks { (1 ≤ desks) × (desks ≤ 64) }
    ensures serves { IsTrue D.tells → (held : Held) (waiting : List (List ℕ)) (asked : List LinkRequests)
        → IsHeld (D.reads disk.old) (C.ticks clock.old) held → L.waiting door.old ≡ Some waiting → AllZip AskSo waiting asked
        → ServesOffice D.reads D.images D.moment D.since D.faults disk.old disk.new held requests waiting asked (L.waiting door.new) (L.served door.old) (L.served door.new) (C.ticks clock.new) result }
    ensures handed_back { IsSome (L.served door.old) → IsSome (L.served door.new) × (L.out door.new ≡ L.out door.old) }
    ensures order { ServesInTurn L.waiting L.served L.faults L.Link.left L.Link.written L.Link.faults D.tells D.reads D.images D.faults C.ticks requests door.old door.new disk.old disk.new clock.old clock.new result }

    // What the file stood for; where it stood for no journal, nothing else is touched, and it stays.
    ensures found { IsTrue D.tells → FindsBy (D.reads disk.old) result }
    ensures made { IsTrue D.tells → LeavesMade result (D.reads disk.old) (D.reads disk.new) }
    ensures kept { IsTrue D.tells → (IsJournalFile (D.reads disk.old) → ⊥) → IsKept (D.reads disk.old) (D.reads disk.new) }
    ensures kept_any_moment { IsTrue D.tells → (IsJournalFile (D.reads disk.old) → ⊥)
        → AnswersSynced D.reads D.images D.moment D.since disk.old disk.new (disk_fault result) }
    ensures unopened { IsTrue D.tells → (IsJournalFile (D.reads disk.old) → ⊥) → (door.new ≡ door.old) × (clock.new ≡ clock.old) }
    ensures unopened_by { (is_no_journal result ≡ true) → (door.new ≡ door.old) × (clock.new ≡ clock.old) }

    // The disk is blamed only where the opening failed by it, before the first link.
    ensures disk { disk_fault result ≡ true → Rose (D.faults disk.old) (D.faults disk.new) × (door.new ≡ door.old) }
    ensures door { Counts (L.faults door.old) (L.faults door.new) (door_fault result) }
    ensures no_usage { result ≡ Status.Usage → ⊥ }
    ensures no_input { (read_fault result ≡ false) × (result ≡ Status.InputTooLong → ⊥) }
    ensures no_output { write_fault result ≡ false }
{
    let mut clerk = match Clerk::open(rt.alloc(), disk) {
        Ok(clerk) => clerk,
        Err(fault) => return status_of_opening(fault),
    };
    clerk.settle(rt, desks, gate);
    status_of_door(clerk.serve_door(rt.alloc(), door, disk, clock, requests))
}
