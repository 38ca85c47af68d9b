//! Links are served one after another, as they come through a door.
ghost use Rattle.std.specs.Prelude.{◌≡◌, ℕ, ◌≤◌, List, None, Some, IfOk, IsSome, IsTrue};
ghost use Rattle.std.specs.List.{AllZip};
ghost use Rattle.gb_outside.specs.Faults.{Counts};
ghost use Rattle.journal_disk.specs.Layout.{the_heading, IsMade};
ghost use Rattle.intake.specs.Requests.{Held};
ghost use Rattle.connections.specs.Answering.{AnswersTurn, KeepsOpen, OpensNone};
ghost use Rattle.connections.specs.DoorOrder.{ServesDoorInOrder};
ghost use Rattle.connections.specs.Doors.{AskSo, LinkRequests, ServesDoor, is_door_fault};
ghost use Rattle.connections.specs.Holding.{Holds, StandsForNone, StandsOpen, working};
ghost use Rattle.connections.specs.LinkOrder.{stage};
ghost use Rattle.connections.specs.Serving.{TakesNone, TakesTurns};
ghost use Rattle.connections.specs.Tools.{tools};
ghost use Rattle.connections.specs.inner.LinkRounds.{IsRound, ServesFirst, after_link, has_door_failed};

use crate::{Clerk, Ended, Served};
use gb_outside::{Clock, Disk, Door, Listener};
use std::alloc::Global;

/// How the serving of links ended.
#[derive(Clone, Copy, Debug, PartialEq, Eq)]
pub enum DoorEnd {
    /// All replies were written, or as many links were served, or no more came.
    Done,
    /// The listener failed.
    DoorFault,
    /// No memory was found to write a reply.
    Memory,
}

/// How serving goes on after a link: with so many replies fewer, or not at all.
fn after(served: Served) -> Result<u32, DoorEnd>
    ensures { result ≡ after_link served }
{
    match served.ended {
        Ended::Finished | Ended::LinkFault => Ok(served.replies),
        Ended::Memory => Err(DoorEnd::Memory),
    }
}

impl Clerk {
    /// Serves the link that comes next through a door and hands it back: how many replies it had, or
    /// how serving ends.
    fn serve_first<L: Listener, D: Disk, C: Clock>(
        &mut self,
        alloc: Global,
        door: &mut L,
        disk: &mut D,
        clock: &mut C,
        left: u32,
    ) -> Result<u32, DoorEnd>
        requires some_left { 1 ≤ left }
        requires stands_open { IsTrue D.tells → StandsOpen self.old (D.reads disk.old) (D.images disk.old) }
        ensures round { IsTrue D.tells → (held : Held) (waiting : List (List ℕ)) (asked : List LinkRequests)
            → Holds self.old (D.reads disk.old) (D.images disk.old) (C.ticks clock.old) held → L.waiting door.old ≡ Some waiting → AllZip AskSo waiting asked
            → IsRound (TakesTurns D.reads D.images D.moment D.since D.faults) disk.old disk.new held left waiting asked (L.waiting door.new) (L.served door.old) (L.served door.new)
            (λ h. Holds self.new (D.reads disk.new) (D.images disk.new) (C.ticks clock.new) h) result }
        ensures few { IfOk result (λ replies. replies ≤ left) }
        ensures none_round { IsTrue D.tells → working self.old ≡ None → StandsForNone (D.reads disk.old) → (held all : Held) (waiting : List (List ℕ)) (asked : List LinkRequests)
            → held ≡ all → L.waiting door.old ≡ Some waiting → AllZip AskSo waiting asked
            → IsRound (TakesNone D.faults) disk.old disk.new held left waiting asked (L.waiting door.new) (L.served door.old) (L.served door.new) (λ h. h ≡ all) result }
        ensures stands_open { IsTrue D.tells → StandsOpen self.new (D.reads disk.new) (D.images disk.new) }
        ensures made { IsTrue D.tells → IsMade the_heading (D.reads disk.old) → IsMade the_heading (D.reads disk.new) }
        ensures no_book { IsTrue D.tells → working self.old ≡ None → StandsForNone (D.reads disk.old) → OpensNone D.reads D.images D.moment D.since disk.old disk.new self.new }
        ensures same_clock { IsTrue D.tells → working self.old ≡ None → StandsForNone (D.reads disk.old) → clock.new ≡ clock.old }
        ensures order { ServesFirst L.waiting L.served L.faults L.Link.left L.Link.written L.Link.faults (AnswersTurn D.tells D.reads D.images D.faults C.ticks) left (stage door.old (tools disk.old self.old clock.old)) (stage door.new (tools disk.new self.new clock.new)) result }
        ensures handed_back { IsSome (L.served door.old) → IsSome (L.served door.new) × (L.out door.new ≡ L.out door.old) }
        ensures cause { Counts (L.faults door.old) (L.faults door.new) (has_door_failed result) }
    {
        let mut link = match door.accept() {
            Door::Open(link) => link,
            Door::Closed => return Err(DoorEnd::Done),
            Door::Failed => return Err(DoorEnd::DoorFault),
        };
        let served = self.serve_link(alloc, &mut link, disk, clock, left);
        door.done(link);
        after(served)
    }

    /// Serves the links that come through a door, one after another, up to `most` replies and as
    /// many links. The book is handed from one to the next, and each link goes back to the listener.
    /// One that fails ends its own connection alone.
    pub fn serve_door<L: Listener, D: Disk, C: Clock>(
        &mut self,
        alloc: Global,
        door: &mut L,
        disk: &mut D,
        clock: &mut C,
        most: u32,
    ) -> DoorEnd
        requires { IsTrue D.tells → StandsOpen self.old (D.reads disk.old) (D.images disk.old) }
        ensures serves { IsTrue D.tells → (held : Held) (waiting : List (List ℕ)) (asked : List LinkRequests)
            → Holds self.old (D.reads disk.old) (D.images disk.old) (C.ticks clock.old) held → L.waiting door.old ≡ Some waiting → AllZip AskSo waiting asked
            → ServesDoor (TakesTurns D.reads D.images D.moment D.since D.faults) disk.old disk.new held most waiting asked (L.waiting door.new) (L.served door.old) (L.served door.new) result
            (λ h. Holds self.new (D.reads disk.new) (D.images disk.new) (C.ticks clock.new) h) }
        ensures serves_none { IsTrue D.tells → working self.old ≡ None → StandsForNone (D.reads disk.old) → (held : Held) (waiting : List (List ℕ)) (asked : List LinkRequests)
            → L.waiting door.old ≡ Some waiting → AllZip AskSo waiting asked
            → ServesDoor (TakesNone D.faults) disk.old disk.new held most waiting asked (L.waiting door.new) (L.served door.old) (L.served door.new) result (λ h. h ≡ held) }
        ensures stands_open { IsTrue D.tells → StandsOpen self.new (D.reads disk.new) (D.images disk.new) }
        ensures made { IsTrue D.tells → IsMade the_heading (D.reads disk.old) → IsMade the_heading (D.reads disk.new) }
        ensures no_book { IsTrue D.tells → working self.old ≡ None → StandsForNone (D.reads disk.old) → OpensNone D.reads D.images D.moment D.since disk.old disk.new self.new }
        ensures same_clock { IsTrue D.tells → working self.old ≡ None → StandsForNone (D.reads disk.old) → clock.new ≡ clock.old }
        ensures order { ServesDoorInOrder L.waiting L.served L.faults L.Link.left L.Link.written L.Link.faults (AnswersTurn D.tells D.reads D.images D.faults C.ticks) most (stage door.old (tools disk.old self.old clock.old)) (stage door.new (tools disk.new self.new clock.new)) result }
        ensures kept_open { KeepsOpen D.faults self.old self.new disk.old disk.new }
        ensures handed_back { IsSome (L.served door.old) → IsSome (L.served door.new) × (L.out door.new ≡ L.out door.old) }
        ensures cause { Counts (L.faults door.old) (L.faults door.new) (is_door_fault result) }
    {
        let mut left = most;
        let mut links = 0;
        while left > 0 && links < most {
            match self.serve_first(alloc, door, disk, clock, left) {
                Ok(replies) => left -= replies,
                Err(end) => return end,
            }
            links += 1;
        }
        DoorEnd::Done
    }
}
