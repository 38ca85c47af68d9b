//! A connection is served: its requests are answered one after another.
ghost use Rattle.std.specs.Prelude.{◌≡◌, ◌≤◌, ℕ, List, [], ◌∷◌, None, Some, OnOk, OnErr, Err, IsSome, IsTrue, IfSome, length};
ghost use Rattle.std.specs.Io.KnownBytes.{Appends};
ghost use Rattle.gb_outside.specs.Faults.{Counts};
ghost use Rattle.journal_disk.specs.Layout.{the_heading, IsMade};
ghost use Rattle.act_json.specs.Lines.{longest_line};
ghost use Rattle.intake.specs.Requests.{Held};
ghost use Rattle.registry_http.specs.Replies.{AppendsPart};
ghost use Rattle.registry_http.specs.RequestLists.{AreRequests};
ghost use Rattle.registry_http.specs.RequestParts.{RequestParts};
ghost use Rattle.registry_http.specs.Requests.{AtFront};
ghost use Rattle.connections.specs.Answering.{AnswersTurn, KeepsOpen, OpensNone};
ghost use Rattle.connections.specs.Holding.{Holds, StandsForNone, StandsOpen, working};
ghost use Rattle.connections.specs.LinkOrder.{ServesInOrder, WritesLast, stage};
ghost use Rattle.connections.specs.Replies.{bytes_of};
ghost use Rattle.connections.specs.Serving.{ServesLink, TakesNone, TakesTurns, is_link_fault};
ghost use Rattle.connections.specs.Tools.{tools};
ghost use Rattle.connections.specs.Turns.{turns};
ghost use Rattle.connections.specs.declared.serving.Ended.TheVariants.{Finished, Memory};
ghost use Rattle.connections.specs.inner.Rounds.{AnswersNext, IsTurn, Meets, TurnsNext, answering_ended, has_link_failed, sending_failed};

use crate::Clerk;
use crate::replies::Reply;
use gb_outside::{Clock, Disk, Link};
use registry_http::{Next, ReplyFault, Request, next_request, write_reply};
use std::alloc::Global;

/// How a connection ended.
#[derive(Clone, Copy, Debug, PartialEq, Eq)]
pub enum Ended {
    /// All that was owed was replied to, or a last reply says that no memory was found.
    Finished,
    /// The link failed.
    LinkFault,
    /// No memory was found to write a reply.
    Memory,
}

/// What became of a connection.
#[derive(Clone, Copy, Debug, PartialEq, Eq)]
pub struct Served {
    /// How many replies were written whole.
    pub replies: u32,
    /// How it ended.
    pub ended: Ended,
}

/// How a connection ends whose reply was not written whole.
fn ended_by(fault: ReplyFault) -> Ended
    ensures { result ≡ answering_ended fault }
{
    match fault {
        ReplyFault::LinkFault => Ended::LinkFault,
        ReplyFault::Memory => Ended::Memory,
    }
}

/// Writes a reply, or says how the connection ends.
fn send<L: Link>(alloc: Global, link: &mut L, reply: &Reply) -> Result<(), Ended>
    ensures whole { OnOk result (Appends (L.written link.old) (L.written link.new) (bytes_of (reply.now ∷ []))) }
    ensures part { OnErr result (AppendsPart (L.written link.old) (L.written link.new) (bytes_of (reply.now ∷ []))) }
    ensures nothing { result ≡ Err Memory → L.written link.new ≡ L.written link.old }
    ensures unfinished { result ≡ Err Finished → ⊥ }
    ensures left { L.left link.new ≡ L.left link.old }
    ensures cause { Counts (L.faults link.old) (L.faults link.new) (sending_failed result) }
{
    match write_reply(alloc, link, reply.status(), reply.body()) {
        Ok(()) => Ok(()),
        Err(fault) => Err(ended_by(fault)),
    }
}

/// Writes the reply that is the last, whatever comes of it.
fn close<L: Link>(alloc: Global, link: &mut L, reply: Reply) -> Served
    ensures ends { WritesLast (L.written link.old) (L.written link.new) reply result }
    ensures few { result.replies ≤ 1 }
    ensures left { L.left link.new ≡ L.left link.old }
    ensures told { IsSome (L.written link.old) → IsSome (L.written link.new) }
    ensures cause { Counts (L.faults link.old) (L.faults link.new) (is_link_fault result.ended) }
{
    match send(alloc, link, &reply) {
        Ok(()) => Served {
            replies: 1,
            ended: Ended::Finished,
        },
        Err(ended) => Served { replies: 0, ended },
    }
}

impl Clerk {
    /// Answers a request and writes its reply. None where more may follow.
    fn serve_request<L: Link, D: Disk, C: Clock>(
        &mut self,
        alloc: Global,
        link: &mut L,
        disk: &mut D,
        clock: &mut C,
        request: &Request,
    ) -> Option<Served>
        requires short { length request.now.body ≤ longest_line }
        requires stands_open { IsTrue D.tells → StandsOpen self.old (D.reads disk.old) (D.images disk.old) }
        ensures turn { IsTrue D.tells → (held : Held) (requests : List RequestParts) (end : AtFront)
            → Holds self.old (D.reads disk.old) (D.images disk.old) (C.ticks clock.old) held
            → IsTurn (TakesTurns D.reads D.images D.moment D.since D.faults) disk.old disk.new held (L.written link.old) (L.written link.new) (request.now ∷ requests) end
            (λ h. Holds self.new (D.reads disk.new) (D.images disk.new) (C.ticks clock.new) h)
            (λ h others. Holds self.new (D.reads disk.new) (D.images disk.new) (C.ticks clock.new) h × (others ≡ requests)) result }
        ensures few { IfSome result (λ served. served.replies ≤ 1) }
        ensures stands_open { IsTrue D.tells → StandsOpen self.new (D.reads disk.new) (D.images disk.new) }
        ensures none_turn { IsTrue D.tells → working self.old ≡ None → StandsForNone (D.reads disk.old) → (held all : Held) (requests : List RequestParts) (end : AtFront) → held ≡ all
            → IsTurn (TakesNone D.faults) disk.old disk.new held (L.written link.old) (L.written link.new) (request.now ∷ requests) end (λ h. h ≡ all) (λ h others. (h ≡ all) × (others ≡ requests)) result }
        ensures made { IsTrue D.tells → IsMade the_heading (D.reads disk.old) → IsMade the_heading (D.reads disk.new) }
        ensures no_book { IsTrue D.tells → working self.old ≡ None → StandsForNone (D.reads disk.old) → OpensNone D.reads D.images D.moment D.since disk.old disk.new self.new }
        ensures same_clock { IsTrue D.tells → working self.old ≡ None → StandsForNone (D.reads disk.old) → clock.new ≡ clock.old }
        ensures told { IsSome (L.written link.old) → IsSome (L.written link.new) }
        ensures replied { AnswersNext L.left L.written L.faults (AnswersTurn D.tells D.reads D.images D.faults C.ticks) request.now (stage link.old (tools disk.old self.old clock.old)) (stage link.new (tools disk.new self.new clock.new)) result }
        ensures left { L.left link.new ≡ L.left link.old }
        ensures cause { Counts (L.faults link.old) (L.faults link.new) (has_link_failed result) }
    {
        let reply = self.answer_request(alloc, disk, clock, request);
        if let Err(ended) = send(alloc, link, &reply) {
            return Some(Served { replies: 0, ended });
        }
        if request.is_last() {
            Some(Served {
                replies: 1,
                ended: Ended::Finished,
            })
        } else {
            None
        }
    }

    /// Takes up what comes next of a link, whose bytes that were read are in `rest`. None where it was
    /// a request that was replied to, and more may follow.
    fn serve_next<L: Link, D: Disk, C: Clock>(
        &mut self,
        alloc: Global,
        link: &mut L,
        disk: &mut D,
        clock: &mut C,
        rest: &mut Vec<u8>,
    ) -> Option<Served>
        requires { IsTrue D.tells → StandsOpen self.old (D.reads disk.old) (D.images disk.old) }
        ensures turn { IsTrue D.tells → (held : Held) (requests : List RequestParts) (end : AtFront)
            → Meets (Holds self.old (D.reads disk.old) (D.images disk.old) (C.ticks clock.old)) (L.left link.old) rest.old.items end held requests
            → IsTurn (TakesTurns D.reads D.images D.moment D.since D.faults) disk.old disk.new held (L.written link.old) (L.written link.new) requests end
            (λ h. Holds self.new (D.reads disk.new) (D.images disk.new) (C.ticks clock.new) h)
            (λ h others. Meets (Holds self.new (D.reads disk.new) (D.images disk.new) (C.ticks clock.new)) (L.left link.new) rest.new.items end h others) result }
        ensures few { IfSome result (λ served. served.replies ≤ 1) }
        ensures stands_open { IsTrue D.tells → StandsOpen self.new (D.reads disk.new) (D.images disk.new) }
        ensures none_turn { IsTrue D.tells → working self.old ≡ None → StandsForNone (D.reads disk.old) → (held all : Held) (requests : List RequestParts) (end : AtFront)
            → Meets (λ h. h ≡ all) (L.left link.old) rest.old.items end held requests
            → IsTurn (TakesNone D.faults) disk.old disk.new held (L.written link.old) (L.written link.new) requests end (λ h. h ≡ all) (λ h others. Meets (λ k. k ≡ all) (L.left link.new) rest.new.items end h others) result }
        ensures made { IsTrue D.tells → IsMade the_heading (D.reads disk.old) → IsMade the_heading (D.reads disk.new) }
        ensures no_book { IsTrue D.tells → working self.old ≡ None → StandsForNone (D.reads disk.old) → OpensNone D.reads D.images D.moment D.since disk.old disk.new self.new }
        ensures same_clock { IsTrue D.tells → working self.old ≡ None → StandsForNone (D.reads disk.old) → clock.new ≡ clock.old }
        ensures order { TurnsNext L.left L.written L.faults (AnswersTurn D.tells D.reads D.images D.faults C.ticks) (stage link.old (tools disk.old self.old clock.old)) rest.old.items (stage link.new (tools disk.new self.new clock.new)) rest.new.items result }
        ensures told { IsSome (L.written link.old) → IsSome (L.written link.new) }
        ensures cause { Counts (L.faults link.old) (L.faults link.new) (has_link_failed result) }
    {
        match next_request(alloc, link, rest) {
            Next::Request(request) => self.serve_request(alloc, link, disk, clock, &request),
            Next::End | Next::Cut => Some(Served {
                replies: 0,
                ended: Ended::Finished,
            }),
            Next::HeadFault => Some(close(alloc, link, Reply::bad_request())),
            Next::BodyTooLong => Some(close(alloc, link, Reply::body_too_long())),
            Next::LinkFault => Some(Served {
                replies: 0,
                ended: Ended::LinkFault,
            }),
            Next::Memory => Some(close(alloc, link, Reply::out_of_memory())),
        }
    }

    /// Serves a connection until it has no more to say, has `left` replies, or fails. Each request is
    /// answered and its reply written before the next is read. Bytes that are refused get the last
    /// reply. Where memory runs out before a request is read, the last reply says so.
    pub fn serve_link<L: Link, D: Disk, C: Clock>(
        &mut self,
        alloc: Global,
        link: &mut L,
        disk: &mut D,
        clock: &mut C,
        left: u32,
    ) -> Served
        requires { IsTrue D.tells → StandsOpen self.old (D.reads disk.old) (D.images disk.old) }
        ensures serves { IsTrue D.tells → (held : Held) (input : List ℕ) (requests : List RequestParts) (end : AtFront)
            → Holds self.old (D.reads disk.old) (D.images disk.old) (C.ticks clock.old) held → L.left link.old ≡ Some input → AreRequests input requests end
            → ServesLink (TakesTurns D.reads D.images D.moment D.since D.faults) disk.old disk.new held (L.written link.old) (L.written link.new) (turns left requests end) result
            (λ h. Holds self.new (D.reads disk.new) (D.images disk.new) (C.ticks clock.new) h) }
        ensures stands_open { IsTrue D.tells → StandsOpen self.new (D.reads disk.new) (D.images disk.new) }
        ensures serves_none { IsTrue D.tells → working self.old ≡ None → StandsForNone (D.reads disk.old) → (held : Held) (input : List ℕ) (requests : List RequestParts) (end : AtFront)
            → L.left link.old ≡ Some input → AreRequests input requests end
            → ServesLink (TakesNone D.faults) disk.old disk.new held (L.written link.old) (L.written link.new) (turns left requests end) result (λ h. h ≡ held) }
        ensures made { IsTrue D.tells → IsMade the_heading (D.reads disk.old) → IsMade the_heading (D.reads disk.new) }
        ensures no_book { IsTrue D.tells → working self.old ≡ None → StandsForNone (D.reads disk.old) → OpensNone D.reads D.images D.moment D.since disk.old disk.new self.new }
        ensures same_clock { IsTrue D.tells → working self.old ≡ None → StandsForNone (D.reads disk.old) → clock.new ≡ clock.old }
        ensures few { result.replies ≤ left }
        ensures order { ServesInOrder L.left L.written L.faults (AnswersTurn D.tells D.reads D.images D.faults C.ticks) left (stage link.old (tools disk.old self.old clock.old)) (stage link.new (tools disk.new self.new clock.new)) result }
        ensures kept_open { KeepsOpen D.faults self.old self.new disk.old disk.new }
        ensures told { IsSome (L.written link.old) → IsSome (L.written link.new) }
        ensures cause { Counts (L.faults link.old) (L.faults link.new) (is_link_fault result.ended) }
    {
        let mut rest = Vec::new(alloc);
        let mut replies = 0;
        while replies < left {
            match self.serve_next(alloc, link, disk, clock, &mut rest) {
                None => replies += 1,
                Some(last) => {
                    return Served {
                        replies: replies + last.replies,
                        ended: last.ended,
                    };
                }
            }
        }
        Served {
            replies,
            ended: Ended::Finished,
        }
    }
}
