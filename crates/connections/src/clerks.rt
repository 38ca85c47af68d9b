//! The clerk, who answers requests and keeps the open book between them.
ghost use Rattle.std.specs.Prelude.{◌≡◌, ◌≢◌, ◌⊎◌, ◌≤◌, ◌==◌, ◌+◌, List, Option, Some, None, Err, length, IfOk, IfErr, IfSome, IsSome, OnErr, OnOk, IsTrue, is_ok, option_map, true, false};
ghost use Rattle.gb_base.specs.DayMinute.{DayMinute};
ghost use Rattle.gb_outside.specs.Faults.{Counts};
ghost use Rattle.gb_outside.specs.Images.{Only, Torn};
ghost use Rattle.act_json.specs.Lines.{item_of, longest_line};
ghost use Rattle.act_model.specs.WellFormed.{well_formed};
ghost use Rattle.act_model.specs.declared.receipts.Receipt.{Receipt};
ghost use Rattle.intake.specs.Requests.{Held};
ghost use Rattle.journal_disk.specs.Layout.{first_gate, the_heading, IsMade};
ghost use Rattle.journal_disk.specs.Opening.{AnswersSynced, IsKept, MakesUnmade};
ghost use Rattle.receipt_journal.specs.Opening.{BookOpens, BookRefuses, book_opening_disk_failed};
ghost use Rattle.receipt_journal.specs.Standing.{Stands, StandsForJournal};
ghost use Rattle.registry_http.specs.Routes.{IsRoute, method_of, path_of};
ghost use Rattle.registry_http.specs.declared.finding.RouteFault.TheVariants.{NotFound, WrongMethod};
ghost use Rattle.registry_http.specs.declared.routes.Route.{Route};
ghost use Rattle.registry_http.specs.declared.routes.Route.TheVariants.{Post};
ghost use Rattle.registrar.specs.HasSettled.{IsRegisterOf};
ghost use Rattle.settled_book.specs.Texts.{reads_register};
ghost use Rattle.connections.specs.Answering.{AnswersNone, AnswersRequest, AnswersTurn, AsksOnce, IsAsked, IsFailure, NoneOpened, OpensBook, OpensNone, SaysAsked, is_failed, is_text_status, may_call_disk, posts_item, tells_of_journal};
ghost use Rattle.connections.specs.Answers.{answer, body_answer, item_answer, only, read_reply};
ghost use Rattle.connections.specs.Asking.{AskedFor};
ghost use Rattle.connections.specs.Holding.{Holds, IsAllSettled, IsNoJournal, IsOpenOn, StandsForNone, StandsOpen, register_in, working};
ghost use Rattle.connections.specs.Replies.{is_reply_status};
ghost use Rattle.connections.specs.Tools.{tools};
ghost use Rattle.connections.specs.inner.Ends.{EndsBy, Serves};
ghost use Rattle.connections.specs.inner.Taking.{Finds};

use crate::receiving::receive;
use crate::replies::Reply;
use act_json::read_item;
use act_model::Item;
use gb_outside::{Clock, DeskGate, Disk};
use http::Method;
use intake_requests::SenderReference;
use receipt_journal::BookFault;
use registry_http::{Request, Route, RouteFault, Routes, route};
use settled_book::SettledBook;
use std::alloc::Global;
use std::marker::Model;
use std::sync::Wait;
use std::thread::Threads;

/// Answers requests, and keeps the open book and the table of routes between them. The disk and the
/// clock are lent to each call.
#[derive(Drop)]
pub struct Clerk {
    /// None where none was opened yet or it could not be, and after a request in which it failed.
    book: Option<SettledBook>,
    /// None where memory ran out when it was to be made: then a table is made for each request.
    routes: Option<Routes>,
}

impl Model for Clerk {
    ghost use Rattle.std.specs.Prelude.{Option};
    ghost use Rattle.settled_book.specs.SettledBookState.{SettledBookState};

    ghost Value = { Option SettledBookState };

    ghost view = { λ a. a.book };
}

impl Clerk {
    /// A clerk with no book open.
    pub fn new(alloc: Global) -> Clerk
        ensures { result ≡ None }
    {
        Clerk {
            book: None,
            routes: Routes::new(alloc).ok(),
        }
    }

    /// A clerk with the book of a disk open. Nothing is settled yet.
    pub fn open<D: Disk>(alloc: Global, disk: &mut D) -> Result<Clerk, BookFault>
        ensures opened { IfOk result (λ clerk. IsSome (working clerk)) }
        ensures holds { IsTrue D.tells → (held : Held) → StandsForJournal (D.reads disk.old) held.journal
            → IfOk result (λ clerk. Holds clerk (D.reads disk.new) (D.images disk.new) (Some held.ticks) held) }
        ensures stands_open { IsTrue D.tells → IfOk result (λ clerk. StandsOpen clerk (D.reads disk.new) (D.images disk.new)) }
        ensures journal { IsTrue D.tells → OnOk result ((journal : List Receipt) × StandsForJournal (D.reads disk.old) journal) }
        ensures opens { IsTrue D.tells → IfOk result (λ clerk. IfSome clerk (λ settled. BookOpens (D.reads disk.old) settled.book (D.reads disk.new) (D.images disk.new))) }
        ensures unsettled { IfOk result (λ clerk. IfSome clerk (λ settled. settled.register ≡ None)) }
        ensures refused { IsTrue D.tells → IfErr result (BookRefuses (D.reads disk.old)) }
        ensures made { IsTrue D.tells → MakesUnmade (book_opening_disk_failed result) (D.reads disk.old) (D.reads disk.new) }
        ensures settled { OnOk result (IsTrue D.tells → Only (D.reads disk.new) (D.images disk.new)) }
        ensures kept { IsTrue D.tells → IsKept (D.reads disk.old) (D.reads disk.new) }
        ensures torn { IsTrue D.tells → Torn 0 (first_gate the_heading + 1) (D.reads disk.old) (D.reads disk.new) }
        ensures any_moment { IsTrue D.tells → AnswersSynced D.reads D.images D.moment D.since disk.old disk.new (book_opening_disk_failed result) }
        ensures cause { Counts (D.faults disk.old) (D.faults disk.new) (book_opening_disk_failed result) }
    {
        let book = SettledBook::open(alloc, disk)?;
        Ok(Clerk {
            book: Some(book),
            routes: Routes::new(alloc).ok(),
        })
    }

    /// Settles the journal of the book that is open at so many desks, 1 to 64, where nothing of it is
    /// settled yet. Where no memory is found for that, the next request that reads it settles it.
    pub fn settle<R: AllocGlobal + Threads + Wait + Sync, G: DeskGate>(
        &mut self,
        rt: &R,
        desks: u16,
        gate: &G,
    )
        requires desks { (1 ≤ desks) × (desks ≤ 64) }
        ensures book { option_map (λ settled. settled.book) self.new ≡ option_map (λ settled. settled.book) self.old }
        ensures kept { IfSome self.old (λ settled. IsSome settled.register → self.new ≡ self.old) }
        ensures settled { IfSome self.old (λ was. was.register ≡ None → IfSome self.new (λ settled. IfSome settled.register (IsRegisterOf was.book.journal))) }
    {
        if let Some(book) = &mut self.book {
            book.settle(rt, desks, gate);
        }
    }

    /// Takes out the book that is open, if it works.
    fn take_working(&mut self) -> Option<SettledBook>
        ensures value { result ≡ working self.old }
        ensures taken { self.new ≡ None }
    {
        let book = self.book.take()?;
        if book.book().failed() {
            None
        } else {
            Some(book)
        }
    }

    /// Takes out the book, which works; where none is open, or the one that is has failed, it is
    /// opened.
    fn take_book<D: Disk>(&mut self, alloc: Global, disk: &mut D) -> Result<SettledBook, BookFault>
        requires { IsTrue D.tells → StandsOpen self.old (D.reads disk.old) (D.images disk.old) }
        ensures finds { IsTrue D.tells → (journal : List Receipt) → StandsForJournal (D.reads disk.old) journal
            → IfSome (working self.old) (λ settled. IsOpenOn settled (D.reads disk.old) (D.images disk.old) journal)
            → Finds D.reads D.images D.moment D.since disk.old disk.new journal result }
        ensures works { IfOk result (λ settled. settled.book.log.failed ≡ false) }
        ensures stands { IsTrue D.tells → IfOk result (λ settled. Stands settled.book (D.reads disk.new) (D.images disk.new)) }
        ensures taken { self.new ≡ None }
        ensures register { IsSome (working self.old) → IfOk result (λ settled. settled.register ≡ register_in self.old) }
        ensures refused { IsTrue D.tells → IfErr result (BookRefuses (D.reads disk.old)) }
        ensures had_none { OnErr result (working self.old ≡ None) }
        ensures made { IsTrue D.tells → IsMade the_heading (D.reads disk.old) → IsMade the_heading (D.reads disk.new) }
        ensures untouched { IsSome (working self.old) → disk.new ≡ disk.old }
        ensures journal { IsTrue D.tells → working self.old ≡ None → OnOk result ((journal : List Receipt) × StandsForJournal (D.reads disk.old) journal) }
        ensures opens { working self.old ≡ None → OnOk result (OpensBook D.tells D.reads D.images D.faults disk.old) }
        ensures no_book { IsTrue D.tells → working self.old ≡ None → StandsForNone (D.reads disk.old) → OpensNone D.reads D.images D.moment D.since disk.old disk.new self.new }
        ensures cause { Counts (D.faults disk.old) (D.faults disk.new) (book_opening_disk_failed result) }
    {
        if let Some(book) = self.take_working() {
            return Ok(book);
        }
        SettledBook::open(alloc, disk)
    }

    /// Answers a request that reads a text.
    fn read<D: Disk>(&mut self, alloc: Global, disk: &mut D, route: Route) -> Reply
        requires { IsTrue D.tells → StandsOpen self.old (D.reads disk.old) (D.images disk.old) }
        ensures ends { IsTrue D.tells → (known : Option (List DayMinute)) (held : Held) → Holds self.old (D.reads disk.old) (D.images disk.old) known held
            → EndsBy D.reads D.images D.moment D.since disk.old disk.new true held (only held (read_reply held.journal route)) result self.new known }
        ensures serves { Serves D.tells D.reads D.images D.moment D.since D.faults disk.old disk.new self.old self.new result }
        ensures says { is_text_status result ≡ true }
        ensures unfound { IsTrue D.tells → working self.old ≡ None → StandsForNone (D.reads disk.old) → IsFailure result }
        ensures works { is_failed result ≡ false → IsSome (working self.new) }
        ensures untouched { IsSome (working self.old) → disk.new ≡ disk.old }
        ensures settled { reads_register route ≡ true → is_failed result ≡ false → IsAllSettled self.new }
    {
        let mut book = match self.take_book(alloc, disk) {
            Ok(book) => book,
            Err(fault) => return Reply::unopened(&fault),
        };
        let text = book.text(alloc, route);
        self.book = Some(book);
        Reply::read(text)
    }

    /// Answers a request that an item be received.
    fn post_item<D: Disk, C: Clock>(
        &mut self,
        alloc: Global,
        disk: &mut D,
        clock: &mut C,
        from: SenderReference,
        item: &Item,
    ) -> Reply
        requires item { IsTrue (well_formed item.now) }
        requires stands_open { IsTrue D.tells → StandsOpen self.old (D.reads disk.old) (D.images disk.old) }
        ensures ends { IsTrue D.tells → (held : Held) → Holds self.old (D.reads disk.old) (D.images disk.old) (C.ticks clock.old) held
            → EndsBy D.reads D.images D.moment D.since disk.old disk.new true held (item_answer held from item.now) result self.new (C.ticks clock.new) }
        ensures serves { Serves D.tells D.reads D.images D.moment D.since D.faults disk.old disk.new self.old self.new result }
        ensures unfound { IsTrue D.tells → working self.old ≡ None → StandsForNone (D.reads disk.old) → IsFailure result }
        ensures works { is_failed result ≡ false → IsSome (working self.new) }
        ensures asked { NoneOpened result (tools disk.old self.old clock.old) (tools disk.new self.new clock.new) ⊎ IsAsked D.tells D.reads D.images D.faults C.ticks result (tools disk.old self.old clock.old) (tools disk.new self.new clock.new) }
        ensures unread { IsSome (working self.old) → register_in self.new ≡ register_in self.old }
        ensures same_clock { IsTrue D.tells → working self.old ≡ None → StandsForNone (D.reads disk.old) → clock.new ≡ clock.old }
        ensures unreceived { IsSome (working self.old) → (result.status == 201) ≡ false → is_failed result ≡ false → disk.new ≡ disk.old }
    {
        let mut book = match self.take_book(alloc, disk) {
            Ok(book) => book,
            Err(fault) => return Reply::unopened(&fault),
        };
        let answer = receive(&mut book, alloc, disk, clock, from, item);
        self.book = Some(book);
        Reply::received(alloc, answer)
    }

    /// Answers a POST by its body.
    fn post<D: Disk, C: Clock>(
        &mut self,
        alloc: Global,
        disk: &mut D,
        clock: &mut C,
        body: &[u8],
    ) -> Reply
        requires short { length body.now ≤ longest_line }
        requires stands_open { IsTrue D.tells → StandsOpen self.old (D.reads disk.old) (D.images disk.old) }
        ensures ends { IsTrue D.tells → (held : Held) → Holds self.old (D.reads disk.old) (D.images disk.old) (C.ticks clock.old) held
            → EndsBy D.reads D.images D.moment D.since disk.old disk.new (is_ok (item_of body.now)) held (body_answer held (item_of body.now)) result self.new (C.ticks clock.new) }
        ensures serves { Serves D.tells D.reads D.images D.moment D.since D.faults disk.old disk.new self.old self.new result }
        ensures uncalled { is_ok (item_of body.now) ≡ false → (tools disk.new self.new clock.new ≡ tools disk.old self.old clock.old) × SaysAsked body.now (AskedFor Post) result }
        ensures unfound { IsTrue D.tells → working self.old ≡ None → StandsForNone (D.reads disk.old) → is_ok (item_of body.now) ≡ true → IsFailure result }
        ensures works { is_ok (item_of body.now) ≡ true → is_failed result ≡ false → IsSome (working self.new) }
        ensures unreceived { IsSome (working self.old) → (result.status == 201) ≡ false → is_failed result ≡ false → disk.new ≡ disk.old }
        ensures asked { is_ok (item_of body.now) ≡ true → AsksOnce D.tells D.reads D.images D.faults C.ticks result (tools disk.old self.old clock.old) (tools disk.new self.new clock.new) }
        ensures unread { IsSome (working self.old) → register_in self.new ≡ register_in self.old }
        ensures same_clock { IsTrue D.tells → working self.old ≡ None → StandsForNone (D.reads disk.old) → clock.new ≡ clock.old }
    {
        let (sender, reference, item) = match read_item(alloc, body) {
            Ok(found) => found,
            Err(fault) => return Reply::malformed(alloc, &fault),
        };
        let from = SenderReference { sender, reference };
        self.post_item(alloc, disk, clock, from, &item)
    }

    /// Answers a request that asks for a route.
    fn answer_route<D: Disk, C: Clock>(
        &mut self,
        alloc: Global,
        disk: &mut D,
        clock: &mut C,
        route: Route,
        body: &[u8],
    ) -> Reply
        requires short { length body.now ≤ longest_line }
        requires stands_open { IsTrue D.tells → StandsOpen self.old (D.reads disk.old) (D.images disk.old) }
        ensures ends { IsTrue D.tells → (held : Held) → Holds self.old (D.reads disk.old) (D.images disk.old) (C.ticks clock.old) held
            → EndsBy D.reads D.images D.moment D.since disk.old disk.new (may_call_disk (AskedFor route) body.now) held (answer held body.now (AskedFor route)) result self.new (C.ticks clock.new) }
        ensures serves { Serves D.tells D.reads D.images D.moment D.since D.faults disk.old disk.new self.old self.new result }
        ensures uncalled { may_call_disk (AskedFor route) body.now ≡ false → (tools disk.new self.new clock.new ≡ tools disk.old self.old clock.old) × SaysAsked body.now (AskedFor route) result }
        ensures unfound { IsTrue D.tells → working self.old ≡ None → StandsForNone (D.reads disk.old) → may_call_disk (AskedFor route) body.now ≡ true → IsFailure result }
        ensures works { may_call_disk (AskedFor route) body.now ≡ true → is_failed result ≡ false → IsSome (working self.new) }
        ensures untouched { IsSome (working self.old) → posts_item (AskedFor route) body.now ≡ false → disk.new ≡ disk.old }
        ensures unreceived { IsSome (working self.old) → (result.status == 201) ≡ false → is_failed result ≡ false → disk.new ≡ disk.old }
        ensures text { reads_register route ≡ true → is_text_status result ≡ true }
        ensures read { reads_register route ≡ true → is_failed result ≡ false → IsAllSettled self.new }
        ensures unread { reads_register route ≡ false → IsSome (working self.old) → register_in self.new ≡ register_in self.old }
        ensures clock_kept { posts_item (AskedFor route) body.now ≡ false → clock.new ≡ clock.old }
        ensures asked { posts_item (AskedFor route) body.now ≡ true → AsksOnce D.tells D.reads D.images D.faults C.ticks result (tools disk.old self.old clock.old) (tools disk.new self.new clock.new) }
        ensures same_clock { IsTrue D.tells → working self.old ≡ None → StandsForNone (D.reads disk.old) → clock.new ≡ clock.old }
    {
        match &route {
            Route::Post => self.post(alloc, disk, clock, body),
            _ => self.read(alloc, disk, route),
        }
    }

    /// The route of a method and a path, by the table that is kept where there is one.
    fn find_route(&self, alloc: Global, method: &Method, path: &[u8]) -> Result<Route, RouteFault>
        ensures found { IfOk result (λ route. IsRoute route × (path.now ≡ path_of route) × (method.now ≡ method_of route)) }
        ensures not_found { result ≡ Err NotFound → (route : Route) → IsRoute route → path.now ≢ path_of route }
        ensures wrong_method { result ≡ Err WrongMethod
            → (route : Route) × IsRoute route × (path.now ≡ path_of route) × (method.now ≢ method_of route) }
    {
        match &self.routes {
            Some(routes) => routes.route(alloc, method, path),
            None => route(alloc, method, path),
        }
    }

    /// Answers a request. Its route is found first, then a POST's body is read, and only then is the
    /// disk called: the book is opened where none is open or the open one has failed. The clock is
    /// asked once for each item, just before it is received. It may run out of memory at each point,
    /// and then answers 507.
    pub fn answer_request<D: Disk, C: Clock>(
        &mut self,
        alloc: Global,
        disk: &mut D,
        clock: &mut C,
        request: &Request,
    ) -> Reply
        requires short { length request.now.body ≤ longest_line }
        requires stands_open { IsTrue D.tells → StandsOpen self.old (D.reads disk.old) (D.images disk.old) }
        ensures answers { IsTrue D.tells → (held : Held) → Holds self.old (D.reads disk.old) (D.images disk.old) (C.ticks clock.old) held
            → AnswersRequest D.reads D.images D.moment D.since disk.old disk.new request.now held result (Holds self.new (D.reads disk.new) (D.images disk.new) (C.ticks clock.new)) }
        ensures stands_open { IsTrue D.tells → StandsOpen self.new (D.reads disk.new) (D.images disk.new) }
        ensures status { IsTrue (is_reply_status result.status) }

        // What it did to the disk, the book and the clock, whatever the disk and the clock tell.
        ensures turn { AnswersTurn D.tells D.reads D.images D.faults C.ticks request.now result (tools disk.old self.old clock.old) (tools disk.new self.new clock.new) }

        // The clock is not asked where the file stands for no journal, and a made file stays made.
        ensures same_clock { IsTrue D.tells → working self.old ≡ None → StandsForNone (D.reads disk.old) → clock.new ≡ clock.old }
        ensures made { IsTrue D.tells → IsMade the_heading (D.reads disk.old) → IsMade the_heading (D.reads disk.new) }

        // Each answer about the file is by its standing, where a book had to be opened.
        ensures no_journal { IsTrue D.tells → result.status ≡ 500 → IsNoJournal (D.reads disk.old) }
        ensures not_opened { IsTrue D.tells → working self.old ≡ None → StandsForNone (D.reads disk.old) → tells_of_journal result ≡ false }
        ensures answers_none { IsTrue D.tells → working self.old ≡ None → StandsForNone (D.reads disk.old) → AnswersNone disk.old disk.new request.now result }
        ensures no_book { IsTrue D.tells → working self.old ≡ None → StandsForNone (D.reads disk.old) → OpensNone D.reads D.images D.moment D.since disk.old disk.new self.new }
    {
        let route = match self.find_route(alloc, request.method(), request.path()) {
            Ok(route) => route,
            Err(fault) => return Reply::unrouted(fault),
        };
        self.answer_route(alloc, disk, clock, route, request.body())
    }
}
