//! A book with the register of its journal.
//! Why so: docs/DECISIONS.md, "A register that is not there is made of the whole journal".
ghost use Rattle.std.specs.Prelude.{◌≡◌, ◌↔◌, ◌≤◌, ◌+◌, ◌||◌, None, true, false, IfSome, IsSome, IsTrue, IsSomeAnd, IfOk, IfErr, OnOk, length, option_map};
ghost use Rattle.gb_outside.specs.Faults.{Counts};
ghost use Rattle.gb_outside.specs.Images.{Holds, Torn, Only, LeavesOnly};
ghost use Rattle.act_model.specs.WellFormed.{well_formed};
ghost use Rattle.act_codec.specs.Spelling.{spelling};
ghost use Rattle.journal_disk.specs.Layout.{the_heading, first_gate, appended};
ghost use Rattle.journal_disk.specs.Opening.{IsKept, MakesUnmade, AnswersSynced};
ghost use Rattle.receipt_journal.specs.Standing.{AreRecordsTo, Stands};
ghost use Rattle.receipt_journal.specs.Opening.{BookOpens, BookRefuses, book_opening_disk_failed};
ghost use Rattle.receipt_journal.specs.Receiving.{answer_on, is_received, receiving_disk_failed, Answers, journal_after, next_receipt, JournalWithOrWithout};
ghost use Rattle.registrar.specs.HasSettled.{IsRegisterOf};
ghost use Rattle.settled_book.specs.Texts.{reads_register, text_of};

use crate::settling::settle_rest;
use crate::texts::text_of;
use act_model::Item;
use desk_pool::settle_at_desks;
use gb_base::{NoMemory, Stamp};
use gb_outside::{DeskGate, Disk};
use receipt_journal::{Book, BookFault, Received};
use registrar::laws::later_receipts_change_nothing;
use registrar::{Register, Scratch, alone};
use registry_http::Route;
use std::alloc::Global;
use std::marker::Model;
use std::sync::Wait;
use std::thread::Threads;

/// The journal of the office on its disk, and the register of its first receipts, which goes on by
/// what came since when a text is read. The disk is lent to each call.
#[derive(Drop)]
pub struct SettledBook {
    book: Book,
    /// None where nothing is settled yet, and where memory ran out when it was to go on.
    register: Option<Register>,
    /// What the lowest bids of sales are computed in when receipts are settled.
    scratch: Scratch,
}

impl Model for SettledBook {
    ghost use Rattle.settled_book.specs.SettledBookState.{MayHaveSettled, SettledBookState};

    ghost Value = { SettledBookState };

    ghost view = { λ a. record { book = a.book; register = a.register } };

    ghost invariant = { λ a. MayHaveSettled a.book.journal a.register };
}

impl SettledBook {
    /// Opens the journal of a disk, as `Book::open` does. Nothing is settled yet.
    pub fn open<D: Disk>(alloc: Global, disk: &mut D) -> Result<SettledBook, BookFault>
        // The log's gate is the one after the journal's frames, on any disk.
        ensures records { IfOk result (λ settled. AreRecordsTo settled.book.journal settled.book.log.gate) }

        // The answer is by the file's standing.
        ensures opened { IsTrue D.tells → IfOk result (λ settled. BookOpens (D.reads disk.old) settled.book (D.reads disk.new) (D.images disk.new)) }
        ensures works { IfOk result (λ settled. settled.book.log.failed ≡ false) }
        ensures unsettled { IfOk result (λ settled. settled.register ≡ None) }
        ensures made { IsTrue D.tells → MakesUnmade (book_opening_disk_failed result) (D.reads disk.old) (D.reads disk.new) }
        ensures settled { OnOk result (IsTrue D.tells → Only (D.reads disk.new) (D.images disk.new)) }
        ensures refused { IsTrue D.tells → IfErr result (BookRefuses (D.reads disk.old)) }
        ensures kept { IsTrue D.tells → IsKept (D.reads disk.old) (D.reads disk.new) }
        ensures torn { IsTrue D.tells → Torn 0 (first_gate the_heading + 1) (D.reads disk.old) (D.reads disk.new) }

        // Every answer but `Disk` comes only after a sync, done before every write: a stop at any moment from then on leaves the journal that was found.
        ensures any_moment { IsTrue D.tells → AnswersSynced D.reads D.images D.moment D.since disk.old disk.new (book_opening_disk_failed result) }
        ensures cause { Counts (D.faults disk.old) (D.faults disk.new) (book_opening_disk_failed result) }
    {
        let book = Book::open(alloc, disk)?;
        match Scratch::with_room(alloc, 0, 0) {
            Ok(scratch) => Ok(SettledBook {
                book,
                register: None,
                scratch,
            }),
            Err(_) => Err(BookFault::Memory),
        }
    }

    /// The book.
    pub fn book(&self) -> &Book
        ensures { result.now ≡ self.now.book }
    {
        &self.book
    }

    /// Settles the journal at so many desks, 1 to 64, where nothing of it is settled yet. Where
    /// memory runs out for that, the next text settles it.
    pub fn settle<R: AllocGlobal + Threads + Wait + Sync, G: DeskGate>(
        &mut self,
        rt: &R,
        desks: u16,
        gate: &G,
    )
        requires desks { (1 ≤ desks) × (desks ≤ 64) }
        ensures book { self.new.book ≡ self.old.book }
        ensures register { IsSome self.old.register → self.new.register ≡ self.old.register }
        ensures settled { self.old.register ≡ None → IfSome self.new.register (IsRegisterOf self.old.book.journal) }
    {
        if self.register.is_none() {
            self.register = settle_at_desks(rt, self.book.journal(), desks, gate).ok();
        }
    }

    /// Receives an item, as `Book::receive` does. What was settled stays settled.
    pub fn receive<D: Disk>(
        &mut self,
        alloc: Global,
        disk: &mut D,
        stamp: Stamp,
        sender: u32,
        reference: u64,
        item: &Item,
    ) -> Received
        requires item { IsTrue (well_formed item.now) }
        requires stands { IsTrue D.tells → self.old.book.log.failed ≡ false → Stands self.old.book (D.reads disk.old) (D.images disk.old) }

        // The answer is the expected one on any disk, and each fault has its cause.
        ensures must_reopen { (result ≡ Received.MustReopen) ↔ (self.old.book.log.failed ≡ true) }
        ensures answer { self.old.book.log.failed ≡ false → Answers (answer_on self.old.book.journal stamp sender reference item.now) result }
        ensures cause { Counts (D.faults disk.old) (D.faults disk.new) (receiving_disk_failed result) }

        // Only an accepted item changes the journal, and only `Disk` makes the book fail. Of the file no bytes outside the new frame change, whatever the answer.
        ensures journal { self.new.book.journal ≡ journal_after self.old.book.journal stamp sender reference item.now result }
        ensures unchanged { is_received result ≡ false → receiving_disk_failed result ≡ false → self.new.book ≡ self.old.book }
        ensures untouched { is_received result ≡ false → receiving_disk_failed result ≡ false → disk.new ≡ disk.old }
        ensures failed { self.new.book.log.failed ≡ (self.old.book.log.failed || receiving_disk_failed result) }
        ensures written { IsTrue D.tells → is_received result ≡ true
            → Holds (D.reads disk.old) self.old.book.log.gate (appended (spelling (next_receipt self.old.book.journal stamp sender reference item.now))) (D.reads disk.new) }
        ensures torn { IsTrue D.tells
            → Torn self.old.book.log.gate (length (appended (spelling (next_receipt self.old.book.journal stamp sender reference item.now)))) (D.reads disk.old) (D.reads disk.new) }
        ensures stands { IsTrue D.tells → self.new.book.log.failed ≡ false → Stands self.new.book (D.reads disk.new) (D.images disk.new) }
        ensures any_moment { IsTrue D.tells → self.old.book.log.failed ≡ false
            → LeavesOnly D.moment D.since disk.old disk.new (JournalWithOrWithout self.old.book.journal (next_receipt self.old.book.journal stamp sender reference item.now)) }
        ensures register { self.new.register ≡ self.old.register }
    {
        later_receipts_change_nothing();
        self.book
            .receive(alloc, disk, stamp, sender, reference, item)
    }

    /// The text that a route reads of the register of the journal as it stands; None where nothing of
    /// that name is there. First it settles what came since the last text. Where memory runs out
    /// for that, the next text settles the whole journal again.
    pub fn text(&mut self, alloc: Global, route: Route) -> Result<Option<Vec<u8>>, NoMemory>
        ensures text { IfOk result (λ text. option_map (λ t. t.items) text ≡ text_of self.old.book.journal route) }
        ensures book { self.new.book ≡ self.old.book }
        ensures settled { OnOk result (IsTrue (reads_register route) → IsSomeAnd self.new.register (IsRegisterOf self.old.book.journal)) }
    {
        match &route {
            Route::Post => Ok(None),
            _ => self.read(alloc, route),
        }
    }

    /// The text of a route that reads the register; after it the register is there.
    fn read(&mut self, alloc: Global, route: Route) -> Result<Option<Vec<u8>>, NoMemory>
        ensures text { IfOk result (λ text. option_map (λ t. t.items) text ≡ text_of self.old.book.journal route) }
        ensures book { self.new.book ≡ self.old.book }
        ensures settled { OnOk result (IsSomeAnd self.new.register (IsRegisterOf self.old.book.journal)) }
    {
        let register = self.take_settled(alloc)?;
        let text = text_of(alloc, &register, self.book.journal(), route);
        self.register = Some(register);
        text
    }

    /// Takes out the register, with all receipts settled.
    fn take_settled(&mut self, alloc: Global) -> Result<Register, NoMemory>
        ensures register { IfOk result (IsRegisterOf self.old.book.journal) }
        ensures book { self.new.book ≡ self.old.book }
    {
        match self.register.take() {
            Some(mut register) => {
                settle_rest(&mut register, &mut self.scratch, self.book.journal())?;
                Ok(register)
            }
            None => alone(alloc, self.book.journal()),
        }
    }
}

/// Takes any type whose values threads may hand on and share.
fn is_shared<T: Send + Sync>() {}

/// Threads may hand a settled book on, and several may read its book at the same time.
fn settled_books_are_shared() {
    is_shared::<SettledBook>();
}
