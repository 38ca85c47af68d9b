//! The book: a journal and the log that keeps it.
ghost use Rattle.std.specs.Prelude.{◌≡◌, ◌↔◌, ◌+◌, ◌≤◌, true, false, ◌||◌, IsTrue, IfOk, IfErr, OnOk, length};
ghost use Rattle.std.specs.Option.{option_copied};
ghost use Rattle.gb_outside.specs.Faults.{Counts};
ghost use Rattle.gb_outside.specs.Images.{Holds, Torn, Only, LeavesOnly};
ghost use Rattle.act_model.specs.WellFormed.{well_formed};
ghost use Rattle.act_model.specs.Receiving.{receipt_at, answer_to};
ghost use Rattle.act_model.specs.Receiving as journals;
ghost use Rattle.act_model.specs.declared.items.Item.{Item};
ghost use Rattle.act_codec.specs.Spelling.{longest_spelling, spelling};
ghost use Rattle.act_codec.specs.Values.{IsReceipt};
ghost use Rattle.journal_disk.specs.Layout.{the_heading, first_gate, IsBody, appended};
ghost use Rattle.journal_disk.specs.Opening.{IsKept, MakesUnmade, AnswersSynced};
ghost use Rattle.receipt_journal.specs.Standing.{AreRecordsTo, Stands};
ghost use Rattle.receipt_journal.specs.Opening.{BookOpens, BookRefuses, book_opening_disk_failed};
ghost use Rattle.receipt_journal.specs.Receiving.{in_journal, answer_on, is_received, receiving_disk_failed, Answers, journal_after, next_receipt, JournalWithOrWithout};

use crate::lengths::is_short;
use crate::records::take_records;
use crate::{BookFault, Received};
use act_codec::encode;
use act_model::{Added, Item, Journal, Receipt};
use gb_base::{NoMemory, ReceiptNo, Stamp};
use gb_outside::Disk;
use journal_disk::{AppendFault, Log, OpenFault};
use std::alloc::Global;
use std::marker::Model;

/// The journal of the office, and the log on a disk that keeps it. The disk is lent to each call.
///
/// ```
/// let mut book = Book::open(alloc, &mut disk)?;
/// // Sender 1 calls the item 5.
/// match book.receive(alloc, &mut disk, stamp, 1, 5, &item) {
///     // The receipt is on the disk.
///     Received::Accepted(n) => assert!(book.get(n).is_some()),
///     Received::Repeated(_) | Received::Differs(_) | Received::Full => {}
///     // Opened again, the journal has the receipt or not.
///     Received::Disk | Received::MustReopen => book = Book::open(alloc, &mut disk)?,
///     Received::Memory => {}
/// }
/// ```
#[derive(Drop)]
pub struct Book {
    journal: Journal,
    log: Log,
}

impl Model for Book {
    ghost use Rattle.receipt_journal.specs.BookState.{BookState};
    ghost use Rattle.receipt_journal.specs.Standing.{AreRecordsTo};

    ghost Value = { BookState };

    ghost view = { λ a. record { journal = a.journal.receipts; log = a.log } };

    ghost invariant = { λ a. AreRecordsTo a.journal.receipts a.log.gate };
}

impl Book {
    /// Opens the journal of a disk. An unmade file is made, and stands for the empty journal.
    /// An answer about the file comes only after a sync, so that a stop leaves what it says.
    pub fn open<D: Disk>(alloc: Global, disk: &mut D) -> Result<Book, BookFault>
        // The log's gate is the one after the journal's frames, on any disk.
        ensures records { IfOk result (λ book. AreRecordsTo book.journal book.log.gate) }

        // The answer is by the file's standing.
        ensures opened { IsTrue D.tells → IfOk result (λ book. BookOpens (D.reads disk.old) book (D.reads disk.new) (D.images disk.new)) }
        ensures works { IfOk result (λ book. book.log.failed ≡ false) }
        ensures made { IsTrue D.tells → MakesUnmade (book_opening_disk_failed result) (D.reads disk.old) (D.reads disk.new) }
        ensures settled { OnOk result (IsTrue D.tells → Only (D.reads disk.new) (D.images disk.new)) }
        ensures refused { IsTrue D.tells → IfErr result (BookRefuses (D.reads disk.old)) }
        ensures kept { IsTrue D.tells → IsKept (D.reads disk.old) (D.reads disk.new) }
        ensures torn { IsTrue D.tells → Torn 0 (first_gate the_heading + 1) (D.reads disk.old) (D.reads disk.new) }

        // Every answer but `Disk` comes only after a sync, done before every write: a stop at any moment from then on leaves the journal that was found.
        ensures any_moment { IsTrue D.tells → AnswersSynced D.reads D.images D.moment D.since disk.old disk.new (book_opening_disk_failed result) }
        ensures cause { Counts (D.faults disk.old) (D.faults disk.new) (book_opening_disk_failed result) }
    {
        let mut journal = Journal::new(alloc);
        match Log::open(alloc, disk) {
            Ok((log, frames)) => {
                take_records(&mut journal, &frames)?;
                Ok(Book { journal, log })
            }
            Err(OpenFault::BadRecord { at, ahead }) => {
                take_records(&mut journal, &ahead)?;
                Err(BookFault::BadRecord { at })
            }
            Err(OpenFault::Disk) => Err(BookFault::Disk),
            Err(OpenFault::NotJournal) => Err(BookFault::NotJournal),
            Err(OpenFault::Memory) => Err(BookFault::Memory),
        }
    }

    /// Whether an earlier item was answered `Disk`.
    pub fn failed(&self) -> bool
        ensures { result ≡ self.now.log.failed }
    {
        self.log.failed()
    }

    /// The journal.
    pub fn journal(&self) -> &Journal
        ensures { result.now.receipts ≡ self.now.journal }
    {
        &self.journal
    }

    /// Receipt n; None above the last one.
    pub fn get(&self, n: ReceiptNo) -> Option<&Receipt>
        ensures { option_copied result ≡ receipt_at self.now.journal n }
    {
        self.journal.get(n)
    }

    /// The number of receipts.
    pub fn len(&self) -> u32
        ensures { result ≡ length self.now.journal }
    {
        self.journal.len()
    }

    /// Receives an item. One number acts once, as in a journal. Once the answer is `Accepted`, a
    /// stop leaves the receipt; a stop before that leaves the journal with it or without. All
    /// memory is taken before the disk is written.
    pub fn receive<D: Disk>(
        &mut self,
        alloc: Global,
        disk: &mut D,
        stamp: Stamp,
        sender: u32,
        reference: u64,
        item: &Item,
    ) -> Received
        requires item { IsTrue (well_formed item.now) }
        requires stands { IsTrue D.tells → self.old.log.failed ≡ false → Stands self.old (D.reads disk.old) (D.images disk.old) }

        // The answer is the expected one on any disk, and each fault has its cause.
        ensures must_reopen { (result ≡ Received.MustReopen) ↔ (self.old.log.failed ≡ true) }
        ensures answer { self.old.log.failed ≡ false → Answers (answer_on self.old.journal stamp sender reference item.now) result }
        ensures cause { Counts (D.faults disk.old) (D.faults disk.new) (receiving_disk_failed result) }

        // Only an accepted item changes the journal, and only `Disk` makes the book fail. Of the file no bytes outside the new frame change, whatever the answer.
        ensures journal { self.new.journal ≡ journal_after self.old.journal stamp sender reference item.now result }
        ensures unchanged { is_received result ≡ false → receiving_disk_failed result ≡ false → self.new ≡ self.old }
        ensures untouched { is_received result ≡ false → receiving_disk_failed result ≡ false → disk.new ≡ disk.old }
        ensures failed { self.new.log.failed ≡ (self.old.log.failed || receiving_disk_failed result) }
        ensures written { IsTrue D.tells → is_received result ≡ true
            → Holds (D.reads disk.old) self.old.log.gate (appended (spelling (next_receipt self.old.journal stamp sender reference item.now))) (D.reads disk.new) }
        ensures torn { IsTrue D.tells
            → Torn self.old.log.gate (length (appended (spelling (next_receipt self.old.journal stamp sender reference item.now)))) (D.reads disk.old) (D.reads disk.new) }
        ensures stands { IsTrue D.tells → self.new.log.failed ≡ false → Stands self.new (D.reads disk.new) (D.images disk.new) }
        ensures any_moment { IsTrue D.tells → self.old.log.failed ≡ false
            → LeavesOnly D.moment D.since disk.old disk.new (JournalWithOrWithout self.old.journal (next_receipt self.old.journal stamp sender reference item.now)) }
    {
        if self.log.failed() {
            return Received::MustReopen;
        }
        if !self.accepts(sender, reference) {
            return answered(self.journal.add(stamp, sender, reference, item));
        }
        let Ok(spelling) = self.spell(alloc, stamp, sender, reference, item) else {
            return Received::Memory;
        };
        if self.journal.reserve_one(item).is_err() {
            return Received::Memory;
        }
        match self.log.append(disk, &spelling) {
            Ok(()) => answered(self.journal.add(stamp, sender, reference, item)),
            Err(AppendFault::Full) => Received::Full,
            Err(AppendFault::Disk) => Received::Disk,
            Err(AppendFault::MustReopen) => Received::MustReopen,
        }
    }

    /// Whether the journal accepts an item of this sender and reference.
    fn accepts(&self, sender: u32, reference: u64) -> bool
        ensures { (item : Item) → journals.is_accepted (answer_to self.now.journal sender reference item) ≡ result }
    {
        let known = self.journal.find(sender, reference).is_some();
        !known && (self.journal.len() as usize) < Journal::MAX
    }

    /// The spelling of the receipt that an item gets.
    fn spell(
        &self,
        alloc: Global,
        stamp: Stamp,
        sender: u32,
        reference: u64,
        item: &Item,
    ) -> Result<Vec<u8>, NoMemory>
        requires { IsTrue (well_formed item.now) }
        // Also where memory runs out for it, it has room on the disk.
        ensures short { length (spelling (next_receipt self.now.journal stamp sender reference item.now)) ≤ longest_spelling }
        ensures body { IfOk result (λ bytes. IsBody bytes.items) }
        ensures spelled { IfOk result (λ bytes. bytes.items ≡ spelling (next_receipt self.now.journal stamp sender reference item.now)) }
        ensures is_receipt { OnOk result (IsReceipt (next_receipt self.now.journal stamp sender reference item.now)) }
    {
        let short = is_short(item);
        prove!(short);
        let receipt = Receipt {
            stamp: self.journal.next_stamp(stamp),
            sender,
            reference,
            item: item.copy(),
        };
        encode(alloc, &receipt)
    }
}

/// A journal's answer as a book's.
fn answered(added: Added) -> Received
    ensures { result ≡ in_journal added }
{
    match added {
        Added::Accepted(n) => Received::Accepted(n),
        Added::Repeated(n) => Received::Repeated(n),
        Added::Differs(n) => Received::Differs(n),
        Added::Full => Received::Full,
        Added::Memory => Received::Memory,
    }
}

/// Takes any type whose values threads may hand on and share.
fn is_shared<T: Send + Sync>() {}

/// Threads may hand on a book, and several may read one at the same time.
fn books_are_shared() {
    is_shared::<Book>();
}
