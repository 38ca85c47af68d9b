//! The filings that wait at a key, kept beside its entries, so that no reader walks the entries.
//! Why so: docs/DECISIONS.md, "A filing whose waiting has ended is swept, and its notice stays".
//! Why so: docs/DECISIONS.md, "A part is asked for the next filing that waits without a notice".
ghost use Rattle.std.specs.Prelude.{◌≡◌, ◌+◌, ◌≤◌, ◌<◌, ◌==◌, ◌&&◌, false, count_by, drop, filter, take_while, ℕ, Bool, Some, None, [], length, find, if◌then◌else◌, get_or, option_map, is_none, nat_lt, min, vec_len, vec_capacity, OnOk, IsOk};
ghost use Rattle.std.specs.List.{last_or, position_or_len};
ghost use Rattle.std.specs.Option.{option_or};
ghost use Rattle.folio_sections.specs.Waiting.{is_notice_of, until_by};
ghost use Rattle.folio_sections.specs.inner.FilingLists.{Ascends, value_in};
ghost use Rattle.folio_sections.specs.inner.Unnoticed.{first_that, floor, is_wanted, last_that};
ghost use Rattle.folio_sections.specs.inner.Waiters.{AreInOrder, FewEnded, IsMark, Until, has_ended, lacks_notice, until_in, waits};

use crate::What;
use crate::filing_list::{OfFiling, count_below, count_to, put, value_of};
use crate::list_room::keep_room;
use gb_base::{Day, NoMemory, ReceiptNo};
use std::alloc::Global;

/// What the entries at a key say of the filings that wait there.
#[derive(Drop)]
pub(crate) struct Waiters {
    /// The day until which a filing waits, in the order of filings; None once its waiting has
    /// ended.
    until: Vec<OfFiling<Option<Day>>>,
    /// How many entries stand before the first official notice of a filing, in the order of
    /// filings.
    notices: Vec<OfFiling<usize>>,
    /// None of the first so many of `until` waits.
    passed: usize,
    /// None of the first so many of `until` waits without a notice.
    noticed: usize,
    /// At most so many have ended. It counts each end since the last sweep.
    ended: usize,
}

impl Waiters {
    /// The waiters of no entries.
    pub fn new(alloc: Global) -> Waiters
        ensures order { AreInOrder result }
        ensures few { FewEnded result.until.items result.ended }
        ensures until { result.until.items ≡ [] }
        ensures notices { result.notices.items ≡ [] }
    {
        Waiters {
            until: Vec::new(alloc),
            notices: Vec::new(alloc),
            passed: 0,
            noticed: 0,
            ended: 0,
        }
    }

    /// The day until which a filing waits; None where it does not.
    pub fn until(&self, filing: ReceiptNo) -> Option<Day>
        requires { AreInOrder self.now }
        ensures { result ≡ until_in filing self.now.until.items }
    {
        value_of(self.until.as_slice(), filing).unwrap_or(None)
    }

    /// How many entries stand before the official notice of a filing; None where it has none.
    pub fn notice(&self, filing: ReceiptNo) -> Option<usize>
        requires { AreInOrder self.now }
        ensures { result ≡ value_in filing self.now.notices.items }
    {
        value_of(self.notices.as_slice(), filing)
    }

    /// The first filing above `after`, and below `filing`, that waits; None where there is none.
    pub fn next_pending(&self, after: Option<ReceiptNo>, filing: ReceiptNo) -> Option<ReceiptNo>
        requires { AreInOrder self.now }
        ensures { result ≡ first_that waits (floor after) filing self.now.until.items }
    {
        let floor = floor(after);
        let start = self.start_above(floor, self.passed);
        first_waiting(behind(self.until.as_slice(), start), floor, filing)
    }

    /// The last filing below `filing` that waits; None where there is none.
    pub fn last_pending(&self, filing: ReceiptNo) -> Option<ReceiptNo>
        requires { AreInOrder self.now }
        ensures { result ≡ last_that waits filing self.now.until.items }
    {
        let below = count_below(self.until.as_slice(), filing);
        let ahead = &self.until.as_slice()[..below];
        last_waiting(behind(ahead, self.passed.min(below)))
    }

    /// The first filing above `after`, and below `filing`, that waits without an official notice;
    /// None where there is none.
    pub fn next_unnoticed(&self, after: Option<ReceiptNo>, filing: ReceiptNo) -> Option<ReceiptNo>
        requires { AreInOrder self.now }
        ensures { result ≡ first_that (lacks_notice self.now.notices.items) (floor after) filing self.now.until.items }
    {
        let floor = floor(after);
        let start = self.start_above(floor, self.noticed);
        let list = behind(self.until.as_slice(), start);
        first_unnoticed(list, self.notices.as_slice(), floor, filing)
    }

    /// An index in `until`. No filing before it is above this number and passes a test that none of
    /// the first `mark` passes.
    fn start_above(&self, floor: u32, mark: usize) -> usize
        requires order { AreInOrder self.now }
        requires within { mark ≤ length self.now.until.items }
        ensures within { result ≤ length self.now.until.items }
        ensures passed { (t : Until → Bool) (m k : ℕ) (d : Until) → IsMark t mark self.now.until.items → k < result → is_wanted t floor m (get_or self.now.until.items k d) ≡ false }
    {
        count_to(self.until.as_slice(), floor).max(mark)
    }

    /// Keeps room for n filings in all.
    pub fn reserve_in_all(&mut self, n: usize) -> Result<(), NoMemory>
        requires few_until { vec_len self.old.until ≤ n }
        requires few_notices { vec_len self.old.notices ≤ n }
        ensures until { self.new.until.items ≡ self.old.until.items }
        ensures notices { self.new.notices.items ≡ self.old.notices.items }
        ensures passed { self.new.passed ≡ self.old.passed }
        ensures noticed { self.new.noticed ≡ self.old.noticed }
        ensures ended { self.new.ended ≡ self.old.ended }
        ensures len_until { vec_len self.new.until ≡ vec_len self.old.until }
        ensures len_notices { vec_len self.new.notices ≡ vec_len self.old.notices }
        ensures room_until { OnOk result (n ≤ vec_capacity self.new.until) }
        ensures room_notices { OnOk result (n ≤ vec_capacity self.new.notices) }
        ensures kept_until { vec_capacity self.old.until ≤ vec_capacity self.new.until }
        ensures kept_notices { vec_capacity self.old.notices ≤ vec_capacity self.new.notices }
        ensures succeeds { n ≤ vec_capacity self.old.until → n ≤ vec_capacity self.old.notices → IsOk result }
    {
        let more_until = n - self.until.len();
        keep_room(&mut self.until, more_until)?;
        let more_notices = n - self.notices.len();
        keep_room(&mut self.notices, more_notices)
    }

    /// Takes in what a further entry says, with so many entries before it. It takes no memory.
    pub fn note(&mut self, ahead: usize, what: &What)
        requires order { AreInOrder self.old }
        requires few { FewEnded self.old.until.items self.old.ended }
        requires room_until { vec_len self.old.until < vec_capacity self.old.until }
        requires room_notices { vec_len self.old.notices < vec_capacity self.old.notices }
        ensures order { AreInOrder self.new }
        ensures few { FewEnded self.new.until.items self.new.ended }
        ensures until { (m : ℕ) → until_in m self.new.until.items ≡ until_by m (until_in m self.old.until.items) what.now }
        ensures notice { (m : ℕ) → value_in m self.new.notices.items ≡ option_or (value_in m self.old.notices.items) (if is_notice_of m what.now then Some ahead else None) }
        ensures len_until { vec_len self.new.until ≤ vec_len self.old.until + 1 }
        ensures len_notices { vec_len self.new.notices ≤ vec_len self.old.notices + 1 }
        ensures capacity_until { vec_capacity self.new.until ≡ vec_capacity self.old.until }
        ensures capacity_notices { vec_capacity self.new.notices ≡ vec_capacity self.old.notices }
    {
        match what {
            What::Pending { filing, until } => self.set_to_wait(*filing, *until),
            What::Notice { filing } => {
                self.keep_notice(*filing, ahead);
                self.move_marks();
            }
            What::Settled { filing } => {
                self.end(*filing);
                self.count_ended();
                self.move_marks();
            }
            What::Opened { .. }
            | What::Owner { .. }
            | What::AwardOwner { .. }
            | What::Placed { .. }
            | What::Created(_)
            | What::Converted
            | What::Holder { .. }
            | What::Cancelled { .. }
            | What::Exchanged { .. }
            | What::Exercised { .. }
            | What::Remains { .. }
            | What::Expired
            | What::Seized
            | What::Registered
            | What::Bids { .. }
            | What::Awarded { .. }
            | What::Distributed => {}
        }
    }

    /// Sets a filing to wait until a day, in place of the one until which it waits, if any.
    fn set_to_wait(&mut self, filing: ReceiptNo, until: Day)
        requires order { AreInOrder self.old }
        requires few { FewEnded self.old.until.items self.old.ended }
        requires room { vec_len self.old.until < vec_capacity self.old.until }
        ensures order { AreInOrder self.new }
        ensures few { FewEnded self.new.until.items self.new.ended }
        ensures until { (m : ℕ) → until_in m self.new.until.items ≡ if filing == m then Some until else until_in m self.old.until.items }
        ensures notices { self.new.notices ≡ self.old.notices }
        ensures len { vec_len self.new.until ≤ vec_len self.old.until + 1 }
        ensures capacity { vec_capacity self.new.until ≡ vec_capacity self.old.until }
    {
        let notice = self.notice(filing);
        let value = Some(until);
        let index = put(&mut self.until, OfFiling { filing, value });
        self.passed = self.passed.min(index);
        self.noticed = mark_behind(self.noticed, index, notice);
    }

    /// Ends the waiting of a filing. The caller still has to count it (`count_ended`).
    fn end(&mut self, filing: ReceiptNo)
        requires order { AreInOrder self.old }
        requires few { FewEnded self.old.until.items self.old.ended }
        requires room { vec_len self.old.until < vec_capacity self.old.until }
        ensures order { AreInOrder self.new }
        ensures counted { count_by has_ended self.new.until.items ≤ self.new.ended + 1 }
        ensures until { (m : ℕ) → until_in m self.new.until.items ≡ if filing == m then None else until_in m self.old.until.items }
        ensures notices { self.new.notices ≡ self.old.notices }
        ensures len { vec_len self.new.until ≤ vec_len self.old.until + 1 }
        ensures capacity { vec_capacity self.new.until ≡ vec_capacity self.old.until }
    {
        let value = None;
        let _ = put(&mut self.until, OfFiling { filing, value });
    }

    /// Counts one more that has ended. Where they may be more than half then, all that have ended
    /// are taken away instead.
    fn count_ended(&mut self)
        requires order { AreInOrder self.old }
        requires counted { count_by has_ended self.old.until.items ≤ self.old.ended + 1 }
        ensures order { AreInOrder self.new }
        ensures few { FewEnded self.new.until.items self.new.ended }
        ensures until { (m : ℕ) → until_in m self.new.until.items ≡ until_in m self.old.until.items }
        ensures notices { self.new.notices ≡ self.old.notices }
        ensures len { vec_len self.new.until ≤ vec_len self.old.until }
        ensures capacity { vec_capacity self.new.until ≡ vec_capacity self.old.until }
    {
        if self.ended < self.until.len() / 2 {
            self.ended += 1;
        } else {
            self.sweep();
        }
    }

    /// Takes those away that have ended. Both marks begin again at the first of the others.
    fn sweep(&mut self)
        requires order { AreInOrder self.old }
        ensures order { AreInOrder self.new }
        ensures few { FewEnded self.new.until.items self.new.ended }
        ensures until { (m : ℕ) → until_in m self.new.until.items ≡ until_in m self.old.until.items }
        ensures notices { self.new.notices ≡ self.old.notices }
        ensures len { vec_len self.new.until ≤ vec_len self.old.until }
        ensures capacity { vec_capacity self.new.until ≡ vec_capacity self.old.until }
    {
        self.until.retain(|one| one.value.is_some());
        self.passed = 0;
        self.noticed = 0;
        self.ended = 0;
    }

    /// Keeps where the official notice of a filing stands; the first one stays.
    fn keep_notice(&mut self, filing: ReceiptNo, ahead: usize)
        requires order { AreInOrder self.old }
        requires room { vec_len self.old.notices < vec_capacity self.old.notices }
        ensures order { AreInOrder self.new }
        ensures until { self.new.until ≡ self.old.until }
        ensures ended { self.new.ended ≡ self.old.ended }
        ensures notice { (m : ℕ) → value_in m self.new.notices.items ≡ option_or (value_in m self.old.notices.items) (if filing == m then Some ahead else None) }
        ensures len { vec_len self.new.notices ≤ vec_len self.old.notices + 1 }
        ensures capacity { vec_capacity self.new.notices ≡ vec_capacity self.old.notices }
    {
        let value = self.notice(filing).unwrap_or(ahead);
        let _ = put(&mut self.notices, OfFiling { filing, value });
    }

    /// Moves each mark on, past those that it may pass.
    fn move_marks(&mut self)
        requires order { AreInOrder self.old }
        ensures order { AreInOrder self.new }
        ensures until { self.new.until ≡ self.old.until }
        ensures ended { self.new.ended ≡ self.old.ended }
        ensures notices { self.new.notices ≡ self.old.notices }
    {
        let until = self.until.as_slice();
        let ended = count_ended_ahead(behind(until, self.passed));
        let noticed = count_noticed_ahead(behind(until, self.noticed), self.notices.as_slice());
        self.passed += ended;
        self.noticed += noticed;
    }

    /// Forgets all of them, and keeps the room.
    pub fn clear(&mut self)
        ensures order { AreInOrder self.new }
        ensures few { FewEnded self.new.until.items self.new.ended }
        ensures until { self.new.until.items ≡ [] }
        ensures notices { self.new.notices.items ≡ [] }
        ensures capacity_until { vec_capacity self.new.until ≡ vec_capacity self.old.until }
        ensures capacity_notices { vec_capacity self.new.notices ≡ vec_capacity self.old.notices }
    {
        self.until.clear();
        self.notices.clear();
        self.passed = 0;
        self.noticed = 0;
        self.ended = 0;
    }
}

/// What the list has behind the first so many.
fn behind(list: &[OfFiling<Option<Day>>], start: usize) -> &[OfFiling<Option<Day>>]
    requires { start ≤ length list.now }
    ensures { result.now ≡ drop start list.now }
{
    &list[start..]
}

/// How many stand before the first that waits.
fn count_ended_ahead(list: &[OfFiling<Option<Day>>]) -> usize
    ensures { result ≡ position_or_len waits list.now }
{
    list.iter().take_while(|one| one.value.is_none()).count()
}

/// How many stand before the first that waits without one of these notices.
fn count_noticed_ahead(list: &[OfFiling<Option<Day>>], notices: &[OfFiling<usize>]) -> usize
    requires { Ascends 1 notices.now }
    ensures { result ≡ position_or_len (lacks_notice notices.now) list.now }
{
    list.iter()
        .take_while(|one| !lacks_notice(notices, one))
        .count()
}

/// Whether the filing waits, and has none of these notices.
fn lacks_notice(notices: &[OfFiling<usize>], one: &OfFiling<Option<Day>>) -> bool
    requires { Ascends 1 notices.now }
    ensures { result ≡ lacks_notice notices.now one.now }
{
    one.value.is_some() && value_of(notices, one.filing).is_none()
}

/// The mark `noticed` after a filing with this notice is set to wait at an index.
fn mark_behind(noticed: usize, index: usize, notice: Option<usize>) -> usize
    ensures { result ≡ if is_none notice then min noticed index else noticed }
{
    match notice {
        Some(_) => noticed,
        None => noticed.min(index),
    }
}

/// The number above which filings are looked for: 0 where there is none to begin after.
fn floor(after: Option<ReceiptNo>) -> u32
    ensures { result ≡ floor after }
{
    match after {
        Some(after) => after.get(),
        None => 0,
    }
}

/// The first of these filings that is above this number, and below `filing`, and waits.
fn first_waiting(list: &[OfFiling<Option<Day>>], floor: u32, filing: ReceiptNo) -> Option<ReceiptNo>
    ensures { result ≡ option_map (λ x. x.filing) (find (λ x. nat_lt floor x.filing && waits x) (take_while (λ x. nat_lt x.filing filing) list.now)) }
{
    list.iter()
        .take_while(|one| one.filing < filing)
        .find(|one| floor < one.filing.get() && one.value.is_some())
        .map(|one| one.filing)
}

/// The last of these filings that waits.
fn last_waiting(list: &[OfFiling<Option<Day>>]) -> Option<ReceiptNo>
    ensures { result ≡ option_map (λ x. x.filing) (last_or None (filter waits list.now)) }
{
    list.iter()
        .rev()
        .find(|one| one.value.is_some())
        .map(|one| one.filing)
}

/// The first of these filings that is above this number, and below `filing`, and lacks a notice.
fn first_unnoticed(
    list: &[OfFiling<Option<Day>>],
    notices: &[OfFiling<usize>],
    floor: u32,
    filing: ReceiptNo,
) -> Option<ReceiptNo>
    requires { Ascends 1 notices.now }
    ensures { result ≡ option_map (λ x. x.filing) (find (λ x. nat_lt floor x.filing && lacks_notice notices.now x) (take_while (λ x. nat_lt x.filing filing) list.now)) }
{
    list.iter()
        .take_while(|waiter| waiter.filing < filing)
        .find(|waiter| floor < waiter.filing.get() && lacks_notice(notices, waiter))
        .map(|waiter| waiter.filing)
}
