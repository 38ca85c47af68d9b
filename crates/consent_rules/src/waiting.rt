//! The earlier filings that wait at a right (BGB § 876).
ghost use Rattle.std.specs.Prelude.{◌≡◌, ◌||◌, ◌==◌, ◌-◌, ◌↔◌, false, find, is_some, nat_le, option_and_then, IfSome, IsNone, None};
ghost use Rattle.std.specs.List.{last_or, list_any, slice_get};
ghost use Rattle.std.specs.Option.{option_map_or};
ghost use Rattle.gb_base.specs.Ascending.{AscendsBy};
ghost use Rattle.act_model.specs.Touches.{applicant_of};
ghost use Rattle.folio_sections.specs.Waiting.{is_above, waiting_before};
ghost use Rattle.consent_rules.specs.Persons.{waiting_applicants};
ghost use Rattle.consent_rules.specs.inner.Lacks.{is_lacking};
ghost use Rattle.consent_rules.specs.inner.WaitersAbove.{applicants_above};

use crate::lacks::{Lack, is_lacking};
use crate::walk_starts::start;
use act_model::{Journal, PersonTest, applicant_of};
use folio_sections::RightPart;
use gb_base::{Person, ReceiptNo};
use std::marker::Model;

/// The applicants of the earlier filings that wait at a right. In contracts it is their list, in
/// the order of the filings' receipt.
#[derive(Drop)]
pub struct Waiting<'a> {
    journal: &'a Journal,
    before: ReceiptNo,
    part: &'a RightPart,
}

impl<'a> Model for Waiting<'a> {
    ghost use Rattle.std.specs.Prelude.{List, ℕ};
    ghost use Rattle.consent_rules.specs.Persons.{waiting_applicants};

    ghost Value = { List ℕ };

    ghost view = { λ a. waiting_applicants a.journal.now.receipts a.before a.part.now.entries };
}

impl<'a> Waiting<'a> {
    ghost use Rattle.consent_rules.specs.Persons.{waiting_applicants};

    /// The applicants of the filings before this one that wait at the right.
    pub fn new(journal: &'a Journal, before: ReceiptNo, part: &'a RightPart) -> Waiting<'a>
        ensures { result ≡ waiting_applicants journal.now.receipts before part.now.entries }
    {
        Waiting {
            journal,
            before,
            part,
        }
    }

    /// Whether the person is one of them.
    pub fn has(&self, person: Person) -> bool
        ensures { result ≡ list_any (λ q. q == person) self.now }
    {
        waits(self.journal, self.before, self.part, person)
    }

    /// Whether this is lacking from one of them. For the consent itself, those who wait are asked
    /// until one has not consented. Whoever lacks the form has consented in plain form alone: so for
    /// the form, if anybody waits, those who consented so are asked whether they wait.
    pub fn some(&self, lack: &Lack) -> bool
        ensures { result ≡ list_any (is_lacking lack.now) self.now }
    {
        match lack {
            Lack::Consent(_, _) => some_waits(self.journal, self.before, self.part, lack),
            Lack::Form(matter, act) => {
                some_filing_waits(self.before, self.part)
                    && matter.some_plain_consenter(*act, &Waiter { waiting: self })
            }
        }
    }
}

/// The test whether a person is one of those who wait.
#[derive(Drop)]
struct Waiter<'a> {
    waiting: &'a Waiting<'a>,
}

impl<'a> PersonTest for Waiter<'a> {
    ghost use Rattle.std.specs.Prelude.{◌==◌};
    ghost use Rattle.std.specs.List.{list_any};

    ghost test = { λ w p. list_any (λ q. q == p) w.waiting.now };

    fn passes(&self, person: Person) -> bool {
        self.waiting.has(person)
    }
}

/// Whether an earlier filing waits at the right.
fn some_filing_waits(before: ReceiptNo, part: &RightPart) -> bool
    ensures { result ≡ is_some (find (is_above None) (waiting_before before part.now.entries)) }
{
    part.next_pending(None, before).is_some()
}

/// Whether the person is the applicant of an earlier filing that waits at the right. From the
/// person's first filing on it takes the next filing that waits, and then the person's next filing
/// at or above that one, in turn, until both are one filing or one of them is missing.
fn waits(journal: &Journal, before: ReceiptNo, part: &RightPart, person: Person) -> bool
    ensures { result ≡ list_any (λ q. q == person) (waiting_applicants journal.now.receipts before part.now.entries) }
{
    let filings = journal.filings_of(person);
    let Some(first) = number_at(filings, 0) else {
        return false;
    };
    let mut after = number_below(first);
    while let Some(waiting) = part.next_pending(after, before) {
        let Some(filing) = first_from(filings, waiting) else {
            return false;
        };
        if filing.get() == waiting.get() {
            return true;
        }
        after = number_below(filing);
    }
    false
}

/// The number below this one; None below the first.
fn number_below(n: ReceiptNo) -> Option<ReceiptNo>
    ensures none { IsNone result ↔ (n - 1 ≡ 0) }
    ensures value { IfSome result (λ k. k ≡ n - 1) }
{
    ReceiptNo::new(n.get() - 1)
}

/// The first of these ascending numbers that is not below n.
fn first_from(numbers: &[ReceiptNo], n: ReceiptNo) -> Option<ReceiptNo>
    requires { AscendsBy (λ k. k) 1 numbers.now }
    ensures { result ≡ find (nat_le n) numbers.now }
{
    let below = numbers.partition_point(|number| *number < n);
    number_at(numbers, below)
}

/// The number at this index; None after the last one.
fn number_at(numbers: &[ReceiptNo], i: usize) -> Option<ReceiptNo>
    ensures { result ≡ slice_get numbers.now i }
{
    numbers.get(i).copied()
}

/// Whether this is lacking from an applicant of an earlier filing that waits at the right. The last
/// one is asked first: where they consent in the order in which they wait, the last one consents
/// last, and until then nobody else is asked.
fn some_waits(journal: &Journal, before: ReceiptNo, part: &RightPart, lack: &Lack) -> bool
    ensures { result ≡ list_any (is_lacking lack.now) (waiting_applicants journal.now.receipts before part.now.entries) }
{
    last_lacks(journal, before, part, lack) || some_lacks(journal, before, part, lack)
}

/// Whether this is lacking from an applicant of an earlier filing that waits at the right, with all
/// of them asked. Two walks take turns. One goes from the first filing that waits up to a filing of
/// somebody who consents in the item with which the filing is judged. The other goes from that
/// filing to the end. Where there is no such filing, the first walk goes over all. Where applicants
/// consent in the order in which they wait, also where they begin in the middle and come round, the
/// next one to consent stands right after that filing. Where they begin with the last, the first
/// consents last.
fn some_lacks(journal: &Journal, before: ReceiptNo, part: &RightPart, lack: &Lack) -> bool
    ensures { result ≡ list_any (is_lacking lack.now) (waiting_applicants journal.now.receipts before part.now.entries) }
{
    let from = start(journal, before, part, lack);
    let mut ahead = None;
    let mut behind = number_below(from);
    while let Some(filing) = part.next_pending(ahead, from) {
        if is_lacking_from(lack, applicant_of(journal, filing)) {
            return true;
        }
        if next_lacks(journal, &mut behind, before, part, lack) {
            return true;
        }
        ahead = Some(filing);
    }
    some_lacks_above(journal, behind, before, part, lack)
}

/// Whether this is lacking from the applicant of the next filing above `after` that waits at the
/// right. `after` becomes that filing, so that those above it are left to ask.
fn next_lacks(
    journal: &Journal,
    after: &mut Option<ReceiptNo>,
    before: ReceiptNo,
    part: &RightPart,
    lack: &Lack,
) -> bool
    ensures { (result || list_any (is_lacking lack.now) (applicants_above journal.now.receipts after.new before part.now.entries)) ≡ list_any (is_lacking lack.now) (applicants_above journal.now.receipts after.old before part.now.entries) }
{
    match part.next_pending(*after, before) {
        Some(filing) => {
            *after = Some(filing);
            is_lacking_from(lack, applicant_of(journal, filing))
        }
        None => false,
    }
}

/// Whether this is lacking from the applicant of an earlier filing above a number that waits at the
/// right.
fn some_lacks_above(
    journal: &Journal,
    above: Option<ReceiptNo>,
    before: ReceiptNo,
    part: &RightPart,
    lack: &Lack,
) -> bool
    ensures { result ≡ list_any (is_lacking lack.now) (applicants_above journal.now.receipts above before part.now.entries) }
{
    let mut after = above;
    while let Some(filing) = part.next_pending(after, before) {
        if is_lacking_from(lack, applicant_of(journal, filing)) {
            return true;
        }
        after = Some(filing);
    }
    false
}

/// Whether this is lacking from the applicant of the last earlier filing that waits at the right.
fn last_lacks(journal: &Journal, before: ReceiptNo, part: &RightPart, lack: &Lack) -> bool
    ensures { result ≡ option_map_or (is_lacking lack.now) (option_and_then (applicant_of journal.now.receipts) (last_or None (waiting_before before part.now.entries))) false }
{
    match part.last_pending(before) {
        Some(filing) => is_lacking_from(lack, applicant_of(journal, filing)),
        None => false,
    }
}

/// Whether this is lacking from the applicant, if there is one.
fn is_lacking_from(lack: &Lack, applicant: Option<Person>) -> bool
    ensures { result ≡ option_map_or (is_lacking lack.now) applicant false }
{
    match applicant {
        Some(person) => is_lacking(lack, person),
        None => false,
    }
}
