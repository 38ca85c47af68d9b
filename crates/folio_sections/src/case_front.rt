//! A forced sale as it stood before a receipt.
ghost use Rattle.std.specs.Prelude.{◌≡◌, ◌≤◌, IfSome, None, fold, length, not, take};
ghost use Rattle.std.specs.List.{list_any, suffix_len};
ghost use Rattle.folio_sections.specs.Cases.{award, award_by, call, call_by, case, is_distribution, is_running, is_seizure, registration_numbers, seizure_numbers};
ghost use Rattle.folio_sections.specs.Limits.{most_registrations, most_seizures};

use crate::case_numbers::{
    copy_numbers, first_registrations, first_seizures, is_distribution, is_seizure,
};
use crate::{CasePart, Entry, What};
use arrayvec::ArrayVec;
use gb_base::ReceiptNo;
use std::marker::Model;

/// The first entries at a forced sale. In contracts it is the list of these entries.
#[derive(Drop)]
pub struct CaseFront<'a> {
    part: &'a CasePart,
    /// How many of the part's entries it has.
    len: usize,
}

impl<'a> Model for CaseFront<'a> {
    ghost use Rattle.std.specs.Prelude.{List, ◌≤◌, length, take};
    ghost use Rattle.folio_sections.specs.declared.entries.Entry.{Entry};

    ghost Value = { List Entry };

    ghost view = { λ a. take a.len a.part.now.entries };

    ghost invariant = { λ a. a.len ≤ length a.part.now.entries };
}

impl<'a> CaseFront<'a> {
    /// The first so many entries of a part.
    pub(crate) fn new(part: &'a CasePart, len: usize) -> CaseFront<'a>
        requires { len ≤ length part.now.entries }
        ensures { result ≡ take len part.now.entries }
    {
        CaseFront { part, len }
    }

    /// Whether a case ran: the land was seized (ZVG § 20), and the proceeds were not distributed
    /// yet.
    pub fn running(&self) -> bool
        ensures { result ≡ is_running self.now }
    {
        match self.whole_part() {
            Some(part) => part.running(),
            None => has_seizure(self.case()),
        }
    }

    /// The receipt of the case's last award (ZVG § 81); None where it had none.
    pub fn award(&self) -> Option<ReceiptNo>
        ensures { result ≡ award self.now }
    {
        match self.whole_part() {
            Some(part) => part.award(),
            None => last_award(self.case()),
        }
    }

    /// The receipt of the case's last call to bid (ZVG § 66); None where it had none.
    pub fn called(&self) -> Option<ReceiptNo>
        ensures { result ≡ call self.now }
    {
        match self.whole_part() {
            Some(part) => part.called(),
            None => last_call(self.case()),
        }
    }

    /// The receipts of the case's first 8 seizures (ZVG §§ 20, 27), in order.
    pub fn seized(&self) -> ArrayVec<ReceiptNo, 8>
        ensures { result.items ≡ take most_seizures (seizure_numbers self.now) }
    {
        match self.whole_part() {
            Some(part) => copy_numbers(part.seized()),
            None => first_seizures(self.case()),
        }
    }

    /// The receipts of the case's first 32 registrations (ZVG § 37), in order.
    pub fn registered(&self) -> ArrayVec<ReceiptNo, 32>
        ensures { result.items ≡ take most_registrations (registration_numbers self.now) }
    {
        match self.whole_part() {
            Some(part) => copy_numbers(part.registered()),
            None => first_registrations(self.case()),
        }
    }

    /// The part, where these are all of its entries: then what it keeps beside its entries holds
    /// for these too.
    fn whole_part(&self) -> Option<&CasePart>
        ensures { IfSome result (λ part. part.now.entries ≡ self.now) }
    {
        if self.len == self.part.entries().len() {
            Some(self.part)
        } else {
            None
        }
    }

    /// The entries of the case: those after the last distribution (ZVG § 105).
    fn case(&self) -> &[Entry]
        ensures { result.now ≡ case self.now }
    {
        let entries = &self.part.entries()[..self.len];
        &entries[entries.len() - count_in_case(entries)..]
    }
}

/// How many of these entries stand after the last distribution.
fn count_in_case(entries: &[Entry]) -> usize
    ensures within { result ≤ length entries.now }
    ensures value { result ≡ suffix_len (λ e. not (is_distribution e.what)) entries.now }
{
    entries
        .iter()
        .rev()
        .take_while(|entry| !is_distribution(&entry.what))
        .count()
}

/// Whether an entry of the case seizes the land.
fn has_seizure(case: &[Entry]) -> bool
    ensures { result ≡ list_any (λ e. is_seizure e.what) case.now }
{
    case.iter().any(|entry| is_seizure(&entry.what))
}

/// The receipt of the last award among the entries of a case.
fn last_award(case: &[Entry]) -> Option<ReceiptNo>
    ensures { result ≡ fold (λ before e. award_by e.receipt before e.what) None case.now }
{
    case.iter()
        .fold(None, |before, entry| award_by(before, entry))
}

/// The receipt of the last call to bid among the entries of a case.
fn last_call(case: &[Entry]) -> Option<ReceiptNo>
    ensures { result ≡ fold (λ before e. call_by e.receipt before e.what) None case.now }
{
    case.iter()
        .fold(None, |before, entry| call_by(before, entry))
}

/// The receipt of the last award after an entry: the entry's own where it is an award, else the one
/// before.
fn award_by(before: Option<ReceiptNo>, entry: &Entry) -> Option<ReceiptNo>
    ensures { result ≡ award_by entry.now.receipt before entry.now.what }
{
    match &entry.what {
        What::Awarded { .. } => Some(entry.receipt),
        _ => before,
    }
}

/// The receipt of the last call to bid after an entry: the entry's own where it is a call, else the
/// one before.
fn call_by(before: Option<ReceiptNo>, entry: &Entry) -> Option<ReceiptNo>
    ensures { result ≡ call_by entry.now.receipt before entry.now.what }
{
    match &entry.what {
        What::Bids { .. } => Some(entry.receipt),
        _ => before,
    }
}
