//! The part of a register at the forced sale of a folio.
//! Why so: docs/DECISIONS.md, "A part counts its seizures up to the greatest `u32`".
//! Why so: docs/DECISIONS.md, "The part of a forced sale answers like the others".
ghost use Rattle.std.specs.Prelude.{◌≡◌, ◌+◌, ◌≤◌, ◌<◌, ◌&&◌, None, is_none, [], ◌∷◌, ◌++◌, All, IsOk, OnOk, OnErr, length, min, take};
ghost use Rattle.folio_sections.specs.declared.entries.Entry.{Entry};
ghost use Rattle.folio_sections.specs.inner.States.{running_behind};

use crate::case_front::CaseFront;
use crate::case_numbers::{note_registration, note_seizure};
use crate::entry_list::EntryList;
use crate::fronts::count_below;
use crate::{Entry, What};
use arrayvec::ArrayVec;
use gb_base::{Day, Key, NoMemory, ReceiptNo};
use std::alloc::Global;
use std::marker::Model;

/// The part at the forced sale of a folio: all its cases, one after the other.
#[derive(Drop)]
pub struct CasePart {
    list: EntryList,
    running: Running,
    /// The receipts of the case's first 8 seizures, as many as it may have.
    seized: ArrayVec<ReceiptNo, 8>,
    /// The receipts of the case's first 32 registrations, as many as it may have.
    registered: ArrayVec<ReceiptNo, 32>,
}

/// The case: what stands after the last distribution.
#[derive(Clone, Copy)]
struct Running {
    /// How many entries stand before the case.
    begin: usize,
    seizures: u32,
    registrations: u32,
    award: Option<ReceiptNo>,
    called: Option<ReceiptNo>,
}

impl Model for CasePart {
    ghost use Rattle.folio_sections.specs.PartState.{PartState};
    ghost use Rattle.folio_sections.specs.inner.Listed.{part_of};
    ghost use Rattle.folio_sections.specs.inner.States.{IsCase};

    ghost Value = { PartState };

    ghost view = { λ a. part_of a.list };

    ghost invariant = { λ a. IsCase a.running a.seized.items a.registered.items a.list.entries };
}

impl CasePart {
    ghost use Rattle.std.specs.List.{find};
    ghost use Rattle.folio_sections.specs.Fronts.{NeverFall, below};
    ghost use Rattle.folio_sections.specs.Cases.{is_running, seizures, registrations, award, call, case, registration_numbers, seizure_numbers};
    ghost use Rattle.folio_sections.specs.Limits.{most_registrations, most_seizures};
    ghost use Rattle.folio_sections.specs.Waiting.{waiting_unnoticed, pending, is_above};

    /// The empty part at a key.
    pub fn new(alloc: Global, key: Key) -> CasePart
        ensures key { result.key ≡ key }
        ensures empty { result.entries ≡ [] }
    {
        CasePart {
            list: EntryList::new(alloc, key),
            running: case_from(0),
            seized: ArrayVec::new(),
            registered: ArrayVec::new(),
        }
    }

    /// Keeps room for n entries more. Where no memory is found the part is unchanged. It succeeds
    /// where there is room already.
    pub fn reserve(&mut self, n: usize) -> Result<(), NoMemory>
        ensures key { self.new.key ≡ self.old.key }
        ensures entries { self.new.entries ≡ self.old.entries }
        ensures room { OnOk result (n ≤ self.new.room) }
        ensures kept { self.old.room ≤ self.new.room }
        ensures unchanged { OnErr result (self.new ≡ self.old) }
        ensures succeeds { n ≤ self.old.room → IsOk result }
    {
        self.list.reserve(n)
    }

    /// Adds an entry at the end. It takes no memory.
    pub fn append(&mut self, entry: Entry)
        requires key { entry.key ≡ self.old.key }
        requires room { 1 ≤ self.old.room }
        ensures key { self.new.key ≡ self.old.key }
        ensures entries { self.new.entries ≡ self.old.entries ++ entry ∷ [] }
        ensures room { self.new.room + 1 ≡ self.old.room }
    {
        let ahead = self.list.entries().len();
        self.running = running_behind(ahead, self.running, &entry);
        note_seizure(&mut self.seized, &entry);
        note_registration(&mut self.registered, &entry);
        self.list.append(entry, false);
    }

    /// Takes the entries away, and keeps their room. It takes no memory.
    pub fn clear(&mut self)
        ensures key { self.new.key ≡ self.old.key }
        ensures entries { self.new.entries ≡ [] }
        ensures room { self.new.room ≡ self.old.room + length self.old.entries }
    {
        self.list.clear();
        self.running = case_from(0);
        self.seized.clear();
        self.registered.clear();
    }

    /// The entries, with what stands beside them.
    pub(crate) fn list(&self) -> &EntryList
        ensures { result.now.entries ≡ self.now.entries }
    {
        &self.list
    }

    /// The forced sale as it stands.
    pub fn whole(&self) -> CaseFront<'_>
        ensures { result ≡ self.now.entries }
    {
        CaseFront::new(self, self.entries().len())
    }

    /// The forced sale as it stood before receipt n.
    pub fn below(&self, n: ReceiptNo) -> CaseFront<'_>
        requires rise { NeverFall self.now.entries }
        ensures { result ≡ below n self.now.entries }
    {
        CaseFront::new(self, count_below(self.entries(), n))
    }

    /// The entries, in order.
    pub fn entries(&self) -> &[Entry]
        ensures value { result.now ≡ self.now.entries }
        ensures own { All (λ e. e.key ≡ self.now.key) self.now.entries }
    {
        self.list.entries()
    }

    /// The key.
    pub fn key(&self) -> Key
        ensures { result ≡ self.now.key }
    {
        self.list.key()
    }

    /// The entries of the case: those after the last distribution (ZVG § 105).
    pub fn case(&self) -> &[Entry]
        ensures { result.now ≡ case self.now.entries }
    {
        &self.list.entries()[self.running.begin..]
    }

    /// Whether a case runs: the land is seized (ZVG § 20), and the proceeds are not distributed
    /// yet.
    pub fn running(&self) -> bool
        ensures { result ≡ is_running self.now.entries }
    {
        self.running.seizures > 0
    }

    /// How many seizures the case has (ZVG §§ 20, 27), counted up to 4,294,967,295.
    pub fn seizures(&self) -> u32
        ensures { result ≡ min (seizures self.now.entries) 4294967295 }
    {
        self.running.seizures
    }

    /// How many registrations the case has (ZVG § 37), counted up to 4,294,967,295.
    pub fn registrations(&self) -> u32
        ensures { result ≡ min (registrations self.now.entries) 4294967295 }
    {
        self.running.registrations
    }

    /// The receipts of the case's first 8 seizures, in order.
    pub(crate) fn seized(&self) -> &ArrayVec<ReceiptNo, 8>
        ensures { result.now.items ≡ take most_seizures (seizure_numbers self.now.entries) }
    {
        &self.seized
    }

    /// The receipts of the case's first 32 registrations, in order.
    pub(crate) fn registered(&self) -> &ArrayVec<ReceiptNo, 32>
        ensures { result.now.items ≡ take most_registrations (registration_numbers self.now.entries) }
    {
        &self.registered
    }

    /// The receipt of the case's last award (ZVG § 81); None where it has none.
    pub fn award(&self) -> Option<ReceiptNo>
        ensures { result ≡ award self.now.entries }
    {
        self.running.award
    }

    /// Whether a case runs and has no award, so that the folio has the sale note (ZVG § 19).
    pub fn awaits_award(&self) -> bool
        ensures { result ≡ is_running self.now.entries && is_none (award self.now.entries) }
    {
        self.running() && self.award().is_none()
    }

    /// The receipt of the case's last call to bid (ZVG § 66); None where it has none.
    pub fn called(&self) -> Option<ReceiptNo>
        ensures { result ≡ call self.now.entries }
    {
        self.running.called
    }

    /// The day until which a filing waits for cures (GBO § 18); None where it does not wait.
    pub fn pending(&self, filing: ReceiptNo) -> Option<Day>
        ensures { result ≡ pending filing self.now.entries }
    {
        self.list.pending(filing)
    }

    /// The first filing above `after`, and below `filing`, that waits here without an official
    /// notice (GBO § 18(2)); None where there is none.
    pub fn next_unnoticed(&self, after: Option<ReceiptNo>, filing: ReceiptNo) -> Option<ReceiptNo>
        ensures { result ≡ find (is_above after) (waiting_unnoticed filing self.now.entries) }
    {
        self.list.next_unnoticed(after, filing)
    }
}

/// A case that begins after so many entries, and has none itself.
fn case_from(begin: usize) -> Running
    ensures { result ≡ record { begin = begin; seizures = 0; registrations = 0; award = None; called = None } }
{
    Running {
        begin,
        seizures: 0,
        registrations: 0,
        award: None,
        called: None,
    }
}

/// The case after a further entry, with so many entries before that one.
fn running_behind(ahead: usize, before: Running, entry: &Entry) -> Running
    requires { ahead < 18446744073709551615 }
    ensures { result ≡ running_behind ahead before entry.now.receipt entry.now.what }
{
    match &entry.what {
        What::Distributed => case_from(ahead + 1),
        What::Seized => Running {
            seizures: before.seizures.saturating_add(1),
            ..before
        },
        What::Registered => Running {
            registrations: before.registrations.saturating_add(1),
            ..before
        },
        What::Awarded { .. } => Running {
            award: Some(entry.receipt),
            ..before
        },
        What::Bids { .. } => Running {
            called: Some(entry.receipt),
            ..before
        },
        _ => before,
    }
}
