//! The part of a register at a right.
ghost use Rattle.std.specs.Prelude.{◌≡◌, ◌+◌, ◌<◌, ◌≤◌, if◌then◌else◌, [], ◌∷◌, ◌++◌, All, IsOk, OnOk, OnErr, length, take};
ghost use Rattle.folio_sections.specs.Rights.{holder, is_exchange};

use crate::entry_list::EntryList;
use crate::fronts::count_below;
use crate::right_front::RightFront;
use crate::right_state::{NEVER_CREATED, RightState, holder_named, names_holder, state_by};
use crate::state_marks::StateMarks;
use crate::{Created, Entry, What};
use gb_base::{Cents, Day, Key, NoMemory, Person, ReceiptNo};
use std::alloc::Global;
use std::marker::Model;

/// The part at a right: its creation and changes, and the filings that wait there.
#[derive(Drop)]
pub struct RightPart {
    list: EntryList,
    state: RightState,
    /// How many exchanges the right is in.
    exchanges: usize,
    /// The state after each sixteenth entry, where memory for it was found.
    marks: StateMarks,
}

impl Model for RightPart {
    ghost use Rattle.folio_sections.specs.PartState.{PartState};
    ghost use Rattle.folio_sections.specs.inner.Listed.{part_of};
    ghost use Rattle.folio_sections.specs.inner.Marks.{AreMarks};
    ghost use Rattle.folio_sections.specs.inner.States.{IsRight};

    ghost Value = { PartState };

    ghost view = { λ a. part_of a.list };

    ghost invariant = { λ a. IsRight a.state a.exchanges a.list.entries a.list.naming × AreMarks a.marks.states.items a.list.entries };
}

impl RightPart {
    ghost use Rattle.std.specs.List.{find, last_or};
    ghost use Rattle.folio_sections.specs.Fronts.{NeverFall, below};
    ghost use Rattle.folio_sections.specs.Waiting.{waiting_before, waiting_unnoticed, pending, is_above, notice};
    ghost use Rattle.folio_sections.specs.Rights.{created, entered_on, is_live, is_full, holder, holder_for, capital, exchanges, is_spent};
    ghost use Rattle.folio_sections.specs.inner.States.{IsRightState};

    /// The empty part at a key.
    pub fn new(alloc: Global, key: Key) -> RightPart
        ensures key { result.key ≡ key }
        ensures empty { result.entries ≡ [] }
    {
        RightPart {
            list: EntryList::new(alloc, key),
            state: NEVER_CREATED,
            exchanges: 0,
            marks: StateMarks::new(alloc),
        }
    }

    /// Keeps room for n entries more. Where no memory is found the part is unchanged. It succeeds
    /// where there is room already.
    pub fn reserve(&mut self, n: usize) -> Result<(), NoMemory>
        ensures key { self.new.key ≡ self.old.key }
        ensures entries { self.new.entries ≡ self.old.entries }
        ensures room { OnOk result (n ≤ self.new.room) }
        ensures kept { self.old.room ≤ self.new.room }
        ensures unchanged { OnErr result (self.new ≡ self.old) }
        ensures succeeds { n ≤ self.old.room → IsOk result }
    {
        self.list.reserve(n)?;
        // After what the entries need, so that marks take no memory from them.
        self.marks.reserve(self.list.entries().len(), n);
        Ok(())
    }

    /// Adds an entry at the end. It takes no memory.
    pub fn append(&mut self, entry: Entry)
        requires key { entry.key ≡ self.old.key }
        requires room { 1 ≤ self.old.room }
        ensures key { self.new.key ≡ self.old.key }
        ensures entries { self.new.entries ≡ self.old.entries ++ entry ∷ [] }
        ensures room { self.new.room + 1 ≡ self.old.room }
    {
        let names = names_holder(self.state.new_holder, &entry.what);
        self.state = state_by(self.state, &entry);
        let ahead = self.list.entries().len();
        prove!(self.exchanges <= ahead);
        self.exchanges = exchanges_by(self.exchanges, &entry.what);
        self.list.append(entry, names);
        self.marks.note(ahead + 1, &self.state);
    }

    /// Takes the entries away, and keeps their room. It takes no memory.
    pub fn clear(&mut self)
        ensures key { self.new.key ≡ self.old.key }
        ensures entries { self.new.entries ≡ [] }
        ensures room { self.new.room ≡ self.old.room + length self.old.entries }
    {
        self.list.clear();
        self.state = NEVER_CREATED;
        self.exchanges = 0;
        self.marks.clear();
    }

    /// The entries, with what stands beside them.
    pub(crate) fn list(&self) -> &EntryList
        ensures { result.now.entries ≡ self.now.entries }
    {
        &self.list
    }

    /// What is read from the entries, kept as they come.
    pub(crate) fn state(&self) -> &RightState
        ensures { IsRightState result.now self.now.entries }
    {
        &self.state
    }

    /// What is read from the first so many entries, from the last mark that is not after them on.
    pub(crate) fn state_ahead(&self, ahead: usize) -> RightState
        requires { ahead ≤ length self.now.entries }
        ensures { IsRightState result (take ahead self.now.entries) }
    {
        self.marks.state_ahead(self.list.entries(), ahead)
    }

    /// The right as it stands.
    pub fn whole(&self) -> RightFront<'_>
        ensures { result ≡ self.now.entries }
    {
        RightFront::new(self, self.entries().len())
    }

    /// The right as it stood before receipt n.
    pub fn below(&self, n: ReceiptNo) -> RightFront<'_>
        requires rise { NeverFall self.now.entries }
        ensures { result ≡ below n self.now.entries }
    {
        RightFront::new(self, count_below(self.entries(), n))
    }

    /// The entries, in order.
    pub fn entries(&self) -> &[Entry]
        ensures value { result.now ≡ self.now.entries }
        ensures own { All (λ e. e.key ≡ self.now.key) self.now.entries }
    {
        self.list.entries()
    }

    /// The key.
    pub fn key(&self) -> Key
        ensures { result ≡ self.now.key }
    {
        self.list.key()
    }

    /// Whether the right is live (BGB § 875, ZVG § 91): created, and neither cancelled nor expired
    /// since.
    pub fn live(&self) -> bool
        ensures { result ≡ is_live self.now.entries }
    {
        self.state.live
    }

    /// The right as it was created (BGB § 873); None where it never was.
    pub fn created(&self) -> Option<Created>
        ensures { result ≡ created self.now.entries }
    {
        self.state.created
    }

    /// The day on which the right was entered (BGB § 873); None where it never was.
    pub fn entered_on(&self) -> Option<Day>
        ensures { result ≡ entered_on self.now.entries }
    {
        self.state.entered
    }

    /// Whether the right itself is entered, and not only a priority notice for it (BGB § 883).
    pub fn full(&self) -> bool
        ensures { result ≡ is_full self.now.entries }
    {
        self.state.full()
    }

    /// The holder: the last new one, else that of the creation (BGB § 873); None where there is
    /// neither.
    pub fn holder(&self) -> Option<Person>
        ensures { result ≡ holder self.now.entries }
    {
        match self.state.new_holder {
            Some(person) => Some(person),
            None => match &self.state.created {
                Some(made) => Some(made.spec.holder),
                None => None,
            },
        }
    }

    /// The holder whom a filing concerns: the one of the moment of its official notice, where it
    /// stands, else the holder (GBO § 18(2)).
    pub fn holder_for(&self, filing: ReceiptNo) -> Option<Person>
        ensures { result ≡ holder_for filing self.now.entries }
    {
        match self.list.ahead_of_notice(filing) {
            Some(ahead) => self.holder_ahead(ahead),
            None => self.holder(),
        }
    }

    /// The holder after the first so many entries.
    pub(crate) fn holder_ahead(&self, ahead: usize) -> Option<Person>
        requires { ahead ≤ length self.now.entries }
        ensures { result ≡ holder (take ahead self.now.entries) }
    {
        match self.list.last_naming(ahead) {
            Some(entry) => holder_named(&entry.what),
            None => None,
        }
    }

    /// The capital: the one that the last award left, else that of the creation (ZVG § 52); None where
    /// there is neither.
    pub fn capital(&self) -> Option<Cents>
        ensures { result ≡ capital self.now.entries }
    {
        self.state.capital()
    }

    /// How many exchanges the right is in (BGB § 880), whether they count or not.
    pub fn exchanges(&self) -> usize
        ensures { result ≡ exchanges self.now.entries }
    {
        self.exchanges
    }

    /// Whether the right's reservation is spent (BGB § 881).
    pub fn spent(&self) -> bool
        ensures { result ≡ is_spent self.now.entries }
    {
        self.state.spent
    }

    /// The day until which a filing waits for cures (GBO § 18); None where it does not wait.
    pub fn pending(&self, filing: ReceiptNo) -> Option<Day>
        ensures { result ≡ pending filing self.now.entries }
    {
        self.list.pending(filing)
    }

    /// The day of the official notice of a filing (GBO § 18(2)); None where none stands.
    pub fn notice(&self, filing: ReceiptNo) -> Option<Day>
        ensures { result ≡ notice filing self.now.entries }
    {
        self.list.notice(filing)
    }

    /// The first filing above `after`, and below `filing`, that waits here (GBO § 18); None where
    /// there is none.
    pub fn next_pending(&self, after: Option<ReceiptNo>, filing: ReceiptNo) -> Option<ReceiptNo>
        ensures { result ≡ find (is_above after) (waiting_before filing self.now.entries) }
    {
        self.list.next_pending(after, filing)
    }

    /// The last filing below `filing` that waits here (GBO § 18); None where there is none.
    pub fn last_pending(&self, filing: ReceiptNo) -> Option<ReceiptNo>
        ensures { result ≡ last_or None (waiting_before filing self.now.entries) }
    {
        self.list.last_pending(filing)
    }

    /// The first filing above `after`, and below `filing`, that waits here without an official
    /// notice (GBO § 18(2)); None where there is none.
    pub fn next_unnoticed(&self, after: Option<ReceiptNo>, filing: ReceiptNo) -> Option<ReceiptNo>
        ensures { result ≡ find (is_above after) (waiting_unnoticed filing self.now.entries) }
    {
        self.list.next_unnoticed(after, filing)
    }
}

/// How many exchanges a right is in after a content.
fn exchanges_by(before: usize, what: &What) -> usize
    requires { before < 18446744073709551615 }
    ensures { result ≡ before + (if is_exchange what.now then 1 else 0) }
{
    match what {
        What::Exchanged { .. } => before + 1,
        _ => before,
    }
}
