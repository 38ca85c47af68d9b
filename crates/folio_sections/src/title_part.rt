//! The part of a register at the title of a folio.
ghost use Rattle.std.specs.Prelude.{◌≡◌, ◌||◌, ◌+◌, ◌≤◌, ◌<◌, take, drop, [], ◌∷◌, ◌++◌, All, IsOk, OnOk, OnErr, None, is_some, length};
ghost use Rattle.std.specs.List.{list_any};
ghost use Rattle.folio_sections.specs.Titles.{is_opening, inventory_by, owners_by, is_award_owner};
ghost use Rattle.folio_sections.specs.inner.States.{award_by};

use crate::entry_list::EntryList;
use crate::fronts::count_below;
use crate::title_front::TitleFront;
use crate::{Entry, What};
use act_model::{Inventory, Owners};
use arrayvec::ArrayVec;
use gb_base::{Day, Key, NoMemory, Person, ReceiptNo};
use std::alloc::Global;
use std::marker::Model;

/// The part at the title of a folio: its parcel, its owners, and the filings that wait there.
#[derive(Drop)]
pub struct TitlePart {
    list: EntryList,
    opened: bool,
    inventory: Option<Inventory>,
    /// How many entries stand before the last award's owner.
    award: Option<usize>,
}

impl Model for TitlePart {
    ghost use Rattle.folio_sections.specs.PartState.{PartState};
    ghost use Rattle.folio_sections.specs.inner.Listed.{part_of};
    ghost use Rattle.folio_sections.specs.inner.States.{IsTitle};

    ghost Value = { PartState };

    ghost view = { λ a. part_of a.list };

    ghost invariant = { λ a. IsTitle a.list a.opened a.inventory a.award };
}

impl TitlePart {
    ghost use Rattle.std.specs.List.{find};
    ghost use Rattle.folio_sections.specs.Fronts.{NeverFall, below};
    ghost use Rattle.folio_sections.specs.Waiting.{waiting_unnoticed, pending, is_above, notice};
    ghost use Rattle.folio_sections.specs.Titles.{is_open, inventory, owners, owners_for};

    /// The empty part at a key.
    pub fn new(alloc: Global, key: Key) -> TitlePart
        ensures key { result.key ≡ key }
        ensures empty { result.entries ≡ [] }
    {
        TitlePart {
            list: EntryList::new(alloc, key),
            opened: false,
            inventory: None,
            award: None,
        }
    }

    /// Keeps room for n entries more. Where no memory is found the part is unchanged. It succeeds
    /// where there is room already.
    pub fn reserve(&mut self, n: usize) -> Result<(), NoMemory>
        ensures key { self.new.key ≡ self.old.key }
        ensures entries { self.new.entries ≡ self.old.entries }
        ensures room { OnOk result (n ≤ self.new.room) }
        ensures kept { self.old.room ≤ self.new.room }
        ensures unchanged { OnErr result (self.new ≡ self.old) }
        ensures succeeds { n ≤ self.old.room → IsOk result }
    {
        self.list.reserve(n)
    }

    /// Adds an entry at the end. It takes no memory.
    pub fn append(&mut self, entry: Entry)
        requires key { entry.key ≡ self.old.key }
        requires room { 1 ≤ self.old.room }
        ensures key { self.new.key ≡ self.old.key }
        ensures entries { self.new.entries ≡ self.old.entries ++ entry ∷ [] }
        ensures room { self.new.room + 1 ≡ self.old.room }
    {
        self.opened = opened_by(self.opened, &entry.what);
        self.inventory = inventory_by(self.inventory, &entry.what);
        self.award = award_by(self.list.entries().len(), self.award, &entry.what);
        let names = names_owners(&entry.what);
        self.list.append(entry, names);
    }

    /// Takes the entries away, and keeps their room. It takes no memory.
    pub fn clear(&mut self)
        ensures key { self.new.key ≡ self.old.key }
        ensures entries { self.new.entries ≡ [] }
        ensures room { self.new.room ≡ self.old.room + length self.old.entries }
    {
        self.list.clear();
        self.opened = false;
        self.inventory = None;
        self.award = None;
    }

    /// The entries, with what stands beside them.
    pub(crate) fn list(&self) -> &EntryList
        ensures { result.now.entries ≡ self.now.entries }
    {
        &self.list
    }

    /// The title as it stands.
    pub fn whole(&self) -> TitleFront<'_>
        ensures { result ≡ self.now.entries }
    {
        TitleFront::new(self, self.entries().len())
    }

    /// The title as it stood before receipt n.
    pub fn below(&self, n: ReceiptNo) -> TitleFront<'_>
        requires rise { NeverFall self.now.entries }
        ensures { result ≡ below n self.now.entries }
    {
        TitleFront::new(self, count_below(self.entries(), n))
    }

    /// The entries, in order.
    pub fn entries(&self) -> &[Entry]
        ensures value { result.now ≡ self.now.entries }
        ensures own { All (λ e. e.key ≡ self.now.key) self.now.entries }
    {
        self.list.entries()
    }

    /// The key.
    pub fn key(&self) -> Key
        ensures { result ≡ self.now.key }
    {
        self.list.key()
    }

    /// Whether the folio is open (GBO § 3).
    pub fn is_open(&self) -> bool
        ensures { result ≡ is_open self.now.entries }
    {
        self.opened
    }

    /// The parcel that the folio is kept for (GBV § 6); None where it is not open.
    pub fn inventory(&self) -> Option<Inventory>
        ensures { result ≡ inventory self.now.entries }
    {
        self.inventory
    }

    /// The owners (BGB § 925, ZVG § 90); None where no entry names any.
    pub fn owners(&self) -> Option<Owners>
        ensures { result ≡ owners self.now.entries }
    {
        self.owners_ahead(self.entries().len())
    }

    /// The owners whom a filing concerns: those of the moment of its official notice, where it
    /// stands and no award's owner follows it, else the owners (GBO § 18(2)).
    pub fn owners_for(&self, filing: ReceiptNo) -> Option<Owners>
        ensures { result ≡ owners_for filing self.now.entries }
    {
        match self.list.ahead_of_notice(filing) {
            Some(ahead) if !self.award_follows(ahead) => self.owners_ahead(ahead),
            _ => self.owners(),
        }
    }

    /// The owners after the first so many entries.
    pub(crate) fn owners_ahead(&self, ahead: usize) -> Option<Owners>
        requires { ahead ≤ length self.now.entries }
        ensures { result ≡ owners (take ahead self.now.entries) }
    {
        match self.list.last_naming(ahead) {
            Some(entry) => owners_by(None, &entry.what),
            None => None,
        }
    }

    /// Whether an award's owner comes after the entry that has so many before it.
    fn award_follows(&self, ahead: usize) -> bool
        requires { ahead < length self.now.entries }
        ensures { result ≡ list_any (λ e. is_award_owner e.what) (drop (ahead + 1) self.now.entries) }
    {
        match self.award {
            Some(award) => ahead < award,
            None => false,
        }
    }

    /// The day until which a filing waits for cures (GBO § 18); None where it does not wait.
    pub fn pending(&self, filing: ReceiptNo) -> Option<Day>
        ensures { result ≡ pending filing self.now.entries }
    {
        self.list.pending(filing)
    }

    /// The day of the official notice of a filing (GBO § 18(2)); None where none stands.
    pub fn notice(&self, filing: ReceiptNo) -> Option<Day>
        ensures { result ≡ notice filing self.now.entries }
    {
        self.list.notice(filing)
    }

    /// The first filing above `after`, and below `filing`, that waits here without an official
    /// notice (GBO § 18(2)); None where there is none.
    pub fn next_unnoticed(&self, after: Option<ReceiptNo>, filing: ReceiptNo) -> Option<ReceiptNo>
        ensures { result ≡ find (is_above after) (waiting_unnoticed filing self.now.entries) }
    {
        self.list.next_unnoticed(after, filing)
    }
}

/// Whether the folio is open after a content.
fn opened_by(before: bool, what: &What) -> bool
    ensures { result ≡ (before || is_opening what.now) }
{
    before || is_opening(what)
}

/// Whether a content opens the folio.
pub(crate) fn is_opening(what: &What) -> bool
    ensures { result ≡ is_opening what.now }
{
    match what {
        What::Opened { .. } => true,
        _ => false,
    }
}

/// The parcel after a content: the one that it names, else the one before.
fn inventory_by(before: Option<Inventory>, what: &What) -> Option<Inventory>
    ensures { result ≡ inventory_by before what.now }
{
    match what {
        What::Opened { inventory, .. } => Some(*inventory),
        _ => before,
    }
}

/// The owners after a content: those that it names, else those before.
fn owners_by(before: Option<Owners>, what: &What) -> Option<Owners>
    ensures { result ≡ owners_by before what.now }
{
    match what {
        What::Opened { owners, .. } => Some(owners.copy()),
        What::Owner { owners } => Some(owners.copy()),
        What::AwardOwner { buyer } => Some(sole_owner(*buyer)),
        _ => before,
    }
}

/// One person as the owners.
fn sole_owner(person: Person) -> Owners
    ensures { result ≡ person ∷ [] }
{
    let mut list = ArrayVec::new();
    list.push(person);
    Owners::new(list).unwrap()
}

/// Whether a content names the owners.
fn names_owners(what: &What) -> bool
    ensures { result ≡ is_some (owners_by None what.now) }
{
    match what {
        What::Opened { .. } | What::Owner { .. } | What::AwardOwner { .. } => true,
        _ => false,
    }
}

/// How many entries stand before the last award's owner, after a content that has so many before it.
fn award_by(ahead: usize, before: Option<usize>, what: &What) -> Option<usize>
    ensures { result ≡ award_by ahead before what.now }
{
    match what {
        What::AwardOwner { .. } => Some(ahead),
        _ => before,
    }
}
