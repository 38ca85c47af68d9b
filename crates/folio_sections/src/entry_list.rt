//! What the parts share: the entries at a key, the filings that wait there, and where those entries
//! stand that name who is concerned.
//! Why so: docs/DECISIONS.md, "The common calls of parts stand in each part".
ghost use Rattle.folio_sections.specs.inner.Naming.{last_below, Rises};
ghost use Rattle.std.specs.List.{last_or};
ghost use Rattle.std.specs.Prelude.{◌≡◌, ◌+◌, ◌<◌, ◌≤◌, vec_len, vec_capacity, [], ◌∷◌, ◌++◌, All, IsOk, OnOk, OnErr, None, find, if◌then◌else◌, length, option_copied, position};

use crate::Entry;
use crate::list_room::keep_room;
use crate::waiters::Waiters;
use gb_base::{Day, Key, NoMemory, ReceiptNo};
use std::alloc::Global;
use std::marker::Model;

/// Entries at one key, in order, with room kept for more.
#[derive(Drop)]
pub struct EntryList {
    key: Key,
    entries: Vec<Entry>,
    waiters: Waiters,
    /// For each entry that names owners or a holder, how many entries stand before it.
    naming: Vec<usize>,
    /// For how many entries more each of the lists has room.
    room: usize,
}

impl Model for EntryList {
    ghost use Rattle.folio_sections.specs.inner.Listed.{GoWith, HaveRoom, Listed};

    ghost Value = { Listed };

    ghost view = { λ a. record { key = a.key; entries = a.entries.items; room = a.room; naming = a.naming.items } };

    ghost invariant = { λ a. GoWith a.key a.entries.items a.waiters a.naming.items × HaveRoom a.entries a.waiters a.naming a.room };
}

impl EntryList {
    ghost use Rattle.folio_sections.specs.Waiting.{is_above, is_notice_of, is_pending, notice, pending, waiting_before, waiting_unnoticed};
    ghost use Rattle.folio_sections.specs.inner.Naming.{last_at};

    /// The empty list at a key.
    pub fn new(alloc: Global, key: Key) -> EntryList
        ensures key { result.key ≡ key }
        ensures empty { result.entries ≡ [] }
        ensures unnamed { result.naming ≡ [] }
    {
        EntryList {
            key,
            entries: Vec::new(alloc),
            waiters: Waiters::new(alloc),
            naming: Vec::new(alloc),
            room: 0,
        }
    }

    /// Keeps room for n entries more.
    pub fn reserve(&mut self, n: usize) -> Result<(), NoMemory>
        ensures key { self.new.key ≡ self.old.key }
        ensures entries { self.new.entries ≡ self.old.entries }
        ensures naming { self.new.naming ≡ self.old.naming }
        ensures room { OnOk result (n ≤ self.new.room) }
        ensures kept { self.old.room ≤ self.new.room }
        ensures unchanged { OnErr result (self.new ≡ self.old) }
        ensures succeeds { n ≤ self.old.room → IsOk result }
    {
        keep_room(&mut self.entries, n)?;
        let in_all = self.entries.len() + n;
        self.waiters.reserve_in_all(in_all)?;
        let more_naming = in_all - self.naming.len();
        keep_room(&mut self.naming, more_naming)?;
        self.room = self.room.max(n);
        Ok(())
    }

    /// Adds an entry at the end; `names` says whether it names who is concerned.
    pub fn append(&mut self, entry: Entry, names: bool)
        requires key { entry.key ≡ self.old.key }
        requires room { 1 ≤ self.old.room }
        ensures key { self.new.key ≡ self.old.key }
        ensures entries { self.new.entries ≡ self.old.entries ++ entry ∷ [] }
        ensures naming { self.new.naming ≡ if names then self.old.naming ++ length self.old.entries ∷ [] else self.old.naming }
        ensures room { self.new.room + 1 ≡ self.old.room }
    {
        let ahead = self.entries.len();
        self.waiters.note(ahead, &entry.what);
        push_if(names, &mut self.naming, ahead);
        self.entries.push_reserved(entry);
        self.room -= 1;
    }

    /// Takes the entries away, and keeps their room.
    pub fn clear(&mut self)
        ensures key { self.new.key ≡ self.old.key }
        ensures entries { self.new.entries ≡ [] }
        ensures naming { self.new.naming ≡ [] }
        ensures room { self.new.room ≡ self.old.room + length self.old.entries }
    {
        self.room += self.entries.len();
        self.entries.clear();
        self.waiters.clear();
        self.naming.clear();
    }

    /// The entries, in order.
    pub fn entries(&self) -> &[Entry]
        ensures value { result.now ≡ self.now.entries }
        ensures own { All (λ e. e.key ≡ self.now.key) self.now.entries }
    {
        self.entries.as_slice()
    }

    /// The key.
    pub fn key(&self) -> Key
        ensures { result ≡ self.now.key }
    {
        self.key
    }

    /// The day until which a filing waits for cures; None where it does not wait.
    pub fn pending(&self, filing: ReceiptNo) -> Option<Day>
        ensures { result ≡ pending filing self.now.entries }
    {
        self.waiters.until(filing)
    }

    /// How many entries stand before the official notice of a filing; None where none stands.
    pub fn ahead_of_notice(&self, filing: ReceiptNo) -> Option<usize>
        ensures { result ≡ if is_pending filing self.now.entries then position (λ e. is_notice_of filing e.what) self.now.entries else None }
    {
        if self.waiters.until(filing).is_some() {
            self.waiters.notice(filing)
        } else {
            None
        }
    }

    /// The day of the official notice of a filing; None where none stands.
    pub fn notice(&self, filing: ReceiptNo) -> Option<Day>
        ensures { result ≡ notice filing self.now.entries }
    {
        match self.ahead_of_notice(filing) {
            Some(ahead) => Some(self.entries[ahead].day),
            None => None,
        }
    }

    /// The first filing above `after`, and below `filing`, that waits; None where there is none.
    pub fn next_pending(&self, after: Option<ReceiptNo>, filing: ReceiptNo) -> Option<ReceiptNo>
        ensures { result ≡ find (is_above after) (waiting_before filing self.now.entries) }
    {
        self.waiters.next_pending(after, filing)
    }

    /// The last filing below `filing` that waits; None where there is none.
    pub fn last_pending(&self, filing: ReceiptNo) -> Option<ReceiptNo>
        ensures { result ≡ last_or None (waiting_before filing self.now.entries) }
    {
        self.waiters.last_pending(filing)
    }

    /// The first filing above `after`, and below `filing`, that waits without an official notice;
    /// None where there is none.
    pub fn next_unnoticed(&self, after: Option<ReceiptNo>, filing: ReceiptNo) -> Option<ReceiptNo>
        ensures { result ≡ find (is_above after) (waiting_unnoticed filing self.now.entries) }
    {
        self.waiters.next_unnoticed(after, filing)
    }

    /// The last entry among the first so many that names who is concerned.
    pub fn last_naming(&self, ahead: usize) -> Option<&Entry>
        ensures { option_copied result ≡ last_at ahead self.now.naming self.now.entries }
    {
        match last_below(self.naming.as_slice(), ahead) {
            Some(index) => self.entries.as_slice().get(index),
            None => None,
        }
    }
}

/// Puts a number at the end, if that is wanted.
fn push_if(wanted: bool, numbers: &mut Vec<usize>, number: usize)
    requires { vec_len numbers.old < vec_capacity numbers.old }
    ensures items { numbers.new.items ≡ if wanted then numbers.old.items ++ number ∷ [] else numbers.old.items }
    ensures len { vec_len numbers.new ≤ vec_len numbers.old + 1 }
    ensures capacity { vec_capacity numbers.new ≡ vec_capacity numbers.old }
{
    if wanted {
        numbers.push_reserved(number);
    }
}

/// The last of these numbers that is below k.
fn last_below(numbers: &[usize], k: usize) -> Option<usize>
    requires { Rises 0 numbers.now }
    ensures { result ≡ last_below k numbers.now }
{
    let below = numbers.partition_point(|number| *number < k);
    numbers[..below].last().copied()
}
