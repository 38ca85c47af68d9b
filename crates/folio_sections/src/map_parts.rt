//! Parts over keys that are given, found by key in logarithmic time.
ghost use Rattle.std.specs.Prelude.{◌≡◌, ◌||◌, ◌≤◌, ◌+◌, false, [], All, List, IsTrue, IfOk, IsOk, OnOk, OnErr, filter_map, length, find, position};
ghost use Rattle.std.specs.BTreeMap.{IsOrdered};
ghost use Rattle.std.specs.BTreeMap.Range.{IsEntryInRange, IsLeBy};
ghost use Rattle.std.specs.declared.ops.Bound.TheVariants.{Included};
ghost use Rattle.std.specs.Option.{option_copied};
ghost use Rattle.std.specs.List.{AllZip};
ghost use Rattle.gb_base.specs.Keys.{key_cmp, same_key};
ghost use Rattle.gb_base.specs.Limits.{most_acts};
ghost use Rattle.gb_base.specs.declared.keys.Key.{Key};
ghost use Rattle.gb_base.specs.declared.keys.Key.TheVariants.{Title};
ghost use Rattle.act_model.specs.Touches.{new_right};
ghost use Rattle.folio_sections.specs.Exchanged.{TakesAt};
ghost use Rattle.folio_sections.specs.Held.{WidensBy, is_held, entries_at, room_at, is_given};
ghost use Rattle.folio_sections.specs.HeldRights.{held_rights, last_number};
ghost use Rattle.folio_sections.specs.Limits.{most_at_a_key};
ghost use Rattle.folio_sections.specs.Titles.{is_open};
ghost use Rattle.folio_sections.specs.inner.KeysAtHand.{AreAtHand};
ghost use Rattle.folio_sections.specs.inner.PartIndex.{Grows, IsIndexOf, KeepsPlaces};
ghost use Rattle.folio_sections.specs.inner.RightsInKeys.{entries_from_to, right_in};

mod any_part;
mod key_index;

use crate::map_parts::any_part::AnyPart;
use crate::map_parts::key_index::KeyIndex;
use crate::{CasePart, Entry, Parts, RightPart, TitlePart};
use gb_base::{FolioId, Key, NoMemory, ReceiptNo, RightId};
use std::alloc::Global;
use std::collections::BTreeMap;
use std::marker::Model;
use std::mem;

/// The parts of a register at given keys. In contracts it is the list of its parts.
#[derive(Drop)]
pub struct MapParts {
    alloc: Global,
    parts: Vec<AnyPart>,
    index: KeyIndex,
}

impl Model for MapParts {
    ghost use Rattle.std.specs.Prelude.{List};
    ghost use Rattle.folio_sections.specs.PartState.{PartState};
    ghost use Rattle.folio_sections.specs.inner.KeysAtHand.{AreAtHand};
    ghost use Rattle.folio_sections.specs.inner.PartIndex.{IsIndexOf};

    ghost Value = { List PartState };

    ghost view = { λ a. a.parts.items };

    ghost invariant = { λ a. IsIndexOf a.index.places a.parts.items × AreAtHand a.index.places a.index.slots.items };
}

impl MapParts {
    /// The empty parts at these keys, which may repeat and come in any order. NoMemory where no
    /// memory is found.
    pub fn new(alloc: Global, keys: &[Key]) -> Result<MapParts, NoMemory>
        ensures held { IfOk result (λ parts. (k : Key) → is_held parts k ≡ is_given keys.now k) }
        ensures empty { IfOk result (λ parts. All (λ p. p.entries ≡ []) parts) }
    {
        let mut parts: Vec<AnyPart> = Vec::new(alloc);
        let mut index = KeyIndex::new(alloc);
        for key in keys {
            add_part(alloc, &mut parts, &mut index, *key)?;
        }
        Ok(MapParts {
            alloc,
            parts,
            index,
        })
    }

    /// Holds the part of a key too. A part that was not held before is empty; one that was stays as
    /// it is. Where no memory is found nothing changes.
    pub fn hold(&mut self, key: Key) -> Result<(), NoMemory>
        ensures held { OnOk result ((k : Key) → is_held self.new k ≡ (is_held self.old k || same_key key k)) }
        ensures entries { entries_at self.new ≡ entries_at self.old }
        ensures kept { (k : Key) → room_at self.old k ≤ room_at self.new k }
        ensures unchanged { OnErr result (self.new ≡ self.old) }
        ensures succeeds { IsTrue (is_held self.old key) → IsOk result }
        ensures same { IsTrue (is_held self.old key) → self.new ≡ self.old }
    {
        add_part(self.alloc, &mut self.parts, &mut self.index, key)
    }

    /// Keeps room for n entries more in each part. Where no memory is found, some parts may have
    /// more room than before; no entry and no key changes. It succeeds where each part has the room
    /// already.
    pub fn reserve_all(&mut self, n: usize) -> Result<(), NoMemory>
        ensures held { is_held self.new ≡ is_held self.old }
        ensures entries { entries_at self.new ≡ entries_at self.old }
        ensures room { OnOk result ((k : Key) → IsTrue (is_held self.new k) → n ≤ room_at self.new k) }
        ensures kept { (k : Key) → room_at self.old k ≤ room_at self.new k }
        ensures succeeds { All (λ p. n ≤ p.room) self.old → IsOk result }
    {
        reserve_each(&mut self.parts, n)
    }

    /// Keeps room for n entries more at a key, where it is held. Where no memory is found nothing
    /// changes. It succeeds where the key has the room already.
    pub fn reserve(&mut self, key: Key, n: usize) -> Result<(), NoMemory>
        ensures held { is_held self.new ≡ is_held self.old }
        ensures entries { entries_at self.new ≡ entries_at self.old }
        ensures room { OnOk result (IsTrue (is_held self.new key) → n ≤ room_at self.new key) }
        ensures kept { (k : Key) → room_at self.old k ≤ room_at self.new k }
        ensures unchanged { OnErr result (self.new ≡ self.old) }
        ensures succeeds { n ≤ room_at self.old key → IsOk result }
    {
        match self.index_of(key) {
            Some(index) => {
                let part = &mut self.parts[index];
                part.reserve(n)
            }
            None => Ok(()),
        }
    }

    /// Holds the part of a key, with room for as many entries more as stand there and for n besides.
    /// The part is looked for once. Where the key is not held yet, its part gets its room before it
    /// is put among the others. Where no memory is found nothing changes. It succeeds where the key
    /// is held and has the room already.
    pub fn hold_with_room(&mut self, key: &Key, n: usize) -> Result<(), NoMemory>
        requires few { n ≤ most_at_a_key }
        ensures held { OnOk result ((k : Key) → is_held self.new k ≡ (is_held self.old k || same_key key.now k)) }
        ensures widens { WidensBy (same_key key.now) self.old self.new }
        ensures entries { entries_at self.new ≡ entries_at self.old }
        ensures room { OnOk result (length (entries_at self.new key.now) + n ≤ room_at self.new key.now) }
        ensures kept { (k : Key) → room_at self.old k ≤ room_at self.new k }
        ensures unchanged { OnErr result (self.new ≡ self.old) }
        ensures succeeds { IsTrue (is_held self.old key.now) → length (entries_at self.old key.now) + n ≤ room_at self.old key.now → IsOk result }
    {
        match self.index_of(*key) {
            Some(index) => {
                self.index.have_at_hand(key, index);
                let part = &mut self.parts[index];
                let wanted = part.len() + n;
                part.reserve(wanted)
            }
            None => {
                let mut part = AnyPart::new(self.alloc, *key);
                part.reserve(n)?;
                push_part(&mut self.parts, &mut self.index, *key, part)
            }
        }
    }

    /// Takes all entries away. The keys stay, and at each the room grows by the entries that stood
    /// there. It takes no memory.
    pub fn clear(&mut self)
        ensures held { is_held self.new ≡ is_held self.old }
        ensures entries { (k : Key) → entries_at self.new k ≡ [] }
        ensures room { (k : Key) → room_at self.new k ≡ room_at self.old k + length (entries_at self.old k) }
    {
        clear_each(&mut self.parts)
    }

    /// Exchanges the part of a key with that of the same key among other parts. It takes no memory.
    pub fn swap_at(&mut self, other: &mut MapParts, key: &Key)
        requires here { IsTrue (is_held self.old key.now) }
        requires there { IsTrue (is_held other.old key.now) }
        ensures here { TakesAt self.old self.new other.old key.now }
        ensures there { TakesAt other.old other.new self.old key.now }
    {
        if let Some(here) = self.index_of(*key) {
            if let Some(there) = other.index_of(*key) {
                mem::swap(&mut self.parts[here], &mut other.parts[there]);
            }
        }
    }

    /// How many entries stand at a key; 0 where it is not held.
    pub fn len(&self, key: Key) -> usize
        ensures value { result ≡ length (entries_at self.now key) }
        ensures most { result ≤ most_at_a_key }
    {
        match self.part(key) {
            Some(part) => part.len(),
            None => 0,
        }
    }

    /// Whether the folio is open (GBO § 3). One whose title is not held is not.
    pub fn is_open(&self, folio: FolioId) -> bool
        ensures { result ≡ is_open (entries_at self.now (Title folio)) }
    {
        match self.title(folio) {
            Some(title) => title.is_open(),
            None => false,
        }
    }

    /// The rights of a folio whose parts are held, by receipt and act. It looks at the parts of this
    /// folio's rights alone, however many parts are held elsewhere.
    pub fn rights_in(&self, alloc: Global, folio: FolioId) -> Result<Vec<RightId>, NoMemory>
        ensures rights { IfOk result (λ rights. rights.items ≡ held_rights (is_held self.now) folio) }
    {
        let first = Key::Right(folio, first_right());
        let last = Key::Right(folio, last_right());
        rights_between(alloc, &self.index.places, first, last)
    }

    /// Where the part of a key stands; None where it is not held.
    fn index_of(&self, key: Key) -> Option<usize>
        ensures { result ≡ position (λ p. same_key p.key key) self.now }
    {
        self.index.get(&key)
    }

    /// The part of a key; None where it is not held.
    fn part(&self, key: Key) -> Option<&AnyPart>
        ensures { option_copied result ≡ find (λ p. same_key p.key key) self.now }
    {
        match self.index_of(key) {
            Some(index) => Some(&self.parts[index]),
            None => None,
        }
    }
}

/// The rights of an index's keys from the first of these two keys to the last.
fn rights_between(
    alloc: Global,
    index: &BTreeMap<Key, usize>,
    first: Key,
    last: Key,
) -> Result<Vec<RightId>, NoMemory>
    requires { IsLeBy key_cmp first last }
    ensures rights { IfOk result (λ rights. rights.items ≡ filter_map (λ e. right_in e.0) (entries_from_to first last index.now.entries)) }
    ensures found { All (IsEntryInRange key_cmp (Included first) (Included last) index.now) (entries_from_to first last index.now.entries) }
    ensures ordered { IsOrdered key_cmp index.now }
{
    index
        .range(first..=last)
        .filter_map(|(key, _)| right_in(key))
        .collect(alloc)
}

/// The first right that there may be.
fn first_right() -> RightId
    ensures { result ≡ new_right 1 1 }
{
    RightId::new(ReceiptNo::new(1).unwrap(), 1).unwrap()
}

/// The last right that there may be.
fn last_right() -> RightId
    ensures { result ≡ new_right last_number most_acts }
{
    RightId::new(ReceiptNo::new(u32::MAX).unwrap(), 8).unwrap()
}

/// The right of a key, where it is of one.
fn right_in(key: &Key) -> Option<RightId>
    ensures { result ≡ right_in key.now }
{
    match key {
        Key::Right(_, id) => Some(numbered(*id)),
        _ => None,
    }
}

/// The right itself, with what its type says of its number.
fn numbered(id: RightId) -> RightId
    ensures value { result ≡ id }
    ensures receipt_from { 1 ≤ id.receipt }
    ensures receipt_to { id.receipt ≤ last_number }
    ensures act_from { 1 ≤ id.act }
    ensures act_to { id.act ≤ most_acts }
{
    let receipt = id.receipt().get();
    let act = id.act();
    prove!(1 <= receipt && 1 <= act && act <= 8);
    id
}

/// Adds the empty part of a key, unless there is one. Where no memory is found nothing changes.
fn add_part(
    alloc: Global,
    parts: &mut Vec<AnyPart>,
    index: &mut KeyIndex,
    key: Key,
) -> Result<(), NoMemory>
    requires index { IsIndexOf index.old.places parts.old.items }
    requires at_hand { AreAtHand index.old.places index.old.slots.items }
    ensures index { IsIndexOf index.new.places parts.new.items }
    ensures at_hand { AreAtHand index.new.places index.new.slots.items }
    ensures held { OnOk result ((k : Key) → is_held parts.new.items k ≡ (is_held parts.old.items k || same_key key k)) }
    ensures entries { entries_at parts.new.items ≡ entries_at parts.old.items }
    ensures kept { (k : Key) → room_at parts.old.items k ≤ room_at parts.new.items k }
    ensures empty { All (λ p. p.entries ≡ []) parts.old.items → All (λ p. p.entries ≡ []) parts.new.items }
    ensures unchanged { OnErr result (parts.new.items ≡ parts.old.items) }
    ensures succeeds { IsTrue (is_held parts.old.items key) → IsOk result }
    ensures same { IsTrue (is_held parts.old.items key) → parts.new.items ≡ parts.old.items }
{
    if index.get(&key).is_some() {
        return Ok(());
    }
    push_part(parts, index, key, AnyPart::new(alloc, key))
}

/// Adds the empty part of a key that is not held. Where no memory is found nothing changes.
fn push_part(
    parts: &mut Vec<AnyPart>,
    index: &mut KeyIndex,
    key: Key,
    part: AnyPart,
) -> Result<(), NoMemory>
    requires index { IsIndexOf index.old.places parts.old.items }
    requires at_hand { AreAtHand index.old.places index.old.slots.items }
    requires own { part.key ≡ key }
    requires empty { part.entries ≡ [] }
    requires apart { is_held parts.old.items key ≡ false }
    ensures index { IsIndexOf index.new.places parts.new.items }
    ensures at_hand { AreAtHand index.new.places index.new.slots.items }
    ensures held { OnOk result ((k : Key) → is_held parts.new.items k ≡ (is_held parts.old.items k || same_key key k)) }
    ensures entries { entries_at parts.new.items ≡ entries_at parts.old.items }
    ensures kept { (k : Key) → room_at parts.old.items k ≤ room_at parts.new.items k }
    ensures room { OnOk result (room_at parts.new.items key ≡ part.room) }
    ensures empty { All (λ p. p.entries ≡ []) parts.old.items → All (λ p. p.entries ≡ []) parts.new.items }
    ensures unchanged { OnErr result (parts.new.items ≡ parts.old.items) }
{
    let end = parts.len();
    parts.reserve(1)?;
    index.insert(&key, end)?;
    parts.push_reserved(part);
    Ok(())
}

/// Keeps room for n entries more in each of these parts.
fn reserve_each(parts: &mut [AnyPart], n: usize) -> Result<(), NoMemory>
    ensures grow { AllZip Grows parts.old parts.new }
    ensures room { OnOk result (All (λ p. n ≤ p.room) parts.new) }
    ensures succeeds { All (λ p. n ≤ p.room) parts.old → IsOk result }
{
    for part in parts.iter_mut() {
        part.reserve(n)?;
    }
    Ok(())
}

/// Takes all entries of these parts away.
fn clear_each(parts: &mut [AnyPart])
    ensures places { AllZip KeepsPlaces parts.old parts.new }
    ensures empty { All (λ p. p.entries ≡ []) parts.new }
{
    for part in parts.iter_mut() {
        part.clear();
    }
}

impl Parts for MapParts {
    ghost use Rattle.folio_sections.specs.Held.{is_held, entries_at, room_at};

    ghost holds = { is_held };

    ghost at = { entries_at };

    ghost room = { room_at };

    fn title(&self, folio: FolioId) -> Option<&TitlePart> {
        match self.part(Key::Title(folio)) {
            Some(part) => part.as_title(),
            None => None,
        }
    }

    fn right(&self, folio: FolioId, right: RightId) -> Option<&RightPart> {
        match self.part(Key::Right(folio, right)) {
            Some(part) => part.as_right(),
            None => None,
        }
    }

    fn case(&self, folio: FolioId) -> Option<&CasePart> {
        match self.part(Key::Case(folio)) {
            Some(part) => part.as_case(),
            None => None,
        }
    }

    fn append(&mut self, entry: Entry) {
        match self.index_of(entry.key) {
            Some(index) => {
                let part = &mut self.parts[index];
                part.append(entry);
            }
            // The caller holds the key's part, so it stands somewhere.
            None => {}
        }
    }
}

/// Takes any type whose values threads may hand on and share.
fn is_shared<T: Send + Sync>() {}

/// Threads may hand on parts, and several may read them at the same time.
fn parts_are_shared() {
    is_shared::<MapParts>();
    is_shared::<TitlePart>();
    is_shared::<RightPart>();
    is_shared::<CasePart>();
}
