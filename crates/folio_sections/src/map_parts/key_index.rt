//! Where the part of each key stands.
//! Why so: docs/DECISIONS.md, "Keys that were held last are at hand".
ghost use Rattle.std.specs.Prelude.{◌≡◌, ◌⊎◌, All, IfSome, IsNone, OnErr, OnOk, Some, None};
ghost use Rattle.std.specs.BTreeMap.{IsEmpty, IsUnchanged, Updates, get};
ghost use Rattle.gb_base.specs.Keys.{key_cmp};
ghost use Rattle.gb_base.specs.declared.keys.Key.{Key};
ghost use Rattle.folio_sections.specs.inner.KeysAtHand.{AreAtHand};

use gb_base::{FolioId, Key, NoMemory};
use std::alloc::Global;
use std::collections::BTreeMap;

/// From so many keys on, some are at hand. Where keys are fewer, each is found in a node or two of
/// the map.
const MANY_KEYS: usize = 64;

/// How many keys may be at hand.
const SLOTS: usize = 512;

/// Where the part of each key stands in a list.
#[derive(Drop)]
pub(crate) struct KeyIndex {
    pub places: BTreeMap<Key, usize>,
    /// Some of the places once more, each at the slot of its key. There are no slots while keys are
    /// few, and fewer or none where memory for them ran out.
    slots: Vec<Option<KeyPlace>>,
}

/// Where the part of a key stands.
#[derive(Clone, Copy)]
pub(crate) struct KeyPlace {
    key: Key,
    place: usize,
}

impl KeyIndex {
    /// The index of no keys.
    pub fn new(alloc: Global) -> KeyIndex
        ensures empty { IsEmpty result.places }
        ensures at_hand { AreAtHand result.places result.slots.items }
    {
        KeyIndex {
            places: BTreeMap::new(alloc),
            slots: Vec::new(alloc),
        }
    }

    /// Where the part of a key stands; None where it has none.
    pub fn get(&self, key: &Key) -> Option<usize>
        requires { AreAtHand self.now.places self.now.slots.items }
        ensures { result ≡ get key_cmp self.now.places key.now }
    {
        match self.at_hand(key) {
            Some(place) => Some(place),
            None => self.places.get(key).copied(),
        }
    }

    /// Puts the place of a key that has none, and has it at hand. Where no memory is found nothing
    /// changes.
    pub fn insert(&mut self, key: &Key, place: usize) -> Result<(), NoMemory>
        requires at_hand { AreAtHand self.old.places self.old.slots.items }
        requires absent { get key_cmp self.old.places key.now ≡ None }
        ensures at_hand { AreAtHand self.new.places self.new.slots.items }
        ensures updates { OnOk result (Updates key_cmp self.old.places self.new.places key.now (Some place)) }
        ensures unchanged { OnErr result (IsUnchanged self.old.places self.new.places) }
    {
        self.places.insert(*key, place)?;
        make_slots(&mut self.slots, self.places.len());
        self.have_at_hand(key, place);
        Ok(())
    }

    /// Has the place of a key at hand, so that it is found at once.
    pub fn have_at_hand(&mut self, key: &Key, place: usize)
        requires at_hand { AreAtHand self.old.places self.old.slots.items }
        requires place { get key_cmp self.old.places key.now ≡ Some place }
        ensures at_hand { AreAtHand self.new.places self.new.slots.items }
        ensures places { self.new.places ≡ self.old.places }
    {
        if let Some(slot) = self.slots.get_mut(slot_of(key)) {
            *slot = Some(KeyPlace { key: *key, place });
        }
    }

    /// Where the part of a key stands, if it is at hand.
    fn at_hand(&self, key: &Key) -> Option<usize>
        requires { AreAtHand self.now.places self.now.slots.items }
        ensures { IfSome result (λ place. get key_cmp self.now.places key.now ≡ Some place) }
    {
        match self.slots.get(slot_of(key)) {
            Some(Some(at_hand)) if at_hand.key == *key => Some(at_hand.place),
            _ => None,
        }
    }
}

/// Makes the slots once keys are many. Where memory for them runs out this does not fail: fewer
/// keys are at hand then, or none. (Of any type, since a push of a struct that holds a key is not
/// covered.)
fn make_slots<T: Copy>(slots: &mut Vec<Option<T>>, keys: usize)
    ensures { (slots.new.items ≡ slots.old.items) ⊎ All IsNone slots.new.items }
{
    if slots.is_empty() && keys >= MANY_KEYS {
        add_empty(slots);
    }
}

/// Adds empty slots: as many as there may be, or as many as memory is found for.
fn add_empty<T: Copy>(slots: &mut Vec<Option<T>>)
    ensures { All IsNone slots.old.items → All IsNone slots.new.items }
{
    for _ in 0..SLOTS {
        if slots.push(None).is_err() {
            return;
        }
    }
}

/// The slot of a key. Receipts and folios often follow one another, or stand at equal distances. The
/// two multiplications mix their bits, so that such keys are scattered like any others.
fn slot_of(key: &Key) -> usize {
    let number = key_number(key).wrapping_mul(0x9E37_79B1);
    let mixed = (number ^ (number >> 15)).wrapping_mul(0x85EB_CA6B);
    (mixed >> 16) as usize % SLOTS
}

/// A number that few keys share: a filing has at most eight acts, so rights have different ones.
fn key_number(key: &Key) -> u32 {
    match key {
        Key::Title(folio) => folio.get().wrapping_mul(8),
        Key::Right(_, right) => right
            .receipt()
            .get()
            .wrapping_mul(8)
            .wrapping_add(right.act() as u32),
        Key::Case(folio) => !folio.get().wrapping_mul(8),
    }
}
