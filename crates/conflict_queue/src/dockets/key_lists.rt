//! The lists of keys of the items of a journal, which items may share.
//! Why so: docs/DECISIONS.md, "Items of a docket may share their keys".
use gb_base::{Key, NoMemory};
use std::alloc::Global;
use std::marker::Model;

/// The keys of each item, in the order of receipts. A cure touches what its filing touches, and the
/// items of one sale mostly touch the same keys, so items may share a list.
#[derive(Drop)]
pub(crate) struct KeyLists {
    lists: Vec<Vec<Key>>,
    /// The number of each item's list.
    numbers: Vec<usize>,
}

impl Model for KeyLists {
    ghost use Rattle.std.specs.Prelude.{List};
    ghost use Rattle.gb_base.specs.declared.keys.Key.{Key};
    ghost use Rattle.conflict_queue.specs.inner.Lists.{lists_at, AreListed};

    ghost Value = { List (List Key) };

    ghost view = { λ a. lists_at a.lists.items a.numbers.items };

    ghost invariant = { λ a. AreListed a.lists.items a.numbers.items };
}

impl KeyLists {
    ghost use Rattle.std.specs.Prelude.{◌≡◌, ◌<◌, ◌++◌, ◌∷◌, List, [], length, slice_get, OnOk, Some};
    ghost use Rattle.gb_base.specs.declared.keys.Key.{Key};

    /// The lists of no items.
    pub fn new(alloc: Global) -> KeyLists
        ensures { result ≡ [] }
    {
        KeyLists {
            lists: Vec::new(alloc),
            numbers: Vec::new(alloc),
        }
    }

    /// The number of items.
    pub fn len(&self) -> usize
        ensures { result ≡ length self.now }
    {
        self.numbers.len()
    }

    /// The keys of the item at this index.
    pub fn get(&self, index: usize) -> &[Key]
        requires { index < length self.now }
        ensures { slice_get self.now index ≡ Some result.now }
    {
        self.lists[self.numbers[index]].as_slice()
    }

    /// Adds an item with these keys.
    pub fn push(&mut self, keys: Vec<Key>) -> Result<(), NoMemory>
        ensures { OnOk result (self.new ≡ self.old ++ keys.items ∷ []) }
    {
        self.lists.reserve(1)?;
        self.numbers.push(self.lists.len())?;
        self.lists.push_reserved(keys);
        Ok(())
    }

    /// Adds an item that has the keys of the item at this index.
    pub fn share(&mut self, index: usize) -> Result<(), NoMemory>
        requires { index < length self.old }
        ensures { (keys : List Key) → slice_get self.old index ≡ Some keys → OnOk result (self.new ≡ self.old ++ keys ∷ []) }
    {
        self.numbers.push(self.numbers[index])?;
        Ok(())
    }
}
