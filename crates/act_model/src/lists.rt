//! Lists of values under keys.
ghost use Rattle.std.specs.Prelude.{◌≡◌, ◌+◌, ◌++◌, ◌∷◌, ◌≤◌, [], if◌then◌else◌, OnOk};
ghost use Rattle.std.specs.Ordering.{is_eq};
ghost use Rattle.act_model.specs.inner.Lists.{listed, room, Widens};

use gb_base::NoMemory;
use std::alloc::Global;
use std::collections::BTreeMap;

/// The values that stand under this key.
pub fn listed<K: Ord + Copy, V>(lists: &BTreeMap<K, Vec<V>>, k: K) -> &[V]
    ensures { result.now ≡ listed K.cmp lists.now k }
{
    match lists.get(&k) {
        Some(list) => list.as_slice(),
        None => &[],
    }
}

/// Keeps room for n values more under this key.
pub fn reserve<K: Ord + Copy, V: Copy>(
    lists: &mut BTreeMap<K, Vec<V>>,
    k: K,
    n: usize,
    alloc: Global,
) -> Result<(), NoMemory>
    ensures widens { Widens K.cmp lists.old lists.new }
    ensures kept { OnOk result (n ≤ room K.cmp lists.new k) }
{
    match lists.get_mut(&k) {
        Some(list) => {
            list.reserve(n)?;
            Ok(())
        }
        None => {
            let mut list = Vec::new(alloc);
            list.reserve(n)?;
            lists.insert(k, list)?;
            Ok(())
        }
    }
}

/// Puts a value at the end of those under this key.
pub fn push<K: Ord + Copy, V: Copy>(lists: &mut BTreeMap<K, Vec<V>>, k: K, value: V)
    requires { 1 ≤ room K.cmp lists.old k }
    ensures listed { (q : K) → listed K.cmp lists.new q ≡ if is_eq (K.cmp k q) then listed K.cmp lists.old k ++ value ∷ [] else listed K.cmp lists.old q }
    ensures room { (q : K) → room K.cmp lists.old q ≤ room K.cmp lists.new q + (if is_eq (K.cmp k q) then 1 else 0) }
{
    if let Some(list) = lists.get_mut(&k) {
        list.push_reserved(value);
    }
}
