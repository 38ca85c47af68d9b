//! The queue at each key: the items that touch it, in the order of their receipts.
ghost use Rattle.std.specs.Prelude.{◌≡◌, ◌++◌, ◌∷◌, [], nat_lt, filter, map, if◌then◌else◌, OnOk, None};
ghost use Rattle.std.specs.List.{last_or};
ghost use Rattle.gb_base.specs.Keys.{same_key};
ghost use Rattle.gb_base.specs.declared.keys.Key.{Key};
ghost use Rattle.conflict_queue.specs.inner.Queues.{queue_at, Ascends};

use gb_base::{Key, NoMemory, ReceiptNo};
use std::alloc::Global;
use std::collections::BTreeMap;

/// The items that touch the key.
pub(crate) fn queue_at(queues: &BTreeMap<Key, Vec<ReceiptNo>>, key: Key) -> &[ReceiptNo]
    ensures { result.now ≡ queue_at queues.now key }
{
    match queues.get(&key) {
        Some(queue) => queue.as_slice(),
        None => &[],
    }
}

/// Puts an item at the end of the queue at each of these keys.
pub(crate) fn push_all(
    alloc: Global,
    queues: &mut BTreeMap<Key, Vec<ReceiptNo>>,
    keys: &[Key],
    item: ReceiptNo,
) -> Result<(), NoMemory>
    ensures { OnOk result ((k : Key) → queue_at queues.new k ≡ queue_at queues.old k ++ map (λ j. item) (filter (λ j. same_key j k) keys.now)) }
{
    for key in keys {
        push(alloc, queues, *key, item)?;
    }
    Ok(())
}

/// Puts an item at the end of the queue at the key.
fn push(
    alloc: Global,
    queues: &mut BTreeMap<Key, Vec<ReceiptNo>>,
    key: Key,
    item: ReceiptNo,
) -> Result<(), NoMemory>
    ensures { OnOk result ((k : Key) → queue_at queues.new k ≡ if same_key key k then queue_at queues.old k ++ item ∷ [] else queue_at queues.old k) }
{
    match queues.get_mut(&key) {
        Some(queue) => {
            queue.push(item)?;
            Ok(())
        }
        None => {
            let mut queue = Vec::new(alloc);
            queue.push(item)?;
            queues.insert(key, queue)?;
            Ok(())
        }
    }
}

/// The last of these numbers that is below item i.
pub(crate) fn last_below(numbers: &[ReceiptNo], i: ReceiptNo) -> Option<ReceiptNo>
    requires { Ascends 1 numbers.now }
    ensures { result ≡ last_or None (filter (λ n. nat_lt n i) numbers.now) }
{
    let below = numbers.partition_point(|number| *number < i);
    numbers[..below].last().copied()
}
