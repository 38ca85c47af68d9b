//! An item's spelling is short, since the types bound its lists.
//! Why so: docs/DECISIONS.md, "`is_short` walks an item to learn what its types bound".
ghost use Rattle.std.specs.Prelude.{◌≡◌, true};
ghost use Rattle.std.specs.List.{AllByRecursion};
ghost use Rattle.receipt_journal.specs.inner.Lists.{HasFewOwners, HasShortLists};

use act_model::{Act, Item};

/// Whether an item has no more acts and documents, and an act no more owners, than their types
/// allow. It always is so, and therefore the spelling is short.
pub(crate) fn is_short(item: &Item) -> bool
    ensures always { result ≡ true }
    ensures lists { HasShortLists item.now }
{
    match item {
        Item::Filing(filing) => {
            let acts = filing.acts.list();
            acts.len() <= 8 && are_short(acts) && filing.docs.list().len() <= 32
        }
        Item::Cure { docs, .. } => docs.list().len() <= 32,
        // Without an arm for an item with a list of its own, `item_len` of the proofs fails.
        _ => true,
    }
}

fn are_short(acts: &[Act]) -> bool
    ensures always { result ≡ true }
    ensures lists { AllByRecursion HasFewOwners acts.now }
{
    match acts {
        [] => true,
        [first, rest @ ..] => act_is_short(first) && are_short(rest),
    }
}

fn act_is_short(act: &Act) -> bool
    ensures always { result ≡ true }
    ensures lists { HasFewOwners act.now }
{
    match act {
        Act::Open { owners, .. } => owners.list().len() <= 4,
        Act::Transfer { owners, .. } => owners.list().len() <= 4,
        Act::Create { .. }
        | Act::NoticeFor { .. }
        | Act::Convert { .. }
        | Act::Assign { .. }
        | Act::Cancel { .. }
        | Act::Exchange { .. }
        | Act::Exercise { .. } => true,
    }
}
