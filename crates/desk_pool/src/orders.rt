//! Which orders of a journal's items are permitted.
ghost use Rattle.std.specs.Prelude.{◌≡◌, ◌↔◌, ◌≤◌, false, All, IsTrue, List, length};
ghost use Rattle.std.specs.List.{list_all};
ghost use Rattle.act_model.specs.declared.receipts.Receipt.{Receipt};
ghost use Rattle.conflict_queue.specs.Dockets.{docket_of, previous_in};
ghost use Rattle.conflict_queue.specs.Schedules.{IsPermitted};
ghost use Rattle.desk_pool.specs.inner.OrderWalks.{has_turn, is_free, is_item, is_settled, keys_in, walks};

use conflict_queue::Docket;
use gb_base::{Key, ReceiptNo};

/// Whether the items of the docket's journal may be settled in this order (GBO § 17). It takes no
/// memory: in `settled` it notes which of the items it has seen, and none is noted at first.
pub(crate) fn is_permitted(docket: &Docket, order: &[ReceiptNo], settled: &mut [bool]) -> bool
    requires len { length settled.old ≡ length docket.now }
    requires none { All (λ one. one ≡ false) settled.old }
    ensures permitted { (journal : List Receipt) → docket.now ≡ docket_of journal → (IsTrue result ↔ IsPermitted journal order.now) }
{
    takes_all(docket, order, settled)
}

/// Takes the items in this order, as long as each has its turn; whether all were taken in the end.
fn takes_all(docket: &Docket, order: &[ReceiptNo], settled: &mut [bool]) -> bool
    requires { length settled.old ≡ length docket.now }
    ensures { result ≡ walks docket.now settled.old order.now }
{
    for item in order {
        if !has_turn(docket, settled, *item) {
            return false;
        }
        settled[item.get() as usize - 1] = true;
    }
    are_all_settled(settled)
}

/// Whether every item is settled.
fn are_all_settled(settled: &[bool]) -> bool
    ensures { result ≡ list_all (λ one. one) settled.now }
{
    settled.iter().all(|one| *one)
}

/// Whether an item has its turn: it is one of the docket's, is not settled, and waits for no other.
fn has_turn(docket: &Docket, settled: &[bool], item: ReceiptNo) -> bool
    ensures { result ≡ has_turn docket.now settled.now item }
{
    is_item(docket, item) && !is_settled(settled, item) && waits_for_none(docket, settled, item)
}

/// Whether the docket has an item of this number.
fn is_item(docket: &Docket, item: ReceiptNo) -> bool
    ensures value { result ≡ is_item docket.now item }
    ensures within { IsTrue result → item ≤ length docket.now }
{
    item.get() as usize <= docket.len()
}

/// Whether, at each of the item's keys, the item before it is settled.
fn waits_for_none(docket: &Docket, settled: &[bool], item: ReceiptNo) -> bool
    requires { item ≤ length docket.now }
    ensures { result ≡ list_all (λ k. is_free settled.now (previous_in docket.now item k)) (keys_in docket.now item) }
{
    docket
        .keys(item)
        .iter()
        .all(|key| is_free(docket, settled, item, *key))
}

/// Whether the item before it at a key is settled, where there is one.
fn is_free(docket: &Docket, settled: &[bool], item: ReceiptNo, key: Key) -> bool
    requires { item ≤ length docket.now }
    ensures { result ≡ is_free settled.now (previous_in docket.now item key) }
{
    match docket.previous(item, key) {
        Some(before) => is_settled(settled, before),
        None => true,
    }
}

/// Whether an item is noted as settled.
fn is_settled(settled: &[bool], item: ReceiptNo) -> bool
    ensures { result ≡ is_settled settled.now item }
{
    match settled.get(item.get() as usize - 1) {
        Some(one) => *one,
        None => false,
    }
}
