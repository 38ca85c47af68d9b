//! The keys that a filing touches.
ghost use Rattle.std.specs.Prelude.{◌≡◌, ◌≤◌, IsTrue, [], insert, length};
ghost use Rattle.gb_base.specs.Limits.{most_acts};
ghost use Rattle.act_model.specs.WellFormed.{names_few_folios};
ghost use Rattle.act_model.specs.Touches.{was_in_division_three, keys_in_order, keys_of_act, keys_of_acts};
ghost use Rattle.act_model.specs.inner.KeyInsertion.{with_key, with_keys, insert_key};

use crate::filings::{created_before, filing_at, new_right};
use crate::{Act, Journal};
use arrayvec::ArrayVec;
use gb_base::{FolioId, Key, ReceiptNo, RightId};

/// The keys of filing m in ascending order, each once; none where receipt m is no filing.
pub fn filing_keys(journal: &Journal, m: ReceiptNo) -> ArrayVec<Key, 18>
    ensures { result.items ≡ keys_in_order journal.now.receipts m }
{
    match filing_at(journal, m) {
        Some(filing) => keys_of_acts(journal, m, filing.acts.list()),
        None => ArrayVec::new(),
    }
}

/// Whether a filing before filing m creates this right, in division III of this folio.
fn was_in_division_three(journal: &Journal, m: ReceiptNo, folio: FolioId, right: RightId) -> bool
    ensures { result ≡ was_in_division_three journal.now.receipts m folio right }
{
    match created_before(journal, m, folio, right) {
        Some(spec) => spec.kind.is_in_division_three(),
        None => false,
    }
}

/// The keys of act a of filing m.
fn keys_of_act(journal: &Journal, m: ReceiptNo, a: u8, act: &Act) -> ArrayVec<Key, 3>
    requires from_one { 1 ≤ a }
    requires to_eight { a ≤ most_acts }
    ensures { result.items ≡ keys_of_act journal.now.receipts m a act.now }
{
    let mut keys = ArrayVec::new();
    match act {
        Act::Open { folio, .. } => keys.push(Key::Title(*folio)),
        Act::Transfer { folio, .. } => keys.push(Key::Title(*folio)),
        Act::Create { folio, .. } => {
            keys.push(Key::Title(*folio));
            keys.push(Key::Right(*folio, new_right(m, a)));
        }
        Act::NoticeFor { folio, .. } => {
            keys.push(Key::Title(*folio));
            keys.push(Key::Right(*folio, new_right(m, a)));
        }
        Act::Convert { folio, right } => {
            keys.push(Key::Title(*folio));
            keys.push(Key::Right(*folio, *right));
        }
        Act::Assign { folio, right, .. } => keys.push(Key::Right(*folio, *right)),
        Act::Cancel { folio, right } => {
            keys.push(Key::Title(*folio));
            keys.push(Key::Right(*folio, *right));
        }
        Act::Exchange {
            folio,
            recede,
            rise,
        } => {
            keys.push(Key::Right(*folio, *recede));
            keys.push(Key::Right(*folio, *rise));
            if was_in_division_three(journal, m, *folio, *recede) {
                keys.push(Key::Title(*folio));
            }
        }
        Act::Exercise { folio, behind, .. } => {
            keys.push(Key::Title(*folio));
            keys.push(Key::Right(*folio, *behind));
            keys.push(Key::Right(*folio, new_right(m, a)));
        }
    }
    keys
}

/// The keys of the acts of filing m in key order, each once.
fn keys_of_acts(journal: &Journal, m: ReceiptNo, acts: &[Act]) -> ArrayVec<Key, 18>
    requires acts { length acts.now ≤ most_acts }
    requires folios { IsTrue (names_few_folios acts.now) }
    ensures { result.items ≡ with_keys (keys_of_acts journal.now.receipts m 1 acts.now) [] }
{
    let mut keys = ArrayVec::new();
    for (i, act) in acts.iter().enumerate() {
        insert_keys(
            &mut keys,
            keys_of_act(journal, m, i as u8 + 1, act).as_slice(),
        );
    }
    keys
}

/// Puts each of these keys in its place, unless it stands there already.
fn insert_keys(keys: &mut ArrayVec<Key, 18>, more: &[Key])
    requires { length (with_keys more.now keys.old.items) ≤ 18 }
    ensures { keys.new.items ≡ with_keys more.now keys.old.items }
{
    for key in more {
        insert_key(keys, *key);
    }
}

/// Puts a key in its place, unless it stands there already.
fn insert_key(keys: &mut ArrayVec<Key, 18>, key: Key)
    requires { length (with_key key keys.old.items) ≤ 18 }
    ensures { keys.new.items ≡ with_key key keys.old.items }
{
    if keys.as_slice().contains(&key) {
        return;
    }
    let index = index_for(keys.as_slice(), key);
    keys.insert(index, key);
}

/// The index of the first key that is greater; where there is none, the length of the list.
fn index_for(keys: &[Key], key: Key) -> usize
    ensures index { insert keys.now result key ≡ insert_key key keys.now }
    ensures within { result ≤ length keys.now }
{
    match keys {
        [first, rest @ ..] if key >= *first => index_for(rest, key) + 1,
        _ => 0,
    }
}
