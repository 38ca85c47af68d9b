//! What is asked of the part at a key, of whatever kind the key is.
ghost use Rattle.std.specs.Prelude.{◌≡◌, find, is_some, IfSome, IsTrue};
ghost use Rattle.folio_sections.specs.Waiting.{is_above, pending, waiting_unnoticed};

use crate::entry_list::EntryList;
use crate::{Entry, Parts};
use gb_base::{Day, Key, ReceiptNo};

/// Whether the part of a key is held.
pub fn is_held<P: Parts>(parts: &P, key: &Key) -> bool
    ensures { result ≡ P.holds parts.now key.now }
{
    list_at(parts, key).is_some()
}

/// The entries at a key, in order; None where its part is not held.
pub fn entries_at<'a, P: Parts>(parts: &'a P, key: &Key) -> Option<&'a [Entry]>
    ensures held { is_some result ≡ P.holds parts.now key.now }
    ensures value { IfSome result (λ entries. entries.now ≡ P.at parts.now key.now) }
{
    match list_at(parts, key) {
        Some(list) => Some(list.entries()),
        None => None,
    }
}

/// The day until which a filing waits for cures at a key; None where it does not wait there.
pub fn pending_at<P: Parts>(parts: &P, key: &Key, filing: ReceiptNo) -> Option<Day>
    requires { IsTrue (P.holds parts.now key.now) }
    ensures { result ≡ pending filing (P.at parts.now key.now) }
{
    list_at(parts, key).unwrap().pending(filing)
}

/// The first filing above `after`, and below `filing`, that waits at a key without an official
/// notice; None where there is none.
pub fn next_unnoticed_at<P: Parts>(
    parts: &P,
    key: &Key,
    after: Option<ReceiptNo>,
    filing: ReceiptNo,
) -> Option<ReceiptNo>
    requires { IsTrue (P.holds parts.now key.now) }
    ensures { result ≡ find (is_above after) (waiting_unnoticed filing (P.at parts.now key.now)) }
{
    list_at(parts, key).unwrap().next_unnoticed(after, filing)
}

/// The entries at a key, with what stands beside them; None where its part is not held.
fn list_at<'a, P: Parts>(parts: &'a P, key: &Key) -> Option<&'a EntryList>
    ensures some { is_some result ≡ P.holds parts.now key.now }
    ensures entries { IfSome result (λ list. list.now.entries ≡ P.at parts.now key.now) }
{
    match key {
        Key::Title(folio) => match parts.title(*folio) {
            Some(part) => Some(part.list()),
            None => None,
        },
        Key::Right(folio, right) => match parts.right(*folio, *right) {
            Some(part) => Some(part.list()),
            None => None,
        },
        Key::Case(folio) => match parts.case(*folio) {
            Some(part) => Some(part.list()),
            None => None,
        },
    }
}
