//! What is read at a right of a folio; nothing where the parts do not hold it.
ghost use Rattle.std.specs.Prelude.{◌≡◌, ◌≤◌, false, None, filter, filter_map, is_some, IfSome};
ghost use Rattle.std.specs.List.{last_or};
ghost use Rattle.std.specs.Option.{option_map_or};
ghost use Rattle.gb_base.specs.Limits.{most_cents};
ghost use Rattle.gb_base.specs.declared.keys.Key.TheVariants.{Right};
ghost use Rattle.folio_sections.specs.Fronts.{NeverFall};
ghost use Rattle.folio_sections.specs.Rights.{created, exchanges, is_exchange, is_live};
ghost use Rattle.folio_line.specs.Exchanges.{rise_by};
ghost use Rattle.folio_line.specs.FolioLine.{rises_of};
ghost use Rattle.folio_line.specs.FolioReading.{CanBeRead, read_at, reads};
ghost use Rattle.folio_line.specs.FolioSlots.{capital_at};

use crate::FolioReading;
use folio_sections::{Created, Entry, Parts, RightFront, RightPart, What};
use gb_base::{ReceiptNo, RightId};

/// The right as it is read; None where the parts do not hold it.
pub fn right_front<'a, P: Parts>(
    reading: &FolioReading<'a, P>,
    id: RightId,
) -> Option<RightFront<'a>>
    requires { CanBeRead P.holds P.at reading.now }
    ensures some { is_some result ≡ P.holds reading.now.parts.now (Right reading.now.folio id) }
    ensures value { IfSome result (λ front. front ≡ reads P.holds P.at reading.now (Right reading.now.folio id)) }
{
    let part = reading.parts.right(reading.folio, id)?;
    Some(front_of(part, reading.before))
}

/// The right of a part as it stood before a receipt, or as it stands.
fn front_of(part: &RightPart, before: Option<ReceiptNo>) -> RightFront<'_>
    requires { IfSome before (λ _. NeverFall part.now.entries) }
    ensures { result ≡ read_at before (λ _. part.now.entries) part.now.key }
{
    match before {
        Some(receipt) => part.below(receipt),
        None => part.whole(),
    }
}

/// The entries at a right of the folio.
pub(crate) fn right_entries<'a, P: Parts>(reading: &FolioReading<'a, P>, id: RightId) -> &'a [Entry]
    requires { CanBeRead P.holds P.at reading.now }
    ensures { result.now ≡ reads P.holds P.at reading.now (Right reading.now.folio id) }
{
    match right_front(reading, id) {
        Some(front) => front.entries(),
        None => &[],
    }
}

/// The entries at a right of the folio as far as exchanges stand among them: it rises by none of the
/// others. So no reader of exchanges walks the entries of a right that is in none.
pub(crate) fn exchange_entries<'a, P: Parts>(
    reading: &FolioReading<'a, P>,
    id: RightId,
) -> &'a [Entry]
    requires { CanBeRead P.holds P.at reading.now }
    ensures { filter_map (λ e. rise_by id e.receipt e.what) result.now ≡ rises_of (reads P.holds P.at reading.now) reading.now.folio id }
{
    match reading.parts.right(reading.folio, id) {
        // No front has more exchanges than the whole part.
        Some(part) => up_to_exchange(part.exchanges(), front_of(part, reading.before).entries()),
        None => &[],
    }
}

/// The front of these entries in which all of their exchanges stand, at most so many. It is looked
/// for only where they do not end in one: those of a right that is exchanged often mostly do.
fn up_to_exchange(most: usize, entries: &[Entry]) -> &[Entry]
    requires { exchanges entries.now ≤ most }
    ensures { filter (λ e. is_exchange e.what) result.now ≡ filter (λ e. is_exchange e.what) entries.now }
{
    if ends_in_exchange(entries) {
        return entries;
    }
    let mut left = most;
    for (index, entry) in entries.iter().enumerate() {
        if left == 0 {
            return &entries[..index];
        }
        if is_exchange(&entry.what) {
            left -= 1;
        }
    }
    entries
}

/// Whether the last of these entries is an exchange.
fn ends_in_exchange(entries: &[Entry]) -> bool
    ensures { result ≡ option_map_or (λ e. is_exchange e.what) (last_or None entries.now) false }
{
    match entries.last() {
        Some(last) => is_exchange(&last.what),
        None => false,
    }
}

/// Whether a content exchanges the right's rank with that of another (BGB § 880).
fn is_exchange(what: &What) -> bool
    ensures { result ≡ is_exchange what.now }
{
    matches!(what, What::Exchanged { .. })
}

/// A right of the folio as it was created; None where it never was.
pub(crate) fn created_right<P: Parts>(reading: &FolioReading<P>, id: RightId) -> Option<Created>
    requires { CanBeRead P.holds P.at reading.now }
    ensures { result ≡ created (reads P.holds P.at reading.now (Right reading.now.folio id)) }
{
    match right_front(reading, id) {
        Some(front) => front.created(),
        None => None,
    }
}

/// Whether a right of the folio is live (BGB § 875, ZVG § 91); false where the parts do not hold it.
/// Takes no memory.
pub fn is_live<P: Parts>(reading: &FolioReading<P>, id: RightId) -> bool
    requires { CanBeRead P.holds P.at reading.now }
    ensures { result ≡ is_live (reads P.holds P.at reading.now (Right reading.now.folio id)) }
{
    match right_front(reading, id) {
        Some(front) => front.live(),
        None => false,
    }
}

/// The capital of a right of the folio, in cents: the one that the last award left, else the one with
/// which it was created (ZVG § 52); 0 where it has none, or the parts do not hold it. Takes no memory.
pub fn capital_of<P: Parts>(reading: &FolioReading<P>, id: RightId) -> u64
    requires { CanBeRead P.holds P.at reading.now }
    ensures value { result ≡ capital_at (reads P.holds P.at reading.now) reading.now.folio id }
    ensures bound { result ≤ most_cents }
{
    match right_front(reading, id) {
        Some(front) => match front.capital() {
            Some(capital) => capital.get(),
            None => 0,
        },
        None => 0,
    }
}

/// Whether a right of the folio was ever created.
pub(crate) fn was_created<P: Parts>(reading: &FolioReading<P>, id: RightId) -> bool
    requires { CanBeRead P.holds P.at reading.now }
    ensures { result ≡ is_some (created (reads P.holds P.at reading.now (Right reading.now.folio id))) }
{
    created_right(reading, id).is_some()
}
