//! The exchanges of rank of a folio that count (BGB § 880).
ghost use Rattle.std.specs.Prelude.{◌≡◌, ◌++◌, ◌≤◌, true, IfOk, IsOk, filter, flat_map, length, vec_capacity};
ghost use Rattle.std.specs.List.{list_any};
ghost use Rattle.gb_base.specs.RightNo.{same_right};
ghost use Rattle.gb_base.specs.declared.keys.Key.TheVariants.{Right};
ghost use Rattle.folio_line.specs.Exchanges.{counted_at, is_cancellation_by_consent, keeps_cents, rise_by};
ghost use Rattle.folio_sections.specs.Rights.{exchanges};
ghost use Rattle.folio_line.specs.FolioLine.{all_exchanges, all_rises};
ghost use Rattle.folio_line.specs.FolioReading.{CanBeRead, reads, where_held};
ghost use Rattle.folio_line.specs.inner.LiveLists.{AreLive};
ghost use Rattle.folio_line.specs.inner.Turns.{has_turn};

use crate::FolioReading;
use crate::folio_reads::{exchange_entries, is_live, right_entries, was_created};
use crate::folio_rights::CreatedRight;
use folio_sections::{Entry, Parts, What};
use gb_base::{NoMemory, ReceiptNo, RightId};
use std::alloc::AllocError;

/// An exchange of rank that is entered in a folio.
#[derive(Clone, Copy, Debug)]
pub struct Exchange {
    /// The item that entered it: a filing, or the cure of one.
    pub item: ReceiptNo,
    /// The act of the filing.
    pub act: u8,
    /// The right that recedes.
    pub recede: RightId,
    /// The right that rises: it gets the first of both rights' cents.
    pub rise: RightId,
}

/// Writes the exchanges that count into a list that has room, in the order of `live`, whose rights
/// rise by them. An exchange stands at both of its rights, and is read at the one that rises. It
/// counts where the cents of the one that recedes stay.
pub(crate) fn write_counted<P: Parts>(
    list: &mut Vec<Exchange>,
    reading: &FolioReading<P>,
    live: &[CreatedRight],
)
    requires read { CanBeRead P.holds P.at reading.now }
    requires live { AreLive (reads P.holds P.at reading.now) reading.now.folio live.now }
    requires room { length (filter has_turn (flat_map (counted_at (reads P.holds P.at reading.now) reading.now.folio) live.now)) ≤ vec_capacity list.old }
    ensures items { list.new.items ≡ filter has_turn (flat_map (counted_at (reads P.holds P.at reading.now) reading.now.folio) live.now) }
    ensures capacity { vec_capacity list.new ≡ vec_capacity list.old }
{
    list.clear();
    for right in live {
        add_counted(list, reading, live, right);
    }
}

/// Adds the exchanges by which one of the live rights rises, and that count.
fn add_counted<P: Parts>(
    list: &mut Vec<Exchange>,
    reading: &FolioReading<P>,
    live: &[CreatedRight],
    right: &CreatedRight,
)
    requires read { CanBeRead P.holds P.at reading.now }
    requires live { AreLive (reads P.holds P.at reading.now) reading.now.folio live.now }
    requires room { length (list.old.items ++ filter has_turn (counted_at (reads P.holds P.at reading.now) reading.now.folio right.now)) ≤ vec_capacity list.old }
    ensures items { list.new.items ≡ list.old.items ++ filter has_turn (counted_at (reads P.holds P.at reading.now) reading.now.folio right.now) }
    ensures capacity { vec_capacity list.new ≡ vec_capacity list.old }
{
    for entry in exchange_entries(reading, right.id) {
        if let Some(exchange) = rise_by(right.id, entry) {
            if keeps_cents_beside(reading, live, exchange.recede) && has_turn(&exchange) {
                list.push_reserved(exchange);
            }
        }
    }
}

/// For how many exchanges a line of these rights needs room: as many as stand at them, each at both
/// of its rights, whether they count or not. All entries are counted, also those that the reading
/// does not read, and those after an item for which room is kept. NoMemory where they are too many
/// to be counted, since no memory could be found for them. Takes no memory, and walks no entries:
/// each right knows how many exchanges it is in.
///
/// 2.1 receded behind 4.1, and then 3.1 behind 2.1: of these three rights 2.1 is in two exchanges and
/// the others in one each, which is room for four.
pub fn count_exchanges<P: Parts>(
    reading: &FolioReading<P>,
    ids: &[RightId],
) -> Result<usize, NoMemory>
    ensures value { IfOk result (λ n. n ≡ all_exchanges (where_held (P.holds reading.now.parts.now) (P.at reading.now.parts.now)) reading.now.folio ids.now) }
    ensures enough { IfOk result (λ n. length (all_rises (reads P.holds P.at reading.now) reading.now.folio ids.now) ≤ n) }
    ensures succeeds { all_exchanges (where_held (P.holds reading.now.parts.now) (P.at reading.now.parts.now)) reading.now.folio ids.now ≤ 18446744073709551615 → IsOk result }
{
    let mut count: usize = 0;
    for id in ids {
        count = count
            .checked_add(exchanges_of(reading, *id))
            .ok_or(AllocError)?;
    }
    Ok(count)
}

/// How many exchanges the right is in; 0 where the parts do not hold it.
fn exchanges_of<P: Parts>(reading: &FolioReading<P>, id: RightId) -> usize
    ensures { result ≡ exchanges (where_held (P.holds reading.now.parts.now) (P.at reading.now.parts.now) (Right reading.now.folio id)) }
{
    match reading.parts.right(reading.folio, id) {
        Some(part) => part.exchanges(),
        None => 0,
    }
}

/// The exchange that an entry is, where the right rises by it.
fn rise_by(right: RightId, entry: &Entry) -> Option<Exchange>
    ensures { result ≡ rise_by right entry.now.receipt entry.now.what }
{
    match &entry.what {
        What::Exchanged { recede, rise, act } if *rise == right => Some(Exchange {
            item: entry.receipt,
            act: *act,
            recede: *recede,
            rise: *rise,
        }),
        _ => None,
    }
}

/// Whether the exchange has its turn among the others: it is one of the acts that a filing has.
fn has_turn(exchange: &Exchange) -> bool
    ensures { result ≡ has_turn exchange.now }
{
    // By its type the item is a receipt of the numbers that there may be.
    let receipt = exchange.item.get();
    prove!(1 <= receipt);
    1 <= exchange.act && exchange.act <= 8
}

/// Whether the cents of a right stay, with the live rights at hand. It is mostly one of these, and
/// then nothing is read of it: a folio may have thousands of exchanges among few rights.
fn keeps_cents_beside<P: Parts>(
    reading: &FolioReading<P>,
    live: &[CreatedRight],
    id: RightId,
) -> bool
    requires read { CanBeRead P.holds P.at reading.now }
    requires live { AreLive (reads P.holds P.at reading.now) reading.now.folio live.now }
    ensures { result ≡ keeps_cents (reads P.holds P.at reading.now (Right reading.now.folio id)) }
{
    is_found(live, id) || keeps_cents(reading, id)
}

/// Whether the right is found among these. Lists of rights stand by filing, so it is looked for
/// behind those of earlier filings, among the few of its own. In another order it may be missed:
/// what is found is there, and no clause says that all is found.
fn is_found(rights: &[CreatedRight], id: RightId) -> bool
    ensures { result ≡ true → list_any (λ x. same_right x.id id) rights.now ≡ true }
{
    let filing = id.receipt();
    let earlier = rights.partition_point(|right| right.id.receipt() < filing);
    rights[earlier..]
        .iter()
        .take_while(|right| right.id.receipt() == filing)
        .any(|right| right.id == id)
}

/// Whether the cents of a right stay for those that rose into its rank: it is live, or it was
/// created and cancelled without a proof that it expired (BGB § 880(4)).
fn keeps_cents<P: Parts>(reading: &FolioReading<P>, id: RightId) -> bool
    requires { CanBeRead P.holds P.at reading.now }
    ensures { result ≡ keeps_cents (reads P.holds P.at reading.now (Right reading.now.folio id)) }
{
    is_live(reading, id)
        || (was_created(reading, id) && was_cancelled_by_consent(right_entries(reading, id)))
}

/// Whether an entry cancels the right by consent.
fn was_cancelled_by_consent(entries: &[Entry]) -> bool
    ensures { result ≡ list_any (λ e. is_cancellation_by_consent e.what) entries.now }
{
    entries
        .iter()
        .any(|entry| is_cancellation_by_consent(&entry.what))
}

/// Whether a content cancels the right by consent, without a proof that it expired.
fn is_cancellation_by_consent(what: &What) -> bool
    ensures { result ≡ is_cancellation_by_consent what.now }
{
    match what {
        What::Cancelled { expired } => !*expired,
        _ => false,
    }
}
