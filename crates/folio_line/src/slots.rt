//! The cent line of a folio: its rights in order, with their capitals, and the exchanges among them.
ghost use Rattle.std.specs.Prelude.{◌≡◌, ◌≤◌, All, IfOk, None, map};
ghost use Rattle.gb_base.specs.Limits.{most_cents};
ghost use Rattle.kept_registers.specs.Kept.{Kept};
ghost use Rattle.folio_line.specs.FolioLine.{IsLineOf};
ghost use Rattle.folio_line.specs.FolioReading.{CanBeRead, read_at, reads};
ghost use Rattle.folio_line.specs.FolioRights.{joins_place};
ghost use Rattle.folio_line.specs.FolioSlots.{capital_at, folio_filled, is_gone, swap_of};
ghost use Rattle.folio_line.specs.inner.PlaceByPlace.{place_behind, places_behind};

use crate::exchanges::Exchange;
use crate::folio_reads::{capital_of, is_live};
use crate::folio_rights::{CreatedRight, has_same_place};
use crate::{FolioLine, FolioReading, HeldRights};
use act_model::{Journal, is_a_journal};
use folio_sections::Parts;
use gb_base::NoMemory;
use rank_slots::{Place, Slots, Swap};
use std::alloc::Global;

/// The line of a folio with its capitals, after the exchanges that count. Making its lists and its
/// room may run out of memory (`NoMemory`); filling the line takes none.
///
/// Charges 2.1 of 100 euros, 3.1 of 50 and 4.1 of 80, of which 2.1 recedes behind 4.1: 4.1 takes the
/// cents 1 to 8000, 2.1 those to 10000, 3.1 those to 15000, and 2.1 the rest.
pub fn folio_slots<P: HeldRights>(
    alloc: Global,
    reading: &FolioReading<P>,
    journal: &Journal,
    line: &FolioLine,
) -> Result<Slots, NoMemory>
    requires read { CanBeRead P.holds P.at reading.now }
    requires kept { Kept journal.now.receipts (read_at reading.now.before (P.at reading.now.parts.now)) }
    requires line { IsLineOf (read_at reading.now.before (P.at reading.now.parts.now)) reading.now.folio line.now }
    ensures { IfOk result (λ slots. slots.filled ≡ folio_filled (read_at reading.now.before (P.at reading.now.parts.now)) reading.now.folio) }
{
    is_a_journal(journal);
    let places = places_of(alloc, reading, line.rights())?;
    let swaps = swaps_of(alloc, line.exchanges())?;
    let mut slots = Slots::with_room(alloc, places.len(), swaps.len())?;
    // An exercise moves no cents.
    slots.fill(&places, &swaps, &[]);
    Ok(slots)
}

/// The places of these rights, which stand by filing and group.
fn places_of<P: HeldRights>(
    alloc: Global,
    reading: &FolioReading<P>,
    rights: &[CreatedRight],
) -> Result<Vec<Place>, NoMemory>
    requires { CanBeRead P.holds P.at reading.now }
    ensures value { IfOk result (λ places. places.items ≡ places_behind (capital_at (reads P.holds P.at reading.now) reading.now.folio) (is_gone (reads P.holds P.at reading.now) reading.now.folio) None rights.now) }
    ensures bound { IfOk result (λ places. All (λ p. p.claim ≤ most_cents) places.items) }
{
    let mut places = Vec::new(alloc);
    let mut before = None;
    for right in rights {
        places.push(place_behind(reading, before, right))?;
        before = Some(*right);
    }
    Ok(places)
}

/// The place of a right, with the right that stands before it.
fn place_behind<P: Parts>(
    reading: &FolioReading<P>,
    before: Option<CreatedRight>,
    right: &CreatedRight,
) -> Place
    requires { CanBeRead P.holds P.at reading.now }
    ensures value { result ≡ place_behind (capital_at (reads P.holds P.at reading.now) reading.now.folio) (is_gone (reads P.holds P.at reading.now) reading.now.folio) before right.now }
    ensures bound { result.claim ≤ most_cents }
{
    Place {
        right: right.id,
        claim: capital_of(reading, right.id),
        with_previous: joins_place(before, right),
        dropped: !is_live(reading, right.id),
    }
}

/// Whether the right joins the place of the one before it, if there is one: both are of one filing
/// and group (GBO § 45(1), (3)). Takes no memory.
///
/// 2.2 of group 1 joins 2.1 of group 1; 3.1 does not, whatever its group is.
pub fn joins_place(before: Option<CreatedRight>, right: &CreatedRight) -> bool
    ensures { result ≡ joins_place before right.now }
{
    match before {
        Some(before) => has_same_place(&before, right),
        None => false,
    }
}

/// These exchanges on the line.
fn swaps_of(alloc: Global, exchanges: &[Exchange]) -> Result<Vec<Swap>, NoMemory>
    ensures { IfOk result (λ swaps. swaps.items ≡ map swap_of exchanges.now) }
{
    exchanges
        .iter()
        .map(|exchange| Swap {
            recede: exchange.recede,
            rise: exchange.rise,
        })
        .collect(alloc)
}
