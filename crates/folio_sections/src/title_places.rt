//! The places that stand at the title of a folio (BGB § 879, GBO § 45).
ghost use Rattle.std.specs.Prelude.{◌≡◌, ◌==◌, fold};
ghost use Rattle.std.specs.List.{before_first};
ghost use Rattle.folio_sections.specs.Places.{behind, behind_by, noticed_place, own_place, place_by, places_among};

use crate::{Entry, What};
use act_model::{Journal, filing_creates_in_division};
use gb_base::{Day, FolioId, ReceiptNo};

/// The place of a filing at a title.
#[derive(Clone, Copy, Debug, PartialEq, Eq)]
pub struct TitlePlace {
    pub filing: ReceiptNo,
    /// The day of the entry that sets it.
    pub day: Day,
    /// Whether it is one for rights of division II.
    pub second: bool,
    /// Whether it is one for rights of division III.
    pub third: bool,
}

/// The place that an entry at the title sets; None where it sets none.
fn place_by(journal: &Journal, folio: FolioId, entry: &Entry) -> Option<TitlePlace>
    ensures { result ≡ place_by journal.now.receipts folio entry.now.day entry.now.what }
{
    match &entry.what {
        What::Placed {
            filing,
            second,
            third,
        } => Some(TitlePlace {
            filing: *filing,
            day: entry.day,
            second: *second,
            third: *third,
        }),
        What::Notice { filing } => noticed_place(journal, folio, entry.day, *filing),
        _ => None,
    }
}

/// The place that the official notice of a filing sets on this day; None where the filing creates
/// no right in the folio.
fn noticed_place(
    journal: &Journal,
    folio: FolioId,
    day: Day,
    filing: ReceiptNo,
) -> Option<TitlePlace>
    ensures { result ≡ noticed_place journal.now.receipts folio day filing }
{
    let second = filing_creates_in_division(journal, filing, folio, false);
    let third = filing_creates_in_division(journal, filing, folio, true);
    if second || third {
        Some(TitlePlace {
            filing,
            day,
            second,
            third,
        })
    } else {
        None
    }
}

/// The place of a filing among those that the entries at the title of a folio set; None where it
/// has none.
pub fn own_place(
    journal: &Journal,
    folio: FolioId,
    entries: &[Entry],
    filing: ReceiptNo,
) -> Option<TitlePlace>
    ensures { result ≡ own_place filing (places_among journal.now.receipts folio entries.now) }
{
    entries
        .iter()
        .filter_map(|entry| place_by(journal, folio, entry))
        .find(|place| place.filing == filing)
}

/// The filing of the last place of the other division that stands ahead of a filing's own place and
/// was set on the same day (GBO § 45(2)), for a right of division III, or else of division II.
pub fn behind(
    journal: &Journal,
    folio: FolioId,
    entries: &[Entry],
    third: bool,
    filing: ReceiptNo,
) -> Option<ReceiptNo>
    ensures { result ≡ behind third filing (places_among journal.now.receipts folio entries.now) }
{
    match own_place(journal, folio, entries, filing) {
        Some(own) => last_ahead(journal, folio, entries, third, filing, own.day),
        None => None,
    }
}

/// The filing of the last place of the other division that stands ahead of the filing's own and was
/// set on this day.
fn last_ahead(
    journal: &Journal,
    folio: FolioId,
    entries: &[Entry],
    third: bool,
    filing: ReceiptNo,
    day: Day,
) -> Option<ReceiptNo>
    ensures { result ≡ fold (behind_by third day) None (before_first (λ p. p.filing == filing) (places_among journal.now.receipts folio entries.now)) }
{
    entries
        .iter()
        .filter_map(|entry| place_by(journal, folio, entry))
        .take_while(|place| place.filing != filing)
        .fold(None, |before, place| behind_by(third, day, before, place))
}

/// The filing of this place where it is of the other division and set on this day, else the one
/// before.
fn behind_by(
    third: bool,
    day: Day,
    before: Option<ReceiptNo>,
    place: TitlePlace,
) -> Option<ReceiptNo>
    ensures { result ≡ behind_by third day before place }
{
    let in_other = if third { place.second } else { place.third };
    if place.day == day && in_other {
        Some(place.filing)
    } else {
        before
    }
}
