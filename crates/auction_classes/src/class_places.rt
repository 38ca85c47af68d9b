//! The places on the line of a class, each with what its right claims (ZVG §§ 11, 12).
ghost use Rattle.std.specs.Prelude.{◌≡◌, ◌≤◌, All, None, length, vec_capacity};
ghost use Rattle.folio_line.specs.FolioReading.{CanBeRead, reads};
ghost use Rattle.auction_classes.specs.inner.LinesRead.{HasLowInterest, behind_first, claim_read, first_claim, found_behind, is_next, place_read, places_read, recedes_by, stands_by};

use crate::right_classes::RightClass;
use crate::rights_found::RightFound;
use folio_line::{CreatedRight, FolioReading, capital_of, joins_place};
use folio_sections::Parts;
use gb_base::RightId;
use rank_slots::{Place, Swap};

/// Writes the places of those of these rights that stand on the line of the class, in place of what
/// stood there; `swaps` are its exchanges. `found` has the live ones in their order: so which are
/// live, and what they claim, is read there, and of the folio only the capital of a right that is
/// gone. Takes no memory.
pub(crate) fn write_places<P: Parts>(
    places: &mut Vec<Place>,
    reading: &FolioReading<P>,
    class: &RightClass,
    swaps: &[Swap],
    rights: &[CreatedRight],
    found: &[RightFound],
)
    requires read { CanBeRead P.holds P.at reading.now }
    requires interest { All HasLowInterest found.now }
    requires room { length rights.now ≤ vec_capacity places.old }
    ensures items { places.new.items ≡ places_read class.now swaps.now (reads P.holds P.at reading.now) reading.now.folio None found.now rights.now }
    ensures few { length places.new.items ≤ length rights.now }
    ensures capacity { vec_capacity places.new ≡ vec_capacity places.old }
{
    places.clear();
    let mut before = None;
    let mut rest = found;
    for right in rights {
        if stands_by(class, swaps, rest, right.id) {
            places.push_reserved(place_read(reading, before, rest, right));
            before = Some(*right);
        }
        rest = found_behind(rest, right.id);
    }
}

/// Whether a right stands on the line, where these are left of what is found: it is of the class, and
/// live or receding in one of these exchanges.
fn stands_by(class: &RightClass, swaps: &[Swap], found: &[RightFound], right: RightId) -> bool
    ensures { result ≡ stands_by class.now swaps.now found.now right }
{
    class.has(right) && (is_next(found, right) || recedes_by(swaps, right))
}

/// Whether the next that is found is of this right, which is live then.
fn is_next(found: &[RightFound], right: RightId) -> bool
    ensures { result ≡ is_next found.now right }
{
    match found {
        [] => false,
        [first, ..] => first.right.id == right,
    }
}

/// Whether the right recedes in one of these exchanges.
fn recedes_by(swaps: &[Swap], right: RightId) -> bool
    ensures { result ≡ recedes_by swaps.now right }
{
    swaps.iter().any(|swap| swap.recede == right)
}

/// The place of a right, with the right before it on the line, if there is one.
fn place_read<P: Parts>(
    reading: &FolioReading<P>,
    before: Option<CreatedRight>,
    found: &[RightFound],
    right: &CreatedRight,
) -> Place
    requires read { CanBeRead P.holds P.at reading.now }
    requires interest { All HasLowInterest found.now }
    ensures value { result ≡ place_read (reads P.holds P.at reading.now) reading.now.folio before found.now right.now }
{
    Place {
        right: right.id,
        claim: claim_read(reading, found, right.id),
        with_previous: joins_place(before, right),
        dropped: !is_next(found, right.id),
    }
}

/// What a right claims, in cents: interest and capital, or its capital alone where it is gone.
fn claim_read<P: Parts>(reading: &FolioReading<P>, found: &[RightFound], right: RightId) -> u64
    requires read { CanBeRead P.holds P.at reading.now }
    requires interest { All HasLowInterest found.now }
    ensures { result ≡ claim_read (reads P.holds P.at reading.now) reading.now.folio found.now right }
{
    if is_next(found, right) {
        first_claim(found)
    } else {
        capital_of(reading, right)
    }
}

/// The interest and the capital of the first that is found; 0 where there is none.
fn first_claim(found: &[RightFound]) -> u64
    requires { All HasLowInterest found.now }
    ensures { result ≡ first_claim found.now }
{
    match found {
        [] => 0,
        [first, ..] => first.interest + first.capital.get(),
    }
}

/// What is found of the live rights behind this one.
fn found_behind(found: &[RightFound], right: RightId) -> &[RightFound]
    requires { All HasLowInterest found.now }
    ensures value { result.now ≡ found_behind found.now right }
    ensures interest { All HasLowInterest result.now }
{
    if is_next(found, right) {
        behind_first(found)
    } else {
        found
    }
}

/// What is found behind the first.
fn behind_first(found: &[RightFound]) -> &[RightFound]
    requires { All HasLowInterest found.now }
    ensures value { result.now ≡ behind_first found.now }
    ensures interest { All HasLowInterest result.now }
{
    match found {
        [] => &[],
        [_, rest @ ..] => rest,
    }
}
