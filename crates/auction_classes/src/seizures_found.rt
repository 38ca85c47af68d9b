//! The seizures of a sale, and which of them are served (ZVG §§ 43, 44).
ghost use Rattle.std.specs.Prelude.{◌≡◌, ◌+◌, ◌<◌, ◌≤◌, ◌++◌, ◌∷◌, ◌&&◌, [], length, map, vec_capacity};
ghost use Rattle.folio_line.specs.FolioReading.{CanBeRead};
ghost use Rattle.folio_sections.specs.Rights.{is_full, is_live};
ghost use Rattle.auction_classes.specs.SaleClaims.{is_basis_standing, is_served};
ghost use Rattle.auction_classes.specs.inner.Findings.{seized_with};
ghost use Rattle.auction_classes.specs.inner.Readings.{rights_read};
ghost use Rattle.auction_classes.specs.inner.WholeBids.{are_personal, is_personal};

use crate::SeizedFor;
use crate::case_items::Seizure;
use act_model::Basis;
use folio_line::{FolioReading, right_front};
use folio_sections::Parts;
use gb_base::{Day, RightId, push_copy};

/// Writes the seizures of a case in order, in place of what stood there; the sale is on this day.
/// Takes no memory.
pub(crate) fn write_seizures<P: Parts>(
    list: &mut Vec<SeizedFor>,
    reading: &FolioReading<P>,
    sale: Day,
    seizures: &[Seizure],
)
    requires read { CanBeRead P.holds P.at reading.now }
    requires room { length seizures.now ≤ vec_capacity list.old }
    ensures items { list.new.items ≡ map (seized_with sale (rights_read P.holds P.at reading.now)) seizures.now }
    ensures capacity { vec_capacity list.new ≡ vec_capacity list.old }
{
    list.clear();
    for seizure in seizures {
        push_copy(list, &seized_for(reading, sale, seizure));
    }
}

/// Whether each of these seizures that is served is a personal creditor's, where the sale is on this
/// day. Takes no memory.
pub(crate) fn are_personal<P: Parts>(
    reading: &FolioReading<P>,
    sale: Day,
    seizures: &[Seizure],
) -> bool
    requires read { CanBeRead P.holds P.at reading.now }
    ensures { result ≡ are_personal (map (seized_with sale (rights_read P.holds P.at reading.now)) seizures.now) }
{
    for seizure in seizures {
        if !is_personal(seizure.basis) && is_served(reading, sale, seizure) {
            return false;
        }
    }
    true
}

/// Whether a personal creditor seizes.
fn is_personal(basis: Basis) -> bool
    ensures { result ≡ is_personal basis }
{
    match basis {
        Basis::Personal { .. } => true,
        Basis::FromRight { .. } => false,
    }
}

/// A seizure, and whether it is served.
fn seized_for<P: Parts>(reading: &FolioReading<P>, sale: Day, seizure: &Seizure) -> SeizedFor
    requires read { CanBeRead P.holds P.at reading.now }
    ensures { result ≡ seized_with sale (rights_read P.holds P.at reading.now) seizure.now }
{
    SeizedFor {
        basis: seizure.basis,
        served: is_served(reading, sale, seizure),
    }
}

/// Whether a seizure is served in time, at least 28 days before the sale, and its basis stands (ZVG
/// §§ 43(2), 44(2)).
fn is_served<P: Parts>(reading: &FolioReading<P>, sale: Day, seizure: &Seizure) -> bool
    requires read { CanBeRead P.holds P.at reading.now }
    ensures { result ≡ is_served sale (rights_read P.holds P.at reading.now) seizure.now }
{
    seizure.served.number() + 28 <= sale.number() && is_basis_standing(reading, &seizure.basis)
}

/// Whether the right from which is seized is live, and no mere priority notice; a personal
/// creditor's claim always stands.
fn is_basis_standing<P: Parts>(reading: &FolioReading<P>, basis: &Basis) -> bool
    requires read { CanBeRead P.holds P.at reading.now }
    ensures { result ≡ is_basis_standing (rights_read P.holds P.at reading.now) basis.now }
{
    match basis {
        Basis::Personal { .. } => true,
        Basis::FromRight { right } => is_standing(reading, *right),
    }
}

/// Whether a right is live, and no mere priority notice.
fn is_standing<P: Parts>(reading: &FolioReading<P>, right: RightId) -> bool
    requires read { CanBeRead P.holds P.at reading.now }
    ensures { result ≡ (is_live (rights_read P.holds P.at reading.now right) && is_full (rights_read P.holds P.at reading.now right)) }
{
    match right_front(reading, right) {
        Some(front) => front.live() && front.full(),
        None => false,
    }
}
