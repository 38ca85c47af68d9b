//! The exercised reservations of a folio that count (BGB § 881).
ghost use Rattle.std.specs.Prelude.{◌≡◌, ◌≤◌, filter_map, length, vec_capacity};
ghost use Rattle.std.specs.List.{list_any};
ghost use Rattle.folio_line.specs.Exchanges.{exercise_behind, exercise_of, is_spent_on};
ghost use Rattle.folio_line.specs.FolioReading.{CanBeRead, reads};

use crate::FolioReading;
use crate::folio_reads::{is_live, right_entries};
use crate::folio_rights::CreatedRight;
use folio_sections::{Entry, Parts, What};
use gb_base::RightId;
use rank_slots::Knot;

/// Writes the exercises of these rights that count into a list that has room: those by which a right
/// has spent the reservation of another, where that is live.
pub(crate) fn write_exercises<P: Parts>(
    list: &mut Vec<Knot>,
    reading: &FolioReading<P>,
    rights: &[CreatedRight],
)
    requires read { CanBeRead P.holds P.at reading.now }
    requires room { length rights.now ≤ vec_capacity list.old }
    ensures items { list.new.items ≡ filter_map (exercise_of (reads P.holds P.at reading.now) reading.now.folio) rights.now }
    ensures capacity { vec_capacity list.new ≡ vec_capacity list.old }
{
    list.clear();
    for right in rights {
        if let Some(exercise) = exercise_of(reading, right) {
            list.push_reserved(exercise);
        }
    }
}

/// The exercise by which a right was entered, where it counts.
fn exercise_of<P: Parts>(reading: &FolioReading<P>, right: &CreatedRight) -> Option<Knot>
    requires { CanBeRead P.holds P.at reading.now }
    ensures { result ≡ exercise_of (reads P.holds P.at reading.now) reading.now.folio right.now }
{
    match right.made.ahead_of {
        Some(reserved) => exercise_behind(reading, right, reserved),
        None => None,
    }
}

/// The exercise by which a right has spent the reservation of another, where that is live.
fn exercise_behind<P: Parts>(
    reading: &FolioReading<P>,
    right: &CreatedRight,
    reserved: RightId,
) -> Option<Knot>
    requires { CanBeRead P.holds P.at reading.now }
    ensures { result ≡ exercise_behind (reads P.holds P.at reading.now) reading.now.folio right.now reserved }
{
    if is_live(reading, reserved) && has_spent(right.id, right_entries(reading, reserved)) {
        Some(Knot {
            reserved,
            exercised: right.id,
        })
    } else {
        None
    }
}

/// Whether the reservation of the right with these entries was spent on this one.
fn has_spent(right: RightId, entries: &[Entry]) -> bool
    ensures { result ≡ list_any (λ e. is_spent_on right e.what) entries.now }
{
    entries.iter().any(|entry| is_spent_on(right, &entry.what))
}

/// Whether a content spends the right's reservation on this right.
fn is_spent_on(right: RightId, what: &What) -> bool
    ensures { result ≡ is_spent_on right what.now }
{
    match what {
        What::Exercised { by } => *by == right,
        _ => false,
    }
}
