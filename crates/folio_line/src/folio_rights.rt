//! The rights of a folio in order: those that are live, and those that recede in exchanges.
ghost use Rattle.std.specs.Prelude.{◌≡◌, ◌++◌, ◌+◌, ◌≤◌, ℕ, true, List, [], None, filter, filter_map, flat_map, if◌then◌else◌, length, vec_capacity};
ghost use Rattle.std.specs.List.{prefix_len};
ghost use Rattle.gb_base.specs.declared.keys.Key.TheVariants.{Right};
ghost use Rattle.folio_sections.specs.HeldRights.{receipt_numbers};
ghost use Rattle.folio_sections.specs.Rights.{created};
ghost use Rattle.folio_sections.specs.inner.RightsInKeys.{is_right_number};
ghost use Rattle.folio_line.specs.AllRights.{AreAllRights};
ghost use Rattle.folio_line.specs.FolioReading.{CanBeRead, reads};
ghost use Rattle.folio_line.specs.FolioSlots.{recedes, stands_on_line};
ghost use Rattle.folio_line.specs.FolioRights.{by_group, has_group, has_same_place, live_rights};
ghost use Rattle.folio_line.specs.inner.FilingRuns.{AreOfFilings, is_of_filing};
ghost use Rattle.folio_line.specs.inner.RightWalk.{right_found};
ghost use Rattle.folio_line.specs.declared.folio_rights.CreatedRight.{CreatedRight};

use crate::FolioReading;
use crate::exchanges::Exchange;
use crate::folio_reads::right_front;
use folio_sections::{Created, Parts};
use gb_base::{ReceiptNo, RightId};

/// A right of a folio.
#[derive(Clone, Copy, Debug)]
pub struct CreatedRight {
    pub id: RightId,
    /// The right as it was created.
    pub made: Created,
}

/// Writes those of these rights that are live into two lists that have room: by filing and act, and
/// from there by filing, group and act.
pub(crate) fn write_live<P: Parts>(
    live: &mut Vec<CreatedRight>,
    by_act: &mut Vec<CreatedRight>,
    reading: &FolioReading<P>,
    ids: &[RightId],
)
    requires read { CanBeRead P.holds P.at reading.now }
    requires all { AreAllRights ids.now (reads P.holds P.at reading.now) reading.now.folio }
    requires live_room { length ids.now ≤ vec_capacity live.old }
    requires room { length ids.now ≤ vec_capacity by_act.old }
    ensures live { live.new.items ≡ live_rights (reads P.holds P.at reading.now) reading.now.folio }
    ensures by_act { by_act.new.items ≡ filter_map (right_found (stands_on_line []) (reads P.holds P.at reading.now) reading.now.folio) ids.now }
    ensures live_capacity { vec_capacity live.new ≡ vec_capacity live.old }
    ensures capacity { vec_capacity by_act.new ≡ vec_capacity by_act.old }
{
    write_on_line(by_act, reading, &[], ids);
    write_by_group(live, by_act);
}

/// Writes those of these rights that are live in the folio, and those that recede in these
/// exchanges, into a list that has room.
pub(crate) fn write_on_line<P: Parts>(
    list: &mut Vec<CreatedRight>,
    reading: &FolioReading<P>,
    exchanges: &[Exchange],
    ids: &[RightId],
)
    requires read { CanBeRead P.holds P.at reading.now }
    requires room { length ids.now ≤ vec_capacity list.old }
    ensures items { list.new.items ≡ filter_map (right_found (stands_on_line exchanges.now) (reads P.holds P.at reading.now) reading.now.folio) ids.now }
    ensures capacity { vec_capacity list.new ≡ vec_capacity list.old }
{
    list.clear();
    for id in ids {
        if let Some(right) = right_on_line(reading, exchanges, *id) {
            list.push_reserved(right);
        }
    }
}

/// Writes those that recede in these exchanges into a list that has the live ones of these rights, and
/// has room. Where there is no exchange none recedes, and nothing is read.
pub(crate) fn write_receding<P: Parts>(
    list: &mut Vec<CreatedRight>,
    reading: &FolioReading<P>,
    exchanges: &[Exchange],
    ids: &[RightId],
)
    requires read { CanBeRead P.holds P.at reading.now }
    requires live { list.old.items ≡ filter_map (right_found (stands_on_line []) (reads P.holds P.at reading.now) reading.now.folio) ids.now }
    requires room { length ids.now ≤ vec_capacity list.old }
    ensures items { list.new.items ≡ filter_map (right_found (stands_on_line exchanges.now) (reads P.holds P.at reading.now) reading.now.folio) ids.now }
    ensures capacity { vec_capacity list.new ≡ vec_capacity list.old }
{
    if !exchanges.is_empty() {
        write_on_line(list, reading, exchanges, ids);
    }
}

/// The right of this number, where it is live in the folio or recedes in one of these exchanges.
fn right_on_line<P: Parts>(
    reading: &FolioReading<P>,
    exchanges: &[Exchange],
    id: RightId,
) -> Option<CreatedRight>
    requires { CanBeRead P.holds P.at reading.now }
    ensures { result ≡ right_found (stands_on_line exchanges.now) (reads P.holds P.at reading.now) reading.now.folio id }
{
    has_number(id);
    let made = created_on_line(reading, exchanges, id)?;
    Some(CreatedRight { id, made })
}

/// Does nothing. Whoever calls it knows that each right has a number that there may be.
fn has_number(id: RightId)
    ensures { is_right_number id ≡ true }
{
    let receipt = id.receipt().get();
    let act = id.act();
    prove!(1 <= receipt && 1 <= act && act <= 8);
}

/// The right of this number as it was created, where it is live or recedes.
fn created_on_line<P: Parts>(
    reading: &FolioReading<P>,
    exchanges: &[Exchange],
    id: RightId,
) -> Option<Created>
    requires { CanBeRead P.holds P.at reading.now }
    ensures { result ≡ (if stands_on_line exchanges.now id (reads P.holds P.at reading.now (Right reading.now.folio id)) then created (reads P.holds P.at reading.now (Right reading.now.folio id)) else None) }
{
    match right_front(reading, id) {
        Some(right) => {
            if right.live() || recedes(exchanges, id) {
                right.created()
            } else {
                None
            }
        }
        None => None,
    }
}

/// Whether the right recedes in one of these exchanges.
fn recedes(exchanges: &[Exchange], id: RightId) -> bool
    ensures { result ≡ recedes exchanges.now id }
{
    exchanges.iter().any(|exchange| exchange.recede == id)
}

/// Writes rights into a list that has room: they stand by filing and act, and then by filing, group
/// and act.
pub(crate) fn write_by_group(list: &mut Vec<CreatedRight>, by_act: &[CreatedRight])
    requires room { length by_act.now ≤ vec_capacity list.old }
    ensures items { (rights : ℕ → List CreatedRight) → AreOfFilings rights → by_act.now ≡ flat_map rights receipt_numbers
        → list.new.items ≡ flat_map (λ m. by_group (rights m)) receipt_numbers }
    ensures capacity { vec_capacity list.new ≡ vec_capacity list.old }
{
    list.clear();
    let mut rest = by_act;
    while let Some(first) = rest.first() {
        let (of_filing, behind) = rest.split_at(count_of_filing(first.id.receipt(), rest));
        add_by_group(list, of_filing);
        rest = behind;
    }
}

/// How many rights at the front are of this filing.
fn count_of_filing(filing: ReceiptNo, rights: &[CreatedRight]) -> usize
    ensures value { result ≡ prefix_len (is_of_filing filing) rights.now }
    ensures within { result ≤ length rights.now }
{
    rights
        .iter()
        .take_while(|right| right.id.receipt() == filing)
        .count()
}

/// Adds these rights by group.
fn add_by_group(list: &mut Vec<CreatedRight>, of_filing: &[CreatedRight])
    requires { length list.old.items + length of_filing.now ≤ vec_capacity list.old }
    ensures items { list.new.items ≡ list.old.items ++ by_group of_filing.now }
    ensures capacity { vec_capacity list.new ≡ vec_capacity list.old }
{
    for group in 1..=8 {
        add_group(list, of_filing, group);
    }
}

/// Adds those of these rights that are of this group.
fn add_group(list: &mut Vec<CreatedRight>, of_filing: &[CreatedRight], group: u8)
    requires { length (list.old.items ++ filter (has_group group) of_filing.now) ≤ vec_capacity list.old }
    ensures items { list.new.items ≡ list.old.items ++ filter (has_group group) of_filing.now }
    ensures capacity { vec_capacity list.new ≡ vec_capacity list.old }
{
    for right in of_filing {
        if right.made.spec.group == group {
            list.push_reserved(*right);
        }
    }
}

/// Whether two rights of a folio have one place: they are of one filing and group (GBO § 45(1), (3)).
///
/// 2.1 and 2.2, both of group 1, have one place; 2.1 and 3.1 do not, whatever their groups are.
pub fn has_same_place(a: &CreatedRight, b: &CreatedRight) -> bool
    ensures { result ≡ has_same_place a.now b.now }
{
    a.id.receipt() == b.id.receipt() && a.made.spec.group == b.made.spec.group
}
