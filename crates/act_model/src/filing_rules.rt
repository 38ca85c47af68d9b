//! The rules over a whole filing.
ghost use Rattle.std.specs.Prelude.{◌≡◌, ◌≤◌, ◌==◌, ◌&&◌, ◌||◌, not, length, map};
ghost use Rattle.std.specs.List.{filter_map, flat_map, list_all, list_any};
ghost use Rattle.gb_base.specs.Limits.{most_acts};
ghost use Rattle.act_model.specs.Acts.{folio_of};
ghost use Rattle.act_model.specs.WellFormed.{different, folio_with_new_owners, gives_owners_once, rights_named, are_different, names_rights_once, wants_own_group, same_group, share_group, keep_groups_apart, keeps_rules};

use crate::{Act, RightSpec};
use arrayvec::ArrayVec;
use gb_base::{FolioId, RightId};

/// Whether the acts keep the four rules over a whole filing. They name at most two folios. They give
/// a folio owners at most once. They name no right twice. A right that reserves, or that takes up a
/// reservation, is alone in its group.
pub fn keeps_rules(acts: &[Act]) -> bool
    requires { length acts.now ≤ most_acts }
    ensures { result ≡ keeps_rules acts.now }
{
    different_folios(acts) <= 2
        && gives_owners_once(acts)
        && names_rights_once(acts)
        && keep_groups_apart(acts)
}

/// How many folios the acts name.
fn different_folios(acts: &[Act]) -> usize
    ensures value { result ≡ different (map folio_of acts.now) }
    ensures limit { result ≤ length acts.now }
{
    match acts {
        [] => 0,
        [act, rest @ ..] => {
            let others = different_folios(rest);
            if names_folio(rest, act.folio()) {
                others
            } else {
                others + 1
            }
        }
    }
}

fn names_folio(acts: &[Act], folio: FolioId) -> bool
    ensures { result ≡ list_any (λ f. f == folio) (map folio_of acts.now) }
{
    acts.iter().map(|act| act.folio()).any(|f| f == folio)
}

fn gives_owners_once(acts: &[Act]) -> bool
    ensures { result ≡ gives_owners_once acts.now }
{
    match acts {
        [] => true,
        [act, rest @ ..] => match folio_with_new_owners(act) {
            Some(folio) => !gives_owners(rest, folio) && gives_owners_once(rest),
            None => gives_owners_once(rest),
        },
    }
}

/// Whether an act opens this folio or gives it to new owners.
fn gives_owners(acts: &[Act], folio: FolioId) -> bool
    ensures { result ≡ list_any (λ f. f == folio) (filter_map folio_with_new_owners acts.now) }
{
    acts.iter()
        .filter_map(|act| folio_with_new_owners(act))
        .any(|f| f == folio)
}

/// The folio that the act opens or gives to new owners.
fn folio_with_new_owners(act: &Act) -> Option<FolioId>
    ensures { result ≡ folio_with_new_owners act.now }
{
    match act {
        Act::Open { folio, .. } => Some(*folio),
        Act::Transfer { folio, .. } => Some(*folio),
        Act::Create { .. } => None,
        Act::NoticeFor { .. } => None,
        Act::Convert { .. } => None,
        Act::Assign { .. } => None,
        Act::Cancel { .. } => None,
        Act::Exchange { .. } => None,
        Act::Exercise { .. } => None,
    }
}

fn names_rights_once(acts: &[Act]) -> bool
    requires { length acts.now ≤ most_acts }
    ensures { result ≡ names_rights_once acts.now }
{
    are_different(rights_of(acts).as_slice())
}

/// The rights that the acts name, in the order of the acts.
fn rights_of(acts: &[Act]) -> ArrayVec<RightId, 16>
    requires { length acts.now ≤ most_acts }
    ensures { result.items ≡ flat_map rights_named acts.now }
{
    let mut rights = ArrayVec::new();
    for act in acts {
        let _ = rights.try_extend_from_slice(rights_named(act).as_slice());
    }
    rights
}

/// The rights that the act names.
fn rights_named(act: &Act) -> ArrayVec<RightId, 2>
    ensures { result.items ≡ rights_named act.now }
{
    let mut rights = ArrayVec::new();
    match act {
        Act::Convert { right, .. } => rights.push(*right),
        Act::Assign { right, .. } => rights.push(*right),
        Act::Cancel { right, .. } => rights.push(*right),
        Act::Exchange { recede, rise, .. } => {
            rights.push(*recede);
            rights.push(*rise);
        }
        Act::Exercise { behind, .. } => rights.push(*behind),
        Act::Open { .. } => {}
        Act::Transfer { .. } => {}
        Act::Create { .. } => {}
        Act::NoticeFor { .. } => {}
    }
    rights
}

/// Whether no right is named twice.
fn are_different(rights: &[RightId]) -> bool
    ensures { result ≡ are_different rights.now }
{
    match rights {
        [] => true,
        [right, rest @ ..] => !rest.contains(right) && are_different(rest),
    }
}

fn keep_groups_apart(acts: &[Act]) -> bool
    ensures { result ≡ keep_groups_apart acts.now }
{
    match acts {
        [] => true,
        [act, rest @ ..] => no_clash(act, rest) && keep_groups_apart(rest),
    }
}

fn no_clash(act: &Act, others: &[Act]) -> bool
    ensures { result ≡ list_all (λ b. not ((wants_own_group act.now || wants_own_group b) && share_group act.now b)) others.now }
{
    others.iter().all(|other| !clash(act, other))
}

/// Whether two acts create rights of one group in one folio, and one of them wants a group of its
/// own.
fn clash(a: &Act, b: &Act) -> bool
    ensures { result ≡ ((wants_own_group a.now || wants_own_group b.now) && share_group a.now b.now) }
{
    (wants_own_group(a) || wants_own_group(b)) && share_group(a, b)
}

/// Whether the act creates a right that reserves, or one that takes up a reservation.
fn wants_own_group(act: &Act) -> bool
    ensures { result ≡ wants_own_group act.now }
{
    match act {
        Act::Create { reserve, .. } => reserve.is_some(),
        Act::Exercise { .. } => true,
        Act::Open { .. } => false,
        Act::Transfer { .. } => false,
        Act::NoticeFor { .. } => false,
        Act::Convert { .. } => false,
        Act::Assign { .. } => false,
        Act::Cancel { .. } => false,
        Act::Exchange { .. } => false,
    }
}

/// Whether two acts create rights of one group in one folio (GBO § 45(3)).
pub(crate) fn share_group(a: &Act, b: &Act) -> bool
    ensures { result ≡ share_group a.now b.now }
{
    a.folio() == b.folio() && same_group(a.right_created(), b.right_created())
}

/// Whether both rights are there, and of one group.
fn same_group(a: Option<RightSpec>, b: Option<RightSpec>) -> bool
    ensures { result ≡ same_group a b }
{
    match (a, b) {
        (Some(s), Some(t)) => s.group == t.group,
        _ => false,
    }
}
