//! Whom an act concerns: the owners as of the act, and the holder of a right (GBO §§ 18(2), 19).
ghost use Rattle.std.specs.Prelude.{◌≡◌, fold, IsTrue};
ghost use Rattle.gb_base.specs.declared.keys.Key.TheVariants.{Title, Right};
ghost use Rattle.consent_rules.specs.Persons.{acts_before, holder_then, owners_as_of, owners_named, owners_then};

use crate::parts_read::{right_part, title_part};
use act_model::{Act, Matter, Owners};
use arrayvec::ArrayVec;
use folio_sections::Parts;
use gb_base::{FolioId, Person, ReceiptNo, RightId};

/// The acts before act a.
pub fn acts_before(acts: &[Act], a: u8) -> &[Act]
    ensures { result.now ≡ acts_before a acts.now }
{
    let many = (a as usize).saturating_sub(1);
    &acts[..many.min(acts.len())]
}

/// The owners as of act a: those whom the last act before it names for this folio, else those at the
/// title whom the filing concerns; the list is empty where there are none.
pub fn owners_then<P: Parts>(
    parts: &P,
    matter: &Matter,
    a: u8,
    folio: FolioId,
) -> ArrayVec<Person, 4>
    requires held { IsTrue (P.holds parts.now (Title folio)) }
    ensures { result.items ≡ owners_then matter.now.number (P.at parts.now) matter.now.filing.now.acts a folio }
{
    match owners_as_of(parts, matter, a, folio) {
        Some(owners) => people(&owners),
        None => ArrayVec::new(),
    }
}

/// These owners.
pub fn people(owners: &Owners) -> ArrayVec<Person, 4>
    ensures { result.items ≡ owners.now }
{
    ArrayVec::try_from(owners.list()).unwrap()
}

fn owners_as_of<P: Parts>(parts: &P, matter: &Matter, a: u8, folio: FolioId) -> Option<Owners>
    requires held { IsTrue (P.holds parts.now (Title folio)) }
    ensures { result ≡ owners_as_of matter.now.number (P.at parts.now) matter.now.filing.now.acts a folio }
{
    let owners = title_part(parts, folio).owners_for(matter.number);
    owners_behind(folio, owners, acts_before(matter.filing.acts.list(), a))
}

/// The owners of a folio after these acts.
fn owners_behind(folio: FolioId, owners: Option<Owners>, acts: &[Act]) -> Option<Owners>
    ensures { result ≡ fold (owners_named folio) owners acts.now }
{
    acts.iter()
        .fold(owners, |before, act| owners_named(folio, before, act))
}

/// The owners of a folio after an act: those whom it names, else those before.
fn owners_named(of: FolioId, before: Option<Owners>, act: &Act) -> Option<Owners>
    ensures { result ≡ owners_named of before act.now }
{
    match act {
        Act::Open { folio, owners, .. } if *folio == of => Some(owners.copy()),
        Act::Transfer { folio, owners } if *folio == of => Some(owners.copy()),
        Act::Open { .. }
        | Act::Transfer { .. }
        | Act::Create { .. }
        | Act::NoticeFor { .. }
        | Act::Convert { .. }
        | Act::Assign { .. }
        | Act::Cancel { .. }
        | Act::Exchange { .. }
        | Act::Exercise { .. } => before,
    }
}

/// The holder of a right whom the filing concerns; the list is empty where the right was never
/// created.
pub fn holder_then<P: Parts>(
    parts: &P,
    filing: ReceiptNo,
    folio: FolioId,
    right: RightId,
) -> ArrayVec<Person, 4>
    requires held { IsTrue (P.holds parts.now (Right folio right)) }
    ensures { result.items ≡ holder_then filing (P.at parts.now) folio right }
{
    let mut people = ArrayVec::new();
    if let Some(holder) = right_part(parts, folio, right).holder_for(filing) {
        people.push(holder);
    }
    people
}
