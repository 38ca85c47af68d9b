//! The rights that acts create, as they are entered.
ghost use Rattle.std.specs.Prelude.{◌≡◌, ◌≤◌, length, IsTrue};
ghost use Rattle.gb_base.specs.Limits.{most_acts};
ghost use Rattle.gb_base.specs.declared.keys.Key.TheVariants.{Title, Right};
ghost use Rattle.act_model.specs.Acts.{folio_of, reserve_of, right_behind};
ghost use Rattle.act_model.specs.Touches.{new_right};
ghost use Rattle.entry_rules.specs.Entering.{as_entered, day_placed, form_created};
ghost use Rattle.folio_sections.specs.Entries.{entry_by};
ghost use Rattle.folio_sections.specs.Places.{places, places_among};
ghost use Rattle.folio_sections.specs.declared.entries.What.TheVariants as what;

use crate::adding::entry;
use act_model::{Act, Matter, RightSpec, has_equal, new_right};
use folio_sections::{Created, Entry, Parts, RightForm, What, behind, own_place};
use gb_base::{Cents, Day, FolioId, Key, RightId};

/// The entry of the right of this description that act a creates. Its place follows from the places
/// that stand at the title of its folio.
pub fn creation<P: Parts>(parts: &P, matter: &Matter, a: u8, act: &Act, spec: RightSpec) -> Entry
    requires from_one { 1 ≤ a }
    requires to_eight { a ≤ most_acts }
    requires received { matter.now.item ≤ length matter.now.journal.now.receipts }
    requires held { IsTrue (P.holds parts.now (Title (folio_of act.now))) }
    ensures { result ≡ entry_by matter.now.journal.now.receipts matter.now.item (Right (folio_of act.now) (new_right matter.now.number a))
        (what.Created (as_entered matter.now.journal.now.receipts matter.now.number matter.now.filing.now.acts matter.now.item
        (places matter.now.journal.now.receipts (P.at parts.now) (folio_of act.now)) a act.now spec)) }
{
    let folio = act.folio();
    let standing = parts.title(folio).unwrap().entries();
    let third = spec.kind.is_in_division_three();
    let made = Created {
        spec,
        form: form_created(act),
        reserve: reserve_of(act),
        ahead_of: right_behind(act),
        placed: day_placed(matter, folio, standing),
        behind: behind(matter.journal, folio, standing, third, matter.number),
        equal: has_equal(matter.filing.acts.list(), a, act),
    };
    let key = Key::Right(folio, new_right(matter.number, a));
    entry(matter, key, What::Created(made))
}

/// The form in which a creating act enters its right (BGB § 883).
fn form_created(act: &Act) -> RightForm
    ensures { result ≡ form_created act.now }
{
    match act {
        Act::NoticeFor { .. } => RightForm::Notice,
        Act::Open { .. } => RightForm::Full,
        Act::Transfer { .. } => RightForm::Full,
        Act::Create { .. } => RightForm::Full,
        Act::Convert { .. } => RightForm::Full,
        Act::Assign { .. } => RightForm::Full,
        Act::Cancel { .. } => RightForm::Full,
        Act::Exchange { .. } => RightForm::Full,
        Act::Exercise { .. } => RightForm::Full,
    }
}

/// Up to which capital a creating act keeps the rank ahead of its right for a later one (BGB
/// § 881); None where it keeps none.
fn reserve_of(act: &Act) -> Option<Cents>
    ensures { result ≡ reserve_of act.now }
{
    match act {
        Act::Create { reserve, .. } => *reserve,
        Act::Open { .. } => None,
        Act::Transfer { .. } => None,
        Act::NoticeFor { .. } => None,
        Act::Convert { .. } => None,
        Act::Assign { .. } => None,
        Act::Cancel { .. } => None,
        Act::Exchange { .. } => None,
        Act::Exercise { .. } => None,
    }
}

/// The right whose reservation a creating act takes up (BGB § 881); None where it takes up none.
fn right_behind(act: &Act) -> Option<RightId>
    ensures { result ≡ right_behind act.now }
{
    match act {
        Act::Exercise { behind, .. } => Some(*behind),
        Act::Open { .. } => None,
        Act::Transfer { .. } => None,
        Act::Create { .. } => None,
        Act::NoticeFor { .. } => None,
        Act::Convert { .. } => None,
        Act::Assign { .. } => None,
        Act::Cancel { .. } => None,
        Act::Exchange { .. } => None,
    }
}

/// The day of the filing's place at the title; that of the item where it has none.
fn day_placed(matter: &Matter, folio: FolioId, standing: &[Entry]) -> Day
    requires { matter.now.item ≤ length matter.now.journal.now.receipts }
    ensures { result ≡ day_placed matter.now.journal.now.receipts matter.now.number matter.now.item (places_among matter.now.journal.now.receipts folio standing.now) }
{
    match own_place(matter.journal, folio, standing, matter.number) {
        Some(place) => place.day,
        None => matter.journal.day_of(matter.item),
    }
}
