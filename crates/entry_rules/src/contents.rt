//! What the acts of a filing bring when it is entered.
ghost use Rattle.std.specs.Prelude.{◌≡◌, ◌≤◌, length};
ghost use Rattle.gb_base.specs.Limits.{most_acts};
ghost use Rattle.act_model.specs.Touches.{keys_of_act, keys_of_acts};
ghost use Rattle.folio_sections.specs.Adding.{AddsList, HasRoom};
ghost use Rattle.entry_rules.specs.Entering.{contents_brought};
ghost use Rattle.entry_rules.specs.inner.Acting.{Held, brought_by};

use crate::adding::{add_both, entry};
use crate::creations::creation;
use act_model::{Act, Matter, new_right};
use folio_sections::{Parts, What, add};
use gb_base::Key;

/// Adds what the acts of the filing bring, in their order.
pub fn add_contents<P: Parts>(parts: &mut P, matter: &Matter)
    requires received { matter.now.item ≤ length matter.now.journal.now.receipts }
    requires held { Held (P.holds parts.old) (keys_of_acts matter.now.journal.now.receipts matter.now.number 1 matter.now.filing.now.acts) }
    requires room { HasRoom (P.room parts.old) (contents_brought matter.now.journal.now.receipts matter.now.number matter.now.item (P.at parts.old) matter.now.filing.now) }
    ensures added { AddsList (P.at parts.old) (P.at parts.new) (P.room parts.old) (P.room parts.new)
        (contents_brought matter.now.journal.now.receipts matter.now.number matter.now.item (P.at parts.old) matter.now.filing.now) }
    ensures held { P.holds parts.new ≡ P.holds parts.old }
{
    for (index, act) in matter.filing.acts.list().iter().enumerate() {
        add_content(parts, matter, index as u8 + 1, act);
    }
}

/// Adds what act a brings.
#[tactic(auto, unfolding(act_model::specs::Documents::docs_of))]
fn add_content<P: Parts>(parts: &mut P, matter: &Matter, a: u8, act: &Act)
    requires from_one { 1 ≤ a }
    requires to_eight { a ≤ most_acts }
    requires received { matter.now.item ≤ length matter.now.journal.now.receipts }
    requires held { Held (P.holds parts.old) (keys_of_act matter.now.journal.now.receipts matter.now.number a act.now) }
    requires room { HasRoom (P.room parts.old) (brought_by matter.now.journal.now.receipts matter.now.number matter.now.item (P.at parts.old) matter.now.filing.now a act.now) }
    ensures added { AddsList (P.at parts.old) (P.at parts.new) (P.room parts.old) (P.room parts.new)
        (brought_by matter.now.journal.now.receipts matter.now.number matter.now.item (P.at parts.old) matter.now.filing.now a act.now) }
    ensures held { P.holds parts.new ≡ P.holds parts.old }
{
    match act {
        Act::Open {
            folio,
            inventory,
            owners,
        } => {
            let what = What::Opened {
                inventory: *inventory,
                owners: owners.copy(),
            };
            add(parts, entry(matter, Key::Title(*folio), what));
        }
        Act::Transfer { folio, owners } => {
            let what = What::Owner {
                owners: owners.copy(),
            };
            add(parts, entry(matter, Key::Title(*folio), what));
        }
        Act::Create { spec, .. } => {
            let created = creation(parts, matter, a, act, *spec);
            add(parts, created);
        }
        Act::NoticeFor { spec, .. } => {
            let created = creation(parts, matter, a, act, *spec);
            add(parts, created);
        }
        Act::Convert { folio, right } => {
            add(
                parts,
                entry(matter, Key::Right(*folio, *right), What::Converted),
            );
        }
        Act::Assign {
            folio,
            right,
            holder,
        } => {
            let what = What::Holder { person: *holder };
            add(parts, entry(matter, Key::Right(*folio, *right), what));
        }
        Act::Cancel { folio, right } => {
            let what = What::Cancelled {
                expired: matter.has_proof(a),
            };
            add(parts, entry(matter, Key::Right(*folio, *right), what));
        }
        Act::Exchange {
            folio,
            recede,
            rise,
        } => {
            let what = What::Exchanged {
                recede: *recede,
                rise: *rise,
                act: a,
            };
            let also = What::Exchanged {
                recede: *recede,
                rise: *rise,
                act: a,
            };
            add_both(
                parts,
                entry(matter, Key::Right(*folio, *recede), what),
                entry(matter, Key::Right(*folio, *rise), also),
            );
        }
        Act::Exercise {
            folio,
            behind,
            spec,
        } => {
            let created = creation(parts, matter, a, act, *spec);
            let what = What::Exercised {
                by: new_right(matter.number, a),
            };
            add_both(
                parts,
                created,
                entry(matter, Key::Right(*folio, *behind), what),
            );
        }
    }
}
