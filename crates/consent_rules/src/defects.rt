//! The curable defects: all that are there are listed (GBO § 18).
ghost use Rattle.std.specs.Prelude.{◌≡◌, ◌+◌, ◌≤◌, ◌++◌, length, All};
ghost use Rattle.act_model.specs.Documents.{docs_of};
ghost use Rattle.consent_rules.specs.Judging.{defects, defects_under, is_defective};
ghost use Rattle.consent_rules.specs.inner.Held.{HasParts};

use crate::Defect;
use crate::consent::{
    has_stranger, lacks_clearance, lacks_consent, lacks_others, lacks_owner,
    lacks_owner_of_exchange, wants_form,
};
use act_model::{Act, Matter};
use arrayvec::ArrayVec;
use folio_sections::Parts;
use gb_base::Section;

/// The sections of the defects, in the order in which they are listed.
const CURABLES: [Section; 6] = [
    Section::Gbo29,
    Section::Gbo39,
    Section::Gbo27,
    Section::Bgb876,
    Section::Bgb880,
    Section::Grest22,
];

/// All defects, by section and then by act.
pub fn defects<P: Parts>(parts: &P, matter: &Matter) -> ArrayVec<Defect, 48>
    requires held { All (HasParts (P.holds parts.now) (P.at parts.now)) matter.now.filing.now.acts }
    ensures { result.items ≡ defects matter.now.journal.now.receipts matter.now.number matter.now.filing.now (docs_of matter.now) (P.at parts.now) }
{
    let mut list = ArrayVec::new();
    for section in CURABLES {
        add_defects(&mut list, parts, matter, section);
    }
    list
}

/// Adds the defects of one section, by act.
fn add_defects<P: Parts>(
    list: &mut ArrayVec<Defect, 48>,
    parts: &P,
    matter: &Matter,
    section: Section,
)
    requires room { length list.old.items ≤ 40 }
    requires held { All (HasParts (P.holds parts.now) (P.at parts.now)) matter.now.filing.now.acts }
    ensures added { list.new.items ≡ list.old.items ++ defects_under matter.now.journal.now.receipts matter.now.number matter.now.filing.now (docs_of matter.now) (P.at parts.now) section }
    ensures few { length list.new.items ≤ length list.old.items + 8 }
{
    for (index, act) in matter.filing.acts.list().iter().enumerate() {
        let a = index as u8 + 1;
        if is_defective(parts, matter, section, a, act) {
            list.push(Defect { section, act: a });
        }
    }
}

/// Whether the defect is there at act a of the filing. Only the sections of `CURABLES` are asked.
fn is_defective<P: Parts>(parts: &P, matter: &Matter, section: Section, a: u8, act: &Act) -> bool
    requires held { HasParts (P.holds parts.now) (P.at parts.now) act.now }
    ensures { result ≡ is_defective matter.now.journal.now.receipts matter.now.number matter.now.filing.now (docs_of matter.now) (P.at parts.now) section a act.now }
{
    match section {
        Section::Gbo29 => wants_form(parts, matter, a, act),
        Section::Gbo39 => {
            lacks_consent(parts, matter, a, act) && has_stranger(parts, matter, a, act)
        }
        Section::Gbo27 => lacks_owner(parts, matter, a, act),
        Section::Bgb876 => lacks_others(parts, matter, a, act),
        Section::Bgb880 => lacks_owner_of_exchange(parts, matter, a, act),
        Section::Grest22 => lacks_clearance(matter, a, act),
        _ => false,
    }
}
