//! The grounds for rejection: the first one that holds is named (GBO § 18).
ghost use Rattle.std.specs.Prelude.{◌≡◌, ◌≤◌, All};
ghost use Rattle.std.specs.List.{enumerate_from, list_any};
ghost use Rattle.gb_base.specs.Limits.{most_acts};
ghost use Rattle.act_model.specs.Documents.{docs_of};
ghost use Rattle.consent_rules.specs.Judging.{holds, is_rejected_under, rejection};
ghost use Rattle.consent_rules.specs.inner.Held.{HasParts};

use crate::applying::may_not_apply;
use crate::consent::{has_stranger, lacks_agreement, lacks_consent};
use crate::obstacles::{
    assigns_division_two, converts_full_right, exchanges_unfit_right, is_beyond_limit, lacks_folio,
    lacks_reservation, lacks_right,
};
use act_model::{Act, Matter};
use folio_sections::Parts;
use gb_base::Section;

/// The grounds, in the order in which they are tested.
const GROUNDS: [Section; 11] = [
    Section::Gbo16,
    Section::Limit,
    Section::Gbo3,
    Section::Bgb873,
    Section::Bgb883,
    Section::Bgb880,
    Section::Bgb881,
    Section::Bgb1059,
    Section::Gbo13,
    Section::Gbo20,
    Section::Gbo19,
];

/// The first ground that holds.
pub fn rejection<P: Parts>(parts: &P, matter: &Matter) -> Option<Section>
    requires held { All (HasParts (P.holds parts.now) (P.at parts.now)) matter.now.filing.now.acts }
    ensures { result ≡ rejection matter.now.journal.now.receipts matter.now.number matter.now.filing.now (docs_of matter.now) (P.at parts.now) }
{
    for section in GROUNDS {
        if is_rejected_under(parts, matter, section) {
            return Some(section);
        }
    }
    None
}

/// Whether the filing is rejected on this ground. A condition (GBO § 16) is a ground of the whole
/// filing, each other ground is one of some act.
fn is_rejected_under<P: Parts>(parts: &P, matter: &Matter, section: Section) -> bool
    requires held { All (HasParts (P.holds parts.now) (P.at parts.now)) matter.now.filing.now.acts }
    ensures { result ≡ is_rejected_under matter.now.journal.now.receipts matter.now.number matter.now.filing.now (docs_of matter.now) (P.at parts.now) section }
{
    match section {
        Section::Gbo16 => matter.filing.conditional,
        _ => holds_for_some(parts, matter, section),
    }
}

/// Whether the ground holds for some act of the filing.
fn holds_for_some<P: Parts>(parts: &P, matter: &Matter, section: Section) -> bool
    requires held { All (HasParts (P.holds parts.now) (P.at parts.now)) matter.now.filing.now.acts }
    ensures { result ≡ list_any (λ p. holds matter.now.journal.now.receipts matter.now.number matter.now.filing.now (docs_of matter.now) (P.at parts.now) section p.0 p.1) (enumerate_from 1 matter.now.filing.now.acts) }
{
    for (index, act) in matter.filing.acts.list().iter().enumerate() {
        if holds(parts, matter, section, index as u8 + 1, act) {
            return true;
        }
    }
    false
}

/// Whether the ground holds for act a of the filing. Only the grounds of an act are asked here: all
/// of `GROUNDS` but the first.
fn holds<P: Parts>(parts: &P, matter: &Matter, section: Section, a: u8, act: &Act) -> bool
    requires from_one { 1 ≤ a }
    requires to_eight { a ≤ most_acts }
    requires held { HasParts (P.holds parts.now) (P.at parts.now) act.now }
    ensures { result ≡ holds matter.now.journal.now.receipts matter.now.number matter.now.filing.now (docs_of matter.now) (P.at parts.now) section a act.now }
{
    match section {
        Section::Limit => is_beyond_limit(matter, a),
        Section::Gbo3 => lacks_folio(parts, matter, a, act),
        Section::Bgb873 => lacks_right(parts, act),
        Section::Bgb883 => converts_full_right(parts, act),
        Section::Bgb880 => exchanges_unfit_right(parts, matter.journal, act),
        Section::Bgb881 => lacks_reservation(parts, act),
        Section::Bgb1059 => assigns_division_two(parts, act),
        Section::Gbo13 => may_not_apply(parts, matter, a, act),
        Section::Gbo20 => lacks_agreement(matter, a, act),
        Section::Gbo19 => {
            lacks_consent(parts, matter, a, act) && !has_stranger(parts, matter, a, act)
        }
        _ => false,
    }
}
