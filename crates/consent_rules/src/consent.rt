//! Whether those whose consent an act needs have given it (GBO §§ 19, 29).
ghost use Rattle.std.specs.Prelude.{◌≡◌};
ghost use Rattle.act_model.specs.Documents.{docs_of};
ghost use Rattle.consent_rules.specs.Judging.{has_stranger, is_plain_among, is_silent_among, lacks_agreement, lacks_clearance, lacks_consent, lacks_owner, lacks_owner_of_exchange};
ghost use Rattle.consent_rules.specs.Persons.{needed, others, owner_side};
ghost use Rattle.consent_rules.specs.inner.Held.{HasParts};

use crate::consenters::Stranger;
use crate::lacks::Lack;
use crate::needed::needed;
use act_model::{Act, Matter, Sought};
use folio_sections::Parts;

/// Whether somebody affected has given no consent for the act (GBO § 19).
pub fn lacks_consent<P: Parts>(parts: &P, matter: &Matter, a: u8, act: &Act) -> bool
    requires held { HasParts (P.holds parts.now) (P.at parts.now) act.now }
    ensures { result ≡ lacks_consent matter.now.number (docs_of matter.now) (P.at parts.now) matter.now.filing.now.acts a act.now }
{
    let lack = Lack::Consent(matter, a);
    needed(parts, matter, a, act).some_affected(&lack)
}

/// Whether somebody whose consent the act does not need has consented to it.
pub fn has_stranger<P: Parts>(parts: &P, matter: &Matter, a: u8, act: &Act) -> bool
    requires held { HasParts (P.holds parts.now) (P.at parts.now) act.now }
    ensures { result ≡ has_stranger matter.now.journal.now.receipts matter.now.number (docs_of matter.now) (P.at parts.now) matter.now.filing.now.acts a act.now }
{
    let consenters = needed(parts, matter, a, act);
    matter.some_consenter(
        a,
        &Stranger {
            needed: &consenters,
        },
    )
}

/// Whether somebody whose consent the act needs has given it in plain form alone (GBO § 29).
pub fn wants_form<P: Parts>(parts: &P, matter: &Matter, a: u8, act: &Act) -> bool
    requires held { HasParts (P.holds parts.now) (P.at parts.now) act.now }
    ensures { result ≡ is_plain_among (docs_of matter.now) a (needed matter.now.journal.now.receipts matter.now.number (docs_of matter.now) (P.at parts.now) matter.now.filing.now.acts a act.now) }
{
    let lack = Lack::Form(matter, a);
    needed(parts, matter, a, act).some(&lack)
}

/// Whether an owner's consent to a cancellation is missing (GBO § 27).
pub fn lacks_owner<P: Parts>(parts: &P, matter: &Matter, a: u8, act: &Act) -> bool
    requires held { HasParts (P.holds parts.now) (P.at parts.now) act.now }
    ensures { result ≡ lacks_owner matter.now.number (docs_of matter.now) (P.at parts.now) matter.now.filing.now.acts a act.now }
{
    match act {
        Act::Cancel { .. } => some_owner_is_silent(parts, matter, a, act),
        Act::Open { .. }
        | Act::Transfer { .. }
        | Act::Create { .. }
        | Act::NoticeFor { .. }
        | Act::Convert { .. }
        | Act::Assign { .. }
        | Act::Exchange { .. }
        | Act::Exercise { .. } => false,
    }
}

/// Whether an owner's consent to an exchange is missing (BGB § 880(2)).
pub fn lacks_owner_of_exchange<P: Parts>(parts: &P, matter: &Matter, a: u8, act: &Act) -> bool
    requires held { HasParts (P.holds parts.now) (P.at parts.now) act.now }
    ensures { result ≡ lacks_owner_of_exchange matter.now.number (docs_of matter.now) (P.at parts.now) matter.now.filing.now.acts a act.now }
{
    match act {
        Act::Exchange { .. } => some_owner_is_silent(parts, matter, a, act),
        Act::Open { .. }
        | Act::Transfer { .. }
        | Act::Create { .. }
        | Act::NoticeFor { .. }
        | Act::Convert { .. }
        | Act::Assign { .. }
        | Act::Cancel { .. }
        | Act::Exercise { .. } => false,
    }
}

/// Whether one of the owners who consent beside whoever is affected has given no consent.
fn some_owner_is_silent<P: Parts>(parts: &P, matter: &Matter, a: u8, act: &Act) -> bool
    requires held { HasParts (P.holds parts.now) (P.at parts.now) act.now }
    ensures { result ≡ is_silent_among (docs_of matter.now) a (owner_side matter.now.number (docs_of matter.now) (P.at parts.now) matter.now.filing.now.acts a act.now) }
{
    let lack = Lack::Consent(matter, a);
    needed(parts, matter, a, act).some_owner(&lack)
}

/// Whether an applicant who waits at a right has given no consent to its cancellation (BGB § 876).
pub fn lacks_others<P: Parts>(parts: &P, matter: &Matter, a: u8, act: &Act) -> bool
    requires held { HasParts (P.holds parts.now) (P.at parts.now) act.now }
    ensures { result ≡ is_silent_among (docs_of matter.now) a (others matter.now.journal.now.receipts matter.now.number (docs_of matter.now) (P.at parts.now) a act.now) }
{
    let lack = Lack::Consent(matter, a);
    needed(parts, matter, a, act).some_other(&lack)
}

/// Whether the act is a transfer without agreement (GBO § 20).
pub fn lacks_agreement(matter: &Matter, a: u8, act: &Act) -> bool
    ensures { result ≡ lacks_agreement (docs_of matter.now) a act.now }
{
    match act {
        Act::Transfer { .. } => !matter.has(&Sought::Agreement { act: a }),
        Act::Open { .. }
        | Act::Create { .. }
        | Act::NoticeFor { .. }
        | Act::Convert { .. }
        | Act::Assign { .. }
        | Act::Cancel { .. }
        | Act::Exchange { .. }
        | Act::Exercise { .. } => false,
    }
}

/// Whether the act is a transfer without the tax office's clearance (GrEStG § 22).
pub fn lacks_clearance(matter: &Matter, a: u8, act: &Act) -> bool
    ensures { result ≡ lacks_clearance (docs_of matter.now) a act.now }
{
    match act {
        Act::Transfer { .. } => !matter.has(&Sought::Clearance { act: a }),
        Act::Open { .. }
        | Act::Create { .. }
        | Act::NoticeFor { .. }
        | Act::Convert { .. }
        | Act::Assign { .. }
        | Act::Cancel { .. }
        | Act::Exchange { .. }
        | Act::Exercise { .. } => false,
    }
}
