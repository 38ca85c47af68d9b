//! Why an act cannot be entered, whoever consents (GBO § 3; BGB §§ 873, 880, 881, 883, 1059).
ghost use Rattle.std.specs.Prelude.{◌≡◌, ◌≤◌, ◌||◌, is_some, true, false, IsTrue};
ghost use Rattle.std.specs.List.{list_any};
ghost use Rattle.std.specs.Option.{option_map_or};
ghost use Rattle.gb_base.specs.Limits.{most_acts};
ghost use Rattle.gb_base.specs.declared.keys.Key.TheVariants.{Title, Right};
ghost use Rattle.consent_rules.specs.Judging.{assigns_division_two, converts_full_right, exchanges_unfit_right, is_barred_from_exchange, is_beyond_limit, is_open_as_of, lacks_folio, lacks_reservation, lacks_right, opens, reserves_less};
ghost use Rattle.consent_rules.specs.inner.Held.{HasParts};

use crate::parts_read::{live_right, lives, right_part, title_part};
use crate::persons::acts_before;
use act_model::{Act, Journal, MOST_CREATIONS, Matter, new_right, shares_its_group};
use folio_sections::{Created, Parts};
use gb_base::{Cents, FolioId, RightId};

/// Whether act a is a creating act beyond the 256th of its folio.
pub fn is_beyond_limit(matter: &Matter, a: u8) -> bool
    requires from_one { 1 ≤ a }
    requires to_eight { a ≤ most_acts }
    ensures { result ≡ is_beyond_limit matter.now.journal.now.receipts matter.now.number a }
{
    match matter.journal.creating_rank(new_right(matter.number, a)) {
        Some(rank) => rank as usize > MOST_CREATIONS,
        None => false,
    }
}

/// Whether the act opens a folio that is open, or names one that is not (GBO § 3).
pub fn lacks_folio<P: Parts>(parts: &P, matter: &Matter, a: u8, act: &Act) -> bool
    requires held { HasParts (P.holds parts.now) (P.at parts.now) act.now }
    ensures { result ≡ lacks_folio (P.at parts.now) matter.now.filing.now.acts a act.now }
{
    match act {
        Act::Open { folio, .. } => title_part(parts, *folio).is_open(),
        Act::Transfer { folio, .. } => !is_open_as_of(parts, matter, a, *folio),
        Act::Create { folio, .. } => !is_open_as_of(parts, matter, a, *folio),
        Act::NoticeFor { folio, .. } => !is_open_as_of(parts, matter, a, *folio),
        Act::Convert { folio, .. } => !is_open_as_of(parts, matter, a, *folio),
        Act::Assign { .. } => false,
        Act::Cancel { folio, .. } => !is_open_as_of(parts, matter, a, *folio),
        Act::Exchange { .. } => false,
        Act::Exercise { folio, .. } => !is_open_as_of(parts, matter, a, *folio),
    }
}

/// Whether the folio is open, or opened by one of the acts before act a.
fn is_open_as_of<P: Parts>(parts: &P, matter: &Matter, a: u8, folio: FolioId) -> bool
    requires held { IsTrue (P.holds parts.now (Title folio)) }
    ensures { result ≡ is_open_as_of (P.at parts.now) matter.now.filing.now.acts a folio }
{
    title_part(parts, folio).is_open()
        || is_opened_by(acts_before(matter.filing.acts.list(), a), folio)
}

fn is_opened_by(acts: &[Act], folio: FolioId) -> bool
    ensures { result ≡ list_any (opens folio) acts.now }
{
    acts.iter().any(|act| opens(act, folio))
}

fn opens(act: &Act, opened: FolioId) -> bool
    ensures { result ≡ opens opened act.now }
{
    match act {
        Act::Open { folio, .. } => *folio == opened,
        Act::Transfer { .. }
        | Act::Create { .. }
        | Act::NoticeFor { .. }
        | Act::Convert { .. }
        | Act::Assign { .. }
        | Act::Cancel { .. }
        | Act::Exchange { .. }
        | Act::Exercise { .. } => false,
    }
}

/// Whether a right that the act names is not live in the folio (BGB § 873).
pub fn lacks_right<P: Parts>(parts: &P, act: &Act) -> bool
    requires held { HasParts (P.holds parts.now) (P.at parts.now) act.now }
    ensures { result ≡ lacks_right (P.at parts.now) act.now }
{
    match act {
        Act::Convert { folio, right } => !lives(parts, *folio, *right),
        Act::Assign { folio, right, .. } => !lives(parts, *folio, *right),
        Act::Cancel { folio, right } => !lives(parts, *folio, *right),
        Act::Exchange {
            folio,
            recede,
            rise,
        } => !lives(parts, *folio, *recede) || !lives(parts, *folio, *rise),
        Act::Exercise { folio, behind, .. } => !lives(parts, *folio, *behind),
        Act::Open { .. } | Act::Transfer { .. } | Act::Create { .. } | Act::NoticeFor { .. } =>
            false,
    }
}

/// Whether the act converts a right that is no priority notice (BGB § 883).
pub fn converts_full_right<P: Parts>(parts: &P, act: &Act) -> bool
    requires held { HasParts (P.holds parts.now) (P.at parts.now) act.now }
    ensures { result ≡ converts_full_right (P.at parts.now) act.now }
{
    match act {
        Act::Convert { folio, right } => right_part(parts, *folio, *right).full(),
        Act::Open { .. }
        | Act::Transfer { .. }
        | Act::Create { .. }
        | Act::NoticeFor { .. }
        | Act::Assign { .. }
        | Act::Cancel { .. }
        | Act::Exchange { .. }
        | Act::Exercise { .. } => false,
    }
}

/// Whether one of the rights of an exchange may take no part in one (BGB § 880).
pub fn exchanges_unfit_right<P: Parts>(parts: &P, journal: &Journal, act: &Act) -> bool
    requires held { HasParts (P.holds parts.now) (P.at parts.now) act.now }
    ensures { result ≡ exchanges_unfit_right journal.now.receipts (P.at parts.now) act.now }
{
    match act {
        Act::Exchange {
            folio,
            recede,
            rise,
        } => {
            is_barred_from_exchange(parts, journal, *folio, *recede)
                || is_barred_from_exchange(parts, journal, *folio, *rise)
        }
        Act::Open { .. }
        | Act::Transfer { .. }
        | Act::Create { .. }
        | Act::NoticeFor { .. }
        | Act::Convert { .. }
        | Act::Assign { .. }
        | Act::Cancel { .. }
        | Act::Exercise { .. } => false,
    }
}

/// Whether the right may take no part in an exchange: it is a priority notice, or shares its group,
/// or has a reservation, or stands in the rank of one.
fn is_barred_from_exchange<P: Parts>(
    parts: &P,
    journal: &Journal,
    folio: FolioId,
    right: RightId,
) -> bool
    requires held { IsTrue (P.holds parts.now (Right folio right)) }
    ensures { result ≡ is_barred_from_exchange journal.now.receipts (P.at parts.now) folio right }
{
    let part = right_part(parts, folio, right);
    !part.full() || shares_its_group(journal, right) || has_reservation(live_right(part))
}

/// Whether the right was entered with a reservation, or in the rank of one.
fn has_reservation(made: Option<Created>) -> bool
    ensures { result ≡ option_map_or (λ made. is_some made.reserve || is_some made.ahead_of) made false }
{
    match made {
        Some(made) => made.reserve.is_some() || made.ahead_of.is_some(),
        None => false,
    }
}

/// Whether the right that an exercise names has no reservation, has spent it, or reserved less than
/// the new capital (BGB § 881).
pub fn lacks_reservation<P: Parts>(parts: &P, act: &Act) -> bool
    requires held { HasParts (P.holds parts.now) (P.at parts.now) act.now }
    ensures { result ≡ lacks_reservation (P.at parts.now) act.now }
{
    match act {
        Act::Exercise {
            folio,
            behind,
            spec,
        } => {
            let part = right_part(parts, *folio, *behind);
            part.spent() || lacks_reserve_for(live_right(part), spec.capital)
        }
        Act::Open { .. }
        | Act::Transfer { .. }
        | Act::Create { .. }
        | Act::NoticeFor { .. }
        | Act::Convert { .. }
        | Act::Assign { .. }
        | Act::Cancel { .. }
        | Act::Exchange { .. } => false,
    }
}

/// Whether there is no right with a reservation of at least this capital.
fn lacks_reserve_for(made: Option<Created>, capital: Cents) -> bool
    ensures { result ≡ option_map_or (λ made. reserves_less made.reserve capital) made true }
{
    match made {
        Some(made) => reserves_less(made.reserve, capital),
        None => true,
    }
}

/// Whether a reservation is of less than the capital; where there is none, it always is.
fn reserves_less(reserve: Option<Cents>, capital: Cents) -> bool
    ensures { result ≡ reserves_less reserve capital }
{
    match reserve {
        Some(reserved) => reserved < capital,
        None => true,
    }
}

/// Whether the act assigns a right of division II (BGB §§ 1059, 1092).
pub fn assigns_division_two<P: Parts>(parts: &P, act: &Act) -> bool
    requires held { HasParts (P.holds parts.now) (P.at parts.now) act.now }
    ensures { result ≡ assigns_division_two (P.at parts.now) act.now }
{
    match act {
        Act::Assign { folio, right, .. } => {
            match live_right(right_part(parts, *folio, *right)) {
                Some(made) => !made.spec.kind.is_in_division_three(),
                None => false,
            }
        }
        Act::Open { .. }
        | Act::Transfer { .. }
        | Act::Create { .. }
        | Act::NoticeFor { .. }
        | Act::Convert { .. }
        | Act::Cancel { .. }
        | Act::Exchange { .. }
        | Act::Exercise { .. } => false,
    }
}
