//! Whether an item is well formed.
ghost use Rattle.std.specs.Prelude.{◌≡◌};
ghost use Rattle.std.specs.List.{list_all};
ghost use Rattle.act_model.specs.WellFormed.{is_act_number, is_amount, is_inventory, is_right_kind, is_right_spec, is_reserve, is_act, is_doc, is_filing, is_basis, is_registration, is_extension, well_formed};

use crate::filing_rules::keeps_rules;
use crate::{Act, Basis, Doc, Filing, Inventory, Item, Registration, RightKind, RightSpec};
use gb_base::Cents;

/// Whether an item is well formed: its values are in their ranges, and the acts of a filing keep
/// the rules over a whole filing.
pub fn well_formed(item: &Item) -> bool
    ensures { result ≡ well_formed item.now }
{
    match item {
        Item::Filing(filing) => is_filing(filing),
        Item::Cure { docs, .. } => are_docs(docs.list()),
        Item::Lapse { .. } => true,
        Item::Seize { basis, .. } => is_basis(*basis),
        Item::Register { what, .. } => is_registration(*what),
        Item::OpenBids { costs, .. } => is_amount(*costs),
        Item::Award { bid, .. } => is_amount(*bid),
        Item::Distribute { .. } => true,
        Item::Extend { days, .. } => is_extension(*days),
    }
}

fn is_filing(filing: &Filing) -> bool
    ensures { result ≡ is_filing filing.now }
{
    let acts = filing.acts.list();
    !acts.is_empty() && are_acts(acts) && are_docs(filing.docs.list()) && keeps_rules(acts)
}

fn are_acts(acts: &[Act]) -> bool
    ensures { result ≡ list_all is_act acts.now }
{
    acts.iter().all(|act| is_act(act))
}

fn is_act(act: &Act) -> bool
    ensures { result ≡ is_act act.now }
{
    match act {
        Act::Open { inventory, .. } => is_inventory(*inventory),
        Act::Create { spec, reserve, .. } => is_right_spec(*spec) && is_reserve(*reserve),
        Act::NoticeFor { spec, .. } => is_right_spec(*spec),
        Act::Exercise { spec, .. } => is_right_spec(*spec) && spec.kind.is_in_division_three(),
        Act::Transfer { .. } => true,
        Act::Convert { .. } => true,
        Act::Assign { .. } => true,
        Act::Cancel { .. } => true,
        Act::Exchange { .. } => true,
    }
}

fn is_inventory(inventory: Inventory) -> bool
    ensures { result ≡ is_inventory inventory }
{
    inventory.district >= 1
        && inventory.parcel >= 1
        && inventory.area >= 1
        && inventory.area <= 1_000_000_000
}

fn is_right_spec(spec: RightSpec) -> bool
    ensures { result ≡ is_right_spec spec }
{
    is_right_kind(spec.kind) && is_amount(spec.capital) && spec.group >= 1 && spec.group <= 8
}

fn is_right_kind(kind: RightKind) -> bool
    ensures { result ≡ is_right_kind kind }
{
    match kind {
        RightKind::PersonalEasement => true,
        RightKind::Usufruct => true,
        RightKind::Mortgage { rate_bp } => rate_bp <= 2_000,
        RightKind::LandCharge { rate_bp } => rate_bp <= 2_000,
    }
}

fn is_reserve(reserve: Option<Cents>) -> bool
    ensures { result ≡ is_reserve reserve }
{
    match reserve {
        Some(cents) => is_amount(cents),
        None => true,
    }
}

/// Whether an amount is at least one cent, as all must be that are claimed, bid or secured.
fn is_amount(cents: Cents) -> bool
    ensures { result ≡ is_amount cents }
{
    cents.get() >= 1
}

fn are_docs(docs: &[Doc]) -> bool
    ensures { result ≡ list_all is_doc docs.now }
{
    docs.iter().all(|doc| is_doc(*doc))
}

fn is_doc(doc: Doc) -> bool
    ensures { result ≡ is_doc doc }
{
    match doc {
        Doc::Consent { act, .. } => is_act_number(act),
        Doc::Agreement { act } => is_act_number(act),
        Doc::TaxClearance { act } => is_act_number(act),
        Doc::ExpiryProof { act } => is_act_number(act),
    }
}

fn is_act_number(act: u8) -> bool
    ensures { result ≡ is_act_number act }
{
    act >= 1 && act <= 8
}

fn is_basis(basis: Basis) -> bool
    ensures { result ≡ is_basis basis }
{
    match basis {
        Basis::Personal { claim, .. } => is_amount(claim),
        Basis::FromRight { .. } => true,
    }
}

fn is_registration(registration: Registration) -> bool
    ensures { result ≡ is_registration registration }
{
    match registration {
        Registration::Advance { amount, .. } => is_amount(amount),
        Registration::PublicCharge { amount, .. } => is_amount(amount),
        Registration::Arrears { .. } => true,
    }
}

/// Whether a deadline may be extended to so many days after the item.
fn is_extension(days: u16) -> bool
    ensures { result ≡ is_extension days }
{
    days >= 1 && days <= 90
}
