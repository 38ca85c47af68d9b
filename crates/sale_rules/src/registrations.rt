//! Registrations for a forced sale.
ghost use Rattle.std.specs.Prelude.{◌≡◌, ◌≤◌, ◌∷◌, [], false, length, nat_le, take};
ghost use Rattle.std.specs.List.{list_any};
ghost use Rattle.std.specs.Option.{option_map_or};
ghost use Rattle.std.specs.Result.{result_err};
ghost use Rattle.gb_base.specs.RightNo.{same_right};
ghost use Rattle.gb_base.specs.declared.keys.Key.TheVariants.{Case};
ghost use Rattle.folio_sections.specs.Adding.{AddsList};
ghost use Rattle.folio_sections.specs.Cases.{registration_numbers, registrations};
ghost use Rattle.folio_sections.specs.Limits.{most_registrations};
ghost use Rattle.kept_registers.specs.KeptCases.{arrears_of};
ghost use Rattle.auction_classes.specs.Sales.{at_case, sale_at};
ghost use Rattle.sale_rules.specs.SaleEntries.{registration_brought};
ghost use Rattle.sale_rules.specs.SaleGrounds.{refusal_of_registration};
ghost use Rattle.sale_rules.specs.SaleParts.{CanSettle, OfEachKept};
ghost use Rattle.sale_rules.specs.inner.Arrears.{arrears_by, fills_case, repeats_in};
ghost use Rattle.sale_rules.specs.inner.SaleViews.{SeesSale, sale_seen};

use crate::sale_views::SaleView;
use act_model::{Item, Journal, Registration};
use folio_sections::{CaseFront, Parts, What, add, entry_by};
use gb_base::{FolioId, Key, ReceiptNo, RightId, Section};

/// Settles a registration (ZVG § 37): it stands at the case, or is refused under a section: ZVG § 15
/// where no case runs, Limit where the case has 32 registrations, or one of arrears of the same
/// right. Takes no memory.
pub fn register<P: Parts>(
    parts: &mut P,
    journal: &Journal,
    item: ReceiptNo,
    folio: FolioId,
    what: &Registration,
) -> Result<(), Section>
    requires received { item ≤ length journal.now.receipts }
    requires parts { CanSettle journal.now.receipts item (Case folio ∷ []) (P.holds parts.old) (P.at parts.old) (P.room parts.old) }
    ensures answer { OfEachKept journal.now.receipts (P.holds parts.old) (P.at parts.old)
        (λ register. result_err result ≡ refusal_of_registration (sale_at journal.now.receipts register folio item) what.now) }
    ensures added { OfEachKept journal.now.receipts (P.holds parts.old) (P.at parts.old)
        (λ register. AddsList (P.at parts.old) (P.at parts.new) (P.room parts.old) (P.room parts.new)
        (registration_brought (sale_at journal.now.receipts register folio item) what.now)) }
    ensures held { P.holds parts.new ≡ P.holds parts.old }
{
    let sale = SaleView::new(parts, journal, item, folio);
    match refusal(&sale, what) {
        Some(section) => Err(section),
        None => {
            add(
                parts,
                entry_by(journal, item, Key::Case(folio), What::Registered),
            );
            Ok(())
        }
    }
}

/// Why a registration is refused; None where it is let in.
fn refusal<P: Parts>(sale: &SaleView<P>, what: &Registration) -> Option<Section>
    requires { SeesSale P.holds P.at sale.now }
    ensures { result ≡ refusal_of_registration (sale_seen P.holds P.at sale.now) what.now }
{
    if sale.lacks_case() {
        Some(Section::Zvg15)
    } else if fills_case(sale, what) {
        Some(Section::Limit)
    } else {
        None
    }
}

/// Whether the case has as many registrations as it may, or one of arrears of the same right.
fn fills_case<P: Parts>(sale: &SaleView<P>, what: &Registration) -> bool
    requires { SeesSale P.holds P.at sale.now }
    ensures { result ≡ fills_case sale.now.journal.now.receipts (at_case (sale_seen P.holds P.at sale.now)) what.now }
{
    match &sale.case {
        Some(case) => has_all_registrations(case) || repeats_arrears(sale.journal, case, what),
        None => false,
    }
}

/// Whether a case has as many registrations as it may.
fn has_all_registrations(case: &CaseFront) -> bool
    ensures { result ≡ nat_le most_registrations (registrations case.now) }
{
    case.registered().len() >= 32
}

/// Whether one of the case's first 32 registrations is of arrears of the same right.
fn repeats_arrears(journal: &Journal, case: &CaseFront, what: &Registration) -> bool
    ensures { result ≡ repeats_in journal.now.receipts (take most_registrations (registration_numbers case.now)) what.now }
{
    match what {
        Registration::Arrears { right, .. } => {
            registers_arrears(journal, &case.registered(), *right)
        }
        _ => false,
    }
}

/// Whether one of these receipts registers arrears of the right.
fn registers_arrears(journal: &Journal, numbers: &[ReceiptNo], right: RightId) -> bool
    ensures { result ≡ list_any (arrears_by journal.now.receipts right) numbers.now }
{
    numbers
        .iter()
        .any(|number| is_of_arrears(journal, *number, right))
}

/// Whether the receipt registers arrears of the right.
fn is_of_arrears(journal: &Journal, number: ReceiptNo, right: RightId) -> bool
    ensures { result ≡ arrears_by journal.now.receipts right number }
{
    match journal.get(number) {
        Some(receipt) => names_arrears(&receipt.item, right),
        None => false,
    }
}

/// Whether the item registers arrears of the right.
fn names_arrears(item: &Item, right: RightId) -> bool
    ensures { result ≡ option_map_or (same_right right) (arrears_of item.now) false }
{
    match item {
        Item::Register {
            what: Registration::Arrears { right: other, .. },
            ..
        } => right == *other,
        _ => false,
    }
}
