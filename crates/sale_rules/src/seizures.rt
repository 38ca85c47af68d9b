//! Seizures of land.
//! The grounds are read from the folio as the item finds it.
ghost use Rattle.std.specs.Prelude.{◌≡◌, ◌≤◌, false, length, nat_le, nat_lt, slice_get};
ghost use Rattle.std.specs.Option.{option_map_or};
ghost use Rattle.std.specs.Result.{result_err};
ghost use Rattle.gb_base.specs.declared.keys.Key.TheVariants.{Right};
ghost use Rattle.act_model.specs.Acts.{is_in_division_three};
ghost use Rattle.act_model.specs.SaleKeys.{keys_of_sale};
ghost use Rattle.folio_sections.specs.Adding.{AddsList};
ghost use Rattle.folio_sections.specs.Cases.{seizure_numbers, seizures};
ghost use Rattle.folio_sections.specs.Limits.{most_seizures};
ghost use Rattle.folio_sections.specs.Rights.{created};
ghost use Rattle.auction_classes.specs.Sales.{at_case, sale_at};
ghost use Rattle.sale_rules.specs.SaleEntries.{seizure_brought};
ghost use Rattle.sale_rules.specs.SaleGrounds.{has_all_seizures, is_filed_later, is_seizable, lacks_folio, lacks_right, refusal_of_seizure};
ghost use Rattle.sale_rules.specs.SaleParts.{CanSettle, OfEachKept};
ghost use Rattle.sale_rules.specs.inner.SaleViews.{SeesSale, sale_seen};

use crate::sale_views::SaleView;
use act_model::{Basis, Journal, is_a_journal};
use folio_sections::{CaseFront, Parts, RightFront, What, add, entry_by};
use gb_base::{FolioId, Key, ReceiptNo, RightId, Section};

/// Settles a seizure (ZVG § 20): it stands at the case, or is refused under a section: GBO § 3
/// where the folio is not open, ZVG § 81 where the land was awarded in the case, Limit where the
/// case has 8 seizures, BGB § 873 where the right that is seized from is not live, not entered
/// itself or of division II, ZVG § 23 where that right was filed after the first seizure. Takes no
/// memory.
pub fn seize<P: Parts>(
    parts: &mut P,
    journal: &Journal,
    item: ReceiptNo,
    folio: FolioId,
    basis: &Basis,
) -> Result<(), Section>
    requires received { item ≤ length journal.now.receipts }
    requires parts { CanSettle journal.now.receipts item (keys_of_sale journal.now.receipts item folio) (P.holds parts.old) (P.at parts.old) (P.room parts.old) }
    ensures answer { OfEachKept journal.now.receipts (P.holds parts.old) (P.at parts.old)
        (λ register. result_err result ≡ refusal_of_seizure (sale_at journal.now.receipts register folio item) basis.now) }
    ensures added { OfEachKept journal.now.receipts (P.holds parts.old) (P.at parts.old)
        (λ register. AddsList (P.at parts.old) (P.at parts.new) (P.room parts.old) (P.room parts.new)
        (seizure_brought (sale_at journal.now.receipts register folio item) basis.now)) }
    ensures held { P.holds parts.new ≡ P.holds parts.old }
{
    is_a_journal(journal);
    let sale = SaleView::new(parts, journal, item, folio);
    match refusal(&sale, basis) {
        Some(section) => Err(section),
        None => {
            add(
                parts,
                entry_by(journal, item, Key::Case(folio), What::Seized),
            );
            Ok(())
        }
    }
}

/// Why a seizure is refused; None where it is let in.
fn refusal<P: Parts>(sale: &SaleView<P>, basis: &Basis) -> Option<Section>
    requires { SeesSale P.holds P.at sale.now }
    ensures { result ≡ refusal_of_seizure (sale_seen P.holds P.at sale.now) basis.now }
{
    if lacks_folio(sale) {
        Some(Section::Gbo3)
    } else if sale.is_awarded() {
        Some(Section::Zvg81)
    } else if has_all_seizures(sale) {
        Some(Section::Limit)
    } else if lacks_right(sale, basis) {
        Some(Section::Bgb873)
    } else if is_filed_later(sale, basis) {
        Some(Section::Zvg23)
    } else {
        None
    }
}

/// Whether the folio is not open (GBO § 3).
fn lacks_folio<P: Parts>(sale: &SaleView<P>) -> bool
    requires { SeesSale P.holds P.at sale.now }
    ensures { result ≡ lacks_folio (sale_seen P.holds P.at sale.now) }
{
    match sale.title_found() {
        Some(title) => !title.is_open(),
        None => true,
    }
}

/// Whether the case has as many seizures as it may.
fn has_all_seizures<P: Parts>(sale: &SaleView<P>) -> bool
    requires { SeesSale P.holds P.at sale.now }
    ensures { result ≡ has_all_seizures (sale_seen P.holds P.at sale.now) }
{
    match &sale.case {
        Some(case) => has_eight(case),
        None => false,
    }
}

/// Whether a case has eight seizures.
fn has_eight(case: &CaseFront) -> bool
    ensures { result ≡ nat_le most_seizures (seizures case.now) }
{
    case.seized().len() >= 8
}

/// Whether the right from which land is seized is not one that can be seized from (BGB § 873).
fn lacks_right<P: Parts>(sale: &SaleView<P>, basis: &Basis) -> bool
    requires { SeesSale P.holds P.at sale.now }
    ensures { result ≡ lacks_right (sale_seen P.holds P.at sale.now) basis.now }
{
    match basis {
        Basis::Personal { .. } => false,
        Basis::FromRight { right } => !is_seizable_in(sale, *right),
    }
}

/// Whether a right of the folio can be seized from.
fn is_seizable_in<P: Parts>(sale: &SaleView<P>, right: RightId) -> bool
    requires { SeesSale P.holds P.at sale.now }
    ensures { result ≡ is_seizable ((sale_seen P.holds P.at sale.now).at (Right sale.now.folio right)) }
{
    match sale.right_found(right) {
        Some(front) => is_seizable(&front),
        None => false,
    }
}

/// Whether a right is live, entered itself, and a mortgage or land charge.
fn is_seizable(right: &RightFront) -> bool
    ensures { result ≡ is_seizable right.now }
{
    right.full() && right.live() && is_in_division_three(right)
}

/// Whether a right was created as a mortgage or land charge.
fn is_in_division_three(right: &RightFront) -> bool
    ensures { result ≡ option_map_or (λ made. is_in_division_three made.spec.kind) (created right.now) false }
{
    match right.created() {
        Some(made) => made.spec.kind.is_in_division_three(),
        None => false,
    }
}

/// Whether the right from which land is seized was filed after the case's first seizure (ZVG § 23).
fn is_filed_later<P: Parts>(sale: &SaleView<P>, basis: &Basis) -> bool
    requires { SeesSale P.holds P.at sale.now }
    ensures { result ≡ is_filed_later (sale_seen P.holds P.at sale.now) basis.now }
{
    match basis {
        Basis::Personal { .. } => false,
        Basis::FromRight { right } => comes_later(first_seizure(sale), *right),
    }
}

/// The receipt of the case's first seizure; None where it has none.
fn first_seizure<P: Parts>(sale: &SaleView<P>) -> Option<ReceiptNo>
    requires { SeesSale P.holds P.at sale.now }
    ensures { result ≡ slice_get (seizure_numbers (at_case (sale_seen P.holds P.at sale.now))) 0 }
{
    match &sale.case {
        Some(case) => first_of(case),
        None => None,
    }
}

/// The receipt of the first seizure of a case.
fn first_of(case: &CaseFront) -> Option<ReceiptNo>
    ensures { result ≡ slice_get (seizure_numbers case.now) 0 }
{
    case.seized().first().copied()
}

/// Whether the right was filed after the first seizure, if there is one.
fn comes_later(first: Option<ReceiptNo>, right: RightId) -> bool
    ensures { result ≡ option_map_or (λ n. nat_lt n right.receipt) first false }
{
    match first {
        Some(seizure) => seizure < right.receipt(),
        None => false,
    }
}
