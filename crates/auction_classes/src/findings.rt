//! A forced sale as an item of it, or the end of the journal, finds it (ZVG §§ 20, 37, 66, 81).
ghost use Rattle.std.specs.Prelude.{◌≡◌, ◌≤◌, ◌<◌, ◌∷◌, ◌++◌, [], IsSome, filter_map, length, option_and_then, slice_get};
ghost use Rattle.std.specs.Option.{option_map_or};
ghost use Rattle.act_model.specs.Receiving.{day_of, item_at, receipt_at};
ghost use Rattle.folio_sections.specs.Cases.{award, seizure_numbers};
ghost use Rattle.folio_sections.specs.Limits.{most_registrations, most_seizures};
ghost use Rattle.gb_base.specs.Calendar.{date_of};
ghost use Rattle.gb_base.specs.Limits.{last_stamp_day, last_year};
ghost use Rattle.auction_classes.specs.Sales.{costs_found, costs_named, number_called, read_before, registered_by, registrations_found, sale_day, seizure_by, seizures_found};
ghost use Rattle.auction_classes.specs.inner.CaseSales.{CanFind, sale_of_case};
ghost use Rattle.auction_classes.specs.inner.Findings.{finding_of, is_late_by};

use crate::accruals::new_year;
use crate::case_items::{Registered, Seizure};
use act_model::{Item, Journal};
use arrayvec::ArrayVec;
use folio_sections::CaseFront;
use gb_base::{Cents, Day, ReceiptNo};

/// What the entries of a case and the journal say of its sale.
#[derive(Clone, Copy)]
pub(crate) struct Finding {
    /// The costs of the proceedings, as the call to bid names them (ZVG § 109).
    pub costs: Cents,
    /// The day of the sale.
    pub sale: Day,
    /// The receipt of the first seizure, which decides the classes of rights.
    pub seized: ReceiptNo,
    /// The year of the first seizure, from which the years of interest and of charges are counted.
    pub year: u16,
    /// 1 January of the year before the first seizure's (ZVG § 13).
    pub current_from: Day,
    /// 1 January of the third year before the first seizure's (ZVG § 10(1) no. 4).
    pub arrears_from: Day,
    /// Rights and owners are read as they stood before this receipt (ZVG § 81).
    pub before: ReceiptNo,
}

/// What an item finds of the sale of this case. Takes no memory.
pub(crate) fn find_sale(journal: &Journal, case: &CaseFront, item: ReceiptNo) -> Finding
    requires { CanFind (sale_of_case journal.now.receipts case.now item) }
    ensures value { result ≡ finding_of (sale_of_case journal.now.receipts case.now item) }
    ensures sale { result.sale ≤ last_stamp_day }
    ensures year { 3 ≤ result.year }
{
    let called = number_called(journal, case, item);
    let seized = first_seizure(case);
    let year = stamp_year(journal, seized);
    Finding {
        costs: costs_found(journal, &called),
        sale: sale_day(journal, &called),
        seized,
        year,
        current_from: new_year(year - 1),
        arrears_from: new_year(year - 3),
        before: read_before(case, item),
    }
}

/// The seizures of a case, in order: what each rests on, and when it was served (ZVG § 20). Takes no
/// memory.
pub(crate) fn seizures_found(
    journal: &Journal,
    case: &CaseFront,
    item: ReceiptNo,
) -> ArrayVec<Seizure, 8>
    requires { CanFind (sale_of_case journal.now.receipts case.now item) }
    ensures { result.items ≡ seizures_found (sale_of_case journal.now.receipts case.now item) }
{
    seizures_among(journal, &case.seized())
}

/// The registrations of a case, in order, and which of them are late: those that did not come
/// before the call to bid (ZVG §§ 37, 45, 110). Takes no memory.
pub(crate) fn registrations_found(
    journal: &Journal,
    case: &CaseFront,
    item: ReceiptNo,
) -> ArrayVec<Registered, 32>
    requires { CanFind (sale_of_case journal.now.receipts case.now item) }
    ensures { result.items ≡ registrations_found (sale_of_case journal.now.receipts case.now item) }
{
    let called = number_called(journal, case, item);
    registrations_among(journal, &called, &case.registered())
}

/// The receipt of the call: the item itself where it is one, else the last call of the case (ZVG
/// § 66).
fn number_called(journal: &Journal, case: &CaseFront, item: ReceiptNo) -> Option<ReceiptNo>
    ensures { result ≡ number_called (sale_of_case journal.now.receipts case.now item) }
{
    match costs_named_by(journal, item) {
        Some(_) => Some(item),
        None => case.called(),
    }
}

/// The costs of the proceedings that receipt n names, where it calls to bid (ZVG § 109).
fn costs_named_by(journal: &Journal, n: ReceiptNo) -> Option<Cents>
    ensures { result ≡ option_and_then costs_named (item_at journal.now.receipts n) }
{
    match &journal.get(n)?.item {
        Item::OpenBids { costs, .. } => Some(*costs),
        _ => None,
    }
}

/// The costs that the call names; 0 where there is none.
fn costs_found(journal: &Journal, called: &Option<ReceiptNo>) -> Cents
    ensures { result ≡ option_map_or (λ costs. costs) (option_and_then (λ n. option_and_then costs_named (item_at journal.now.receipts n)) called.now) 0 }
{
    match called {
        Some(n) => match costs_named_by(journal, *n) {
            Some(costs) => costs,
            None => no_cents(),
        },
        None => no_cents(),
    }
}

/// No money.
fn no_cents() -> Cents
    ensures { result ≡ 0 }
{
    Cents::new(0).unwrap()
}

/// The stamp day of the call; day 0 where there is none.
fn sale_day(journal: &Journal, called: &Option<ReceiptNo>) -> Day
    ensures value { result ≡ option_map_or (day_of journal.now.receipts) called.now 0 }
    ensures stamp { result ≤ last_stamp_day }
{
    match called {
        Some(n) => journal.day_of(*n),
        None => first_day(),
    }
}

/// Day 0.
fn first_day() -> Day
    ensures { result ≡ 0 }
{
    Day::new(0).unwrap()
}

/// The year in which receipt n was stamped.
fn stamp_year(journal: &Journal, n: ReceiptNo) -> u16
    requires { IsSome (receipt_at journal.now.receipts n) }
    ensures value { result ≡ (date_of (day_of journal.now.receipts n)).year }
    ensures from { 2000 ≤ result }
    ensures to { result ≤ last_year }
{
    journal.day_of(n).year()
}

/// The receipt of the first seizure.
fn first_seizure(case: &CaseFront) -> ReceiptNo
    requires { IsSome (slice_get (seizure_numbers case.now) 0) }
    ensures { result ≡ option_map_or (λ n. n) (slice_get (seizure_numbers case.now) 0) 0 }
{
    case.seized().as_slice()[0]
}

/// Rights and owners are read as they stood before this receipt: the award, where there is one,
/// else the item (ZVG § 81). Takes no memory.
pub(crate) fn read_before(case: &CaseFront, item: ReceiptNo) -> ReceiptNo
    ensures { result ≡ option_map_or (λ n. n) (award case.now) item }
{
    match case.award() {
        Some(n) => n,
        None => item,
    }
}

/// The seizures of these receipts.
fn seizures_among(journal: &Journal, numbers: &[ReceiptNo]) -> ArrayVec<Seizure, 8>
    requires { length numbers.now ≤ most_seizures }
    ensures { result.items ≡ filter_map (λ n. option_and_then seizure_by (item_at journal.now.receipts n)) numbers.now }
{
    let mut seizures = ArrayVec::new();
    for n in numbers {
        add_seizure(&mut seizures, journal, *n);
    }
    seizures
}

/// Adds the seizure of receipt n, where it is one.
fn add_seizure(seizures: &mut ArrayVec<Seizure, 8>, journal: &Journal, n: ReceiptNo)
    requires { length seizures.old.items < most_seizures }
    ensures { seizures.new.items ≡ seizures.old.items ++ filter_map (λ m. option_and_then seizure_by (item_at journal.now.receipts m)) (n ∷ []) }
{
    if let Some(receipt) = journal.get(n) {
        if let Item::Seize { basis, served, .. } = &receipt.item {
            seizures.push(Seizure {
                basis: *basis,
                served: *served,
            });
        }
    }
}

/// The registrations of these receipts, where the call has this number.
fn registrations_among(
    journal: &Journal,
    called: &Option<ReceiptNo>,
    numbers: &[ReceiptNo],
) -> ArrayVec<Registered, 32>
    requires { length numbers.now ≤ most_registrations }
    ensures { result.items ≡ filter_map (λ n. option_and_then (registered_by (is_late_by called.now n)) (item_at journal.now.receipts n)) numbers.now }
{
    let mut registrations = ArrayVec::new();
    for n in numbers {
        add_registration(&mut registrations, journal, is_late_by(called, *n), *n);
    }
    registrations
}

/// Whether a receipt did not come before the call.
fn is_late_by(called: &Option<ReceiptNo>, n: ReceiptNo) -> bool
    ensures { result ≡ is_late_by called.now n }
{
    match called {
        Some(call) => *call <= n,
        None => true,
    }
}

/// Adds the registration of receipt n, where it is one.
fn add_registration(
    registrations: &mut ArrayVec<Registered, 32>,
    journal: &Journal,
    late: bool,
    n: ReceiptNo,
)
    requires { length registrations.old.items < most_registrations }
    ensures { registrations.new.items ≡ registrations.old.items ++ filter_map (λ m. option_and_then (registered_by late) (item_at journal.now.receipts m)) (n ∷ []) }
{
    if let Some(receipt) = journal.get(n) {
        if let Item::Register { what, .. } = &receipt.item {
            registrations.push(Registered { late, what: *what });
        }
    }
}
