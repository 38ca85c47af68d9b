//! The numbers of a case's seizures and registrations, as many as a case may have.
ghost use Rattle.std.specs.Prelude.{◌≡◌, ◌++◌, [], ◌∷◌, take};
ghost use Rattle.folio_sections.specs.Cases.{is_distribution, is_registration, is_seizure};
ghost use Rattle.folio_sections.specs.Limits.{most_registrations, most_seizures};
ghost use Rattle.folio_sections.specs.inner.States.{numbers_behind, numbers_that};

use crate::{Entry, What};
use arrayvec::ArrayVec;
use gb_base::ReceiptNo;

/// Takes an entry in: the numbers are then the first 8 seizures of the case after it.
pub(crate) fn note_seizure(numbers: &mut ArrayVec<ReceiptNo, 8>, entry: &Entry)
    ensures { numbers.new.items ≡ numbers_behind most_seizures is_seizure numbers.old.items entry.now.receipt entry.now.what }
{
    match &entry.what {
        What::Distributed => numbers.clear(),
        What::Seized => push_while_room(numbers, entry.receipt),
        _ => {}
    }
}

/// Takes an entry in: the numbers are then the first 32 registrations of the case after it.
pub(crate) fn note_registration(numbers: &mut ArrayVec<ReceiptNo, 32>, entry: &Entry)
    ensures { numbers.new.items ≡ numbers_behind most_registrations is_registration numbers.old.items entry.now.receipt entry.now.what }
{
    match &entry.what {
        What::Distributed => numbers.clear(),
        What::Registered => push_while_room(numbers, entry.receipt),
        _ => {}
    }
}

/// The receipts of the first 8 seizures among the entries of a case.
pub(crate) fn first_seizures(case: &[Entry]) -> ArrayVec<ReceiptNo, 8>
    ensures { result.items ≡ take most_seizures (numbers_that is_seizure case.now) }
{
    let mut numbers = ArrayVec::new();
    for entry in case {
        if is_seizure(&entry.what) {
            push_while_room(&mut numbers, entry.receipt);
        }
    }
    numbers
}

/// The receipts of the first 32 registrations among the entries of a case.
pub(crate) fn first_registrations(case: &[Entry]) -> ArrayVec<ReceiptNo, 32>
    ensures { result.items ≡ take most_registrations (numbers_that is_registration case.now) }
{
    let mut numbers = ArrayVec::new();
    for entry in case {
        if is_registration(&entry.what) {
            push_while_room(&mut numbers, entry.receipt);
        }
    }
    numbers
}

/// Puts a number at the end, where there is room.
fn push_while_room<const N: usize>(numbers: &mut ArrayVec<ReceiptNo, N>, number: ReceiptNo)
    ensures { numbers.new.items ≡ take N (numbers.old.items ++ number ∷ []) }
{
    if !numbers.is_full() {
        numbers.push(number);
    }
}

/// A copy of the numbers. It takes no memory.
pub(crate) fn copy_numbers<const N: usize>(
    numbers: &ArrayVec<ReceiptNo, N>,
) -> ArrayVec<ReceiptNo, N>
    ensures { result.items ≡ numbers.now.items }
{
    numbers.clone().unwrap()
}

/// Whether a content seizes the land (ZVG § 20).
pub(crate) fn is_seizure(what: &What) -> bool
    ensures { result ≡ is_seizure what.now }
{
    match what {
        What::Seized => true,
        _ => false,
    }
}

/// Whether a content registers a claim (ZVG § 37).
pub(crate) fn is_registration(what: &What) -> bool
    ensures { result ≡ is_registration what.now }
{
    match what {
        What::Registered => true,
        _ => false,
    }
}

/// Whether a content distributes the proceeds (ZVG § 105).
pub(crate) fn is_distribution(what: &What) -> bool
    ensures { result ≡ is_distribution what.now }
{
    match what {
        What::Distributed => true,
        _ => false,
    }
}
