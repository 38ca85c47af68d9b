//! The forced sales of the generated journal.
ghost use Rattle.std.specs.Prelude.{◌≡◌, ◌+◌, ◌-◌, ◌≤◌};
ghost use Rattle.act_model.specs.declared.items.Item.TheVariants.{Seize};
ghost use Rattle.act_model.specs.declared.sales.Basis.TheVariants.{Personal};
ghost use Rattle.act_model.specs.Limits.{most_receipts};
ghost use Rattle.sample_journals.specs.Turns.{day_of_receipt, notes_after_sale, sale_item};

use crate::folio_notes::{FolioNotes, SaleStep};
use act_model::{Basis, Item};
use gb_base::{Cents, Day, FolioId, Person};

/// The day of receipt k, of 64 a day.
pub(crate) fn day_of_receipt(k: u32) -> Day
    requires { k ≤ most_receipts }
    ensures { result ≡ day_of_receipt k }
{
    Day::new(19_723 + k / 64).unwrap()
}

/// The item of a step of a forced sale.
pub(crate) fn sale_item(step: SaleStep, k: u32, folio: FolioId) -> Item
    requires { k ≤ most_receipts }
    ensures { result ≡ sale_item step k folio }
{
    match step {
        SaleStep::Seizure => seizure(k, folio),
        SaleStep::Call => Item::OpenBids {
            folio,
            costs: Cents::new(10_000).unwrap(),
        },
        SaleStep::Award => Item::Award {
            folio,
            buyer: buyer(k),
            bid: Cents::new(1_000_000_000).unwrap(),
        },
        SaleStep::Distribution => Item::Distribute { folio },
    }
}

/// Takes down that a step is done.
pub(crate) fn note_sale(notes: &mut FolioNotes, k: u32)
    requires { k ≤ most_receipts }
    ensures { notes.new ≡ notes_after_sale notes.old.next k notes.old }
{
    match notes.next {
        SaleStep::Seizure => notes.next = SaleStep::Call,
        SaleStep::Call => notes.next = SaleStep::Award,
        SaleStep::Award => {
            notes.owner = buyer(k);
            notes.next = SaleStep::Distribution;
        }
        SaleStep::Distribution => notes.next = SaleStep::Seizure,
    }
}

/// The seizure for a personal creditor, of which the debtor was served 40 days before.
fn seizure(k: u32, folio: FolioId) -> Item
    requires { k ≤ most_receipts }
    ensures { result ≡ Seize folio (Personal 5000000 1000000) (day_of_receipt k - 40) }
{
    let basis = Basis::Personal {
        creditor: Person::new(5_000_000).unwrap(),
        claim: Cents::new(1_000_000).unwrap(),
    };
    Item::Seize {
        folio,
        basis,
        served: Day::new(day_of_receipt(k).number() - 40).unwrap(),
    }
}

/// Who buys by the award of receipt k.
fn buyer(k: u32) -> Person
    requires { k ≤ most_receipts }
    ensures { result ≡ 3000000 + k }
{
    Person::new(3_000_000 + k).unwrap()
}
