//! What a receipt after the openings becomes, by the kind that is drawn.
ghost use Rattle.std.specs.Prelude.{◌≡◌, ◌+◌, ◌≤◌};
ghost use Rattle.act_model.specs.Limits.{most_receipts};
ghost use Rattle.sample_journals.specs.SampleFilings.{transfer};
ghost use Rattle.sample_journals.specs.Turns.{cancels, creates, creates_in_plain_form, cures, exchanges, notes_after_sale, sale_item, turn};

use crate::draws::Draws;
use crate::filings::{
    cancellation, certified_by, creation, documents, draw_charge, exchange, transfer,
};
use crate::folio_notes::{FolioNotes, KnownRight};
use crate::sales::{note_sale, sale_item};
use act_model::{Form, Item};
use gb_base::{FolioId, Person, ReceiptNo, RightId};

/// The item of receipt k in a folio, for which kind `op` from 0 to 10 was drawn.
#[tactic(auto, unfolding(crate::specs::Turns::turn))]
pub(crate) fn turn(
    op: u32,
    k: ReceiptNo,
    folio: FolioId,
    notes: &mut FolioNotes,
    draws: &mut Draws,
) -> Item
    requires { k ≤ most_receipts }
    ensures item { result ≡ (turn op k folio notes.old draws.old.state).item }
    ensures notes { notes.new ≡ (turn op k folio notes.old draws.old.state).notes }
    ensures state { draws.new.state ≡ (turn op k folio notes.old draws.old.state).state }
{
    match op {
        5 => transfers(k, folio, notes),
        6 => creates_in_plain_form(k, folio, notes, draws),
        7 => cures(k, folio, notes, draws),
        8 => exchanges(k, folio, notes, draws),
        9 => cancels(k, folio, notes, draws),
        10 => sells(k, folio, notes),
        _ => creates(k, folio, notes, draws),
    }
}

/// A land charge is created, with the certified consent of the owner.
fn creates(k: ReceiptNo, folio: FolioId, notes: &mut FolioNotes, draws: &mut Draws) -> Item
    ensures item { result ≡ (creates k folio notes.old draws.old.state).item }
    ensures notes { notes.new ≡ (creates k folio notes.old draws.old.state).notes }
    ensures state { draws.new.state ≡ (creates k folio notes.old draws.old.state).state }
{
    let charge = draw_charge(draws);
    notes.second = notes.newest;
    notes.newest = Some(KnownRight {
        right: RightId::new(k, 1).unwrap(),
        holder: charge.holder,
    });
    creation(folio, notes.owner, Form::Certified, charge)
}

/// A land charge is created with a consent in plain form, so that the filing waits.
fn creates_in_plain_form(
    k: ReceiptNo,
    folio: FolioId,
    notes: &mut FolioNotes,
    draws: &mut Draws,
) -> Item
    ensures item { result ≡ (creates_in_plain_form k folio notes.old draws.old.state).item }
    ensures notes { notes.new ≡ (creates_in_plain_form k folio notes.old draws.old.state).notes }
    ensures state { draws.new.state ≡ (creates_in_plain_form k folio notes.old draws.old.state).state }
{
    notes.uncertified = Some(k);
    creation(folio, notes.owner, Form::Plain, draw_charge(draws))
}

/// The land goes to a new owner.
fn transfers(k: ReceiptNo, folio: FolioId, notes: &mut FolioNotes) -> Item
    requires { k ≤ most_receipts }
    ensures item { result ≡ transfer folio notes.old.owner (2000000 + k) }
    ensures notes { notes.new ≡ record notes.old { owner = 2000000 + k } }
{
    let owner = notes.owner;
    notes.owner = Person::new(2_000_000 + k.get()).unwrap();
    transfer(folio, owner, notes.owner)
}

/// The filing that waits is cured; where there is none, a land charge is created.
fn cures(k: ReceiptNo, folio: FolioId, notes: &mut FolioNotes, draws: &mut Draws) -> Item
    ensures item { result ≡ (cures notes.old.uncertified k folio notes.old draws.old.state).item }
    ensures notes { notes.new ≡ (cures notes.old.uncertified k folio notes.old draws.old.state).notes }
    ensures state { draws.new.state ≡ (cures notes.old.uncertified k folio notes.old draws.old.state).state }
{
    match notes.uncertified {
        Some(filing) => {
            notes.uncertified = None;
            Item::Cure {
                filing,
                docs: documents(&[certified_by(notes.owner)]),
            }
        }
        None => creates(k, folio, notes, draws),
    }
}

/// The second right recedes behind the newest; where there are no two, a land charge is created.
fn exchanges(k: ReceiptNo, folio: FolioId, notes: &mut FolioNotes, draws: &mut Draws) -> Item
    ensures item { result ≡ (exchanges notes.old.second notes.old.newest k folio notes.old draws.old.state).item }
    ensures notes { notes.new ≡ (exchanges notes.old.second notes.old.newest k folio notes.old draws.old.state).notes }
    ensures state { draws.new.state ≡ (exchanges notes.old.second notes.old.newest k folio notes.old draws.old.state).state }
{
    match (notes.second, notes.newest) {
        (Some(second), Some(newest)) => exchange(folio, notes.owner, &second, newest.right),
        _ => creates(k, folio, notes, draws),
    }
}

/// The newest right is cancelled; where there is none, a land charge is created.
fn cancels(k: ReceiptNo, folio: FolioId, notes: &mut FolioNotes, draws: &mut Draws) -> Item
    ensures item { result ≡ (cancels notes.old.newest k folio notes.old draws.old.state).item }
    ensures notes { notes.new ≡ (cancels notes.old.newest k folio notes.old draws.old.state).notes }
    ensures state { draws.new.state ≡ (cancels notes.old.newest k folio notes.old draws.old.state).state }
{
    match notes.newest {
        Some(newest) => {
            notes.newest = notes.second;
            notes.second = None;
            cancellation(folio, notes.owner, &newest)
        }
        None => creates(k, folio, notes, draws),
    }
}

/// The next step of the folio's forced sale.
fn sells(k: ReceiptNo, folio: FolioId, notes: &mut FolioNotes) -> Item
    requires { k ≤ most_receipts }
    ensures item { result ≡ sale_item notes.old.next k folio }
    ensures notes { notes.new ≡ notes_after_sale notes.old.next k notes.old }
{
    let item = sale_item(notes.next, k.get(), folio);
    note_sale(notes, k.get());
    item
}
