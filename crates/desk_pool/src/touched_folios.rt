//! The folios whose keys an item touches: none, one or two.
ghost use Rattle.std.specs.Prelude.{◌≡◌, ◌==◌, ◌≤◌, nat_lt, if◌then◌else◌, not, find, length};
ghost use Rattle.std.specs.Option.{option_copied};
ghost use Rattle.gb_base.specs.Keys.{folio_of_key};
ghost use Rattle.conflict_queue.specs.Dockets.{docket_of};
ghost use Rattle.conflict_queue.specs.ItemKeys.{keys_of_item};
ghost use Rattle.desk_pool.specs.declared.touched_folios.TouchedFolios.TheVariants.{Two};
ghost use Rattle.desk_pool.specs.inner.TouchedFolios.{AreOfFewFolios, AreTouched};

use crate::laws::items_touch_few_folios;
use act_model::{Journal, is_a_journal};
use conflict_queue::Docket;
use gb_base::{FolioId, Key, ReceiptNo};

/// The folios whose keys an item touches.
#[derive(Clone, Copy)]
pub(crate) enum TouchedFolios {
    /// The item touches no key.
    Nowhere,
    One(FolioId),
    /// The first has the lower number.
    Two(FolioId, FolioId),
}

/// The folios whose keys an item touches. It takes no memory.
pub(crate) fn folios_touched(docket: &Docket, journal: &Journal, item: ReceiptNo) -> TouchedFolios
    requires received { item ≤ length journal.now.receipts }
    requires docket { docket.now ≡ docket_of journal.now.receipts }
    ensures { AreTouched (keys_of_item journal.now.receipts item) result }
{
    items_touch_few_folios();
    is_a_journal(journal);
    folios_of(docket.keys(item))
}

/// The folios of these keys, which are of two at most.
fn folios_of(keys: &[Key]) -> TouchedFolios
    requires few { AreOfFewFolios keys.now }
    ensures { AreTouched keys.now result }
{
    let Some(key) = keys.first() else {
        return TouchedFolios::Nowhere;
    };
    let one = key.folio();
    match key_elsewhere(keys, one) {
        None => TouchedFolios::One(one),
        Some(other) => lower_first(one, other.folio()),
    }
}

/// The first of these keys that is not of the folio.
fn key_elsewhere(keys: &[Key], folio: FolioId) -> Option<&Key>
    ensures { option_copied result ≡ find (λ k. not (folio_of_key k == folio)) keys.now }
{
    keys.iter().find(|key| key.folio() != folio)
}

/// Two folios, the one with the lower number first.
fn lower_first(one: FolioId, other: FolioId) -> TouchedFolios
    ensures { result ≡ if nat_lt one other then Two one other else Two other one }
{
    if one < other {
        TouchedFolios::Two(one, other)
    } else {
        TouchedFolios::Two(other, one)
    }
}
