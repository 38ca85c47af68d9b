//! The places that the entry of a filing brings (BGB § 879).
ghost use Rattle.std.specs.Prelude.{◌≡◌, ◌≤◌, length, Contains, IsTrue, is_none};
ghost use Rattle.gb_base.specs.declared.keys.Key.{Key};
ghost use Rattle.gb_base.specs.declared.keys.Key.TheVariants.{Title};
ghost use Rattle.act_model.specs.Touches.{keys_of_filing};
ghost use Rattle.folio_sections.specs.Adding.{AddsList, HasRoom};
ghost use Rattle.folio_sections.specs.Waiting.{notice};
ghost use Rattle.entry_rules.specs.Entering.{placed_at, placed_in, places_brought};

use crate::adding::entry;
use act_model::{Matter, filing_creates_in_division, filing_keys};
use folio_sections::{Parts, What, add};
use gb_base::{FolioId, Key, ReceiptNo};

/// Sets the place of the filing in each folio in which it creates a right, unless an official
/// notice keeps its place there.
pub fn add_places<P: Parts>(parts: &mut P, matter: &Matter)
    requires received { matter.now.item ≤ length matter.now.journal.now.receipts }
    requires held { (k : Key) → Contains (keys_of_filing matter.now.journal.now.receipts matter.now.number) k → IsTrue (P.holds parts.old k) }
    requires room { HasRoom (P.room parts.old) (places_brought matter.now.journal.now.receipts matter.now.number matter.now.item (P.at parts.old)) }
    ensures added { AddsList (P.at parts.old) (P.at parts.new) (P.room parts.old) (P.room parts.new) (places_brought matter.now.journal.now.receipts matter.now.number matter.now.item (P.at parts.old)) }
    ensures held { P.holds parts.new ≡ P.holds parts.old }
{
    let keys = filing_keys(matter.journal, matter.number);
    for key in keys.as_slice() {
        add_place_at(parts, matter, *key);
    }
}

/// Sets the filing's place at a key, if this is the title of a folio and the filing gets a place
/// there.
fn add_place_at<P: Parts>(parts: &mut P, matter: &Matter, key: Key)
    requires received { matter.now.item ≤ length matter.now.journal.now.receipts }
    requires held { IsTrue (P.holds parts.old key) }
    requires room { HasRoom (P.room parts.old) (placed_at matter.now.journal.now.receipts matter.now.number matter.now.item (P.at parts.old) key) }
    ensures added { AddsList (P.at parts.old) (P.at parts.new) (P.room parts.old) (P.room parts.new) (placed_at matter.now.journal.now.receipts matter.now.number matter.now.item (P.at parts.old) key) }
    ensures held { P.holds parts.new ≡ P.holds parts.old }
{
    match key {
        Key::Title(folio) => add_place(parts, matter, folio),
        Key::Right(_, _) => {}
        Key::Case(_) => {}
    }
}

/// Sets the filing's place in a folio, if it creates a right there and no official notice keeps its
/// place.
fn add_place<P: Parts>(parts: &mut P, matter: &Matter, folio: FolioId)
    requires received { matter.now.item ≤ length matter.now.journal.now.receipts }
    requires held { IsTrue (P.holds parts.old (Title folio)) }
    requires room { HasRoom (P.room parts.old) (placed_in matter.now.journal.now.receipts matter.now.number matter.now.item (P.at parts.old) folio) }
    ensures added { AddsList (P.at parts.old) (P.at parts.new) (P.room parts.old) (P.room parts.new) (placed_in matter.now.journal.now.receipts matter.now.number matter.now.item (P.at parts.old) folio) }
    ensures held { P.holds parts.new ≡ P.holds parts.old }
{
    let second = filing_creates_in_division(matter.journal, matter.number, folio, false);
    let third = filing_creates_in_division(matter.journal, matter.number, folio, true);
    if (second || third) && lacks_notice(parts, folio, matter.number) {
        let what = What::Placed {
            filing: matter.number,
            second,
            third,
        };
        add(parts, entry(matter, Key::Title(folio), what));
    }
}

/// Whether no official notice of the filing stands at the title.
fn lacks_notice<P: Parts>(parts: &P, folio: FolioId, number: ReceiptNo) -> bool
    requires { IsTrue (P.holds parts.now (Title folio)) }
    ensures { result ≡ is_none (notice number (P.at parts.now (Title folio))) }
{
    parts.title(folio).unwrap().notice(number).is_none()
}
